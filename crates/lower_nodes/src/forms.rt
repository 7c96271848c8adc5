// Values, from what the parts of an expression are lowered to.
#![tactic(auto, using(csharp::proofs::CodeTrees::the_code_trees))]

ghost use Rattle.std.specs.Prelude.{◌≡◌, IfOk, map, max};
ghost use Rattle.csharp.specs.Trees.{csexpr_tree, csstmt_tree};
ghost use Rattle.csharp.specs.Trees as trees;
ghost use Rattle.lower_trees.specs.LowerExpr as lowering;
ghost use Rattle.lower_trees.specs.LowerStmt as statements;
ghost use Rattle.lower_nodes.specs.Parts.{arguments_tree, coded_tree, part_tree, value_test};

use crate::lists::{
    assert_list, binary_list, load_list, move_list, read_list, store_list, test_list, unary_list,
    value_list, write_list,
};
use crate::numbers::temp_at;
use crate::operators::{binary_scalar, is_kept_alone, unary_scalar};
use crate::part::{Arguments, Coded, Part};
use crate::steps::{Leave, branch, exit_by, in_turn, sequence};
use crate::terms::{binary, moved, number, test_value, to_scalar, unary};
use block_mem::Scalar;
use c_syntax::{Extent, IntType, Pos, TBinaryOp, TUnaryOp};
use csharp::{CsCall, CsExpr, CsExprs, CsStmt, copy_expr};
use std::alloc::{AllocError as NoMemory, Global};

const INT: Scalar = Scalar::Int(IntType::Int);

/// A value that needs nothing to be done.
pub fn at_once(d: u64, value: CsExpr) -> Part
    ensures { part_tree result ≡ lowering.lowered trees.Nothing (csexpr_tree value) d d }
{
    Part {
        before: CsStmt::Nothing,
        value,
        next: d,
        top: d,
    }
}

/// A value that stands in a temporary.
fn in_temp(before: CsStmt, temp: u64, next: u64, top: u64) -> Part
    ensures { part_tree result ≡ lowering.lowered (csstmt_tree before) (trees.Temp temp) next (max next top) }
{
    Part {
        before,
        value: CsExpr::Temp { temp },
        next,
        top: next.max(top),
    }
}

fn spilled(alloc: Global, kept: bool, d: u64, ty: Scalar, part: Part) -> Result<Part, NoMemory>
    ensures { IfOk result (λ l. part_tree l ≡ lowering.spilled kept d ty (part_tree part)) }
{
    if kept {
        return Ok(part);
    }
    let temp = temp_at(d, ty)?;
    let Part {
        before,
        value,
        next: _,
        top,
    } = part;
    let before = sequence(alloc, before, CsStmt::Set { temp, value })?;
    Ok(in_temp(before, temp, d + 1, top))
}

/// A load of this type from a place.
pub fn of_load(alloc: Global, d: u64, at: Pos, ty: Scalar, place: Part) -> Result<Part, NoMemory>
    ensures { IfOk result (λ l. part_tree l ≡ lowering.of_load d at ty (part_tree place)) }
{
    let temp = temp_at(d, ty)?;
    let checks = load_list(alloc, at, ty, &place.value)?;
    let Part {
        before,
        value,
        next: _,
        top,
    } = place;
    let load = CsStmt::Load {
        temp,
        ty,
        address: value,
    };
    let before = in_turn(alloc, before, checks, load)?;
    Ok(in_temp(before, temp, d + 1, top))
}

/// An operator on one operand, which is of this type.
pub fn of_unary(
    alloc: Global,
    d: u64,
    at: Pos,
    op: TUnaryOp,
    ty: Option<Scalar>,
    operand: Part,
) -> Result<Part, NoMemory>
    ensures { IfOk result (λ l. part_tree l ≡ lowering.of_unary d at op ty (part_tree operand)) }
{
    let checks = unary_list(alloc, at, op, ty, &operand.value)?;
    let Part {
        before,
        value,
        next,
        top,
    } = operand;
    let before = sequence(alloc, before, checks)?;
    let value = unary(alloc, op, value)?;
    let part = Part {
        before,
        value,
        next,
        top,
    };
    spilled(alloc, is_kept_alone(op), d, unary_scalar(op), part)
}

/// An operator on two operands; `kept` tells whether its value stays an expression.
pub fn of_binary(
    alloc: Global,
    d: u64,
    at: Pos,
    kept: bool,
    op: TBinaryOp,
    left: Part,
    right: Part,
) -> Result<Part, NoMemory>
    ensures { IfOk result (λ l. part_tree l ≡ lowering.of_binary d at kept op (part_tree left) (part_tree right)) }
{
    let checks = binary_list(alloc, at, op, &left.value, &right.value)?;
    let top = left.top.max(right.top);
    let next = right.next;
    let before = in_turn(alloc, left.before, right.before, checks)?;
    let value = binary(alloc, op, left.value, right.value)?;
    let part = Part {
        before,
        value,
        next,
        top,
    };
    spilled(alloc, kept, d, binary_scalar(op), part)
}

/// A conversion to a type, or to void.
pub fn of_convert(alloc: Global, ty: Option<Scalar>, operand: Part) -> Result<Part, NoMemory>
    ensures { IfOk result (λ l. part_tree l ≡ lowering.of_convert ty (part_tree operand)) }
{
    let Part {
        before,
        value,
        next,
        top,
    } = operand;
    let value = match ty {
        None => number(0),
        Some(_) => to_scalar(alloc, ty, value)?,
    };
    Ok(Part {
        before,
        value,
        next,
        top,
    })
}

/// A store of a value of this type to a place, whose value it has.
pub fn of_assign(
    alloc: Global,
    at: Pos,
    ty: Scalar,
    place: Part,
    value: Part,
) -> Result<Part, NoMemory>
    ensures { IfOk result (λ l. part_tree l ≡ lowering.of_assign at ty (part_tree place) (part_tree value)) }
{
    let checks = store_list(alloc, at, ty, &place.value)?;
    let given = copy_expr(alloc, &value.value)?;
    let top = place.top.max(value.top);
    let next = value.next;
    let store = CsStmt::Store {
        ty,
        address: place.value,
        value: value.value,
    };
    let stored = sequence(alloc, checks, store)?;
    let before = in_turn(alloc, place.before, value.before, stored)?;
    Ok(Part {
        before,
        value: given,
        next,
        top,
    })
}

/// A copy of a struct of this extent to a place, which it gives.
pub fn of_assign_struct(
    alloc: Global,
    at: Pos,
    extent: Extent,
    place: Part,
    source: Part,
) -> Result<Part, NoMemory>
    ensures { IfOk result (λ l. part_tree l
        ≡ lowering.of_assign_struct at extent.size extent.align (part_tree place) (part_tree source)) }
{
    let checks = write_list(alloc, at, extent.size, extent.align, &place.value)?;
    let given = copy_expr(alloc, &place.value)?;
    let top = place.top.max(source.top);
    let next = place.next;
    let copy = CsStmt::CopyBytes {
        size: extent.size,
        to: place.value,
        from: source.value,
    };
    let copied = sequence(alloc, checks, copy)?;
    let before = in_turn(alloc, place.before, source.before, copied)?;
    Ok(Part {
        before,
        value: given,
        next,
        top,
    })
}

/// A struct of this extent in a place, to be copied from there.
pub fn of_source(alloc: Global, at: Pos, place: Part, extent: Extent) -> Result<Part, NoMemory>
    ensures { IfOk result (λ l. part_tree l ≡ lowering.of_source at (part_tree place) extent.size extent.align) }
{
    let checks = read_list(alloc, at, extent.size, extent.align, &place.value)?;
    let Part {
        before,
        value,
        next,
        top,
    } = place;
    let before = sequence(alloc, before, checks)?;
    Ok(Part {
        before,
        value,
        next,
        top,
    })
}

/// 1 where a test does not leave, and 0 where it leaves by exit 0.
pub fn of_bit(alloc: Global, d: u64, test: Coded) -> Result<Part, NoMemory>
    ensures { IfOk result (λ l. part_tree l ≡ lowering.of_bit d (coded_tree test).code (coded_tree test).top) }
{
    let Coded { code, top } = test;
    let temp = temp_at(d, INT)?;
    let one = CsStmt::Set {
        temp,
        value: number(1),
    };
    let zero = CsStmt::Set {
        temp,
        value: number(0),
    };
    let before = branch(alloc, code, one, zero)?;
    Ok(in_temp(before, temp, d + 1, top))
}

/// `?:` of a type, or of void, whose test leaves by exit 0 where it is false.
pub fn of_cond(
    alloc: Global,
    d: u64,
    ty: Option<Scalar>,
    test: Coded,
    then: Part,
    otherwise: Part,
) -> Result<Part, NoMemory>
    ensures { IfOk result (λ l. part_tree l
        ≡ lowering.of_cond d ty (coded_tree test).code (coded_tree test).top (part_tree then) (part_tree otherwise)) }
{
    let top = test.top.max(then.top.max(otherwise.top));
    match ty {
        None => {
            let before = branch(alloc, test.code, then.before, otherwise.before)?;
            Ok(Part {
                before,
                value: number(0),
                next: d,
                top,
            })
        }
        Some(ty) => {
            let temp = temp_at(d, ty)?;
            let first = set_behind(alloc, then, temp)?;
            let second = set_behind(alloc, otherwise, temp)?;
            let before = branch(alloc, test.code, first, second)?;
            Ok(in_temp(before, temp, d + 1, top))
        }
    }
}

fn set_behind(alloc: Global, part: Part, temp: u64) -> Result<CsStmt, NoMemory>
    ensures { IfOk result (λ s. csstmt_tree s ≡ trees.Sequence (part_tree part).before (trees.Set temp (part_tree part).value)) }
{
    let Part {
        before,
        value,
        next: _,
        top: _,
    } = part;
    sequence(alloc, before, CsStmt::Set { temp, value })
}

/// The second value, behind all that the first one does.
pub fn behind(alloc: Global, first: Part, second: Part) -> Result<Part, NoMemory>
    ensures { IfOk result (λ l. part_tree l ≡ lowering.behind (part_tree first) (part_tree second)) }
{
    let top = first.top.max(second.top);
    let before = sequence(alloc, first.before, second.before)?;
    Ok(Part {
        before,
        value: second.value,
        next: second.next,
        top,
    })
}

fn call(at: Pos, function: u64, args: CsExprs, value: Option<u64>, flag: Option<u64>) -> CsStmt
    ensures { csstmt_tree result ≡ lowering.cs_call at function (map csexpr_tree args) value flag }
{
    CsStmt::Call {
        call: CsCall {
            pos: at,
            function,
            args,
            value,
            flag,
        },
    }
}

/// A call of a function: `ty` is the type of the value that is wanted, where one is, and `main` tells that the function
/// always gives one.
pub fn of_call(
    alloc: Global,
    d: u64,
    at: Pos,
    function: u64,
    ty: Option<Scalar>,
    main: bool,
    args: Arguments,
) -> Result<Part, NoMemory>
    ensures { IfOk result (λ l. part_tree l ≡ lowering.of_call d at function ty main (arguments_tree args)) }
{
    let Arguments {
        before,
        values,
        next: _,
        top,
    } = args;
    match ty {
        None => {
            let call = call(at, function, values, None, None);
            let before = sequence(alloc, before, call)?;
            Ok(Part {
                before,
                value: number(0),
                next: d,
                top,
            })
        }
        Some(ty) => {
            let temp = temp_at(d, ty)?;
            if main {
                let call = call(at, function, values, Some(temp), None);
                let before = sequence(alloc, before, call)?;
                return Ok(in_temp(before, temp, d + 1, top));
            }
            let flag = temp_at(d + 1, INT)?;
            let call = call(at, function, values, Some(temp), Some(flag));
            let checks = value_list(alloc, at, flag)?;
            let before = in_turn(alloc, before, call, checks)?;
            Ok(Part {
                before,
                value: CsExpr::Temp { temp },
                next: d + 1,
                top: (d + 2).max(top),
            })
        }
    }
}

/// The next input.
pub fn of_input(d: u64, t: IntType) -> Result<Part, NoMemory>
    ensures { IfOk result (λ l. part_tree l ≡ lowering.of_input d t) }
{
    let temp = temp_at(d, Scalar::Int(t))?;
    Ok(Part {
        before: CsStmt::Input { temp, ty: t },
        value: CsExpr::Temp { temp },
        next: d + 1,
        top: d + 1,
    })
}

/// An assumption, whose test leaves by exit 0 where it is false.
pub fn of_assume(alloc: Global, d: u64, test: Coded) -> Result<Part, NoMemory>
    ensures { IfOk result (λ l. part_tree l
        ≡ lowering.lowered (lowering.branch (coded_tree test).code trees.Nothing (trees.Assume (lowering.number 0))) (lowering.number 0) d (coded_tree test).top) }
{
    let Coded { code, top } = test;
    let stop = CsStmt::Assume {
        condition: number(0),
    };
    let before = branch(alloc, code, CsStmt::Nothing, stop)?;
    Ok(Part {
        before,
        value: number(0),
        next: d,
        top,
    })
}

/// An assertion of a value of this type.
pub fn of_assert(
    alloc: Global,
    d: u64,
    at: Pos,
    ty: Option<Scalar>,
    operand: Part,
) -> Result<Part, NoMemory>
    ensures { IfOk result (λ l. part_tree l ≡ lowering.of_assert d at ty (part_tree operand)) }
{
    let checks = assert_list(alloc, at, ty, &operand.value)?;
    let Part {
        before,
        value: _value,
        next: _,
        top,
    } = operand;
    let before = sequence(alloc, before, checks)?;
    Ok(Part {
        before,
        value: number(0),
        next: d,
        top,
    })
}

/// The place of a member, so many bytes behind a place.
pub fn of_member(alloc: Global, at: Pos, offset: u64, place: Part) -> Result<Part, NoMemory>
    ensures { IfOk result (λ l. part_tree l ≡ lowering.of_member at offset (part_tree place)) }
{
    let checks = move_list(alloc, at, &place.value, offset)?;
    let Part {
        before,
        value,
        next,
        top,
    } = place;
    let before = sequence(alloc, before, checks)?;
    let value = moved(alloc, value, offset)?;
    Ok(Part {
        before,
        value,
        next,
        top,
    })
}

/// A value of this type as a test at a place, which leaves by this exit.
pub fn of_test(
    alloc: Global,
    leave: Leave,
    ty: Option<Scalar>,
    part: Part,
    at: Pos,
    level: u64,
) -> Result<Coded, NoMemory>
    ensures { IfOk result (λ t. coded_tree t ≡ statements.coded (value_test leave ty (part_tree part) at level) (part_tree part).top) }
{
    let checks = test_list(alloc, at, ty, &part.value)?;
    let Part {
        before,
        value,
        next: _,
        top,
    } = part;
    let condition = test_value(alloc, ty, value)?;
    let exit = exit_by(alloc, leave, condition, level)?;
    let code = in_turn(alloc, before, checks, exit)?;
    Ok(Coded { code, top })
}
