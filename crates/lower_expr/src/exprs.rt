// Expressions and places.
#![tactic(auto, unfolding(c_syntax::specs::TypedExpr::texpr_tree))]

ghost use Rattle.std.specs.Prelude.{◌≡◌, suc, IfOk, max};
ghost use Rattle.c_syntax.specs.Program.{tprogram_tree};
ghost use Rattle.c_syntax.specs.TypedExpr.{texpr_tree, texprs_tree, tlvalue_tree};
ghost use Rattle.c_syntax.specs.TypedParts.{tlvalue_pos};
ghost use Rattle.c_syntax.specs.Types.{ctype_tree};
ghost use Rattle.c_layout.specs.MainFunction.{is_main as is_main_of};
ghost use Rattle.c_values.specs.Values.{scalar_of as scalar_of_type};
ghost use Rattle.csharp.specs.Trees.{Sequence, Block};
ghost use Rattle.lower_trees.specs.LowerExpr as lowering;
ghost use Rattle.lower_trees.specs.LowerStmt.{coded};
ghost use Rattle.lower_nodes.specs.Parts.{arguments_tree, coded_tree, opposite, part_tree, test_of};
ghost use Rattle.lower_nodes.specs.Tested.{IsCopiedByValue, IsTestedByValue};
ghost use Rattle.lower_expr.specs.Uses.{used_of};

use crate::uses::Wanted;
use block_mem::Scalar;
use c_syntax::{
    CType, Extent, Pos, StepTime, StepWay, Stride, TBinaryOp, TExpr, TExprs, TLvalue, TProgram,
    TUnaryOp,
};
use c_values::scalar_of;
use csharp::CsExpr;
use lower_nodes::{
    Arguments, Change, Coded, Gathered, Leave, Part, at_once, behind, block, held_scalar, is_kept,
    is_main, of_assert, of_assign, of_assign_struct, of_assume, of_binary, of_bit, of_call,
    of_compound, of_cond, of_convert, of_input, of_load, of_member, of_source, of_step, of_test,
    of_unary, one_more, place_scalar, sequence, step_operator, tested_scalar, value_scalar,
};
use std::alloc::{AllocError as NoMemory, Global};

/// The value of an expression, from a depth on.
#[tactic(auto, using(c_syntax::proofs::TypedExprTrees::typed_expr_trees, csharp::proofs::CodeTrees::the_code_trees))]
#[cycle(lowers)]
pub fn lower_expr(alloc: Global, program: &TProgram, d: u64, e: &TExpr) -> Result<Part, NoMemory>
    ensures { IfOk result (λ l. part_tree l ≡ (lowering.lower_expr (tprogram_tree program.now) d (texpr_tree e.now)).value) }
{
    match e {
        TExpr::Const { ty, value, .. } => Ok(at_once(
            d,
            CsExpr::Const {
                ty: *ty,
                value: *value,
            },
        )),
        TExpr::Null { .. } => Ok(at_once(d, CsExpr::Null)),
        TExpr::Any { ty, .. } => of_input(d, *ty),
        TExpr::Load { place, .. } => load(alloc, program, d, place),
        TExpr::AddressOf { place, .. } => lower_place(alloc, program, d, place),
        TExpr::Decay { place, .. } => lower_place(alloc, program, d, place),
        TExpr::Whole { place, .. } => lower_place(alloc, program, d, place),
        TExpr::Unary { pos, op, operand } => unary(alloc, program, d, *pos, *op, operand),
        TExpr::Binary {
            pos,
            op,
            left,
            right,
        } => binary(alloc, program, d, *pos, *op, left, right),
        TExpr::Convert { ty, operand, .. } => convert(alloc, program, d, ty, operand),
        TExpr::Assign { place, value, .. } => assign(alloc, program, d, place, value),
        TExpr::AssignStruct {
            extent,
            place,
            source,
            ..
        } => assign_struct(alloc, program, d, *extent, place, source),
        TExpr::Compound {
            pos,
            op,
            place,
            value,
        } => compound(alloc, program, d, *pos, *op, place, value),
        TExpr::Step {
            pos,
            time,
            way,
            stride,
            place,
        } => step(alloc, program, d, *pos, *time, *way, *stride, place),
        TExpr::And { pos, left, right } => and_bit(alloc, program, d, *pos, left, right),
        TExpr::Or { pos, left, right } => or_bit(alloc, program, d, *pos, left, right),
        TExpr::Cond {
            pos,
            ty,
            condition,
            then,
            otherwise,
        } => {
            let test = lower_test(alloc, program, d, condition, *pos, 0, Leave::IfFalse)?;
            cond(
                alloc,
                program,
                d,
                held_scalar(ty),
                test,
                then,
                otherwise,
                Wanted::Value,
            )
        }
        TExpr::Comma { left, right, .. } => comma(alloc, program, d, left, right, Wanted::Value),
        TExpr::Call {
            pos,
            function,
            ty,
            used,
            args,
        } => call(alloc, program, d, *pos, *function, ty, *used, args),
        TExpr::Assume { pos, operand } => assume(alloc, program, d, *pos, operand),
        TExpr::Assert { pos, operand } => assert(alloc, program, d, *pos, operand),
    }
}

/// A place, by its address, from a depth on.
#[tactic(auto, using(c_syntax::proofs::TypedExprTrees::typed_expr_trees, csharp::proofs::CodeTrees::the_code_trees))]
#[cycle(lowers)]
pub fn lower_place(
    alloc: Global,
    program: &TProgram,
    d: u64,
    place: &TLvalue,
) -> Result<Part, NoMemory>
    ensures { IfOk result (λ l. part_tree l ≡ lowering.lower_place (tprogram_tree program.now) d (tlvalue_tree place.now)) }
{
    match place {
        TLvalue::Var { object, .. } => Ok(at_once(d, CsExpr::Address { object: *object })),
        TLvalue::Deref { pointer, .. } => lower_expr(alloc, program, d, pointer),
        TLvalue::Member {
            pos,
            offset,
            place,
            ..
        } => {
            let place = lower_place(alloc, program, d, place)?;
            of_member(alloc, *pos, *offset, place)
        }
    }
}

/// An expression as a test at a place, which leaves by this exit.
#[cycle(lowers)]
pub fn lower_test(
    alloc: Global,
    program: &TProgram,
    d: u64,
    e: &TExpr,
    at: Pos,
    level: u64,
    leave: Leave,
) -> Result<Coded, NoMemory>
    ensures { IfOk result (λ t. coded_tree t
        ≡ coded (test_of leave (lowering.lower_expr (tprogram_tree program.now) d (texpr_tree e.now)) at level)
        (lowering.lower_expr (tprogram_tree program.now) d (texpr_tree e.now)).value.top) }
{
    match e {
        TExpr::Unary { pos, op, operand } => match op {
            TUnaryOp::Not => lower_test(alloc, program, d, operand, *pos, level, leave.opposite()),
            TUnaryOp::Plus(_) | TUnaryOp::Minus(_) | TUnaryOp::Complement(_) => test_value(
                alloc, program, d, e, at, level, leave,
            ),
        },
        TExpr::And { pos, left, right } => {
            let test = match leave {
                Leave::IfFalse => straight(alloc, program, d, left, right, *pos, level, leave)?,
                Leave::IfTrue => crossing(alloc, program, d, left, right, *pos, level, leave)?,
            };
            with_bit(d, test)
        }
        TExpr::Or { pos, left, right } => {
            let test = match leave {
                Leave::IfFalse => crossing(alloc, program, d, left, right, *pos, level, leave)?,
                Leave::IfTrue => straight(alloc, program, d, left, right, *pos, level, leave)?,
            };
            with_bit(d, test)
        }
        _ => test_value(alloc, program, d, e, at, level, leave),
    }
}

// An expression that is tested by its value.
#[cycle(lowers)]
fn test_value(
    alloc: Global,
    program: &TProgram,
    d: u64,
    e: &TExpr,
    at: Pos,
    level: u64,
    leave: Leave,
) -> Result<Coded, NoMemory>
    requires { IsTestedByValue (texpr_tree e.now) }
    ensures { IfOk result (λ t. coded_tree t
        ≡ coded (test_of leave (lowering.lower_expr (tprogram_tree program.now) d (texpr_tree e.now)) at level)
        (lowering.lower_expr (tprogram_tree program.now) d (texpr_tree e.now)).value.top) }
{
    let part = lower_expr(alloc, program, d, e)?;
    of_test(alloc, leave, tested_scalar(e), part, at, level)
}

// Two tests that leave by the same exit.
#[cycle(lowers)]
fn straight(
    alloc: Global,
    program: &TProgram,
    d: u64,
    left: &TExpr,
    right: &TExpr,
    at: Pos,
    level: u64,
    leave: Leave,
) -> Result<Coded, NoMemory>
    ensures { IfOk result (λ t. coded_tree t
        ≡ coded
        (Sequence (test_of leave (lowering.lower_expr (tprogram_tree program.now) d (texpr_tree left.now)) at level)
        (test_of leave (lowering.lower_expr (tprogram_tree program.now) d (texpr_tree right.now)) at level))
        (max (lowering.lower_expr (tprogram_tree program.now) d (texpr_tree left.now)).value.top
        (lowering.lower_expr (tprogram_tree program.now) d (texpr_tree right.now)).value.top)) }
{
    let first = lower_test(alloc, program, d, left, at, level, leave)?;
    let second = lower_test(alloc, program, d, right, at, level, leave)?;
    let top = first.top.max(second.top);
    let code = sequence(alloc, first.code, second.code)?;
    Ok(Coded { code, top })
}

// Two tests of which the first one decides alone by leaving the block of both.
#[cycle(lowers)]
fn crossing(
    alloc: Global,
    program: &TProgram,
    d: u64,
    left: &TExpr,
    right: &TExpr,
    at: Pos,
    level: u64,
    leave: Leave,
) -> Result<Coded, NoMemory>
    ensures { IfOk result (λ t. coded_tree t
        ≡ coded
        (Block (Sequence (test_of (opposite leave) (lowering.lower_expr (tprogram_tree program.now) d (texpr_tree left.now)) at 0)
        (test_of leave (lowering.lower_expr (tprogram_tree program.now) d (texpr_tree right.now)) at (suc level))))
        (max (lowering.lower_expr (tprogram_tree program.now) d (texpr_tree left.now)).value.top
        (lowering.lower_expr (tprogram_tree program.now) d (texpr_tree right.now)).value.top)) }
{
    let deeper = one_more(level)?;
    let first = lower_test(alloc, program, d, left, at, 0, leave.opposite())?;
    let second = lower_test(alloc, program, d, right, at, deeper, leave)?;
    let top = first.top.max(second.top);
    let both = sequence(alloc, first.code, second.code)?;
    let code = block(alloc, both)?;
    Ok(Coded { code, top })
}

// A test that uses as much as its bit does.
fn with_bit(d: u64, test: Coded) -> Result<Coded, NoMemory>
    ensures { IfOk result (λ t. coded_tree t ≡ coded (coded_tree test).code (max (suc d) (coded_tree test).top)) }
{
    let bit = one_more(d)?;
    let Coded { code, top } = test;
    Ok(Coded {
        code,
        top: bit.max(top),
    })
}

/// A struct of this extent that is copied from, from a depth on.
#[cycle(lowers)]
pub fn lower_source(
    alloc: Global,
    program: &TProgram,
    d: u64,
    e: &TExpr,
    extent: Extent,
) -> Result<Part, NoMemory>
    ensures { IfOk result (λ l. part_tree l
        ≡ (lowering.lower_expr (tprogram_tree program.now) d (texpr_tree e.now)).source extent.size extent.align) }
{
    match e {
        TExpr::Whole { place, .. } => {
            let from = lower_place(alloc, program, d, place)?;
            of_source(alloc, place.pos(), from, extent)
        }
        TExpr::AssignStruct {
            extent: copied,
            place,
            source,
            ..
        } => assigned_source(alloc, program, d, *copied, place, source, extent),
        TExpr::Cond {
            pos,
            condition,
            then,
            otherwise,
            ..
        } => {
            let test = lower_test(alloc, program, d, condition, *pos, 0, Leave::IfFalse)?;
            let ty = Some(Scalar::Pointer);
            cond(
                alloc,
                program,
                d,
                ty,
                test,
                then,
                otherwise,
                Wanted::Source(extent),
            )
        }
        TExpr::Comma { left, right, .. } => comma(
            alloc,
            program,
            d,
            left,
            right,
            Wanted::Source(extent),
        ),
        _ => lower_expr(alloc, program, d, e),
    }
}

// A struct of an extent that is copied from where one was copied to.
#[cycle(lowers)]
fn assigned_source(
    alloc: Global,
    program: &TProgram,
    d: u64,
    copied: Extent,
    place: &TLvalue,
    source: &TExpr,
    extent: Extent,
) -> Result<Part, NoMemory>
    ensures { IfOk result (λ l. part_tree l
        ≡ lowering.of_source (tlvalue_pos (tlvalue_tree place.now))
        (lowering.of_assign_struct (tlvalue_pos (tlvalue_tree place.now)) copied.size copied.align
        (lowering.lower_place (tprogram_tree program.now) d (tlvalue_tree place.now))
        ((lowering.lower_expr (tprogram_tree program.now) (lowering.lower_place (tprogram_tree program.now) d (tlvalue_tree place.now)).next (texpr_tree source.now)).source copied.size copied.align))
        extent.size extent.align) }
{
    let from = assign_struct(alloc, program, d, copied, place, source)?;
    of_source(alloc, place.pos(), from, extent)
}

#[cycle(lowers)]
fn lower_used(
    alloc: Global,
    program: &TProgram,
    d: u64,
    e: &TExpr,
    wanted: Wanted,
) -> Result<Part, NoMemory>
    ensures { IfOk result (λ l. part_tree l
        ≡ used_of wanted (lowering.lower_expr (tprogram_tree program.now) d (texpr_tree e.now))) }
{
    match wanted {
        Wanted::Value => lower_expr(alloc, program, d, e),
        Wanted::Source(extent) => lower_source(alloc, program, d, e, extent),
    }
}

/// The arguments of a call, from a depth on.
#[tactic(auto, using(c_syntax::proofs::Sizes::the_typed_sizes))]
#[cycle(lowers)]
pub fn lower_arguments(
    alloc: Global,
    program: &TProgram,
    d: u64,
    args: &TExprs,
) -> Result<Arguments, NoMemory>
    ensures { IfOk result (λ a. arguments_tree a ≡ lowering.lower_args (tprogram_tree program.now) d (texprs_tree args.now)) }
{
    let mut gathered = Gathered::new(alloc, d);
    for item in args.as_slice() {
        let part = lower_expr(alloc, program, gathered.next, item)?;
        gathered.push(part)?;
    }
    gathered.finish(alloc)
}

#[cycle(lowers)]
fn load(alloc: Global, program: &TProgram, d: u64, place: &TLvalue) -> Result<Part, NoMemory>
    ensures { IfOk result (λ l. part_tree l
        ≡ lowering.of_load d (tlvalue_pos (tlvalue_tree place.now)) (lowering.place_scalar (tlvalue_tree place.now))
        (lowering.lower_place (tprogram_tree program.now) d (tlvalue_tree place.now))) }
{
    let from = lower_place(alloc, program, d, place)?;
    of_load(alloc, d, place.pos(), place_scalar(place), from)
}

#[cycle(lowers)]
fn unary(
    alloc: Global,
    program: &TProgram,
    d: u64,
    at: Pos,
    op: TUnaryOp,
    operand: &TExpr,
) -> Result<Part, NoMemory>
    ensures { IfOk result (λ l. part_tree l
        ≡ lowering.of_unary d at op (lowering.value_scalar (texpr_tree operand.now))
        (lowering.lower_expr (tprogram_tree program.now) d (texpr_tree operand.now)).value) }
{
    let part = lower_expr(alloc, program, d, operand)?;
    of_unary(alloc, d, at, op, value_scalar(operand), part)
}

#[cycle(lowers)]
fn binary(
    alloc: Global,
    program: &TProgram,
    d: u64,
    at: Pos,
    op: TBinaryOp,
    left: &TExpr,
    right: &TExpr,
) -> Result<Part, NoMemory>
    ensures { IfOk result (λ l. part_tree l
        ≡ lowering.of_binary d at (lowering.is_kept op (texpr_tree left.now) (texpr_tree right.now)) op
        (lowering.lower_expr (tprogram_tree program.now) d (texpr_tree left.now)).value
        (lowering.lower_expr (tprogram_tree program.now) (lowering.lower_expr (tprogram_tree program.now) d (texpr_tree left.now)).value.next (texpr_tree right.now)).value) }
{
    let first = lower_expr(alloc, program, d, left)?;
    let second = lower_expr(alloc, program, first.next, right)?;
    of_binary(alloc, d, at, is_kept(op, left, right), op, first, second)
}

#[cycle(lowers)]
fn convert(
    alloc: Global,
    program: &TProgram,
    d: u64,
    ty: &CType,
    operand: &TExpr,
) -> Result<Part, NoMemory>
    ensures { IfOk result (λ l. part_tree l
        ≡ lowering.of_convert (scalar_of_type (ctype_tree ty.now))
        (lowering.lower_expr (tprogram_tree program.now) d (texpr_tree operand.now)).value) }
{
    let part = lower_expr(alloc, program, d, operand)?;
    of_convert(alloc, scalar_of(ty), part)
}

#[cycle(lowers)]
fn assign(
    alloc: Global,
    program: &TProgram,
    d: u64,
    place: &TLvalue,
    value: &TExpr,
) -> Result<Part, NoMemory>
    ensures { IfOk result (λ l. part_tree l
        ≡ lowering.of_assign (tlvalue_pos (tlvalue_tree place.now)) (lowering.place_scalar (tlvalue_tree place.now))
        (lowering.lower_place (tprogram_tree program.now) d (tlvalue_tree place.now))
        (lowering.lower_expr (tprogram_tree program.now) (lowering.lower_place (tprogram_tree program.now) d (tlvalue_tree place.now)).next (texpr_tree value.now)).value) }
{
    let to = lower_place(alloc, program, d, place)?;
    let given = lower_expr(alloc, program, to.next, value)?;
    of_assign(alloc, place.pos(), place_scalar(place), to, given)
}

#[cycle(lowers)]
fn assign_struct(
    alloc: Global,
    program: &TProgram,
    d: u64,
    extent: Extent,
    place: &TLvalue,
    source: &TExpr,
) -> Result<Part, NoMemory>
    ensures { IfOk result (λ l. part_tree l
        ≡ lowering.of_assign_struct (tlvalue_pos (tlvalue_tree place.now)) extent.size extent.align
        (lowering.lower_place (tprogram_tree program.now) d (tlvalue_tree place.now))
        ((lowering.lower_expr (tprogram_tree program.now) (lowering.lower_place (tprogram_tree program.now) d (tlvalue_tree place.now)).next (texpr_tree source.now)).source extent.size extent.align)) }
{
    let to = lower_place(alloc, program, d, place)?;
    let from = lower_source(alloc, program, to.next, source, extent)?;
    of_assign_struct(alloc, place.pos(), extent, to, from)
}

#[cycle(lowers)]
fn compound(
    alloc: Global,
    program: &TProgram,
    d: u64,
    at: Pos,
    op: TBinaryOp,
    place: &TLvalue,
    value: &TExpr,
) -> Result<Part, NoMemory>
    ensures { IfOk result (λ l. part_tree l
        ≡ lowering.of_compound at (tlvalue_pos (tlvalue_tree place.now)) (lowering.place_scalar (tlvalue_tree place.now)) op
        (lowering.lower_place (tprogram_tree program.now) d (tlvalue_tree place.now))
        (lowering.lower_expr (tprogram_tree program.now) (lowering.lower_place (tprogram_tree program.now) d (tlvalue_tree place.now)).next (texpr_tree value.now)).value) }
{
    let to = lower_place(alloc, program, d, place)?;
    let by = lower_expr(alloc, program, to.next, value)?;
    let change = Change {
        at,
        at_place: place.pos(),
        ty: place_scalar(place),
        op,
        time: StepTime::Before,
    };
    of_compound(alloc, change, to, by)
}

#[cycle(lowers)]
fn step(
    alloc: Global,
    program: &TProgram,
    d: u64,
    at: Pos,
    time: StepTime,
    way: StepWay,
    stride: Stride,
    place: &TLvalue,
) -> Result<Part, NoMemory>
    ensures { IfOk result (λ l. part_tree l
        ≡ lowering.of_step at (tlvalue_pos (tlvalue_tree place.now)) (lowering.place_scalar (tlvalue_tree place.now)) time way stride
        (lowering.lower_place (tprogram_tree program.now) d (tlvalue_tree place.now))) }
{
    let to = lower_place(alloc, program, d, place)?;
    let change = Change {
        at,
        at_place: place.pos(),
        ty: place_scalar(place),
        op: step_operator(way, stride),
        time,
    };
    of_step(alloc, change, stride, to)
}

#[cycle(lowers)]
fn and_bit(
    alloc: Global,
    program: &TProgram,
    d: u64,
    at: Pos,
    left: &TExpr,
    right: &TExpr,
) -> Result<Part, NoMemory>
    ensures { IfOk result (λ l. part_tree l
        ≡ (lowering.of_and d at (lowering.lower_expr (tprogram_tree program.now) d (texpr_tree left.now))
        (lowering.lower_expr (tprogram_tree program.now) d (texpr_tree right.now))).value) }
{
    let test = straight(alloc, program, d, left, right, at, 0, Leave::IfFalse)?;
    of_bit(alloc, d, test)
}

#[cycle(lowers)]
fn or_bit(
    alloc: Global,
    program: &TProgram,
    d: u64,
    at: Pos,
    left: &TExpr,
    right: &TExpr,
) -> Result<Part, NoMemory>
    ensures { IfOk result (λ l. part_tree l
        ≡ (lowering.of_or d at (lowering.lower_expr (tprogram_tree program.now) d (texpr_tree left.now))
        (lowering.lower_expr (tprogram_tree program.now) d (texpr_tree right.now))).value) }
{
    let test = crossing(alloc, program, d, left, right, at, 0, Leave::IfFalse)?;
    of_bit(alloc, d, test)
}

// Both ways of a `?:` behind its test.
#[cycle(lowers)]
fn cond(
    alloc: Global,
    program: &TProgram,
    d: u64,
    ty: Option<Scalar>,
    test: Coded,
    then: &TExpr,
    otherwise: &TExpr,
    wanted: Wanted,
) -> Result<Part, NoMemory>
    ensures { IfOk result (λ l. part_tree l
        ≡ lowering.of_cond d ty (coded_tree test).code (coded_tree test).top
        (used_of wanted (lowering.lower_expr (tprogram_tree program.now) d (texpr_tree then.now)))
        (used_of wanted (lowering.lower_expr (tprogram_tree program.now) d (texpr_tree otherwise.now)))) }
{
    let first = lower_used(alloc, program, d, then, wanted)?;
    let second = lower_used(alloc, program, d, otherwise, wanted)?;
    of_cond(alloc, d, ty, test, first, second)
}

#[cycle(lowers)]
fn comma(
    alloc: Global,
    program: &TProgram,
    d: u64,
    left: &TExpr,
    right: &TExpr,
    wanted: Wanted,
) -> Result<Part, NoMemory>
    ensures { IfOk result (λ l. part_tree l
        ≡ lowering.behind (lowering.lower_expr (tprogram_tree program.now) d (texpr_tree left.now)).value
        (used_of wanted (lowering.lower_expr (tprogram_tree program.now) d (texpr_tree right.now)))) }
{
    let first = lower_expr(alloc, program, d, left)?;
    let second = lower_used(alloc, program, d, right, wanted)?;
    behind(alloc, first, second)
}

#[cycle(lowers)]
fn call(
    alloc: Global,
    program: &TProgram,
    d: u64,
    at: Pos,
    function: u64,
    ty: &CType,
    used: bool,
    args: &TExprs,
) -> Result<Part, NoMemory>
    ensures { IfOk result (λ l. part_tree l
        ≡ lowering.of_call d at function (lowering.wanted used (ctype_tree ty.now)) (is_main_of (tprogram_tree program.now) function)
        (lowering.lower_args (tprogram_tree program.now) d (texprs_tree args.now))) }
{
    let wanted = if used { scalar_of(ty) } else { None };
    let args = lower_arguments(alloc, program, d, args)?;
    of_call(
        alloc,
        d,
        at,
        function,
        wanted,
        is_main(program, function),
        args,
    )
}

#[cycle(lowers)]
fn assume(
    alloc: Global,
    program: &TProgram,
    d: u64,
    at: Pos,
    operand: &TExpr,
) -> Result<Part, NoMemory>
    ensures { IfOk result (λ l. part_tree l
        ≡ lowering.of_assume d at (lowering.lower_expr (tprogram_tree program.now) d (texpr_tree operand.now))) }
{
    let test = lower_test(alloc, program, d, operand, at, 0, Leave::IfFalse)?;
    of_assume(alloc, d, test)
}

#[cycle(lowers)]
fn assert(
    alloc: Global,
    program: &TProgram,
    d: u64,
    at: Pos,
    operand: &TExpr,
) -> Result<Part, NoMemory>
    ensures { IfOk result (λ l. part_tree l
        ≡ lowering.of_assert d at (lowering.value_scalar (texpr_tree operand.now))
        (lowering.lower_expr (tprogram_tree program.now) d (texpr_tree operand.now)).value) }
{
    let part = lower_expr(alloc, program, d, operand)?;
    of_assert(alloc, d, at, value_scalar(operand), part)
}
