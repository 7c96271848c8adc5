// Operators on one operand.
#![tactic(auto)]

ghost use Rattle.std.specs.Prelude.{◌≡◌, map};
ghost use Rattle.c_syntax.specs.TypedExpr.{tlvalue_tree};
ghost use Rattle.c_syntax.specs.TypedParts.{texpr_type};
ghost use Rattle.c_syntax.specs.Program.{structdef_tree};
ghost use Rattle.c_typing.specs.Nodes as nodes;
ghost use Rattle.c_typing.specs.Operands as operands;
ghost use Rattle.c_typing.specs.Rows as rows;
ghost use Rattle.c_typing.specs.World.{World};
ghost use Rattle.c_check_operators.specs.ArithmeticViews.{sign_at};
ghost use Rattle.c_check_operators.specs.OperandViews.{operand_tree};
ghost use Rattle.c_check_names.specs.Views.{Answers};

use crate::given::{given, given_place};
use c_check_names::{TypeError, no_rule};
use c_check_operators::{Operand, Sign, is_unsized, not_row, star_row, unary_row, value_of};
use c_syntax::{DerefKind, Op, Pos, StructDefs, TExpr, TLvalue, UnaryOp};
use c_syntax_written::boxed;
use std::alloc::Global;

/// A prefix operator on a typed operand. `&` of what is no place is NotLvalue; where no row has the operand's
/// type it is NoRule, both at the operator.
pub fn unary(
    alloc: Global,
    structs: &StructDefs,
    pos: Pos,
    op: UnaryOp,
    operand: Operand,
) -> Result<Operand, TypeError>
    ensures { (w : World) → w.structs ≡ map structdef_tree structs.now
        → Answers (λ out. out ≡ nodes.unary w pos op (operand_tree operand)) operand_tree w result }
{
    match op {
        UnaryOp::AddressOf => address(alloc, structs, pos, operand),
        UnaryOp::Deref => pointed(alloc, structs, pos, operand),
        UnaryOp::Plus => signed(alloc, structs, pos, Op::Plus, Sign::Plus, operand),
        UnaryOp::Minus => signed(alloc, structs, pos, Op::Minus, Sign::Minus, operand),
        UnaryOp::Complement => signed(
            alloc,
            structs,
            pos,
            Op::Complement,
            Sign::Complement,
            operand,
        ),
        UnaryOp::Not => negated(alloc, structs, pos, operand),
    }
}

// `&`
fn address(
    alloc: Global,
    structs: &StructDefs,
    pos: Pos,
    operand: Operand,
) -> Result<Operand, TypeError>
    ensures { (w : World) → w.structs ≡ map structdef_tree structs.now
        → Answers (λ out. out ≡ nodes.address w pos (operand_tree operand)) operand_tree w result }
{
    match operand {
        Operand::Value(_) => Err(TypeError::NotLvalue(pos)),
        Operand::Place(place) => address_of(alloc, structs, pos, place),
    }
}

// `&` of a place
#[tactic(auto, using(c_syntax::proofs::Trees::the_trees))]
fn address_of(
    alloc: Global,
    structs: &StructDefs,
    pos: Pos,
    place: TLvalue,
) -> Result<Operand, TypeError>
    ensures { (w : World) → w.structs ≡ map structdef_tree structs.now
        → Answers (λ out. out ≡ nodes.address w pos (operands.Place (tlvalue_tree place))) operand_tree w result }
{
    let ty = place.ty().copy()?;
    if is_unsized(&ty) {
        return Err(no_rule(alloc, structs, pos, Op::BitAnd, ty, None));
    }
    let place = boxed(alloc, place)?;
    Ok(Operand::Value(TExpr::AddressOf { pos, place }))
}

// `*`
fn pointed(
    alloc: Global,
    structs: &StructDefs,
    pos: Pos,
    operand: Operand,
) -> Result<Operand, TypeError>
    ensures { let e = operands.value_of (operand_tree operand) in (w : World) → w.structs ≡ map structdef_tree structs.now
        → Answers (λ out. out ≡ nodes.given_place (nodes.no_row w pos Op.Multiply e)
        (rows.star_row DerefKind.Star pos (texpr_type e) e) w) operand_tree w result }
{
    let e = value_of(alloc, operand)?;
    let ty = e.ty()?;
    let row = star_row(alloc, DerefKind::Star, pos, &ty, e)?;
    given_place(alloc, structs, pos, Op::Multiply, ty, None, row)
}

// `+`, `-` and `~`
fn signed(
    alloc: Global,
    structs: &StructDefs,
    pos: Pos,
    op: Op,
    sign: Sign,
    operand: Operand,
) -> Result<Operand, TypeError>
    ensures { let e = operands.value_of (operand_tree operand) in (w : World) → w.structs ≡ map structdef_tree structs.now
        → Answers (λ out. out ≡ nodes.given (nodes.no_row w pos op e)
        (rows.unary_row (sign_at sign) pos (texpr_type e) e) w) operand_tree w result }
{
    let e = value_of(alloc, operand)?;
    let ty = e.ty()?;
    let row = unary_row(alloc, sign, pos, &ty, e)?;
    given(alloc, structs, pos, op, ty, None, row)
}

// `!`
fn negated(
    alloc: Global,
    structs: &StructDefs,
    pos: Pos,
    operand: Operand,
) -> Result<Operand, TypeError>
    ensures { let e = operands.value_of (operand_tree operand) in (w : World) → w.structs ≡ map structdef_tree structs.now
        → Answers (λ out. out ≡ nodes.given (nodes.no_row w pos Op.Not e)
        (rows.not_row pos (texpr_type e) e) w) operand_tree w result }
{
    let e = value_of(alloc, operand)?;
    let ty = e.ty()?;
    let row = not_row(alloc, pos, &ty, e)?;
    given(alloc, structs, pos, Op::Not, ty, None, row)
}
