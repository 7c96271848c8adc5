// The nodes of `.` and `->`.
#![tactic(auto)]

ghost use Rattle.std.specs.Prelude.{◌≡◌, map};
ghost use Rattle.c_syntax.specs.TypedExpr.{texpr_tree};
ghost use Rattle.c_syntax.specs.Program.{structdef_tree};
ghost use Rattle.c_typing.specs.Nodes as typing;
ghost use Rattle.c_typing.specs.World.{World};
ghost use Rattle.c_check_operators.specs.OperandViews.{operand_tree};
ghost use Rattle.c_check_names.specs.Views.{Answers};

use crate::rows::{arrow_row, member_in};
use c_check_names::{Structs, TypeError, no_rule};
use c_check_operators::{Operand, value_type};
use c_syntax::{Op, Pos, TExpr};
use std::alloc::Global;

/// `.` on a typed operand. What is no struct in a place, or has no such member, is NoRule at the `.`, with its type
/// left.
pub fn member(
    alloc: Global,
    structs: &Structs,
    pos: Pos,
    name: &[u8],
    operand: Operand,
) -> Result<Operand, TypeError>
    ensures { (w : World) → w.structs ≡ map structdef_tree structs.now.defs
        → Answers (λ out. out ≡ typing.member w pos name.now (operand_tree operand)) operand_tree w result }
{
    let shown = value_type(alloc, &operand)?;
    match operand {
        Operand::Value(_value) => Err(no_rule(alloc, &structs.defs, pos, Op::Dot, shown, None)),
        Operand::Place(place) => match member_in(alloc, structs, pos, name, place)? {
            None => Err(no_rule(alloc, &structs.defs, pos, Op::Dot, shown, None)),
            Some(member) => Ok(Operand::Place(member)),
        },
    }
}

/// `->` on a typed value. What is no pointer to a struct, or has no such member, is NoRule at the `->`.
pub fn arrow(
    alloc: Global,
    structs: &Structs,
    pos: Pos,
    name: &[u8],
    e: TExpr,
) -> Result<Operand, TypeError>
    ensures { (w : World) → w.structs ≡ map structdef_tree structs.now.defs
        → Answers (λ out. out ≡ typing.arrow w pos name.now (texpr_tree e)) operand_tree w result }
{
    let ty = e.ty()?;
    match arrow_row(alloc, structs, pos, name, &ty, e)? {
        None => Err(no_rule(alloc, &structs.defs, pos, Op::Arrow, ty, None)),
        Some(member) => Ok(Operand::Place(member)),
    }
}
