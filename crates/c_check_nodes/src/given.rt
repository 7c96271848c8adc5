// The node that a row gives, or the refusal where no row does.
#![tactic(auto)]

ghost use Rattle.std.specs.Prelude.{◌≡◌, map, option_map};
ghost use Rattle.c_syntax.specs.Types.{ctype_tree};
ghost use Rattle.c_syntax.specs.TypedExpr.{texpr_tree, tlvalue_tree};
ghost use Rattle.c_syntax.specs.Program.{structdef_tree};
ghost use Rattle.c_typing.specs.Nodes as nodes;
ghost use Rattle.c_typing.specs.World as worlds;
ghost use Rattle.c_typing.specs.World.{World};
ghost use Rattle.c_check_operators.specs.OperandViews.{operand_tree};
ghost use Rattle.c_check_names.specs.Views.{Answers};

use c_check_names::{TypeError, no_rule};
use c_check_operators::Operand;
use c_syntax::{CType, Op, Pos, StructDefs, TExpr, TLvalue};
use std::alloc::Global;

/// The value that a row gives, or that no row has these types.
pub(crate) fn given(
    alloc: Global,
    structs: &StructDefs,
    pos: Pos,
    op: Op,
    left: CType,
    right: Option<CType>,
    row: Option<TExpr>,
) -> Result<Operand, TypeError>
    ensures { (w : World) → w.structs ≡ map structdef_tree structs.now
        → Answers (λ out. out ≡ nodes.given (worlds.no_rule w pos op (ctype_tree left) (option_map ctype_tree right)) (option_map texpr_tree row) w)
        operand_tree w result }
{
    match row {
        Some(value) => Ok(Operand::Value(value)),
        None => Err(no_rule(alloc, structs, pos, op, left, right)),
    }
}

/// The place that a row gives, or that no row has these types.
pub(crate) fn given_place(
    alloc: Global,
    structs: &StructDefs,
    pos: Pos,
    op: Op,
    left: CType,
    right: Option<CType>,
    row: Option<TLvalue>,
) -> Result<Operand, TypeError>
    ensures { (w : World) → w.structs ≡ map structdef_tree structs.now
        → Answers (λ out. out ≡ nodes.given_place (worlds.no_rule w pos op (ctype_tree left) (option_map ctype_tree right))
        (option_map tlvalue_tree row) w) operand_tree w result }
{
    match row {
        Some(place) => Ok(Operand::Place(place)),
        None => Err(no_rule(alloc, structs, pos, op, left, right)),
    }
}
