// `sizeof` and casts.
#![tactic(auto)]

ghost use Rattle.std.specs.Prelude.{◌≡◌, Bool, map, option_map, pos as number};
ghost use Rattle.c_syntax.specs.Types.{ctype_tree};
ghost use Rattle.c_syntax.specs.TypedExpr.{texpr_tree};
ghost use Rattle.c_syntax.specs.TypedExpr as trees;
ghost use Rattle.c_syntax.specs.TypedParts.{texpr_type};
ghost use Rattle.c_syntax.specs.Program.{structdef_tree};
ghost use Rattle.c_typing.specs.Nodes as nodes;
ghost use Rattle.c_typing.specs.Operands as operands;
ghost use Rattle.c_typing.specs.World.{World, Plain};
ghost use Rattle.c_check_operators.specs.OperandViews.{operand_tree};
ghost use Rattle.c_check_names.specs.Views.{Answers, Tells};

use crate::given::given;
use c_check_names::{TypeError, no_rule};
use c_check_operators::{Operand, cast_row, complete_size, is_pointer_integer};
use c_syntax::{CType, Construct, IntType, Op, Pos, StructDefs, TExpr};
use std::alloc::Global;

/// `sizeof` a type: its size in bytes, as an unsigned long (C11 6.5.3.4). A type that is not complete is NoRule.
pub fn size_of(
    alloc: Global,
    structs: &StructDefs,
    pos: Pos,
    ty: CType,
) -> Result<Operand, TypeError>
    ensures { (w : World) → w.structs ≡ map structdef_tree structs.now
        → Answers (λ out. out ≡ nodes.size_of w pos (ctype_tree ty)) operand_tree w result }
{
    let size = size_node(structs, pos, &ty);
    given(alloc, structs, pos, Op::Sizeof, ty, None, size)
}

#[tactic(auto, using(c_syntax::proofs::Trees::the_trees))]
fn size_node(structs: &StructDefs, at: Pos, ty: &CType) -> Option<TExpr>
    ensures { option_map texpr_tree result
        ≡ option_map (λ size. trees.Const at IntType.ULong (number size)) (operands.complete_size (map structdef_tree structs.now) (ctype_tree ty.now)) }
{
    match complete_size(structs, ty) {
        None => None,
        Some(size) => Some(TExpr::Const {
            pos: at,
            ty: IntType::ULong,
            value: i128::from(size),
        }),
    }
}

/// A cast of a value to this type. Between a pointer and an integer, where no row has it, it is Unsupported; any
/// other that no row has is NoRule, with the target's type left and the value's right.
pub fn cast(
    alloc: Global,
    structs: &StructDefs,
    pos: Pos,
    target: CType,
    e: TExpr,
) -> Result<Operand, TypeError>
    ensures { (w : World) (is_const : Bool) → w.structs ≡ map structdef_tree structs.now
        → Answers (λ out. out ≡ nodes.cast w pos (Plain (ctype_tree target) is_const) (texpr_tree e)) operand_tree w result }
{
    let ty = e.ty()?;
    match cast_row(alloc, pos, &target, &ty, e)? {
        Some(value) => Ok(Operand::Value(value)),
        None => Err(no_cast(alloc, structs, pos, target, ty)),
    }
}

// The refusal of a cast to the first type from the second.
fn no_cast(alloc: Global, structs: &StructDefs, pos: Pos, target: CType, ty: CType) -> TypeError
    ensures { (w : World) (e : trees.TExprTree) → w.structs ≡ map structdef_tree structs.now → texpr_type e ≡ ctype_tree ty
        → Tells result (nodes.no_cast w pos (ctype_tree target) e) }
{
    if is_pointer_integer(&target, &ty) {
        return TypeError::Unsupported(pos, Construct::PointerInteger);
    }
    no_rule(alloc, structs, pos, Op::Cast, target, Some(ty))
}
