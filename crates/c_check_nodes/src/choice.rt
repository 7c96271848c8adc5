// Conditions, `?:` and `,`.
#![tactic(auto)]

ghost use Rattle.std.specs.Prelude.{◌≡◌, IfOk, map};
ghost use Rattle.c_syntax.specs.TypedExpr.{texpr_tree};
ghost use Rattle.c_syntax.specs.TypedExpr as trees;
ghost use Rattle.c_syntax.specs.TypedParts.{texpr_type};
ghost use Rattle.c_syntax.specs.Program.{structdef_tree};
ghost use Rattle.c_typing.specs.Nodes as nodes;
ghost use Rattle.c_typing.specs.Operands as operands;
ghost use Rattle.c_typing.specs.Rows as rows;
ghost use Rattle.c_typing.specs.World.{World};
ghost use Rattle.c_check_operators.specs.OperandViews.{operand_tree};
ghost use Rattle.c_check_names.specs.Views.{Answers};

use crate::given::given;
use c_check_names::{TypeError, no_rule};
use c_check_operators::{Operand, cond_row, is_scalar};
use c_syntax::{Op, Pos, StructDefs, TExpr};
use c_syntax_written::boxed;
use std::alloc::{AllocError as NoMemory, Global};

/// A condition, which is to be a scalar (C11 6.8.4.1p1, 6.8.5p2). Where it is none it is NoRule with Op `test`.
pub fn tested(alloc: Global, structs: &StructDefs, pos: Pos, e: TExpr) -> Result<TExpr, TypeError>
    ensures { (w : World) → w.structs ≡ map structdef_tree structs.now
        → Answers (λ out. out ≡ nodes.tested w pos (texpr_tree e)) texpr_tree w result }
{
    let ty = e.ty()?;
    if is_scalar(&ty) {
        Ok(e)
    } else {
        Err(no_rule(alloc, structs, pos, Op::Test, ty, None))
    }
}

/// `?:` on three typed values. The test is asked first, and then the types of the two others.
pub fn conditional(
    alloc: Global,
    structs: &StructDefs,
    pos: Pos,
    test: TExpr,
    a: TExpr,
    b: TExpr,
) -> Result<Operand, TypeError>
    ensures { (w : World) → w.structs ≡ map structdef_tree structs.now
        → Answers (λ out. out ≡ nodes.conditional w pos (texpr_tree test) (texpr_tree a) (texpr_tree b)) operand_tree w result }
{
    let ty = test.ty()?;
    if is_scalar(&ty) {
        chosen(alloc, structs, pos, test, a, b)
    } else {
        Err(no_rule(alloc, structs, pos, Op::Test, ty, None))
    }
}

// `?:` on a test that is a scalar.
fn chosen(
    alloc: Global,
    structs: &StructDefs,
    pos: Pos,
    test: TExpr,
    a: TExpr,
    b: TExpr,
) -> Result<Operand, TypeError>
    ensures { (w : World) → w.structs ≡ map structdef_tree structs.now
        → Answers (λ out. out ≡ nodes.given (nodes.no_rows w pos Op.Cond (texpr_tree a) (texpr_tree b))
        (rows.cond_row pos (texpr_tree test) (texpr_type (texpr_tree a)) (texpr_type (texpr_tree b)) (texpr_tree a) (texpr_tree b)) w)
        operand_tree w result }
{
    let left = a.ty()?;
    let right = b.ty()?;
    let row = cond_row(alloc, pos, test, &left, &right, a, b)?;
    given(alloc, structs, pos, Op::Cond, left, Some(right), row)
}

/// `a, b`: the value of `a` is dropped, and the whole is the value of `b` (C11 6.5.17). It has no refusal.
pub fn sequenced(alloc: Global, pos: Pos, a: TExpr, b: TExpr) -> Result<Operand, TypeError>
    ensures { (w : World) → Answers (λ out. out ≡ nodes.sequenced w pos (texpr_tree a) (texpr_tree b)) operand_tree w result }
{
    let node = comma_node(alloc, pos, a.not_used(), b)?;
    Ok(Operand::Value(node))
}

#[tactic(auto, using(c_syntax::proofs::Trees::the_trees))]
fn comma_node(alloc: Global, pos: Pos, a: TExpr, b: TExpr) -> Result<TExpr, NoMemory>
    ensures { IfOk result (λ node. texpr_tree node ≡ trees.Comma pos (texpr_tree a) (texpr_tree b)) }
{
    let left = boxed(alloc, a)?;
    let right = boxed(alloc, b)?;
    Ok(TExpr::Comma { pos, left, right })
}
