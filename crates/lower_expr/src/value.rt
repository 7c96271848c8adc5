// The value of an expression, behind the temporaries that are there.
#![tactic(auto)]

ghost use Rattle.std.specs.Prelude.{◌≡◌, IfOk, OnOk, OnErr};
ghost use Rattle.c_syntax.specs.Program.{tprogram_tree};
ghost use Rattle.c_syntax.specs.TypedExpr.{texpr_tree};
ghost use Rattle.csharp.specs.Trees.{csexpr_tree, csstmt_tree};
ghost use Rattle.lower_trees.specs.LowerExpr as lowering;
ghost use Rattle.lower_expr.specs.Rows.{first_row, with_rows};

use crate::exprs::lower_expr;
use crate::rows::add_rows;
use c_syntax::{TExpr, TProgram};
use csharp::{CsExpr, CsStmt, Temps};
use lower_nodes::Part;
use std::alloc::{AllocError as NoMemory, Global};

/// What an expression is lowered to: what is done before it has its value, and that value.
#[derive(Drop)]
pub struct Lowered {
    pub before: CsStmt,
    pub value: CsExpr,
}

/// Lowers an expression of a program for its value. The temporaries that it uses begin at the first whole row behind
/// `next`, and the rows that it uses are appended there; where memory runs out, `next` is as it was.
pub fn lower_value(
    alloc: Global,
    program: &TProgram,
    next: &mut Temps,
    e: &TExpr,
) -> Result<Lowered, NoMemory>
    ensures before { IfOk result (λ l. csstmt_tree l.before
        ≡ (lowering.lower_expr (tprogram_tree program.now) (first_row next.old) (texpr_tree e.now)).value.before) }
    ensures value { IfOk result (λ l. csexpr_tree l.value
        ≡ (lowering.lower_expr (tprogram_tree program.now) (first_row next.old) (texpr_tree e.now)).value.value) }
    ensures temps { OnOk result (next.new
        ≡ with_rows next.old (lowering.lower_expr (tprogram_tree program.now) (first_row next.old) (texpr_tree e.now)).value.top) }
    ensures err { OnErr result (next.new ≡ next.old) }
{
    let count = next.as_slice().len();
    let first = count / 12 + if count % 12 == 0 { 0 } else { 1 };
    let Part {
        before,
        value,
        next: _,
        top,
    } = lower_expr(alloc, program, first as u64, e)?;
    add_rows(alloc, next, top)?;
    Ok(Lowered { before, value })
}
