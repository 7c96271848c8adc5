// Returns, with a value or without.
#![tactic(auto)]

ghost use Rattle.std.specs.Prelude.{◌≡◌};
ghost use Rattle.c_syntax_written.specs.Written.{expr_tree};
ghost use Rattle.c_syntax_written.specs.WrittenFile.{optional_tree};
ghost use Rattle.c_syntax.specs.TypedExpr.{texpr_tree};
ghost use Rattle.c_syntax.specs.TypedStmt.{tstmt_tree};
ghost use Rattle.c_typing.specs.Stmts as stmts;
ghost use Rattle.c_check_jumps.specs.ContextViews.{context_tree};
ghost use Rattle.c_check_names.specs.Views.{Answers};
ghost use Rattle.c_check_names.specs.Worlds.{world_of};
ghost use Rattle.c_check_stmts.specs.PartForms.{Returns, ReturnsValue};

use c_check_exprs::value;
use c_check_jumps::{Context, returned, returned_bare};
use c_check_names::{TypeError, World};
use c_syntax::{CType, Expr, Pos, TExpr, TStmt};

/// A return from the function around (C11 6.8.6.4). With a value it is as by `=` to the function's result, and NoRule with
/// Op `return`, the result and the value's type, where no row stores it; without one the function gives nothing, or it is
/// NoRule with the result left.
pub fn return_of(
    world: &mut World,
    around: Context,
    at: Pos,
    e: &Option<Box<Expr>>,
) -> Result<TStmt, TypeError>
    ensures { Answers (Returns (world_of world.old) at (context_tree around.entry).result (optional_tree e.now)) (λ s. stmts.one (tstmt_tree s))
        (world_of world.new) result }
{
    match e {
        None => bare_return(world, around, at),
        Some(e) => value_return(world, around, at, e),
    }
}

// A return with this value.
fn value_return(world: &mut World, around: Context, at: Pos, e: &Expr) -> Result<TStmt, TypeError>
    ensures { Answers (ReturnsValue (world_of world.old) at (context_tree around.entry).result (expr_tree e.now)) (λ s. stmts.one (tstmt_tree s))
        (world_of world.new) result }
{
    let x = got!(value(world, e));
    stored_return(world, around, at, x)
}

// A return with this typed value.
fn stored_return(world: &World, around: Context, at: Pos, x: TExpr) -> Result<TStmt, TypeError>
    ensures { Answers (λ out. out ≡ stmts.returned (world_of world.now) at (context_tree around.entry).result (texpr_tree x)) (λ s. stmts.one (tstmt_tree s))
        (world_of world.now) result }
{
    match around.function {
        None => returned(world, at, &CType::Void, x),
        Some(function) => returned(world, at, &function.result, x),
    }
}

// A return without a value.
fn bare_return(world: &World, around: Context, at: Pos) -> Result<TStmt, TypeError>
    ensures { Answers (λ out. out ≡ stmts.returned_bare (world_of world.now) at (context_tree around.entry).result) (λ s. stmts.one (tstmt_tree s))
        (world_of world.now) result }
{
    match around.function {
        None => returned_bare(world, at, &CType::Void),
        Some(function) => returned_bare(world, at, &function.result),
    }
}
