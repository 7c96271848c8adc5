// Conditions, values that are dropped, and values of switches.
#![tactic(auto)]

ghost use Rattle.std.specs.Prelude.{option_map};
ghost use Rattle.c_syntax_written.specs.Written.{expr_tree};
ghost use Rattle.c_syntax_written.specs.WrittenFile.{optional_tree};
ghost use Rattle.c_syntax.specs.TypedExpr.{texpr_tree};
ghost use Rattle.c_typing.specs.Stmts as stmts;
ghost use Rattle.c_check_names.specs.Views.{Answers};
ghost use Rattle.c_check_jumps.specs.Views.{switched_tree};
ghost use Rattle.c_check_names.specs.Worlds.{world_of};

use c_check_exprs::value;
use c_check_jumps::{Switched, switched_by};
use c_check_names::{TypeError, World};
use c_check_nodes::tested;
use c_syntax::{Expr, Pos, TExpr};

/// A condition of the statement at this place, which is to be a scalar (C11 6.8.4.1p1, 6.8.5p2). Where it is none it is
/// NoRule with Op `test`.
pub fn condition(world: &mut World, at: Pos, e: &Expr) -> Result<TExpr, TypeError>
    ensures { Answers (stmts.Condition (world_of world.old) at (expr_tree e.now)) texpr_tree (world_of world.new) result }
{
    let x = got!(value(world, e));
    tested(world.alloc(), &world.structs.defs, at, x)
}

/// A condition that may be missing.
pub fn condition_if_any(
    world: &mut World,
    at: Pos,
    e: &Option<Box<Expr>>,
) -> Result<Option<TExpr>, TypeError>
    ensures { Answers (stmts.Perhaps (world_of world.old) (λ v e. stmts.Condition v at e) (optional_tree e.now)) (option_map texpr_tree)
        (world_of world.new) result }
{
    match e {
        None => Ok(None),
        Some(e) => {
            let x = got!(condition(world, at, e));
            Ok(Some(x))
        }
    }
}

/// An expression whose value is dropped (C11 6.8.3p2): a call then gives none (this profile).
pub fn dropped(world: &mut World, e: &Expr) -> Result<TExpr, TypeError>
    ensures { Answers (stmts.Dropped (world_of world.old) (expr_tree e.now)) texpr_tree (world_of world.new) result }
{
    let x = got!(value(world, e));
    Ok(x.not_used())
}

/// An expression that may be missing, and whose value is dropped.
pub fn dropped_if_any(world: &mut World, e: &Option<Box<Expr>>) -> Result<Option<TExpr>, TypeError>
    ensures { Answers (stmts.Perhaps (world_of world.old) stmts.Dropped (optional_tree e.now)) (option_map texpr_tree) (world_of world.new) result }
{
    match e {
        None => Ok(None),
        Some(e) => {
            let x = got!(dropped(world, e));
            Ok(Some(x))
        }
    }
}

/// The value of the switch at this place, an integer, which is promoted (C11 6.8.4.2p1 and p5). Any other is NoRule with Op
/// `switch` and its type left. The cases of the switch around are left as they are (`switch_leaves_cases` in `proofs/`).
pub fn switch_value(world: &mut World, at: Pos, e: &Expr) -> Result<Switched, TypeError>
    ensures { Answers (stmts.SwitchValue (world_of world.old) at (expr_tree e.now)) switched_tree (world_of world.new) result }
{
    let x = got!(value(world, e));
    switched_by(world, at, x)
}
