// Returns.
#![tactic(auto)]

ghost use Rattle.std.specs.Prelude.{◌≡◌, option_map};
ghost use Rattle.c_syntax.specs.declared.op.Op.TheVariants as ops;
ghost use Rattle.c_syntax.specs.Types.{ctype_tree};
ghost use Rattle.c_syntax.specs.TypedExpr.{texpr_tree};
ghost use Rattle.c_syntax.specs.TypedStmt as trees;
ghost use Rattle.c_syntax.specs.TypedStmt.{tstmt_tree};
ghost use Rattle.c_typing.specs.Stmts as stmts;
ghost use Rattle.c_typing.specs.World as worlds;
ghost use Rattle.c_check_names.specs.Views.{Answers, Tells};
ghost use Rattle.c_check_names.specs.Worlds.{world_of};

use c_check_names::{TypeError, World, no_rule};
use c_check_operators::store_row;
use c_syntax::{CType, Op, Pos, TExpr, TStmt};

/// A return with a value, as by `=` to the result. One that no row stores is NoRule with Op `return`, with the result and
/// the value's type.
pub fn returned(world: &World, at: Pos, target: &CType, e: TExpr) -> Result<TStmt, TypeError>
    ensures { Answers (λ out. out ≡ stmts.returned (world_of world.now) at (ctype_tree target.now) (texpr_tree e))
        (λ s. stmts.one (tstmt_tree s)) (world_of world.now) result }
{
    let from = e.ty()?;
    match store_row(world.alloc(), target, &from, e)? {
        None => Err(no_value(world, at, target, Some(from))),
        Some(value) => Ok(return_node(at, Some(value))),
    }
}

/// A return without a value, from a function that gives nothing. From another it is NoRule with Op `return` and the result
/// left.
pub fn returned_bare(world: &World, at: Pos, target: &CType) -> Result<TStmt, TypeError>
    ensures { Answers (λ out. out ≡ stmts.returned_bare (world_of world.now) at (ctype_tree target.now))
        (λ s. stmts.one (tstmt_tree s)) (world_of world.now) result }
{
    match target {
        CType::Void => Ok(return_node(at, None)),
        _ => Err(no_value(world, at, target, None)),
    }
}

// That a function with this result gives no such value, or none at all.
fn no_value(world: &World, at: Pos, target: &CType, from: Option<CType>) -> TypeError
    ensures { Tells result (worlds.no_rule (world_of world.now) at ops.Return (ctype_tree target.now) (option_map ctype_tree from)) }
{
    match target.copy() {
        Err(_) => TypeError::NoMemory,
        Ok(target) => no_rule(
            world.alloc(),
            &world.structs.defs,
            at,
            Op::Return,
            target,
            from,
        ),
    }
}

#[tactic(auto, using(c_syntax::proofs::Trees::the_trees))]
fn return_node(at: Pos, value: Option<TExpr>) -> TStmt
    ensures { tstmt_tree result ≡ trees.Return at (option_map texpr_tree value) }
{
    TStmt::Return { pos: at, value }
}
