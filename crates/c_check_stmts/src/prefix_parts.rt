// What stands before a statement: labels and cases.
#![tactic(auto)]

ghost use Rattle.std.specs.Prelude.{◌≡◌};
ghost use Rattle.c_syntax_written.specs.Written.{expr_tree};
ghost use Rattle.c_syntax.specs.TypedStmt as trees;
ghost use Rattle.c_syntax.specs.TypedStmt.{tstmt_tree};
ghost use Rattle.c_check_names.specs.Views.{Answers};
ghost use Rattle.c_check_names.specs.Worlds.{world_of};
ghost use Rattle.c_check_stmts.specs.PartForms.{Cases, Labels};

use c_check_exprs::value;
use c_check_jumps::{case_of, labelled};
use c_check_names::{TypeError, World};
use c_check_operators::constant_value;
use c_syntax::{Expr, IntType, Name, Pos, TStmt};

/// A label before a statement (C11 6.8.1p3). One that the function has already is Redeclared.
pub fn label_of(world: &mut World, at: Pos, name: &Name) -> Result<TStmt, TypeError>
    ensures { Answers (Labels (world_of world.old) at name.now) tstmt_tree (world_of world.new) result }
{
    let label = got!(labelled(world, at, name));
    Ok(label_node(at, label))
}

#[tactic(auto, using(c_syntax::proofs::Trees::the_trees))]
fn label_node(pos: Pos, label: u64) -> TStmt
    ensures { tstmt_tree result ≡ trees.Label pos label }
{
    TStmt::Label { pos, label }
}

/// A case before a statement, in a switch whose cases have this type, by its value (C11 6.8.4.2p3 and p5). The value is typed
/// first, and refused as any expression is; then outside of a switch the case is Undeclared, a value that is no constant is
/// NotConstant, and one that the switch has already is Redeclared.
pub fn case_at(
    world: &mut World,
    at: Pos,
    switch: Option<IntType>,
    e: &Expr,
) -> Result<TStmt, TypeError>
    ensures { Answers (Cases (world_of world.old) at switch (expr_tree e.now)) tstmt_tree (world_of world.new) result }
{
    let x = got!(value(world, e));
    let n = constant_value(&x)?;
    let n = got!(case_of(world, at, e.pos(), switch, n));
    Ok(case_node(at, n))
}

#[tactic(auto, using(c_syntax::proofs::Trees::the_trees))]
fn case_node(pos: Pos, value: i128) -> TStmt
    ensures { tstmt_tree result ≡ trees.Case pos value }
{
    TStmt::Case { pos, value }
}
