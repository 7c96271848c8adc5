// Labels, and the jumps that need no more than their place.
#![tactic(auto)]

ghost use Rattle.std.specs.Prelude.{◌≡◌};
ghost use Rattle.c_syntax.specs.TypedStmt as trees;
ghost use Rattle.c_syntax.specs.TypedStmt.{tstmt_tree};
ghost use Rattle.c_typing.specs.Stmts as stmts;
ghost use Rattle.c_typing.specs.World.{World as Program};
ghost use Rattle.c_check_jumps.specs.ContextViews.{context_tree};
ghost use Rattle.c_check_names.specs.Views.{Answers};
ghost use Rattle.c_check_names.specs.Worlds.{world_of};

use crate::Context;
use c_check_names::{Labelled, TypeError, World};
use c_syntax::{Name, Pos, TStmt};

/// A label, which is new in its function, else it is Redeclared: its number. Once out of memory the program is only
/// dropped.
pub fn labelled(world: &mut World, at: Pos, name: &Name) -> Result<u64, TypeError>
    ensures { Answers (λ out. out ≡ stmts.labelled (world_of world.old) at name.now) (λ n. n) (world_of world.new) result }
{
    match label_before(world, name.as_slice()) {
        Some(first) => Err(TypeError::Redeclared(at, first)),
        None => {
            let number = world.labels.len() as u64;
            let label = name.copy()?;
            world.labels.push(Labelled { label, pos: at })?;
            Ok(number)
        }
    }
}

// The place of the label of this name.
fn label_before(world: &World, name: &[u8]) -> Option<Pos>
    ensures { result ≡ stmts.label_before (world_of world.now) name.now }
{
    match world.labels.first_from(name, 0) {
        None => None,
        Some(first) => Some(first.pos),
    }
}

/// A goto to a label of the function. One that it has not is Undeclared at this place.
#[tactic(auto, using(c_syntax::proofs::Trees::the_trees))]
pub fn goto_of(around: Context, at: Pos, name: &[u8]) -> Result<TStmt, TypeError>
    ensures { (w : Program) → Answers (λ out. out ≡ stmts.goto_of w (context_tree around.entry) at name.now) (λ s. stmts.one (tstmt_tree s)) w result }
{
    match around.label(name) {
        None => Err(TypeError::Undeclared(at)),
        Some(label) => Ok(TStmt::Goto { pos: at, label }),
    }
}

/// A `break`, in a loop or a switch. One elsewhere is Undeclared at this place.
#[tactic(auto, using(c_syntax::proofs::Trees::the_trees))]
pub fn break_of(around: Context, at: Pos) -> Result<TStmt, TypeError>
    ensures { (w : Program) → Answers (λ out. out ≡ stmts.allowed w at (context_tree around.entry).breaks (trees.Break at)) (λ s. stmts.one (tstmt_tree s)) w result }
{
    if around.breaks {
        Ok(TStmt::Break { pos: at })
    } else {
        Err(TypeError::Undeclared(at))
    }
}

/// A `continue`, in a loop. One elsewhere is Undeclared at this place.
#[tactic(auto, using(c_syntax::proofs::Trees::the_trees))]
pub fn continue_of(around: Context, at: Pos) -> Result<TStmt, TypeError>
    ensures { (w : Program) → Answers (λ out. out ≡ stmts.allowed w at (context_tree around.entry).continues (trees.Continue at)) (λ s. stmts.one (tstmt_tree s)) w result }
{
    if around.continues {
        Ok(TStmt::Continue { pos: at })
    } else {
        Err(TypeError::Undeclared(at))
    }
}
