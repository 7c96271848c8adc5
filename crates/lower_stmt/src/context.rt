// What stands around a statement, and so how many blocks a `break` and a `continue` leave.
#![tactic(auto)]

ghost use Rattle.std.specs.Prelude.{◌≡◌, IfOk};
ghost use Rattle.lower_trees.specs.LowerStmt as statements;
ghost use Rattle.lower_stmt.specs.Views.{context_tree};

use lower_nodes::one_more;
use std::alloc::AllocError as NoMemory;

/// What is around a statement.
#[derive(Clone, Copy)]
pub enum Context<'a> {
    /// A loop, whose body stands in two blocks. A function's body stands as in one.
    InLoop,
    /// A switch, in one block.
    InSwitch(&'a Context<'a>),
    /// A block that no `break` leaves.
    Past(&'a Context<'a>),
}

/// The exit by which a `break` leaves.
pub fn break_level(context: &Context) -> Result<u64, NoMemory>
    ensures { IfOk result (λ level. level ≡ statements.break_level (context_tree context.now)) }
{
    match context {
        Context::InLoop => Ok(1),
        Context::InSwitch(_) => Ok(0),
        Context::Past(around) => {
            let level = break_level(around)?;
            one_more(level)
        }
    }
}

/// The exit by which a `continue` leaves.
pub fn continue_level(context: &Context) -> Result<u64, NoMemory>
    ensures { IfOk result (λ level. level ≡ statements.continue_level (context_tree context.now)) }
{
    match context {
        Context::InLoop => Ok(0),
        Context::InSwitch(around) | Context::Past(around) => {
            let level = continue_level(around)?;
            one_more(level)
        }
    }
}
