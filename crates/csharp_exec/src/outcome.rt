// What a statement comes to.
#![tactic(auto, using(csharp::proofs::CodeTrees::the_code_trees))]

ghost use Rattle.std.specs.Prelude.{◌≡◌, ◌<◌, ◌∷◌, All, IfOk, OnOk, Option, length};
ghost use Rattle.csharp.specs.Trees.{cscall_tree};
ghost use Rattle.csharp.specs.States as states;
ghost use Rattle.csharp.specs.Outcomes as outcomes;
ghost use Rattle.csharp_state.specs.Answers.{Took};
ghost use Rattle.csharp_state.specs.Belongs.{Keeps};
ghost use Rattle.csharp_exec.specs.Told.{told};

use block_mem::Value;
use c_syntax::{Places, Pos, WrongKind};
use csharp::CsCall;
use csharp_state::{Operand, State, Step};
use std::alloc::AllocError as NoMemory;

/// How a statement leaves what is around it.
#[derive(Clone, Copy, PartialEq, Eq)]
pub enum Way {
    /// An exit, with the number of blocks that are left before the one that it leaves.
    Exit(u64),
    /// A goto, with its label.
    Goto(u64),
    /// A return, with a value or none.
    Return(Option<Value>),
}

/// A check that failed: the calls that led to it, the outermost first, its place, its kind and its
/// operand.
#[derive(Drop)]
pub struct Failure {
    pub chain: Places,
    pub place: Pos,
    pub kind: WrongKind,
    pub operand: Operand,
}

/// What a statement comes to.
#[derive(Drop)]
pub enum Outcome {
    /// What comes behind it is done.
    Normal,
    /// It leaves what is around it.
    Leaves(Way),
    /// A check fails. The memory is that of the state.
    Fails(Failure),
    /// There is no input left.
    Waiting,
    /// An assumption does not hold.
    Stopped,
    /// Nothing says what is done.
    Stuck,
    /// An object of a scope lives already.
    Clash,
    /// The fuel is used up.
    NoFuel,
    /// A loop would make more turns than are asked for.
    Over,
}

/// How far a run may go.
#[derive(Clone, Copy, PartialEq, Eq)]
pub struct Limits {
    /// Units for calls, for turns of a loop behind the first, and for gotos.
    pub fuel: u64,
    /// How many turns behind the first are enough in each entry of a loop; any number where there is none.
    pub turns: Option<u64>,
}

/// Normal where an action was done, and stuck where there is none.
pub fn stuck_unless(step: Step) -> Outcome
    ensures { (old new : states.State) (behind : Option states.State) → Took step old new behind
        → told result new ≡ outcomes.to_normal behind }
{
    match step {
        Step::Done => Outcome::Normal,
        Step::Barred => Outcome::Stuck,
    }
}

/// Normal where there was an input, and waiting where there was none.
pub fn waits_unless(step: Step) -> Outcome
    ensures { (old new : states.State) (behind : Option states.State) → Took step old new behind
        → told result new ≡ outcomes.or_waits behind }
{
    match step {
        Step::Done => Outcome::Normal,
        Step::Barred => Outcome::Waiting,
    }
}

/// Exit 0 ends at the block, and any other has one block less to leave.
pub fn at_block(outcome: Outcome) -> Outcome
    ensures { (s : states.State) → told result s ≡ outcomes.at_block (told outcome s) }
{
    match outcome {
        Outcome::Leaves(Way::Exit(level)) => if level == 0 {
            Outcome::Normal
        } else {
            Outcome::Leaves(Way::Exit(level - 1))
        },
        other => other,
    }
}

/// The objects of a scope end where it ends and where it is left.
pub fn at_scope(names: &[u64], outcome: Outcome, state: &mut State) -> Outcome
    requires { All (λ name. name < length state.old.memory.places) names.now }
    ensures told { told result state.new ≡ outcomes.at_scope names.now (told outcome state.old) }
    ensures memory { Keeps state.old.memory state.new.memory }
{
    match outcome {
        Outcome::Normal => {
            state.leave(names);
            Outcome::Normal
        }
        Outcome::Leaves(way) => {
            state.leave(names);
            Outcome::Leaves(way)
        }
        other => other,
    }
}

/// The end of a call: what it gives goes into its temporaries, and what failed has its place in front of
/// the chain.
pub fn at_call(call: &CsCall, outcome: Outcome, state: &mut State) -> Result<Outcome, NoMemory>
    ensures told { IfOk result (λ o. told o state.new ≡ outcomes.at_call (cscall_tree call.now) (told outcome state.old)) }
    ensures memory { OnOk result (state.new.memory ≡ state.old.memory) }
{
    match outcome {
        Outcome::Normal => {
            state.give(call, None);
            Ok(Outcome::Normal)
        }
        Outcome::Leaves(Way::Return(given)) => {
            state.give(call, given);
            Ok(Outcome::Normal)
        }
        Outcome::Leaves(_) => Ok(Outcome::Stuck),
        Outcome::Fails(failure) => Ok(Outcome::Fails(called_at(call.pos, failure)?)),
        other => Ok(other),
    }
}

// A failure in a function that was called at a place.
fn called_at(pos: Pos, failure: Failure) -> Result<Failure, NoMemory>
    ensures { IfOk result (λ f. f ≡ record failure { chain = pos ∷ failure.chain }) }
{
    let Failure {
        chain,
        place,
        kind,
        operand,
    } = failure;
    let mut places = chain.into_vec();
    places.insert(0, pos)?;
    Ok(Failure {
        chain: Places::from_vec(places),
        place,
        kind,
        operand,
    })
}
