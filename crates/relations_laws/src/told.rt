// What a test tells is known behind it.
#![tactic(auto, using(num_api::proofs::Trees::nexpr_trees))]

ghost use Rattle.std.specs.Prelude.{◌≡◌, IsTrue, IfOk, All};
ghost use Rattle.ext_int.specs.Ext.{AtMost};
ghost use Rattle.num_api.specs.Ranges.{NoWider};
ghost use Rattle.channels.specs.Hearing.{IsHeard};

use channels::Linked;
use ext_int::{Ext, cmp};
use num_api::{Exact, Live, Message, Messages, NExpr, NumDomain, Oracle, Range};
use std::alloc::{AllocError as NoMemory, Global};
use std::cmp::Ordering;

// Whether the first end is at or below the second.
fn is_at_most(a: Ext, b: Ext) -> bool
    ensures { AtMost a b → IsTrue result }
{
    match cmp(a, b) {
        Ordering::Less | Ordering::Equal => true,
        Ordering::Greater => false,
    }
}

// Whether the first range lies inside the second.
fn is_inside(r: Range, s: Range) -> bool
    ensures { NoWider r s → IsTrue result }
{
    is_at_most(s.lo, r.lo) && is_at_most(r.hi, s.hi)
}

// Whether the state answers a range inside the one that the message tells.
fn answers<D: Oracle>(state: &D, m: &Message) -> bool
    ensures { IsTrue D.exact → IsHeard (D.known state.now) m.now → IsTrue result }
{
    match m {
        Message::Between(x, r) => is_inside(state.range(&NExpr::Read(*x)), *r),
        Message::Class(_, _) => true,
        Message::Equal(_, _) => true,
        Message::AtMost { .. } => true,
    }
}

// Whether it does for each of the messages.
fn answers_all<D: Oracle>(state: &D, told: &[Message]) -> bool
    ensures { IsTrue D.exact → All (IsHeard (D.known state.now)) told.now → IsTrue result }
{
    for m in told {
        if !answers(state, m) {
            return false;
        }
    }
    true
}

/// Takes a test, and tells whether each range that it put out is answered behind it: it is, wherever anything is left.
pub fn answers_what_it_told<A: Exact, B: NumDomain, O: Oracle>(
    alloc: Global,
    state: &mut Linked<A, B>,
    e: &NExpr,
    truth: bool,
    ask: &O,
) -> Result<bool, NoMemory>
    ensures { IfOk result (λ answered. IsTrue answered) }
{
    let mut out = Messages::new(alloc);
    match state.assume(e, truth, ask, &mut out)? {
        Live::Dead => return Ok(true),
        Live::Live => {}
    }
    Ok(answers_all(state, out.as_slice()))
}
