// Messages on their way.

ghost use Rattle.std.specs.Prelude.{◌≡◌, ℕ, ℤ, List, ◌++◌, IsTrue, IfOk, OnOk, All};
ghost use Rattle.num_api.specs.Ranges.{IsUnder};
ghost use Rattle.num_api.specs.Messages.{Holds, IsProper, Adds, TellsOf};
ghost use Rattle.num_api.specs.Known.{IsSharp};
ghost use Rattle.num_api.specs.Lives.{is_live};
ghost use Rattle.num_api.specs.declared.message.Range.{Range};
ghost use Rattle.channels.specs.Hearing.{IsHeard};

use num_api::{Live, Message, Messages, NumDomain};
use std::alloc::{AllocError as NoMemory, Global};
use std::mem;

/// Hands a side each message in turn. `Dead`, with the rest not handed over, only where no valuation of the
/// side fits them all.
pub fn deliver<D: NumDomain>(state: &mut D, told: &[Message]) -> Result<Live, NoMemory>
    requires { All IsProper told.now }
    ensures after { IfOk result (λ live. (v : List ℤ) → D.admits state.old v → All (Holds v) told.now → IsTrue (is_live live) × D.admits state.new v) }
    ensures sharp { IfOk result (λ live. (v : List ℤ) (y : ℕ) → IsTrue D.exact → D.admits state.old v → All (Holds v) told.now
        → IsSharp (D.known state.old) v y → IsSharp (D.known state.new) v y) }
    ensures plain { OnOk result ((given : ℕ → Range) → IsTrue D.exact → IsUnder (D.known state.old) given → IsUnder (D.known state.new) given) }
    ensures heard { IfOk result (λ live. IsTrue D.exact → IsTrue (is_live live) → All (IsHeard (D.known state.new)) told.now) }
{
    for m in told {
        match state.accept(m)? {
            Live::Dead => return Ok(Live::Dead),
            Live::Live => {}
        }
    }
    Ok(Live::Live)
}

// Hands a side a message, if it tells a range.
fn keep_range<D: NumDomain>(state: &mut D, m: &Message) -> Result<Live, NoMemory>
    requires { IsProper m.now }
    ensures after { IfOk result (λ live. (v : List ℤ) → D.admits state.old v → Holds v m.now → IsTrue (is_live live) × D.admits state.new v) }
    ensures sharp { IfOk result (λ live. (v : List ℤ) (y : ℕ) → IsTrue D.exact → D.admits state.old v → Holds v m.now
        → IsSharp (D.known state.old) v y → IsSharp (D.known state.new) v y) }
    ensures plain { OnOk result ((given : ℕ → Range) → IsTrue D.exact → IsUnder (D.known state.old) given → IsUnder (D.known state.new) given) }
    ensures heard { IfOk result (λ live. IsTrue D.exact → IsTrue (is_live live) → IsHeard (D.known state.new) m.now) }
{
    match m {
        Message::Between(_, _) => {
            let live = state.accept(m)?;
            Ok(live)
        }
        Message::Class(_, _) => Ok(Live::Live),
        Message::Equal(_, _) => Ok(Live::Live),
        Message::AtMost { .. } => Ok(Live::Live),
    }
}

/// Hands a side each range that is told. `Dead`, with the rest not handed over, only where no valuation of the
/// side fits them all.
pub fn deliver_ranges<D: NumDomain>(state: &mut D, told: &[Message]) -> Result<Live, NoMemory>
    requires { All IsProper told.now }
    ensures after { IfOk result (λ live. (v : List ℤ) → D.admits state.old v → All (Holds v) told.now → IsTrue (is_live live) × D.admits state.new v) }
    ensures sharp { IfOk result (λ live. (v : List ℤ) (y : ℕ) → IsTrue D.exact → D.admits state.old v → All (Holds v) told.now
        → IsSharp (D.known state.old) v y → IsSharp (D.known state.new) v y) }
    ensures plain { OnOk result ((given : ℕ → Range) → IsTrue D.exact → IsUnder (D.known state.old) given → IsUnder (D.known state.new) given) }
    ensures heard { IfOk result (λ live. IsTrue D.exact → IsTrue (is_live live) → All (IsHeard (D.known state.new)) told.now) }
{
    for m in told {
        match keep_range(state, m)? {
            Live::Dead => return Ok(Live::Dead),
            Live::Live => {}
        }
    }
    Ok(Live::Live)
}

// Hands a side each message once more, the last one first.
fn deliver_back<D: NumDomain>(state: &mut D, told: &[Message]) -> Result<Live, NoMemory>
    requires { All IsProper told.now }
    ensures after { IfOk result (λ live. (v : List ℤ) → D.admits state.old v → All (Holds v) told.now → IsTrue (is_live live) × D.admits state.new v) }
    ensures sharp { IfOk result (λ live. (v : List ℤ) (y : ℕ) → IsTrue D.exact → D.admits state.old v → All (Holds v) told.now
        → IsSharp (D.known state.old) v y → IsSharp (D.known state.new) v y) }
    ensures plain { OnOk result ((given : ℕ → Range) → IsTrue D.exact → IsUnder (D.known state.old) given → IsUnder (D.known state.new) given) }
{
    let mut left = told;
    while let Some((m, rest)) = left.split_last() {
        match state.accept(m)? {
            Live::Dead => return Ok(Live::Dead),
            Live::Live => {}
        }
        left = rest;
    }
    Ok(Live::Live)
}

/// Hands each side the other's messages: one round to the second side, and two to the first, of which the
/// later goes backward. A side that is handed one puts none out, so these three rounds are all.
pub fn exchange<A: NumDomain, B: NumDomain>(
    first: &mut A,
    second: &mut B,
    from_first: &[Message],
    from_second: &[Message],
) -> Result<Live, NoMemory>
    requires first { All IsProper from_first.now }
    requires second { All IsProper from_second.now }
    ensures after { IfOk result (λ live. (v : List ℤ) → A.admits first.old v → B.admits second.old v → All (Holds v) from_first.now
        → All (Holds v) from_second.now → IsTrue (is_live live) × A.admits first.new v × B.admits second.new v) }
    ensures sharp { OnOk result ((v : List ℤ) (y : ℕ) → IsTrue A.exact → A.admits first.old v → All (Holds v) from_second.now
        → IsSharp (A.known first.old) v y → IsSharp (A.known first.new) v y) }
    ensures plain { OnOk result ((given : ℕ → Range) → IsTrue A.exact → IsUnder (A.known first.old) given → IsUnder (A.known first.new) given) }
    ensures by_first { IfOk result (λ live. IsTrue A.exact → IsTrue (is_live live) → All (IsHeard (A.known first.new)) from_second.now) }
    ensures by_second { IfOk result (λ live. IsTrue B.exact → IsTrue (is_live live) → All (IsHeard (B.known second.new)) from_first.now) }
{
    match deliver(second, from_first)? {
        Live::Dead => return Ok(Live::Dead),
        Live::Live => {}
    }
    match deliver(first, from_second)? {
        Live::Dead => return Ok(Live::Dead),
        Live::Live => {}
    }
    let live = deliver_back(first, from_second)?;
    Ok(live)
}

// Puts two lists of messages at the end of a third.
pub fn put_out(
    alloc: Global,
    first: Messages,
    second: Messages,
    out: &mut Messages,
) -> Result<(), NoMemory>
    requires first { All IsProper first }
    requires second { All IsProper second }
    ensures all { OnOk result (out.new ≡ out.old ++ first ++ second) }
    ensures kept { OnOk result (Adds out.old out.new) }
    ensures told { OnOk result ((v : List ℤ) → All (Holds v) first → All (Holds v) second → TellsOf v out.old out.new) }
{
    let mut all = mem::replace(out, Messages::new(alloc)).into_vec();
    let mut first = first.into_vec();
    let mut second = second.into_vec();
    all.append(&mut first)?;
    all.append(&mut second)?;
    *out = Messages::from_vec(all);
    Ok(())
}
