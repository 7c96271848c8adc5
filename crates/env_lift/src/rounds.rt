// A test taken again while it cuts.
#![tactic(auto, using(num_api::proofs::Trees::nexpr_trees))]

ghost use Rattle.std.specs.Prelude.{ℕ, IsTrue, IfOk};
ghost use Rattle.num_api.specs.Exprs.{nexpr_tree};
ghost use Rattle.num_api.specs.Ranges.{IsUnder};
ghost use Rattle.num_api.specs.Plain.{IsPlain, tested};
ghost use Rattle.num_api.specs.Lives.{is_live};
ghost use Rattle.num_api.specs.declared.message.Range.{Range};
ghost use Rattle.env_lift.specs.States.{known_in};
ghost use Rattle.env_lift.specs.Changes.{IsCut, HasTruth};

use crate::cuts::keep_truth;
use crate::map::VarMap;
use num_api::{Live, NExpr, Range, ValueDomain};
use std::alloc::{AllocError as NoMemory, Global};

/// How often a test is taken again at most, after the first time.
const MORE: u64 = 2;

// Puts out the ranges of the variables that the expression reads and that have a value.
fn put_ranges<V: ValueDomain>(
    state: &VarMap<V>,
    e: &NExpr,
    out: &mut Vec<Range>,
) -> Result<(), NoMemory> {
    match e {
        NExpr::Const(_) => Ok(()),
        NExpr::Read(x) => {
            if let Some(value) = state.get(*x) {
                out.push(value.range())?;
            }
            Ok(())
        }
        NExpr::Unary(_, a) => put_ranges(state, a, out),
        NExpr::Binary(_, a, b) => {
            put_ranges(state, a, out)?;
            put_ranges(state, b, out)
        }
    }
}

// The ranges of the variables that the expression reads and that have a value.
fn read_ranges<V: ValueDomain>(
    alloc: Global,
    state: &VarMap<V>,
    e: &NExpr,
) -> Result<Vec<Range>, NoMemory> {
    let mut out = Vec::new(alloc);
    put_ranges(state, e, &mut out)?;
    Ok(out)
}

// Takes the test again, as long as a range that it reads is cut.
fn keep_again<V: ValueDomain>(
    alloc: Global,
    state: &mut VarMap<V>,
    e: &NExpr,
    truth: bool,
) -> Result<Live, NoMemory>
    ensures { IfOk result (IsCut V.admits V.known V.exact state.old state.new (HasTruth (nexpr_tree e.now) truth)) }
{
    let mut before = read_ranges(alloc, state, e)?;
    for _ in 0..MORE {
        match keep_truth(state, e, truth)? {
            Live::Dead => return Ok(Live::Dead),
            Live::Live => {}
        }
        let after = read_ranges(alloc, state, e)?;
        if after == before {
            return Ok(Live::Live);
        }
        before = after;
    }
    Ok(Live::Live)
}

// Keeps the valuations in which the expression has this truth, by one cut, and by two more while these
// cut a range that the expression reads.
pub fn keep_rounds<V: ValueDomain>(
    alloc: Global,
    state: &mut VarMap<V>,
    e: &NExpr,
    truth: bool,
) -> Result<Live, NoMemory>
    ensures cut { IfOk result (IsCut V.admits V.known V.exact state.old state.new (HasTruth (nexpr_tree e.now) truth)) }
    ensures plain { IfOk result (λ live. (given : ℕ → Range) → IsTrue V.exact → IsUnder (known_in V.known state.old) given
        → IsPlain given (nexpr_tree e.now) → IsTrue (is_live live) → IsUnder (known_in V.known state.new) (tested given (nexpr_tree e.now) truth)) }
{
    let before = read_ranges(alloc, state, e)?;
    match keep_truth(state, e, truth)? {
        Live::Dead => return Ok(Live::Dead),
        Live::Live => {}
    }
    let after = read_ranges(alloc, state, e)?;
    if after == before {
        return Ok(Live::Live);
    }
    keep_again(alloc, state, e, truth)
}
