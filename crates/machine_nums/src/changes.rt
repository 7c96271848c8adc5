// Changes of a state of a numeric domain by expressions of C.
#![tactic(auto, using(crate::proofs::Trees::mexpr_trees, num_api::proofs::Trees::nexpr_trees))]

ghost use Rattle.std.specs.Prelude.{◌≡◌, ◌≢◌, ℕ, ℤ, List, IsTrue, false, IfOk, OnOk, Some};
ghost use Rattle.num_api.specs.Known.{IsSharp};
ghost use Rattle.num_api.specs.Lives.{is_live};
ghost use Rattle.num_api.specs.Plain.{excludes};
ghost use Rattle.num_api.specs.Ranges.{IsPoint, NoWider, IsUnder, with_range};
ghost use Rattle.num_api.specs.Spans.{Span, range_of};
ghost use Rattle.num_api.specs.Valuation.{SetTo};
ghost use Rattle.num_api.specs.Value.{has_truth};
ghost use Rattle.num_api.specs.declared.message.Range.{Range};
ghost use Rattle.machine_nums.specs.Cuts.{HoldsCut, HoldCuts, IsCutBy, AreCutBy};
ghost use Rattle.machine_nums.specs.MExprs.{mexpr_tree, type_of, OnVariables};
ghost use Rattle.machine_nums.specs.Machine.{machine_value, PartsFit};
ghost use Rattle.machine_nums.specs.Own.{IsInside, OwnAnswers};
ghost use Rattle.machine_nums.specs.Parts.{Tells, Shows};
ghost use Rattle.machine_nums.specs.Rule.{value_span, tested};

use crate::MExpr;
use crate::cuts::{Cut, Cuts, cuts_of};
use crate::evaluation::value;
use crate::parts::Part;
use num_api::{Live, Message, Messages, NumDomain, Unknowing, Var, may_be};
use std::alloc::{AllocError as NoMemory, Global};

// Gives the variable the value of the part, and then cuts it by the part's range; `Dead` only where there is no
// valuation.
pub fn assign<D: NumDomain>(
    alloc: Global,
    state: &mut D,
    x: Var,
    part: &Part,
) -> Result<Live, NoMemory>
    ensures after { IfOk result (λ live. (v w : List ℤ) (n : ℤ) → D.admits state.old v → Tells v part.now n → SetTo x.0 n v w
        → IsTrue (is_live live) × D.admits state.new w) }
    ensures sharp_here { OnOk result ((v : List ℤ) (n : ℤ) → IsTrue D.exact → D.admits state.old v → Tells v part.now n
        → Shows (D.known state.old) v part.now n → IsPoint (D.known state.new x.0) n) }
    ensures sharp_others { OnOk result ((v : List ℤ) (n : ℤ) (y : ℕ) → IsTrue D.exact → D.admits state.old v → Tells v part.now n
        → Shows (D.known state.old) v part.now n → y ≢ x.0 → IsSharp (D.known state.old) v y → IsSharp (D.known state.new) v y) }
    ensures plain { IfOk result (λ live. (given : ℕ → Range) → IsTrue D.exact → IsUnder (D.known state.old) given → IsTrue (is_live live)
        → IsUnder (D.known state.new) (with_range given x.0 part.now.range)) }
{
    let mut out = Messages::new(alloc);
    state.assign(x, &part.plain, &Unknowing, &mut out)?;
    state.accept(&Message::Between(x, part.range))
}

// Keeps the valuations in which the cut holds; `Dead` only where there is none.
fn keep<D: NumDomain>(state: &mut D, cut: Option<Cut>) -> Result<Live, NoMemory>
    ensures after { IfOk result (λ live. (v : List ℤ) → D.admits state.old v → HoldsCut v cut → IsTrue (is_live live) × D.admits state.new v) }
    ensures sharp { OnOk result ((v : List ℤ) (y : ℕ) → IsTrue D.exact → D.admits state.old v → HoldsCut v cut → IsSharp (D.known state.old) v y
        → IsSharp (D.known state.new) v y) }
    ensures narrows { OnOk result ((given : ℕ → Range) → IsTrue D.exact → IsUnder (D.known state.old) given → IsUnder (D.known state.new) given) }
    ensures cut { IfOk result (λ live. IsTrue D.exact → IsTrue (is_live live) → IsCutBy (D.known state.new) cut) }
{
    match cut {
        Some(cut) => state.accept(&Message::Between(cut.x, cut.range)),
        None => Ok(Live::Live),
    }
}

// Keeps the valuations in which both cuts hold; `Dead` only where there is none.
fn keep_both<D: NumDomain>(state: &mut D, cuts: Cuts) -> Result<Live, NoMemory>
    ensures after { IfOk result (λ live. (v : List ℤ) → D.admits state.old v → HoldCuts v cuts → IsTrue (is_live live) × D.admits state.new v) }
    ensures sharp { IfOk result (λ live. (v : List ℤ) (y : ℕ) → IsTrue D.exact → IsTrue (is_live live) → D.admits state.old v → HoldCuts v cuts
        → IsSharp (D.known state.old) v y → IsSharp (D.known state.new) v y) }
    ensures narrows { OnOk result ((given : ℕ → Range) → IsTrue D.exact → IsUnder (D.known state.old) given → IsUnder (D.known state.new) given) }
    ensures cut { IfOk result (λ live. IsTrue D.exact → IsTrue (is_live live) → AreCutBy (D.known state.new) cuts) }
{
    match keep(state, cuts.left)? {
        Live::Dead => return Ok(Live::Dead),
        Live::Live => {}
    }
    keep(state, cuts.right)
}

// Keeps the valuations in which the expression's value has this truth; `Dead` only where there is none.
pub fn keep_truth<D: NumDomain>(
    alloc: Global,
    state: &mut D,
    e: &MExpr,
    truth: bool,
) -> Result<Live, NoMemory>
    ensures after { IfOk result (λ live. (v : List ℤ) (n : ℤ) → D.admits state.old v → machine_value v (mexpr_tree e.now) ≡ Some n
        → IsTrue (has_truth truth n) → IsTrue (is_live live) × D.admits state.new v) }
    ensures sharp_dead { IfOk result (λ live. (v : List ℤ) (n : ℤ) → IsTrue D.exact → D.admits state.old v
        → OnVariables (IsSharp (D.known state.old) v) (mexpr_tree e.now) → PartsFit v (mexpr_tree e.now) → machine_value v (mexpr_tree e.now) ≡ Some n
        → has_truth truth n ≡ false → is_live live ≡ false) }
    ensures sharp_live { IfOk result (λ live. (v : List ℤ) (n : ℤ) (y : ℕ) → IsTrue D.exact → D.admits state.old v
        → OnVariables (IsSharp (D.known state.old) v) (mexpr_tree e.now) → PartsFit v (mexpr_tree e.now) → machine_value v (mexpr_tree e.now) ≡ Some n
        → IsTrue (is_live live) → IsSharp (D.known state.old) v y → IsSharp (D.known state.new) v y) }
    ensures plain_dead { IfOk result (λ live. (given : ℕ → Range) → IsTrue D.exact → IsUnder (D.known state.old) given
        → IsTrue (excludes truth (value_span given (mexpr_tree e.now))) → is_live live ≡ false) }
    ensures plain_live { IfOk result (λ live. (given : ℕ → Range) → IsTrue D.exact → IsUnder (D.known state.old) given → IsTrue (is_live live)
        → IsUnder (D.known state.new) (tested given (mexpr_tree e.now) truth)) }
    ensures own { IfOk result (λ live. OwnAnswers (D.may_range state.old) (mexpr_tree e.now) (λ r. IsInside (type_of (mexpr_tree e.now)) r
        → (s : Span) → NoWider r (range_of s) → IsTrue (excludes truth s) → is_live live ≡ false)) }
{
    let part = value(alloc, state, e)?;
    if !may_be(part.range, truth) {
        return Ok(Live::Dead);
    }
    let cuts = cuts_of(alloc, state, e, truth)?;
    let mut out = Messages::new(alloc);
    match state.assume(&part.plain, truth, &Unknowing, &mut out)? {
        Live::Dead => return Ok(Live::Dead),
        Live::Live => {}
    }
    keep_both(state, cuts)
}
