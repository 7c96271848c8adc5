// Variables that are brought in, set and forgotten.

ghost use Rattle.std.specs.Prelude.{◌≡◌, ℕ, ℤ, List, ◌≤◌, ◌<◌, ◌+ℤ◌, neg_ℤ, length, IfOk, OnOk, Some, is_some};
ghost use Rattle.ext_int.specs.Valuation.{value_at};
ghost use Rattle.num_api.specs.Exprs.{nexpr_tree};
ghost use Rattle.num_api.specs.Ranges.{InRange};
ghost use Rattle.num_api.specs.Valuation.{SetTo};
ghost use Rattle.num_api.specs.Value.{value_of};
ghost use Rattle.octagons_linear.specs.Forms.{signed_value};
ghost use Rattle.octagons_pack.specs.Packs.{picked};
ghost use Rattle.octagons_pack.specs.Packs as packs;
ghost use Rattle.octagons_sources.specs.Sources.{IsDrawn};
ghost use Rattle.octagons_changes.specs.States.{Admits, StandsBefore};

use crate::lowering::sum_lowering;
use crate::relations::Relations;
use ext_int::{Ext, add_high, add_low, neg_high, neg_low};
use num_api::{NExpr, Oracle, Range, Var};
use octagons_linear::{Linear, Signed, linear_of, turned};
use octagons_pack::{Change, brought, place_of, without};
use octagons_sources::Source;
use std::alloc::AllocError as NoMemory;

// Of a variable that has a number of the range.
fn ranged(r: Range) -> Source
    ensures { (a : List ℤ) (n : ℤ) → InRange r n → IsDrawn result a n }
{
    Source {
        place: None,
        negated: false,
        lo: r.lo,
        hi: r.hi,
    }
}

// Whether the range has an end.
fn says_something(r: Range) -> bool {
    match (r.lo, r.hi) {
        (Ext::Low, Ext::High) => false,
        _ => true,
    }
}

// The range of a variable with its sign.
fn range_of<O: Oracle>(ask: &O, s: Signed) -> Range
    ensures { (v : List ℤ) → O.admits ask.now v → InRange result (signed_value v s) }
{
    let r = ask.range(&NExpr::Read(Var(s.var)));
    if s.negated {
        Range {
            lo: neg_low(r.hi),
            hi: neg_high(r.lo),
        }
    } else {
        r
    }
}

// The range with a number added.
fn moved(r: Range, n: i128) -> Range
    ensures { (x : ℤ) → InRange r x → InRange result (x +ℤ n) }
{
    Range {
        lo: add_low(r.lo, Ext::Fin(n)),
        hi: add_high(r.hi, Ext::Fin(n)),
    }
}

impl Relations {
    // Makes a variable one of the two that were used latest. One that was not there comes in with a range, and
    // where there is no room the one that was used longest ago goes.
    pub(crate) fn bring(&mut self, x: u64, r: Range) -> Result<(), NoMemory>
        ensures first { OnOk result (StandsBefore 2 x self.new.pack) }
        ensures stays { OnOk result ((y : ℕ) → StandsBefore 2 y self.old.pack → StandsBefore 3 y self.new.pack) }
        ensures points { OnOk result ((v : List ℤ) → Admits self.old v → InRange r (value_at v x) → Admits self.new v) }
    {
        match place_of(self.pack(), x) {
            Some(k) if k < 2 => Ok(()),
            Some(_) => self.redraw(brought(self.alloc, self.pack(), x)?, None),
            None => self.set(x, ranged(r)),
        }
    }

    // Sets a variable to what a source makes of the numbers of the pack.
    fn set(&mut self, x: u64, source: Source) -> Result<(), NoMemory>
        ensures pack { OnOk result (self.new.pack ≡ packs.brought x self.old.pack) }
        ensures points { OnOk result ((v w : List ℤ) (n : ℤ) → Admits self.old v → IsDrawn source (picked v self.old.pack) n → SetTo x n v w → Admits self.new w) }
    {
        let pack = brought(self.alloc, self.pack(), x)?;
        self.redraw(pack, Some(Change { var: x, source }))
    }

    /// Forgets a variable. What is known of the others by way of it is kept.
    pub fn forget(&mut self, x: u64) -> Result<(), NoMemory>
        ensures points { OnOk result ((v w : List ℤ) (n : ℤ) → Admits self.old v → SetTo x n v w → Admits self.new w) }
    {
        if place_of(self.pack(), x).is_none() {
            return Ok(());
        }
        let pack = without(self.alloc, self.pack(), x)?;
        let source = Source::any();
        self.redraw(pack, Some(Change { var: x, source }))
    }

    /// Gives a variable any number of a range.
    pub fn set_within(&mut self, x: u64, r: Range) -> Result<(), NoMemory>
        ensures points { OnOk result ((v w : List ℤ) (n : ℤ) → Admits self.old v → InRange r n → SetTo x n v w → Admits self.new w) }
    {
        if self.has(x) && says_something(r) {
            self.set(x, ranged(r))
        } else {
            self.forget(x)
        }
    }

    // Gives a variable the number of another one, with its sign, and a number of a range more. The two are then
    // the ones that were used latest.
    fn set_by(&mut self, x: u64, s: Signed, r: Range) -> Result<(), NoMemory>
        ensures points { OnOk result ((v w : List ℤ) (n : ℤ) → Admits self.old v → InRange r (n +ℤ neg_ℤ (signed_value v s)) → SetTo x n v w → Admits self.new w) }
    {
        match place_of(self.pack(), s.var) {
            Some(k) => self.set_from(x, s, k, r),
            None => self.forget(x),
        }
    }

    // Sets a variable by another one at a place.
    fn set_from(&mut self, x: u64, s: Signed, k: u8, r: Range) -> Result<(), NoMemory>
        requires place { k < length self.old.pack }
        requires here { packs.at self.old.pack k ≡ s.var }
        ensures points { OnOk result ((v w : List ℤ) (n : ℤ) → Admits self.old v → InRange r (n +ℤ neg_ℤ (signed_value v s)) → SetTo x n v w → Admits self.new w) }
    {
        let source = Source {
            place: Some(k),
            negated: s.negated,
            lo: r.lo,
            hi: r.hi,
        };
        let pack = self.two_first(x, s.var)?;
        self.redraw(pack, Some(Change { var: x, source }))
    }

    // The pack with two variables as the ones that were used latest.
    pub(crate) fn two_first(&self, x: u64, y: u64) -> Result<Vec<u64>, NoMemory>
        ensures { IfOk result (λ p. length p.items ≤ 24) }
    {
        let used = brought(self.alloc, self.pack(), y)?;
        brought(self.alloc, used.as_slice(), x)
    }

    // Bounds the difference of a variable and another one, with its sign, by a range.
    fn tie(&mut self, x: u64, t: Signed, r: Range) -> Result<(), NoMemory>
        ensures points { OnOk result ((v : List ℤ) → Admits self.old v → InRange r (value_at v x +ℤ neg_ℤ (signed_value v t)) → Admits self.new v) }
    {
        let here = Signed {
            var: x,
            negated: false,
        };
        let _live = self.lower(sum_lowering(self.pack(), here, turned(t), r.hi))?;
        let _live = self.lower(sum_lowering(self.pack(), turned(here), t, neg_high(r.lo)))?;
        Ok(())
    }

    // Brings a variable in with the range that the oracle knows.
    pub(crate) fn bring_known<O: Oracle>(&mut self, x: u64, ask: &O) -> Result<(), NoMemory>
        ensures first { OnOk result (StandsBefore 2 x self.new.pack) }
        ensures stays { OnOk result ((y : ℕ) → StandsBefore 2 y self.old.pack → StandsBefore 3 y self.new.pack) }
        ensures points { OnOk result ((v : List ℤ) → Admits self.old v → O.admits ask.now v → Admits self.new v) }
    {
        self.bring(x, ask.range(&NExpr::Read(Var(x))))
    }

    // Brings in the variable from which another one is set, if it is another one and not there.
    fn bring_other<O: Oracle>(&mut self, y: u64, x: u64, ask: &O) -> Result<(), NoMemory>
        ensures { OnOk result ((v : List ℤ) → Admits self.old v → O.admits ask.now v → Admits self.new v) }
    {
        if y == x || self.has(y) {
            return Ok(());
        }
        self.bring_known(y, ask)
    }

    // Gives a variable the number of another one, with its sign, and a number more.
    fn assign_one<O: Oracle>(&mut self, x: u64, s: Signed, n: i128, ask: &O) -> Result<(), NoMemory>
        ensures points { OnOk result ((v w : List ℤ) (m : ℤ) → Admits self.old v → O.admits ask.now v → m ≡ (signed_value v s +ℤ n) → SetTo x m v w → Admits self.new w) }
    {
        self.bring_other(s.var, x, ask)?;
        self.set_by(x, s, Range::point(n))
    }

    // Whether the variable is in the pack.
    pub(crate) fn has(&self, x: u64) -> bool
        ensures { result ≡ is_some (packs.place_in x self.now.pack) }
    {
        place_of(self.pack(), x).is_some()
    }

    // Whether a variable that is set to a sum is drawn from the first of its variables and tied to the second:
    // only one that is not set can be tied.
    fn is_base(&self, x: u64, s: Signed, t: Signed) -> bool {
        self.has(s.var) && (t.var != x || !self.has(x))
    }

    // Gives a variable the sum of two variables, each with its sign, and a number.
    fn assign_two<O: Oracle>(
        &mut self,
        x: u64,
        s: Signed,
        t: Signed,
        n: i128,
        ask: &O,
    ) -> Result<(), NoMemory>
        ensures points { OnOk result ((v w : List ℤ) (m : ℤ) → Admits self.old v → O.admits ask.now v → m ≡ ((signed_value v s +ℤ signed_value v t) +ℤ n) → SetTo x m v w → Admits self.new w) }
    {
        let first = range_of(ask, s);
        let second = range_of(ask, t);
        self.set_by(x, s, moved(second, n))?;
        if t.var == x {
            return Ok(());
        }
        self.tie(x, t, moved(first, n))
    }

    /// Gives a variable the value of an expression. What is not read as a sum of variables is known by the
    /// range that the oracle answers.
    pub fn assign<O: Oracle>(&mut self, x: u64, e: &NExpr, ask: &O) -> Result<(), NoMemory>
        ensures points { OnOk result ((v w : List ℤ) (n : ℤ) → Admits self.old v → O.admits ask.now v → value_of v (nexpr_tree e.now) ≡ Some n → SetTo x n v w → Admits self.new w) }
    {
        match linear_of(e) {
            Some(Linear::Number(n)) => self.set_within(x, Range::point(n)),
            Some(Linear::One(s, n)) => self.assign_one(x, s, n, ask),
            Some(Linear::Two(s, t, n)) if self.is_base(x, s, t) => {
                self.assign_two(x, s, t, n, ask)
            }
            Some(Linear::Two(s, t, n)) if self.is_base(x, t, s) => {
                self.assign_two(x, t, s, n, ask)
            }
            _ => self.set_within(x, ask.range(e)),
        }
    }
}
