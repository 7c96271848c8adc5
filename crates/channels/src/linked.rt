// The domain of two sides.

ghost use Rattle.std.specs.Prelude.{◌≡◌, ◌≢◌, ℕ, ℤ, List, ◌+◌, ◌&&◌, false, IsTrue, IfOk, OnOk, Some, All};
ghost use Rattle.num_api.specs.Exprs.{nexpr_tree};
ghost use Rattle.num_api.specs.Value.{value_of, has_truth, AllFit};
ghost use Rattle.num_api.specs.Ranges.{IsPoint, IsUnder, all_numbers, holds_some, with_range};
ghost use Rattle.num_api.specs.Valuation.{SetTo};
ghost use Rattle.num_api.specs.Messages.{Adds, TellsOf, put_out};
ghost use Rattle.num_api.specs.Known.{IsSharp, IsSharpOn};
ghost use Rattle.num_api.specs.Lives.{is_live};
ghost use Rattle.num_api.specs.Spans.{Span, range_of};
ghost use Rattle.num_api.specs.Plain.{plain, IsPlain, MayDivide, excludes, tested};
ghost use Rattle.num_api.specs.declared.message.Range.{Range};
ghost use Rattle.channels.specs.Links.{NoWiderThanSome, IsOfSides, MeetsSome};
ghost use Rattle.channels.specs.Hearing.{IsHeard};

use crate::both::{Both, in_both, in_both_classes};
use crate::delivery::{deliver_ranges, exchange, put_out};
use num_api::{
    Exact, Live, Message, Messages, NExpr, NumDomain, NumFacts, Oracle, Ramp, Range, Residue,
    Steps, Var,
};
use std::alloc::{AllocError as NoMemory, Global};

/// The valuations that both sides admit.
#[derive(Drop)]
pub struct Linked<A, B> {
    alloc: Global,
    first: A,
    second: B,
}

impl<A: Oracle, B: Oracle> Oracle for Linked<A, B> {
    ghost admits = { λ s v. A.admits s.first v × B.admits s.second v };

    ghost exact = { A.exact };

    ghost known = { λ s x. A.known s.first x };

    ghost known_holds = { λ s v x a. A.known_holds s.first v x a.0 };

    ghost known_some = { λ s x e. A.known_some s.first x e };

    ghost may_range = { λ s e r. NoWiderThanSome (A.may_range s.first e) r × NoWiderThanSome (B.may_range s.second e) r };

    ghost may_residue = { λ s e r. MeetsSome (A.may_residue s.first e) (B.may_residue s.second e) r };

    ghost may_be_same = { λ s x e. IsOfSides (A.may_be_same s.first x) (B.may_be_same s.second x) e };

    fn range(&self, e: &NExpr) -> Range {
        in_both(self.first.range(e), self.second.range(e))
    }

    fn residue(&self, e: &NExpr) -> Residue {
        in_both_classes(self.first.residue(e), self.second.residue(e))
    }

    fn same(&self, x: Var) -> Option<&NExpr> {
        match self.first.same(x) {
            Some(e) => Some(e),
            None => self.second.same(x),
        }
    }
}

impl<A: NumDomain, B: NumDomain> NumDomain for Linked<A, B> {
    ghost holds = { λ s t. A.holds s.first t.first && B.holds s.second t.second };

    ghost weight = { λ steps s. A.weight steps s.first + B.weight steps s.second };

    fn top(alloc: Global) -> Self {
        Linked {
            alloc,
            first: A::top(alloc),
            second: B::top(alloc),
        }
    }

    fn copy(&self) -> Result<Self, NoMemory> {
        Ok(Linked {
            alloc: self.alloc,
            first: self.first.copy()?,
            second: self.second.copy()?,
        })
    }

    fn assign<O: Oracle>(
        &mut self,
        x: Var,
        e: &NExpr,
        ask: &O,
        out: &mut Messages,
    ) -> Result<(), NoMemory>
        ensures after { OnOk result ((v w : List ℤ) (n : ℤ) → (A.admits self.old.first v × B.admits self.old.second v) → O.admits ask.now v → value_of v (nexpr_tree e.now) ≡ Some n
            → SetTo x.0 n v w → (A.admits self.new.first w × B.admits self.new.second w)) }
        ensures kept { OnOk result (Adds out.old out.new) }
        ensures told { OnOk result ((v w : List ℤ) (n : ℤ) → (A.admits self.old.first v × B.admits self.old.second v) → O.admits ask.now v → value_of v (nexpr_tree e.now) ≡ Some n
            → SetTo x.0 n v w → TellsOf w out.old out.new) }
        ensures sharp_here { OnOk result ((v : List ℤ) (n : ℤ) → IsTrue A.exact → (A.admits self.old.first v × B.admits self.old.second v) → O.admits ask.now v
            → IsSharpOn (A.known self.old.first) v (nexpr_tree e.now) → AllFit v (nexpr_tree e.now) → value_of v (nexpr_tree e.now) ≡ Some n
            → IsPoint (A.known self.new.first x.0) n) }
        ensures sharp_others { OnOk result ((v : List ℤ) (n : ℤ) (y : ℕ) → IsTrue A.exact → (A.admits self.old.first v × B.admits self.old.second v) → O.admits ask.now v
            → IsSharpOn (A.known self.old.first) v (nexpr_tree e.now) → AllFit v (nexpr_tree e.now) → value_of v (nexpr_tree e.now) ≡ Some n → y ≢ x.0
            → IsSharp (A.known self.old.first) v y → IsSharp (A.known self.new.first) v y) }
        ensures plain { OnOk result ((given : ℕ → Range) (s : Span) → IsTrue A.exact → IsUnder (A.known self.old.first) given → IsPlain given (nexpr_tree e.now)
            → MayDivide (A.known self.old.first) given (nexpr_tree e.now) → plain given (nexpr_tree e.now) ≡ Some s
            → IsUnder (A.known self.new.first) (with_range given x.0 (range_of s))) }
        ensures others { OnOk result ((given : ℕ → Range) → IsTrue A.exact → IsUnder (A.known self.old.first) given
            → IsUnder (A.known self.new.first) (with_range given x.0 all_numbers)) }

        // What the call puts out, the first side has heard, wherever the assignment is made.
        ensures heard { OnOk result ((v w : List ℤ) (n : ℤ) → IsTrue A.exact → (A.admits self.old.first v × B.admits self.old.second v) → O.admits ask.now v
            → value_of v (nexpr_tree e.now) ≡ Some n → SetTo x.0 n v w → All (IsHeard (A.known self.new.first)) (put_out out.old out.new)) }
    {
        let mut from_second = Messages::new(self.alloc);
        {
            let asked = Both {
                left: ask,
                right: &self.first,
            };
            self.second.assign(x, e, &asked, &mut from_second)?;
        }
        let mut from_first = Messages::new(self.alloc);
        self.first.assign(x, e, ask, &mut from_first)?;
        let _live = exchange(
            &mut self.first,
            &mut self.second,
            from_first.as_slice(),
            from_second.as_slice(),
        )?;
        let _again = deliver_ranges(&mut self.first, from_first.as_slice())?;
        put_out(self.alloc, from_first, from_second, out)?;
        Ok(())
    }

    fn havoc(&mut self, x: Var, r: Range) -> Result<(), NoMemory> {
        self.first.havoc(x, r)?;
        self.second.havoc(x, r)
    }

    fn forget(&mut self, x: Var) -> Result<(), NoMemory> {
        self.first.forget(x)?;
        self.second.forget(x)
    }

    fn assume<O: Oracle>(
        &mut self,
        e: &NExpr,
        truth: bool,
        ask: &O,
        out: &mut Messages,
    ) -> Result<Live, NoMemory>
        ensures after { IfOk result (λ live. (v : List ℤ) (n : ℤ) → (A.admits self.old.first v × B.admits self.old.second v) → O.admits ask.now v
            → value_of v (nexpr_tree e.now) ≡ Some n → IsTrue (has_truth truth n)
            → IsTrue (is_live live) × (A.admits self.new.first v × B.admits self.new.second v)) }
        ensures kept { OnOk result (Adds out.old out.new) }
        ensures told { OnOk result ((v : List ℤ) (n : ℤ) → (A.admits self.old.first v × B.admits self.old.second v) → O.admits ask.now v
            → value_of v (nexpr_tree e.now) ≡ Some n → IsTrue (has_truth truth n) → TellsOf v out.old out.new) }
        ensures sharp_dead { IfOk result (λ live. (v : List ℤ) (n : ℤ) → IsTrue A.exact → (A.admits self.old.first v × B.admits self.old.second v)
            → O.admits ask.now v → IsSharpOn (A.known self.old.first) v (nexpr_tree e.now) → AllFit v (nexpr_tree e.now)
            → value_of v (nexpr_tree e.now) ≡ Some n → has_truth truth n ≡ false → is_live live ≡ false) }
        ensures sharp_live { IfOk result (λ live. (v : List ℤ) (n : ℤ) (y : ℕ) → IsTrue A.exact → (A.admits self.old.first v × B.admits self.old.second v)
            → O.admits ask.now v → IsSharpOn (A.known self.old.first) v (nexpr_tree e.now) → AllFit v (nexpr_tree e.now)
            → value_of v (nexpr_tree e.now) ≡ Some n → IsTrue (is_live live) → IsSharp (A.known self.old.first) v y → IsSharp (A.known self.new.first) v y) }
        ensures plain_dead { IfOk result (λ live. (given : ℕ → Range) (s : Span) → IsTrue A.exact → IsUnder (A.known self.old.first) given
            → IsPlain given (nexpr_tree e.now) → plain given (nexpr_tree e.now) ≡ Some s → IsTrue (excludes truth s) → is_live live ≡ false) }
        ensures plain_none { IfOk result (λ live. (given : ℕ → Range) (x : ℕ) → IsTrue A.exact → IsUnder (A.known self.old.first) given
            → IsPlain given (nexpr_tree e.now) → holds_some (tested given (nexpr_tree e.now) truth x) ≡ false → is_live live ≡ false) }
        ensures plain_live { IfOk result (λ live. (given : ℕ → Range) → IsTrue A.exact → IsUnder (A.known self.old.first) given
            → IsPlain given (nexpr_tree e.now) → IsTrue (is_live live) → IsUnder (A.known self.new.first) (tested given (nexpr_tree e.now) truth)) }
        ensures narrows { IfOk result (λ live. (given : ℕ → Range) → IsTrue A.exact → IsUnder (A.known self.old.first) given → IsTrue (is_live live)
            → IsUnder (A.known self.new.first) given) }

        // What the call puts out, the first side has heard.
        ensures heard { IfOk result (λ live. IsTrue (is_live live) → IsTrue A.exact → All (IsHeard (A.known self.new.first)) (put_out out.old out.new)) }
    {
        let mut from_second = Messages::new(self.alloc);
        {
            let asked = Both {
                left: ask,
                right: &self.first,
            };
            match self.second.assume(e, truth, &asked, &mut from_second)? {
                Live::Dead => return Ok(Live::Dead),
                Live::Live => {}
            }
        }
        let mut from_first = Messages::new(self.alloc);
        match self.first.assume(e, truth, ask, &mut from_first)? {
            Live::Dead => return Ok(Live::Dead),
            Live::Live => {}
        }
        match exchange(
            &mut self.first,
            &mut self.second,
            from_first.as_slice(),
            from_second.as_slice(),
        )? {
            Live::Dead => return Ok(Live::Dead),
            Live::Live => {}
        }
        let live = deliver_ranges(&mut self.first, from_first.as_slice())?;
        put_out(self.alloc, from_first, from_second, out)?;
        Ok(live)
    }

    fn accept(&mut self, m: &Message) -> Result<Live, NoMemory> {
        match self.first.accept(m)? {
            Live::Dead => Ok(Live::Dead),
            Live::Live => self.second.accept(m),
        }
    }

    fn join(&mut self, other: &Self) -> Result<(), NoMemory> {
        self.first.join(&other.first)?;
        self.second.join(&other.second)
    }

    fn widen<U: Fn(i128) -> Option<i128>, S: Steps>(
        &mut self,
        next: &Self,
        ramp: &Ramp<U>,
    ) -> Result<(), NoMemory> {
        self.first.widen::<U, S>(&next.first, ramp)?;
        self.second.widen::<U, S>(&next.second, ramp)
    }

    fn covers(&self, other: &Self) -> bool {
        self.first.covers(&other.first) && self.second.covers(&other.second)
    }

    fn facts(&self, out: &mut NumFacts) -> Result<(), NoMemory> {
        self.first.facts(out)?;
        self.second.facts(out)?;
        Ok(())
    }
}

impl<A: Exact, B: NumDomain> Exact for Linked<A, B> {
    ghost is_exact = { A.is_exact };
}
