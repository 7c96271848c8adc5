// The state and its calls.
#![tactic(auto, using(num_api::proofs::Trees::nexpr_trees))]

ghost use Rattle.std.specs.Prelude.{◌≡◌, ◌≤◌, ℤ, List, [], length, false, IsTrue, IfOk, OnOk, Some};
ghost use Rattle.num_api.specs.Exprs.{nexpr_tree};
ghost use Rattle.num_api.specs.Lives.{is_live};
ghost use Rattle.num_api.specs.Messages.{Holds, Adds, TellsOf};
ghost use Rattle.num_api.specs.Ranges.{InRange};
ghost use Rattle.num_api.specs.Reading.{reads};
ghost use Rattle.num_api.specs.Valuation.{SetTo};
ghost use Rattle.num_api.specs.Value.{value_of, has_truth};
ghost use Rattle.equalities.specs.Pairs.{AreSo, accepted, all_among, apart_from, assigned, expr_of, shared, told_by, with_told};

use crate::changes::{keep_apart, keep_shared, learn, set_pair, told_by};
use crate::pairs::{Equation, all_there, copy_all, find};
use crate::telling::{tell_all, tell_test};
use num_api::{
    Live, Message, Messages, NExpr, NumDomain, NumFacts, Oracle, Ramp, Range, Residue, Steps, Var,
};
use std::alloc::{AllocError as NoMemory, Global};
use std::marker::Model;

/// Equalities between a variable and an expression each, at most 64. A contract sees the list of them, the
/// newest first.
#[derive(Drop)]
pub struct Equalities {
    alloc: Global,
    pairs: Vec<Equation>,
}

impl Model for Equalities {
    ghost use Rattle.std.specs.Prelude.{◌≤◌, List, length};
    ghost use Rattle.equalities.specs.Pairs.{Equality, equalities_of};
    ghost use Rattle.equalities.specs.Codes.{equalities_code};

    ghost Value = { List Equality };

    ghost coded = { equalities_code };

    ghost view = { λ s. equalities_of s.pairs.items };
}

impl Oracle for Equalities {
    ghost use Rattle.std.specs.Prelude.{◌≡◌, false, refl};
    ghost use Rattle.num_api.specs.Ranges.{all_numbers};
    ghost use Rattle.equalities.specs.Pairs.{AreSo, expr_of};

    ghost admits = { λ s v. AreSo v s };

    ghost exact = { false };

    ghost known = { λ s x. all_numbers };

    ghost known_holds = { λ s v x a. record { low = tt; high = tt } };

    ghost known_some = { λ s x e. refl };

    ghost may_range = { λ s e r. Unit {0} };

    ghost may_residue = { λ s e r. Unit {0} };

    ghost may_be_same = { λ s x e. expr_of s x ≡ e };

    /// All numbers.
    fn range(&self, _e: &NExpr) -> Range {
        Range::all()
    }

    /// The class of all numbers.
    fn residue(&self, _e: &NExpr) -> Residue {
        Residue { rem: 0, modulus: 1 }
    }

    /// The expression that the variable equals, the newest of those that are kept.
    fn same(&self, x: Var) -> Option<&NExpr> {
        find(self.pairs.as_slice(), x)
    }
}

impl NumDomain for Equalities {
    ghost use Rattle.std.specs.Prelude.{length, false};
    ghost use Rattle.equalities.specs.Pairs.{all_among};

    ghost holds = { λ s t. all_among s t };

    ghost weight = { λ steps s. length s };

    fn top(alloc: Global) -> Self
        ensures pairs { result ≡ [] }
        ensures all { (v : List ℤ) → AreSo v result }
    {
        Equalities {
            alloc,
            pairs: Vec::new(alloc),
        }
    }

    fn copy(&self) -> Result<Self, NoMemory> {
        Ok(Equalities {
            alloc: self.alloc,
            pairs: copy_all(self.alloc, self.pairs.as_slice())?,
        })
    }

    fn assign<O: Oracle>(
        &mut self,
        x: Var,
        e: &NExpr,
        _ask: &O,
        _out: &mut Messages,
    ) -> Result<(), NoMemory>
        ensures pairs { OnOk result (self.new ≡ assigned x.0 (nexpr_tree e.now) self.old) }
        ensures same { OnOk result (reads x.0 (nexpr_tree e.now) ≡ false → expr_of self.new x.0 ≡ Some (nexpr_tree e.now)) }
        ensures after { OnOk result
            ((v w : List ℤ) (n : ℤ) → AreSo v self.old → O.admits _ask.now v → value_of v (nexpr_tree e.now) ≡ Some n → SetTo x.0 n v w → AreSo w self.new) }
        ensures kept { OnOk result (Adds _out.old _out.new) }
        ensures told { OnOk result
            ((v w : List ℤ) (n : ℤ) → AreSo v self.old → O.admits _ask.now v → value_of v (nexpr_tree e.now) ≡ Some n → SetTo x.0 n v w
            → TellsOf w _out.old _out.new) }
    {
        set_pair(self.alloc, &mut self.pairs, x, e)?;
        Ok(())
    }

    fn havoc(&mut self, x: Var, _r: Range) -> Result<(), NoMemory>
        ensures pairs { OnOk result (self.new ≡ apart_from x.0 self.old) }
        ensures after { OnOk result ((v w : List ℤ) (n : ℤ) → AreSo v self.old → InRange _r n → SetTo x.0 n v w → AreSo w self.new) }
    {
        keep_apart(&mut self.pairs, x);
        Ok(())
    }

    fn forget(&mut self, x: Var) -> Result<(), NoMemory>
        ensures pairs { OnOk result (self.new ≡ apart_from x.0 self.old) }
        ensures after { OnOk result ((v w : List ℤ) (n : ℤ) → AreSo v self.old → SetTo x.0 n v w → AreSo w self.new) }
    {
        keep_apart(&mut self.pairs, x);
        Ok(())
    }

    /// Puts out what the equalities say of the test, and keeps the equality that it tells.
    fn assume<O: Oracle>(
        &mut self,
        e: &NExpr,
        truth: bool,
        ask: &O,
        out: &mut Messages,
    ) -> Result<Live, NoMemory>
        ensures pairs { OnOk result (self.new ≡ with_told (told_by (nexpr_tree e.now) truth) self.old) }
        ensures after { IfOk result (λ live. (v : List ℤ) (n : ℤ) → AreSo v self.old → O.admits ask.now v → value_of v (nexpr_tree e.now) ≡ Some n
            → IsTrue (has_truth truth n) → IsTrue (is_live live) × AreSo v self.new) }
        ensures kept { OnOk result (Adds out.old out.new) }
        ensures told { OnOk result ((v : List ℤ) (n : ℤ) → AreSo v self.old → O.admits ask.now v → value_of v (nexpr_tree e.now) ≡ Some n
            → IsTrue (has_truth truth n) → TellsOf v out.old out.new) }
    {
        tell_test(self.alloc, self.pairs.as_slice(), e, truth, ask, out)?;
        let Some((x, same)) = told_by(e, truth) else {
            return Ok(Live::Live);
        };
        learn(self.alloc, &mut self.pairs, x, same)?;
        Ok(Live::Live)
    }

    fn accept(&mut self, m: &Message) -> Result<Live, NoMemory>
        ensures pairs { OnOk result (self.new ≡ accepted m.now self.old) }
        ensures after { IfOk result (λ live. (v : List ℤ) → AreSo v self.old → Holds v m.now → IsTrue (is_live live) × AreSo v self.new) }
    {
        match m {
            Message::Equal(x, e) => {
                learn(self.alloc, &mut self.pairs, *x, e)?;
                Ok(Live::Live)
            }
            Message::Between(_, _) => Ok(Live::Live),
            Message::Class(_, _) => Ok(Live::Live),
            Message::AtMost { .. } => Ok(Live::Live),
        }
    }

    fn join(&mut self, other: &Self) -> Result<(), NoMemory>
        ensures pairs { OnOk result (self.new ≡ shared self.old other.now) }
        ensures left { OnOk result ((v : List ℤ) → AreSo v self.old → AreSo v self.new) }
        ensures right { OnOk result ((v : List ℤ) → AreSo v other.now → AreSo v self.new) }
    {
        keep_shared(&mut self.pairs, other.pairs.as_slice());
        Ok(())
    }

    fn widen<U: Fn(i128) -> Option<i128>, S: Steps>(
        &mut self,
        next: &Self,
        _ramp: &Ramp<U>,
    ) -> Result<(), NoMemory> {
        keep_shared(&mut self.pairs, next.pairs.as_slice());
        Ok(())
    }

    fn covers(&self, other: &Self) -> bool {
        all_there(self.pairs.as_slice(), other.pairs.as_slice())
    }

    fn facts(&self, out: &mut NumFacts) -> Result<(), NoMemory> {
        tell_all(self.alloc, self.pairs.as_slice(), out)?;
        Ok(())
    }
}
