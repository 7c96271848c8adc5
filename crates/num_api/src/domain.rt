// Sets of valuations.
#![tactic(auto, using(crate::proofs::Trees::nexpr_trees))]

ghost use Rattle.std.specs.Prelude.{◌≡◌, ◌≢◌, ℕ, ℤ, List, ◌≤◌, ◌<◌, IsTrue, true, false, Bool, Option, IfSome, IfNone, IfOk, OnOk, Some, None};
ghost use Rattle.num_api.specs.Told.{Keeps};
ghost use Rattle.num_api.specs.Exprs.{NExprTree, Read, nexpr_tree};
ghost use Rattle.num_api.specs.Ranges.{InRange, IsPoint, NoWider, IsUnder, with_range, all_numbers, holds_some, hull};
ghost use Rattle.num_api.specs.Residues.{InResidue, IsResidue, IsFoldResidue};
ghost use Rattle.ext_int.specs.Valuation.{value_at};
ghost use Rattle.num_api.specs.Valuation.{SetTo};
ghost use Rattle.num_api.specs.Value.{value_of, AllFit, has_truth};
ghost use Rattle.num_api.specs.Messages.{Holds, IsProper, Adds, TellsOf};
ghost use Rattle.num_api.specs.Spans.{Span, range_of};
ghost use Rattle.num_api.specs.Plain.{plain, IsPlain, MayDivide, excludes, tested};
ghost use Rattle.num_api.specs.Fold.{IsFold, IsAlignment};
ghost use Rattle.num_api.specs.Known.{IsSharp, IsSharpOn};
ghost use Rattle.num_api.specs.Lives.{is_live};
ghost use Rattle.num_api.specs.declared.message.Range.{Range};
ghost use Rattle.num_api.specs.declared.message.Message.TheVariants.{Between};
ghost use Rattle.num_api.specs.declared.expr.Var.{Var as Variable};
ghost use Rattle.num_api.specs.declared.message.Residue.{Residue};

use crate::{Live, Message, Messages, NExpr, NumFacts, Ramp, Range, Residue, Steps, Var};
use std::alloc::{AllocError as NoMemory, Global};

/// What can be asked of a state. An answer speaks of the valuations that the state admits and in which
/// the expression has a value.
pub trait Oracle {
    /// The valuations of the state.
    ghost admits: { Self → List ℤ → Type 0 };

    /// Whether the sharp and the plain laws are claimed.
    ghost exact: { Bool };

    /// The range that the state knows of each variable, of which those laws speak.
    ghost known: { Self → ℕ → Range };

    /// Each range holds the variable's number in every valuation of the state.
    ghost known_holds: { (s : Self) (v : List ℤ) (x : ℕ) → admits s v → InRange (known s x) (value_at v x) };

    /// Each range holds a number.
    ghost known_some: { (s : Self) (x : ℕ) → IsTrue exact → IsTrue (holds_some (known s x)) };

    /// Which ranges, classes and expressions may be answered, for the laws of states that are made of others.
    ghost may_range: { Self → NExprTree → Range → Type 0 };

    ghost may_residue: { Self → NExprTree → Residue → Type 0 };

    ghost may_be_same: { Self → ℕ → Option NExprTree → Type 0 };

    /// A range that holds the expression's value.
    fn range(&self, e: &NExpr) -> Range
        ensures answer { may_range self.now (nexpr_tree e.now) result }
        ensures holds { (v : List ℤ) (n : ℤ) → admits self.now v → value_of v (nexpr_tree e.now) ≡ Some n → InRange result n }
        ensures point { (v : List ℤ) (n : ℤ) → IsTrue exact → admits self.now v → IsSharpOn (known self.now) v (nexpr_tree e.now) → AllFit v (nexpr_tree e.now)
            → value_of v (nexpr_tree e.now) ≡ Some n → IsPoint result n }
        ensures known { (x : ℕ) → IsTrue exact → nexpr_tree e.now ≡ Read x → NoWider result (known self.now x) }
        ensures plain { (given : ℕ → Range) (s : Span) → IsTrue exact → IsUnder (known self.now) given → IsPlain given (nexpr_tree e.now)
            → plain given (nexpr_tree e.now)
            ≡ Some s → NoWider result (range_of s) };

    /// A class that holds the expression's value.
    fn residue(&self, e: &NExpr) -> Residue
        ensures answer { may_residue self.now (nexpr_tree e.now) result }
        ensures proper { IsResidue result }
        ensures holds { (v : List ℤ) (n : ℤ) → admits self.now v → value_of v (nexpr_tree e.now) ≡ Some n → InResidue result n }
        ensures fold { (c : ℤ) → IsTrue exact → IsAlignment c → IsFold c (nexpr_tree e.now) → IsFoldResidue c result };

    /// An expression whose value the variable has, where one is known.
    fn same(&self, x: Var) -> Option<&NExpr>
        ensures some { IfSome result (λ e. may_be_same self.now x.0 (Some (nexpr_tree e.now))) }
        ensures none { IfNone result (may_be_same self.now x.0 None) }
        ensures holds { IfSome result (λ e. (v : List ℤ) (n : ℤ) → admits self.now v → value_of v (nexpr_tree e.now) ≡ Some n → value_at v x.0 ≡ n) };
}

/// A set of valuations. Where a call takes an oracle, the valuation before is one that the state and
/// the oracle both admit; the valuation after is one of the state after alone. A message that is put
/// out speaks of the valuation after.
pub trait NumDomain: Oracle + Sized + Drop {
    /// Whether the first state is known to hold the second.
    ghost holds: { Self → Self → Bool };

    /// How far widening under a list of steps can still go.
    ghost weight: { List ℤ → Self → ℕ };

    /// All valuations.
    fn top(alloc: Global) -> Self
        ensures { (v : List ℤ) → Self.admits result v };

    /// A state that equals this one.
    fn copy(&self) -> Result<Self, NoMemory>
        ensures { IfOk result (λ s. s ≡ self.now) };

    /// Gives the variable the expression's value.
    fn assign<O: Oracle>(
        &mut self,
        x: Var,
        e: &NExpr,
        ask: &O,
        out: &mut Messages,
    ) -> Result<(), NoMemory>
        ensures after { OnOk result
            ((v w : List ℤ) (n : ℤ) → Self.admits self.old v → O.admits ask.now v → value_of v (nexpr_tree e.now) ≡ Some n → SetTo x.0 n v w
            → Self.admits self.new w) }
        ensures kept { OnOk result (Adds out.old out.new) }
        ensures told { OnOk result
            ((v w : List ℤ) (n : ℤ) → Self.admits self.old v → O.admits ask.now v → value_of v (nexpr_tree e.now) ≡ Some n → SetTo x.0 n v w
            → TellsOf w out.old out.new) }
        ensures sharp_here { OnOk result ((v : List ℤ) (n : ℤ) → IsTrue Self.exact → Self.admits self.old v → O.admits ask.now v
            → IsSharpOn (Self.known self.old) v (nexpr_tree e.now) → AllFit v (nexpr_tree e.now) → value_of v (nexpr_tree e.now) ≡ Some n
            → IsPoint (Self.known self.new x.0) n) }
        ensures sharp_others { OnOk result ((v : List ℤ) (n : ℤ) (y : ℕ) → IsTrue Self.exact → Self.admits self.old v → O.admits ask.now v
            → IsSharpOn (Self.known self.old) v (nexpr_tree e.now) → AllFit v (nexpr_tree e.now) → value_of v (nexpr_tree e.now) ≡ Some n → y ≢ x.0
            → IsSharp (Self.known self.old) v y → IsSharp (Self.known self.new) v y) }
        ensures plain { OnOk result ((given : ℕ → Range) (s : Span) → IsTrue Self.exact → IsUnder (Self.known self.old) given → IsPlain given (nexpr_tree e.now)
            → MayDivide (Self.known self.old) given (nexpr_tree e.now) → plain given (nexpr_tree e.now) ≡ Some s
            → IsUnder (Self.known self.new) (with_range given x.0 (range_of s))) }
        ensures others { OnOk result ((given : ℕ → Range) → IsTrue Self.exact → IsUnder (Self.known self.old) given
            → IsUnder (Self.known self.new) (with_range given x.0 all_numbers)) };

    /// Gives the variable any number of a range that holds one.
    fn havoc(&mut self, x: Var, r: Range) -> Result<(), NoMemory>
        requires { IsTrue (holds_some r) }
        ensures after { OnOk result ((v w : List ℤ) (n : ℤ) → Self.admits self.old v → InRange r n → SetTo x.0 n v w → Self.admits self.new w) }
        ensures sharp_here { OnOk result ((v : List ℤ) (n : ℤ) → IsTrue Self.exact → Self.admits self.old v → IsPoint r n
            → IsPoint (Self.known self.new x.0) n) }
        ensures sharp_others { OnOk result ((v : List ℤ) (y : ℕ) → IsTrue Self.exact → Self.admits self.old v → y ≢ x.0 → IsSharp (Self.known self.old) v y
            → IsSharp (Self.known self.new) v y) }
        ensures plain { OnOk result ((given : ℕ → Range) → IsTrue Self.exact → IsUnder (Self.known self.old) given
            → IsUnder (Self.known self.new) (with_range given x.0 r)) };

    /// Gives the variable any number.
    fn forget(&mut self, x: Var) -> Result<(), NoMemory>
        ensures after { OnOk result ((v w : List ℤ) (n : ℤ) → Self.admits self.old v → SetTo x.0 n v w → Self.admits self.new w) }
        ensures sharp_others { OnOk result ((v : List ℤ) (y : ℕ) → IsTrue Self.exact → Self.admits self.old v → y ≢ x.0 → IsSharp (Self.known self.old) v y
            → IsSharp (Self.known self.new) v y) }
        ensures plain { OnOk result ((given : ℕ → Range) → IsTrue Self.exact → IsUnder (Self.known self.old) given
            → IsUnder (Self.known self.new) (with_range given x.0 all_numbers)) };

    /// Keeps the valuations in which the expression has this truth; `Dead` only where there is none.
    fn assume<O: Oracle>(
        &mut self,
        e: &NExpr,
        truth: bool,
        ask: &O,
        out: &mut Messages,
    ) -> Result<Live, NoMemory>
        ensures after { IfOk result (λ live. (v : List ℤ) (n : ℤ) → Self.admits self.old v → O.admits ask.now v → value_of v (nexpr_tree e.now) ≡ Some n
            → IsTrue (has_truth truth n) → IsTrue (is_live live) × Self.admits self.new v) }
        ensures kept { OnOk result (Adds out.old out.new) }
        ensures told { OnOk result ((v : List ℤ) (n : ℤ) → Self.admits self.old v → O.admits ask.now v → value_of v (nexpr_tree e.now) ≡ Some n
            → IsTrue (has_truth truth n) → TellsOf v out.old out.new) }
        ensures sharp_dead { IfOk result (λ live. (v : List ℤ) (n : ℤ) → IsTrue Self.exact → Self.admits self.old v → O.admits ask.now v
            → IsSharpOn (Self.known self.old) v (nexpr_tree e.now) → AllFit v (nexpr_tree e.now) → value_of v (nexpr_tree e.now) ≡ Some n
            → has_truth truth n ≡ false → is_live live ≡ false) }
        ensures sharp_live { IfOk result (λ live. (v : List ℤ) (n : ℤ) (y : ℕ) → IsTrue Self.exact → Self.admits self.old v → O.admits ask.now v
            → IsSharpOn (Self.known self.old) v (nexpr_tree e.now) → AllFit v (nexpr_tree e.now) → value_of v (nexpr_tree e.now) ≡ Some n
            → IsTrue (is_live live) → IsSharp (Self.known self.old) v y → IsSharp (Self.known self.new) v y) }
        ensures plain_dead { IfOk result
            (λ live. (given : ℕ → Range) (s : Span) → IsTrue Self.exact → IsUnder (Self.known self.old) given → IsPlain given (nexpr_tree e.now)
            → plain given (nexpr_tree e.now) ≡ Some s → IsTrue (excludes truth s) → is_live live ≡ false) }
        ensures plain_none { IfOk result
            (λ live. (given : ℕ → Range) (x : ℕ) → IsTrue Self.exact → IsUnder (Self.known self.old) given → IsPlain given (nexpr_tree e.now)
            → holds_some (tested given (nexpr_tree e.now) truth x) ≡ false → is_live live ≡ false) }
        ensures plain_live { IfOk result
            (λ live. (given : ℕ → Range) → IsTrue Self.exact → IsUnder (Self.known self.old) given → IsPlain given (nexpr_tree e.now)
            → IsTrue (is_live live) → IsUnder (Self.known self.new) (tested given (nexpr_tree e.now) truth)) }
        ensures narrows { IfOk result (λ live. (given : ℕ → Range) → IsTrue Self.exact → IsUnder (Self.known self.old) given → IsTrue (is_live live)
            → IsUnder (Self.known self.new) given) };

    /// Keeps the valuations in which the message holds; `Dead` only where there is none.
    fn accept(&mut self, m: &Message) -> Result<Live, NoMemory>
        requires { IsProper m.now }
        ensures after { IfOk result (λ live. (v : List ℤ) → Self.admits self.old v → Holds v m.now → IsTrue (is_live live) × Self.admits self.new v) }
        ensures sharp { IfOk result
            (λ live. (v : List ℤ) (y : ℕ) → IsTrue Self.exact → Self.admits self.old v → Holds v m.now → IsSharp (Self.known self.old) v y
            → IsSharp (Self.known self.new) v y) }
        ensures plain { OnOk result ((given : ℕ → Range) → IsTrue Self.exact → IsUnder (Self.known self.old) given → IsUnder (Self.known self.new) given) }
        ensures cut { IfOk result (λ live. (x : Variable) (r : Range) → IsTrue Self.exact → m.now ≡ Between x r → IsTrue (is_live live)
            → NoWider (Self.known self.new x.0) r) };

    /// Admits what either state admits.
    fn join(&mut self, other: &Self) -> Result<(), NoMemory>
        ensures left { OnOk result ((v : List ℤ) → Self.admits self.old v → Self.admits self.new v) }
        ensures right { OnOk result ((v : List ℤ) → Self.admits other.now v → Self.admits self.new v) }
        ensures plain { OnOk result ((given found : ℕ → Range) → IsTrue Self.exact → IsUnder (Self.known self.old) given → IsUnder (Self.known other.now) found
            → IsUnder (Self.known self.new) (λ x. hull (given x) (found x))) };

    /// Admits what either state admits, so that widening comes to an end.
    fn widen<U: Fn(i128) -> Option<i128>, S: Steps>(
        &mut self,
        next: &Self,
        ramp: &Ramp<U>,
    ) -> Result<(), NoMemory>
        requires { Keeps U.pre U.post ramp.now S.list }
        ensures left { OnOk result ((v : List ℤ) → Self.admits self.old v → Self.admits self.new v) }
        ensures right { OnOk result ((v : List ℤ) → Self.admits next.now v → Self.admits self.new v) }
        ensures no_rise { OnOk result (weight S.list self.new ≤ weight S.list self.old) }
        ensures falls { OnOk result (holds self.old next.now ≡ false → weight S.list self.new < weight S.list self.old) };

    /// Whether the state is known to hold the other.
    fn covers(&self, other: &Self) -> bool
        ensures value { result ≡ holds self.now other.now }
        ensures included { IsTrue result → (v : List ℤ) → Self.admits other.now v → Self.admits self.now v };

    /// Puts out what holds in every valuation of the state.
    fn facts(&self, out: &mut NumFacts) -> Result<(), NoMemory>
        ensures kept { OnOk result (Adds out.old out.new) }
        ensures told { OnOk result ((v : List ℤ) → Self.admits self.now v → TellsOf v out.old out.new) };
}

/// A numeric domain that keeps the sharp and the plain laws.
pub trait Exact: NumDomain {
    ghost is_exact: { IsTrue Self.exact };
}
