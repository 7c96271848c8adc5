// The machine.
#![tactic(auto, using(crate::proofs::Trees::mexpr_trees, num_api::proofs::Trees::nexpr_trees))]

ghost use Rattle.std.specs.Prelude.{◌≡◌, ◌≢◌, ℕ, ℤ, List, ◌≤◌, ◌<◌, IsTrue, true, false, not, IfOk, OnOk, Some};
ghost use Rattle.std.specs.Int.RustNames.{FitsSigned};
ghost use mir.Syntax.{w128};
ghost use Rattle.num_api.specs.Told.{Keeps};
ghost use Rattle.num_api.specs.Ranges.{InRange, IsPoint, NoWider, with_range, all_numbers, holds_some, hull};
ghost use Rattle.num_api.specs.Residues.{InResidue, IsResidue, IsFoldResidue};
ghost use Rattle.num_api.specs.Fold.{IsAlignment};
ghost use Rattle.num_api.specs.Spans.{Span, FitsSpan, range_of};
ghost use Rattle.num_api.specs.Plain.{excludes};
ghost use Rattle.num_api.specs.Valuation.{SetTo};
ghost use Rattle.num_api.specs.Value.{has_truth};
ghost use Rattle.num_api.specs.Messages.{Holds, IsProper, Adds, TellsOf};
ghost use Rattle.num_api.specs.Known.{IsSharp};
ghost use Rattle.num_api.specs.Lives.{is_live};
ghost use Rattle.num_api.specs.declared.message.Range.{Range};
ghost use Rattle.num_api.specs.declared.message.Message.TheVariants.{Between};
ghost use Rattle.num_api.specs.declared.expr.Var.{Var as Variable};
ghost use Rattle.c_syntax_written.specs.Integer.{HasNumber};
ghost use Rattle.machine_nums.specs.MExprs.{mexpr_tree, type_of, untyped, OnVariables};
ghost use Rattle.machine_nums.specs.Machine.{exact_value, machine_value, PartsFit};
ghost use Rattle.machine_nums.specs.Machines.{state_of, is_void, Admits, LiesUnder, holds_machine, machine_weight};
ghost use Rattle.machine_nums.specs.Own.{IsInside, OwnAnswers};
ghost use Rattle.machine_nums.specs.Rule.{type_span, exact_span, value_span, tested};
ghost use Rattle.machine_nums.specs.Fold.{IsFold};

use crate::MExpr;
use crate::alignment::{fold_of, multiples};
use crate::changes::{assign, keep_truth};
use crate::evaluation::{exact_result, value};
use crate::range_types::type_range;
use c_syntax_written::IntType;
use num_api::{Live, Message, NumDomain, NumFacts, Ramp, Range, Residue, Steps, Var, no_numbers};
use std::alloc::{AllocError as NoMemory, Global};

/// A state of a numeric domain over numbers of C's integer types, or one that a cut has left nothing of: such a
/// machine is void, and admits no valuation.
#[derive(Drop)]
pub struct Machine<D> {
    alloc: Global,
    state: D,
    is_void: bool,
}

impl<D: NumDomain> Machine<D> {
    /// All valuations.
    pub fn top(alloc: Global) -> Machine<D>
        ensures { (v : List ℤ) → Admits D.admits result v }
    {
        Machine {
            alloc,
            state: D::top(alloc),
            is_void: false,
        }
    }

    /// A machine that equals this one.
    pub fn copy(&self) -> Result<Machine<D>, NoMemory>
        ensures state { IfOk result (λ m. state_of m ≡ state_of self.now) }
        ensures void { IfOk result (λ m. is_void m ≡ is_void self.now) }
    {
        Ok(Machine {
            alloc: self.alloc,
            state: self.state.copy()?,
            is_void: self.is_void,
        })
    }

    // The answer of a cut: where nothing is left the machine is void.
    fn marked(&mut self, live: Live) -> Live
        ensures answer { result ≡ live }
        ensures state { state_of self.new ≡ state_of self.old }
        ensures void { is_void self.new ≡ not (is_live live) }
    {
        self.is_void = match live {
            Live::Dead => true,
            Live::Live => false,
        };
        live
    }

    /// Gives the variable the value of the expression: what it comes to, wrapped into its type.
    pub fn set(&mut self, x: Var, e: &MExpr) -> Result<(), NoMemory>
        ensures after { OnOk result ((v w : List ℤ) (n : ℤ) → Admits D.admits self.old v → machine_value v (mexpr_tree e.now) ≡ Some n → SetTo x.0 n v w
            → Admits D.admits self.new w) }
        ensures sharp_here { OnOk result ((v : List ℤ) (n : ℤ) → IsTrue D.exact → Admits D.admits self.old v
            → OnVariables (IsSharp (D.known (state_of self.old)) v) (mexpr_tree e.now) → PartsFit v (mexpr_tree e.now)
            → machine_value v (mexpr_tree e.now) ≡ Some n → IsPoint (D.known (state_of self.new) x.0) n) }
        ensures sharp_others { OnOk result ((v : List ℤ) (n : ℤ) (y : ℕ) → IsTrue D.exact → Admits D.admits self.old v
            → OnVariables (IsSharp (D.known (state_of self.old)) v) (mexpr_tree e.now) → PartsFit v (mexpr_tree e.now)
            → machine_value v (mexpr_tree e.now) ≡ Some n → y ≢ x.0
            → IsSharp (D.known (state_of self.old)) v y → IsSharp (D.known (state_of self.new)) v y) }
        ensures plain { OnOk result ((given : ℕ → Range) → IsTrue D.exact → LiesUnder D.known self.old given
            → LiesUnder D.known self.new (with_range given x.0 (range_of (value_span given (mexpr_tree e.now))))) }
        ensures own { OnOk result (is_void self.old ≡ false → OwnAnswers (D.may_range (state_of self.old)) (mexpr_tree e.now)
            (λ r. IsInside (type_of (mexpr_tree e.now)) r → IsTrue D.exact → is_void self.new ≡ false → NoWider (D.known (state_of self.new) x.0) r)) }
    {
        if self.is_void {
            return Ok(());
        }
        let part = value(self.alloc, &self.state, e)?;
        let live = assign(self.alloc, &mut self.state, x, &part)?;
        self.marked(live);
        Ok(())
    }

    /// Keeps the valuations in which the expression's value has this truth; `Dead` only where there is none.
    pub fn test(&mut self, e: &MExpr, truth: bool) -> Result<Live, NoMemory>
        ensures after { IfOk result (λ live. (v : List ℤ) (n : ℤ) → Admits D.admits self.old v → machine_value v (mexpr_tree e.now) ≡ Some n
            → IsTrue (has_truth truth n) → IsTrue (is_live live) × Admits D.admits self.new v) }
        ensures void { IfOk result (λ live. is_void self.new ≡ not (is_live live)) }
        ensures sharp_dead { IfOk result (λ live. (v : List ℤ) (n : ℤ) → IsTrue D.exact → Admits D.admits self.old v
            → OnVariables (IsSharp (D.known (state_of self.old)) v) (mexpr_tree e.now) → PartsFit v (mexpr_tree e.now)
            → machine_value v (mexpr_tree e.now) ≡ Some n → has_truth truth n ≡ false → is_live live ≡ false) }
        ensures sharp_live { IfOk result (λ live. (v : List ℤ) (n : ℤ) (y : ℕ) → IsTrue D.exact → Admits D.admits self.old v
            → OnVariables (IsSharp (D.known (state_of self.old)) v) (mexpr_tree e.now) → PartsFit v (mexpr_tree e.now)
            → machine_value v (mexpr_tree e.now) ≡ Some n → IsTrue (is_live live)
            → IsSharp (D.known (state_of self.old)) v y → IsSharp (D.known (state_of self.new)) v y) }
        ensures plain_dead { IfOk result (λ live. (given : ℕ → Range) → IsTrue D.exact → LiesUnder D.known self.old given
            → IsTrue (excludes truth (value_span given (mexpr_tree e.now))) → is_live live ≡ false) }
        ensures plain_none { IfOk result (λ live. (given : ℕ → Range) (x : ℕ) → IsTrue D.exact → LiesUnder D.known self.old given
            → holds_some (tested given (mexpr_tree e.now) truth x) ≡ false → is_live live ≡ false) }
        ensures plain_live { OnOk result ((given : ℕ → Range) → IsTrue D.exact → LiesUnder D.known self.old given
            → LiesUnder D.known self.new (tested given (mexpr_tree e.now) truth)) }
        ensures own { IfOk result (λ live. is_void self.old ≡ false → OwnAnswers (D.may_range (state_of self.old)) (mexpr_tree e.now)
            (λ r. IsInside (type_of (mexpr_tree e.now)) r → (s : Span) → NoWider r (range_of s) → IsTrue (excludes truth s) → is_live live ≡ false)) }
    {
        if self.is_void {
            return Ok(Live::Dead);
        }
        let live = keep_truth(self.alloc, &mut self.state, e, truth)?;
        Ok(self.marked(live))
    }

    /// A range and a class that hold the exact result of the outermost node, which is not wrapped. Of a void
    /// machine the range holds no number, and the class 0 alone.
    pub fn check_range(&self, e: &MExpr) -> Result<(Range, Residue), NoMemory>
        ensures holds { IfOk result (λ found. (v : List ℤ) (n : ℤ) → Admits D.admits self.now v → exact_value v (mexpr_tree e.now) ≡ Some n
            → InRange found.0 n × InResidue found.1 n) }
        ensures proper { IfOk result (λ found. IsResidue found.1) }
        ensures point { IfOk result (λ found. (v : List ℤ) (n : ℤ) → IsTrue D.exact → Admits D.admits self.now v
            → OnVariables (IsSharp (D.known (state_of self.now)) v) (mexpr_tree e.now) → PartsFit v (mexpr_tree e.now) → FitsSigned w128 n
            → exact_value v (mexpr_tree e.now) ≡ Some n → IsPoint found.0 n) }
        ensures plain { IfOk result (λ found. (given : ℕ → Range) (s : Span) → IsTrue D.exact → LiesUnder D.known self.now given
            → exact_span given (mexpr_tree e.now) ≡ Some s → FitsSpan s → NoWider found.0 (range_of s)) }
        ensures own { IfOk result (λ found. is_void self.now ≡ false → OwnAnswers (D.may_range (state_of self.now)) (mexpr_tree e.now)
            (λ r. NoWider found.0 r × D.may_residue (state_of self.now) (untyped (mexpr_tree e.now)) found.1)) }
        ensures fold { IfOk result (λ found. (c : ℤ) → IsTrue D.exact → IsAlignment c → IsFold c (mexpr_tree e.now) → IsFoldResidue c found.1) }
    {
        if self.is_void {
            return Ok((no_numbers(), Residue { rem: 0, modulus: 0 }));
        }
        let part = exact_result(self.alloc, &self.state, e)?;
        let class = self.state.residue(&part.plain);
        if part.is_kept {
            Ok((part.range, class))
        } else {
            Ok((part.range, multiples(class, fold_of(e))))
        }
    }

    /// Gives the variable any number of the type.
    pub fn havoc(&mut self, x: Var, t: IntType) -> Result<(), NoMemory>
        ensures after { OnOk result ((v w : List ℤ) (n : ℤ) → Admits D.admits self.old v → HasNumber t n → SetTo x.0 n v w → Admits D.admits self.new w) }
        ensures sharp_others { OnOk result ((v : List ℤ) (y : ℕ) → IsTrue D.exact → Admits D.admits self.old v → y ≢ x.0
            → IsSharp (D.known (state_of self.old)) v y → IsSharp (D.known (state_of self.new)) v y) }
        ensures plain { OnOk result ((given : ℕ → Range) → IsTrue D.exact → LiesUnder D.known self.old given
            → LiesUnder D.known self.new (with_range given x.0 (range_of (type_span t)))) }
    {
        self.state.havoc(x, type_range(t))
    }

    /// Gives the variable any number.
    pub fn forget(&mut self, x: Var) -> Result<(), NoMemory>
        ensures after { OnOk result ((v w : List ℤ) (n : ℤ) → Admits D.admits self.old v → SetTo x.0 n v w → Admits D.admits self.new w) }
        ensures sharp_others { OnOk result ((v : List ℤ) (y : ℕ) → IsTrue D.exact → Admits D.admits self.old v → y ≢ x.0
            → IsSharp (D.known (state_of self.old)) v y → IsSharp (D.known (state_of self.new)) v y) }
        ensures plain { OnOk result ((given : ℕ → Range) → IsTrue D.exact → LiesUnder D.known self.old given
            → LiesUnder D.known self.new (with_range given x.0 all_numbers)) }
    {
        self.state.forget(x)
    }

    /// Keeps the valuations in which the message holds; `Dead` only where there is none.
    pub fn accept(&mut self, m: &Message) -> Result<Live, NoMemory>
        requires { IsProper m.now }
        ensures after { IfOk result (λ live. (v : List ℤ) → Admits D.admits self.old v → Holds v m.now → IsTrue (is_live live) × Admits D.admits self.new v) }
        ensures void { IfOk result (λ live. is_void self.new ≡ not (is_live live)) }
        ensures sharp { OnOk result ((v : List ℤ) (y : ℕ) → IsTrue D.exact → Admits D.admits self.old v → Holds v m.now
            → IsSharp (D.known (state_of self.old)) v y → IsSharp (D.known (state_of self.new)) v y) }
        ensures plain { OnOk result ((given : ℕ → Range) → IsTrue D.exact → LiesUnder D.known self.old given → LiesUnder D.known self.new given) }
        ensures cut { IfOk result (λ live. (x : Variable) (r : Range) → IsTrue D.exact → m.now ≡ Between x r → IsTrue (is_live live)
            → NoWider (D.known (state_of self.new) x.0) r) }
    {
        if self.is_void {
            return Ok(Live::Dead);
        }
        let live = self.state.accept(m)?;
        Ok(self.marked(live))
    }

    // Makes the machine equal to the other.
    fn take(&mut self, other: &Machine<D>) -> Result<(), NoMemory>
        ensures state { OnOk result (state_of self.new ≡ state_of other.now) }
        ensures void { OnOk result (is_void self.new ≡ is_void other.now) }
    {
        self.state = other.state.copy()?;
        self.is_void = other.is_void;
        Ok(())
    }

    /// Admits what either machine admits.
    pub fn join(&mut self, other: &Machine<D>) -> Result<(), NoMemory>
        ensures left { OnOk result ((v : List ℤ) → Admits D.admits self.old v → Admits D.admits self.new v) }
        ensures right { OnOk result ((v : List ℤ) → Admits D.admits other.now v → Admits D.admits self.new v) }
        ensures plain { OnOk result ((given found : ℕ → Range) → IsTrue D.exact → LiesUnder D.known self.old given → LiesUnder D.known other.now found
            → LiesUnder D.known self.new (λ x. hull (given x) (found x))) }
        ensures of_void { OnOk result (is_void self.old ≡ true → (state_of self.new ≡ state_of other.now) × (is_void self.new ≡ is_void other.now)) }
        ensures with_void { OnOk result (is_void other.now ≡ true → is_void self.old ≡ false → state_of self.new ≡ state_of self.old) }
    {
        if self.is_void {
            return self.take(other);
        }
        if other.is_void {
            return Ok(());
        }
        self.state.join(&other.state)
    }

    /// Admits what either machine admits, so that widening comes to an end.
    pub fn widen<U: Fn(i128) -> Option<i128>, S: Steps>(
        &mut self,
        next: &Machine<D>,
        ramp: &Ramp<U>,
    ) -> Result<(), NoMemory>
        requires { Keeps U.pre U.post ramp.now S.list }
        ensures left { OnOk result ((v : List ℤ) → Admits D.admits self.old v → Admits D.admits self.new v) }
        ensures right { OnOk result ((v : List ℤ) → Admits D.admits next.now v → Admits D.admits self.new v) }
        ensures no_rise { OnOk result (machine_weight (D.weight S.list) self.new ≤ machine_weight (D.weight S.list) self.old) }
        ensures falls { OnOk result (holds_machine D.holds self.old next.now ≡ false
            → machine_weight (D.weight S.list) self.new < machine_weight (D.weight S.list) self.old) }
    {
        if next.is_void {
            return Ok(());
        }
        self.state.widen::<U, S>(&next.state, ramp)?;
        self.is_void = false;
        Ok(())
    }

    /// Whether the machine is known to hold the other.
    pub fn covers(&self, other: &Machine<D>) -> bool
        ensures value { result ≡ holds_machine D.holds self.now other.now }
        ensures included { IsTrue result → (v : List ℤ) → Admits D.admits other.now v → Admits D.admits self.now v }
    {
        if other.is_void {
            return true;
        }
        if self.is_void {
            return false;
        }
        self.state.covers(&other.state)
    }

    /// Puts out what holds in every valuation of the machine; of a void machine nothing.
    pub fn facts(&self, out: &mut NumFacts) -> Result<(), NoMemory>
        ensures kept { OnOk result (Adds out.old out.new) }
        ensures told { OnOk result ((v : List ℤ) → Admits D.admits self.now v → TellsOf v out.old out.new) }
    {
        if self.is_void {
            return Ok(());
        }
        self.state.facts(out)
    }
}
