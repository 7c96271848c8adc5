// Sets of states of the language that is analysed, and their laws.

ghost use Rattle.std.specs.Prelude.{◌≡◌, ◌≢◌, ℕ, ℤ, pos, List, [], ◌∷◌, ◌<◌, length, IsTrue, true, false, Bool, Option, Some, IfOk, OnOk};
ghost use Rattle.num_api.specs.Fold.{IsAlignment};
ghost use Rattle.num_api.specs.Told.{Keeps};
ghost use Rattle.num_api.specs.Lives.{is_live};
ghost use Rattle.c_syntax.specs.Operand.{Operand};
ghost use Rattle.c_syntax.specs.Admission.{IsInShown, IsModerate, IsProper, Fails};
ghost use Rattle.c_syntax.specs.declared.alarm.WrongKind.{WrongKind};
ghost use Rattle.block_mem.specs.declared.types.Value.{Value};
ghost use Rattle.c_values.specs.Values.{truth as truth_of};
ghost use Rattle.c_values.specs.Looks.{judge, Passes, FailsAs};
ghost use Rattle.csharp.specs.Trees.{CsExprTree, CsProgramTree, csexpr_tree, cscheck_tree, csprogram_tree, none};
ghost use Rattle.csharp.specs.Trees as code;
ghost use Rattle.csharp.specs.Formed.{IsFormed};
ghost use Rattle.csharp.specs.States.{State, first, value_of, look_of};
ghost use Rattle.csharp.specs.Actions as acts;
ghost use Rattle.plain_runs.specs.States.{Plain, plain_first, hull};
ghost use Rattle.plain_runs.specs.Changes as plains;
ghost use Rattle.plain_runs.specs.Checks.{plain_suspect, plain_pass};
ghost use Rattle.mem_shown.specs.Decisions.{NamesObjects};
ghost use Rattle.mem_api.specs.Given.{IsGiven, AreForOne};
ghost use Rattle.mem_api.specs.Showing.{HasForm, IsAlone, looked_at};
ghost use Rattle.mem_api.specs.Named.{Fixed, IsNamed, LooksAtPlace, fixed_at, ShowsOnly, ShowsOffset};
ghost use Rattle.mem_api.specs.Likeness.{IsAlike};
ghost use Rattle.mem_api.specs.FactsOf.{Adds, HoldsIn, NamesFactObjects, TellsWhole};
ghost use Rattle.mem_api.specs.Abstract.{IsBelow};

use block_mem::Scalar;
use c_syntax::{Facts, IntType, Shown};
use csharp::{CsCheck, CsExpr, CsProgram};
use ext_int::Live;
use num_api::{Ramp, Steps};
use std::alloc::{AllocError as NoMemory, Global};

/// A set of states. It is for the program that `start` was given, and what a call is given is of that
/// program: numbers name what is there, and types agree as for the statement that the call stands for.
/// Each call that changes the set does to it what that statement does to a state. Once out of memory a
/// set is still for its program, and promises nothing else.
pub trait MemDomain: Sized + Drop {
    /// The programs that the set is for.
    ghost is_for: { Self → CsProgramTree → Type 0 };

    /// The states of the set.
    ghost stands: { Self → State → Type 0 };

    /// It has this state alone, up to what no set tells apart. No input is left.
    ghost sharp: { Self → State → Type 0 };

    /// Whether the sharp and the plain laws are claimed of this program.
    ghost exact: { CsProgramTree → Bool };

    /// What it knows is no wider than this plain state.
    ghost under: { Self → Plain → Type 0 };

    /// How far widening under a list of steps can still go.
    ghost weight: { List ℤ → Self → ℕ };

    /// The first states of a program, one for each list of inputs.
    fn start(alloc: Global, program: &CsProgram) -> Result<Self, NoMemory>
        requires { IsFormed (csprogram_tree program.now) }
        ensures is_for { IfOk result (λ m. Self.is_for m (csprogram_tree program.now)) }
        ensures stands { IfOk result (λ m. (inputs : List ℤ) → Self.stands m (first (csprogram_tree program.now) inputs)) }
        ensures sharp { IfOk result (λ m. IsTrue (Self.exact (csprogram_tree program.now)) → Self.sharp m (first (csprogram_tree program.now) [])) }
        ensures plain { IfOk result (λ m. IsTrue (Self.exact (csprogram_tree program.now)) → Self.under m (plain_first (csprogram_tree program.now))) };

    /// A set that equals this one.
    fn copy(&self) -> Result<Self, NoMemory>
        ensures { IfOk result (λ m. m ≡ self.now) };

    /// Puts a value into a temporary.
    fn set(&mut self, temp: u64, value: &CsExpr) -> Result<(), NoMemory>
        requires { IsGiven (Self.is_for self.now) (code.Set temp (csexpr_tree value.now)) }
        ensures is_for { (q : CsProgramTree) → Self.is_for self.old q → Self.is_for self.new q }
        ensures stands { OnOk result ((s t : State) → Self.stands self.old s → acts.set temp (csexpr_tree value.now) s ≡ Some t → Self.stands self.new t) }
        ensures sharp { OnOk result ((s t : State) → Self.sharp self.old s → acts.set temp (csexpr_tree value.now) s ≡ Some t → Self.sharp self.new t) }
        ensures plain { OnOk result ((q : CsProgramTree) (p r : Plain) → Self.is_for self.old q → Self.under self.old p
            → plains.plain_set q.temps p temp (csexpr_tree value.now) ≡ Some r → Self.under self.new r) };

    /// Puts what stands at an address into a temporary.
    fn load(&mut self, temp: u64, address: &CsExpr, ty: Scalar) -> Result<(), NoMemory>
        requires { IsGiven (Self.is_for self.now) (code.Load temp ty (csexpr_tree address.now)) }
        ensures is_for { (q : CsProgramTree) → Self.is_for self.old q → Self.is_for self.new q }
        ensures stands { OnOk result
            ((s t : State) → Self.stands self.old s → acts.load temp ty (csexpr_tree address.now) s ≡ Some t → Self.stands self.new t) }
        ensures sharp { OnOk result
            ((s t : State) → Self.sharp self.old s → acts.load temp ty (csexpr_tree address.now) s ≡ Some t → Self.sharp self.new t) }
        ensures plain { OnOk result
            ((p q : Plain) → Self.under self.old p → plains.plain_load p temp ty (csexpr_tree address.now) ≡ Some q → Self.under self.new q) };

    /// Puts a value of this type at an address, read-only or not.
    fn store(&mut self, address: &CsExpr, ty: Scalar, value: &CsExpr) -> Result<(), NoMemory>
        requires { IsGiven (Self.is_for self.now) (code.Store ty (csexpr_tree address.now) (csexpr_tree value.now)) }
        ensures is_for { (q : CsProgramTree) → Self.is_for self.old q → Self.is_for self.new q }
        ensures stands { OnOk result ((s t : State) → Self.stands self.old s
            → acts.store ty (csexpr_tree address.now) (csexpr_tree value.now) s ≡ Some t → Self.stands self.new t) }
        ensures sharp { OnOk result ((s t : State) → Self.sharp self.old s
            → acts.store ty (csexpr_tree address.now) (csexpr_tree value.now) s ≡ Some t → Self.sharp self.new t) }
        ensures plain { OnOk result ((q : CsProgramTree) (p r : Plain) → Self.is_for self.old q → Self.under self.old p
            → plains.plain_store q.temps p ty (csexpr_tree address.now) (csexpr_tree value.now) ≡ Some r → Self.under self.new r) };

    /// Copies so many bytes, as if all were read first.
    fn copy_bytes(&mut self, to: &CsExpr, from: &CsExpr, size: u64) -> Result<(), NoMemory>
        requires { IsGiven (Self.is_for self.now) (code.CopyBytes size (csexpr_tree to.now) (csexpr_tree from.now)) }
        ensures is_for { (q : CsProgramTree) → Self.is_for self.old q → Self.is_for self.new q }
        ensures stands { OnOk result ((s t : State) → Self.stands self.old s
            → acts.copy_bytes size (csexpr_tree to.now) (csexpr_tree from.now) s ≡ Some t → Self.stands self.new t) }
        ensures sharp { OnOk result ((s t : State) → Self.sharp self.old s
            → acts.copy_bytes size (csexpr_tree to.now) (csexpr_tree from.now) s ≡ Some t → Self.sharp self.new t) }
        ensures plain { OnOk result ((p q : Plain) → Self.under self.old p
            → plains.plain_copy p size (csexpr_tree to.now) (csexpr_tree from.now) ≡ Some q → Self.under self.new q) };

    /// Makes all bytes of a live object lose their values.
    fn undefine(&mut self, object: u64) -> Result<(), NoMemory>
        requires { IsGiven (Self.is_for self.now) (code.Undefine object) }
        ensures is_for { (q : CsProgramTree) → Self.is_for self.old q → Self.is_for self.new q }
        ensures stands { OnOk result ((s t : State) → Self.stands self.old s → acts.undefine object s ≡ Some t → Self.stands self.new t) }
        ensures sharp { OnOk result ((s t : State) → Self.sharp self.old s → acts.undefine object s ≡ Some t → Self.sharp self.new t) }
        ensures plain { OnOk result ((p q : Plain) → Self.under self.old p → plains.plain_undefine p object ≡ Some q → Self.under self.new q) };

    /// Puts the next input, wrapped to this type, into a temporary.
    fn input(&mut self, temp: u64, ty: IntType) -> Result<(), NoMemory>
        requires { IsGiven (Self.is_for self.now) (code.Input temp ty) }
        ensures is_for { (q : CsProgramTree) → Self.is_for self.old q → Self.is_for self.new q }
        ensures stands { OnOk result ((s t : State) → Self.stands self.old s → acts.input temp ty s ≡ Some t → Self.stands self.new t) }
        ensures sharp { (s : State) → Self.sharp self.old s → s.inputs ≡ [] }
        ensures plain { OnOk result ((p q : Plain) → Self.under self.old p → plains.plain_input p temp ty ≡ Some q → Self.under self.new q) };

    /// These objects begin to live, with no value.
    fn enter(&mut self, names: &[u64]) -> Result<(), NoMemory>
        requires { IsGiven (Self.is_for self.now) (code.Scope names.now none) }
        ensures is_for { (q : CsProgramTree) → Self.is_for self.old q → Self.is_for self.new q }
        ensures stands { OnOk result ((q : CsProgramTree) (s : State) → Self.is_for self.old q → IsTrue (acts.are_free names.now s)
            → Self.stands self.old s → Self.stands self.new (acts.enter q.objects names.now s)) }
        ensures sharp { OnOk result ((q : CsProgramTree) (s : State) → Self.is_for self.old q → IsTrue (acts.are_free names.now s)
            → Self.sharp self.old s → Self.sharp self.new (acts.enter q.objects names.now s)) }
        ensures plain { OnOk result ((q : CsProgramTree) (p r : Plain) → Self.is_for self.old q → Self.under self.old p
            → plains.plain_enter q.objects names.now p ≡ Some r → Self.under self.new r) };

    /// These objects end; pointers to them are dead.
    fn leave(&mut self, names: &[u64]) -> Result<(), NoMemory>
        requires { IsGiven (Self.is_for self.now) (code.Scope names.now none) }
        ensures is_for { (q : CsProgramTree) → Self.is_for self.old q → Self.is_for self.new q }
        ensures stands { OnOk result ((s : State) → Self.stands self.old s → Self.stands self.new (acts.leave names.now s)) }
        ensures sharp { OnOk result ((s : State) → Self.sharp self.old s → Self.sharp self.new (acts.leave names.now s)) }
        ensures plain { OnOk result ((p : Plain) → Self.under self.old p → Self.under self.new (plains.plain_leave names.now p)) };

    /// Keeps the states in which the condition has this truth; `Dead` only where there is none.
    fn assume(&mut self, condition: &CsExpr, truth: bool) -> Result<Live, NoMemory>
        requires { IsGiven (Self.is_for self.now) (code.Assume (csexpr_tree condition.now)) }
        ensures is_for { (q : CsProgramTree) → Self.is_for self.old q → Self.is_for self.new q }
        ensures stands { IfOk result (λ live. (s : State) (v : Value) → Self.stands self.old s → value_of (csexpr_tree condition.now) s ≡ Some v
            → truth_of v ≡ truth → IsTrue (is_live live) × Self.stands self.new s) }
        ensures sharp { IfOk result (λ live. (s : State) (v : Value) → Self.sharp self.old s → value_of (csexpr_tree condition.now) s ≡ Some v
            → truth_of v ≡ truth → Self.sharp self.new s) }
        ensures dead { IfOk result (λ live. (s : State) (v : Value) → Self.sharp self.old s → value_of (csexpr_tree condition.now) s ≡ Some v
            → truth_of v ≢ truth → is_live live ≡ false) }
        ensures plain { IfOk result (λ live. (q : CsProgramTree) (p : Plain) (r : Option Plain) → Self.is_for self.old q → Self.under self.old p
            → plains.plain_test q.temps p (csexpr_tree condition.now) truth ≡ Some r → IsBelow Self.under (is_live live) self.new r) };

    /// What holds the operand of the check. Of an address in one named object it shows that object alone, at
    /// offsets that are multiples of each alignment of which its steps are. Of other numbers that is not asked:
    /// a class has a modulus of at most 2^100, so that of a step by 2^101 no class tells more.
    fn show(&self, check: &CsCheck) -> Result<Shown, NoMemory>
        requires { IsGiven (Self.is_for self.now) (code.Checked (cscheck_tree check.now)) }
        ensures holds { IfOk result (λ w. (q : CsProgramTree) (s : State) (x : Operand) → Self.is_for self.now q → Self.stands self.now s
            → looked_at (cscheck_tree check.now) s ≡ Some x → IsInShown q.objects x w) }
        ensures form { IfOk result (λ w. HasForm check.now.check.kind (cscheck_tree check.now).operands w) }
        ensures names { IfOk result (λ w. (q : CsProgramTree) → Self.is_for self.now q → NamesObjects (length q.objects) w) }
        ensures proper { IfOk result (λ w. IsProper w) }
        ensures sharp { IfOk result (λ w. (q : CsProgramTree) (s : State) (x : Operand) → Self.is_for self.now q → Self.sharp self.now s
            → looked_at (cscheck_tree check.now) s ≡ Some x → IsAlone q.objects x w) }
        ensures plain { IfOk result (λ w. (q : CsProgramTree) (p : Plain) (x : Operand) → Self.is_for self.now q → Self.under self.now p
            → plain_suspect q.temps p (cscheck_tree check.now) ≡ Some false → IsInShown q.objects x w → Fails q.objects check.now.check x → ⊥) }
        ensures named { IfOk result (λ w. (q : CsProgramTree) (e : CsExprTree) (o c : ℕ) → IsTrue (Self.exact q) → Self.is_for self.now q
            → LooksAtPlace check.now.check.kind → (cscheck_tree check.now).operands ≡ e ∷ [] → IsAlignment (pos c) → IsNamed o c e
            → ShowsOnly q.objects o c w) }
        ensures fixed { IfOk result (λ w. (q : CsProgramTree) (e : CsExprTree) (f : Fixed) → IsTrue (Self.exact q) → Self.is_for self.now q
            → LooksAtPlace check.now.check.kind → (cscheck_tree check.now).operands ≡ e ∷ [] → fixed_at e ≡ Some f → IsModerate (Some f.offset)
            → ShowsOffset f.offset w) };

    /// Keeps the states in which the check passes; `Dead` only where there is none.
    fn pass(&mut self, check: &CsCheck) -> Result<Live, NoMemory>
        requires { IsGiven (Self.is_for self.now) (code.Checked (cscheck_tree check.now)) }
        ensures is_for { (q : CsProgramTree) → Self.is_for self.old q → Self.is_for self.new q }
        ensures stands { IfOk result (λ live. (q : CsProgramTree) (s : State) → Self.is_for self.old q → Self.stands self.old s
            → judge q.objects (look_of (cscheck_tree check.now) s ∷ []) ≡ Passes → IsTrue (is_live live) × Self.stands self.new s) }
        ensures sharp { IfOk result (λ live. (q : CsProgramTree) (s : State) → Self.is_for self.old q → Self.sharp self.old s
            → judge q.objects (look_of (cscheck_tree check.now) s ∷ []) ≡ Passes → Self.sharp self.new s) }
        ensures dead { IfOk result (λ live. (q : CsProgramTree) (s : State) (k : WrongKind) (x : Operand) → Self.is_for self.old q → Self.sharp self.old s
            → judge q.objects (look_of (cscheck_tree check.now) s ∷ []) ≡ FailsAs k x → is_live live ≡ false) }
        ensures plain { IfOk result (λ live. (q : CsProgramTree) (p : Plain) (r : Option Plain) → Self.is_for self.old q → Self.under self.old p
            → plain_pass q.temps p (cscheck_tree check.now) ≡ Some r → IsBelow Self.under (is_live live) self.new r) };

    /// Has the states of either set.
    fn join(&mut self, other: &Self) -> Result<(), NoMemory>
        requires { AreForOne (Self.is_for self.now) (Self.is_for other.now) }
        ensures is_for { (q : CsProgramTree) → Self.is_for self.old q → Self.is_for self.new q }
        ensures left { OnOk result ((s : State) → Self.stands self.old s → Self.stands self.new s) }
        ensures right { OnOk result ((s : State) → Self.stands other.now s → Self.stands self.new s) }
        ensures plain { OnOk result ((p : Plain) → Self.under self.old p → Self.under other.now p → Self.under self.new p) };

    /// Has the states of either set, so that widening comes to an end: true where the weight fell, and false
    /// where nothing changed.
    fn widen<U: Fn(i128) -> Option<i128>, S: Steps>(
        &mut self,
        next: &Self,
        ramp: &Ramp<U>,
    ) -> Result<bool, NoMemory>
        requires told { Keeps U.pre U.post ramp.now S.list }
        requires one { AreForOne (Self.is_for self.now) (Self.is_for next.now) }
        ensures is_for { (q : CsProgramTree) → Self.is_for self.old q → Self.is_for self.new q }
        ensures left { OnOk result ((s : State) → Self.stands self.old s → Self.stands self.new s) }
        ensures right { OnOk result ((s : State) → Self.stands next.now s → Self.stands self.new s) }
        ensures fell { IfOk result (λ falls. IsTrue falls → weight S.list self.new < weight S.list self.old) }
        ensures same { IfOk result (λ falls. falls ≡ false → self.new ≡ self.old) };

    /// Whether it is known that each state of the other set is one of this.
    fn covers(&self, other: &Self) -> Result<bool, NoMemory>
        requires { AreForOne (Self.is_for self.now) (Self.is_for other.now) }
        ensures { IfOk result (λ covered. IsTrue covered → (s : State) → Self.stands other.now s → Self.stands self.now s) };

    /// Puts out what holds in every state of the set. Of the one state of a sharp set it tells the number of
    /// each integer object that is kept whole.
    fn facts(&self, out: &mut Facts) -> Result<(), NoMemory>
        ensures told { OnOk result ((q : CsProgramTree) → Self.is_for self.now q
            → Adds out.old out.new (λ fact. NamesFactObjects (length q.objects) fact × ((s : State) → Self.stands self.now s → HoldsIn q s.memory fact))) }
        ensures sharp { OnOk result ((q : CsProgramTree) (s : State) → Self.is_for self.now q → Self.sharp self.now s → TellsWhole q s.memory out.new) };

    /// A set has its one state.
    ghost sharp_stands: { (m : Self) (s : State) → sharp m s → stands m s };

    /// And what else it has is like that.
    ghost sharp_alone: { (m : Self) (s t : State) → sharp m s → stands m t → IsAlike s t };

    /// What is under one side of a hull is under the hull.
    ghost under_left: { (m : Self) (p q : Plain) → under m p → under m (hull p q) };

    ghost under_right: { (m : Self) (p q : Plain) → under m q → under m (hull p q) };
}

/// A memory domain that keeps the sharp and the plain laws of each program.
pub trait Exact: MemDomain {
    ghost is_exact: { (q : CsProgramTree) → IsTrue (Self.exact q) };
}
