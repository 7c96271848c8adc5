// What tests and checks find in the one state.

ghost use Rattle.std.specs.Prelude.{◌≡◌, ◌≢◌, ◌∷◌, [], IfOk, IfSome, IsSomeAnd, IsTrue, Some, false, map};
ghost use Rattle.num_api.specs.Lives.{is_live};
ghost use Rattle.c_syntax.specs.declared.alarm.WrongKind.{WrongKind};
ghost use Rattle.c_syntax.specs.Operand as operands;
ghost use Rattle.c_syntax.specs.Types.{object_tree};
ghost use Rattle.block_mem.specs.declared.types.Value.{Value};
ghost use Rattle.c_values.specs.Values.{truth as truth_of};
ghost use Rattle.c_values.specs.Looks.{judge, Passes, FailsAs};
ghost use Rattle.csharp.specs.Trees.{cscheck_tree, csexpr_tree};
ghost use Rattle.csharp.specs.States as states;
ghost use Rattle.csharp.specs.States.{look_of, value_of};
ghost use Rattle.csharp_state.specs.Answers.{operand_of};
ghost use Rattle.mem_api.specs.Showing.{looked_at};
ghost use Rattle.mem_one_state.specs.One.{IsOf};

use crate::state::OneState;
use c_syntax::Object;
use c_values::truth as truth_of;
use csharp::{CsCheck, CsExpr};
use csharp_state::{Judgement, Operand};
use ext_int::Live;
use std::alloc::AllocError as NoMemory;

impl OneState {
    /// `Dead` where the one state is known, and the condition has a value of the other truth.
    pub fn assume(&self, condition: &CsExpr, truth: bool) -> Result<Live, NoMemory>
        ensures stands { IfOk result (λ live. (s : states.State) (v : Value) → IsOf self.now s → value_of (csexpr_tree condition.now) s ≡ Some v
            → truth_of v ≡ truth → IsTrue (is_live live)) }
        ensures dead { IfOk result (λ live. (s : states.State) (v : Value) → self.now ≡ Some s → value_of (csexpr_tree condition.now) s ≡ Some v
            → truth_of v ≢ truth → is_live live ≡ false) }
    {
        let Some(state) = &self.state else {
            return Ok(Live::Live);
        };
        match state.value(condition) {
            Ok(Some(v)) => Ok(live_if(truth_of(v) == truth)),
            Ok(None) => Ok(Live::Live),
            Err(_) => Err(NoMemory),
        }
    }

    /// `Dead` where the one state is known, and the check fails in it.
    pub fn pass(&self, objects: &[Object], check: &CsCheck) -> Result<Live, NoMemory>
        ensures stands { IfOk result (λ live. (s : states.State) → IsOf self.now s
            → judge (map object_tree objects.now) (look_of (cscheck_tree check.now) s ∷ []) ≡ Passes → IsTrue (is_live live)) }
        ensures dead { IfOk result (λ live. (s : states.State) (k : WrongKind) (x : operands.Operand) → self.now ≡ Some s
            → judge (map object_tree objects.now) (look_of (cscheck_tree check.now) s ∷ []) ≡ FailsAs k x → is_live live ≡ false) }
    {
        let Some(state) = &self.state else {
            return Ok(Live::Live);
        };
        match state.judge(objects, check) {
            Ok(Judgement::Fails(_, _)) => Ok(Live::Dead),
            Ok(Judgement::Passes | Judgement::NoOperand) => Ok(Live::Live),
            Err(_) => Err(NoMemory),
        }
    }

    /// The operand of a check in the one state, where that is known and has one.
    pub fn operand(&self, check: &CsCheck) -> Result<Option<Operand>, NoMemory>
        ensures stands { IfOk result (λ found. (s : states.State) (x : operands.Operand) → IsOf self.now s
            → looked_at (cscheck_tree check.now) s ≡ Some x → IfSome found (λ y. operand_of y ≡ x)) }
        ensures sharp { IfOk result (λ found. (s : states.State) (x : operands.Operand) → self.now ≡ Some s
            → looked_at (cscheck_tree check.now) s ≡ Some x → IsSomeAnd found (λ y. operand_of y ≡ x)) }
    {
        let Some(state) = &self.state else {
            return Ok(None);
        };
        match state.operand(check) {
            Ok(found) => Ok(found),
            Err(_) => Err(NoMemory),
        }
    }
}

fn live_if(live: bool) -> Live
    ensures { is_live result ≡ live }
{
    if live { Live::Live } else { Live::Dead }
}
