// The alarms of a program.
#![tactic(auto)]

ghost use Rattle.std.specs.Prelude.{IfOk};
ghost use Rattle.c_syntax.specs.Program.{tprogram_tree};
ghost use Rattle.alarm_carried_laws.specs.AlarmsOf.{AreAlarmsOf};
ghost use Rattle.alarm_carried_laws.specs.ExactReport.{IsExactWithin};
ghost use Rattle.program_alarms.specs.Ready.{IsReady};

use crate::states::analyzed;
use alarm_carried_laws::analyses_carry_over;
use analyzer::initials_have_eight_bits;
use c_syntax::{Alarms, Plan, TProgram};
use lower_exact_laws::exact_analyses_carry_over;
use lower_keeps::lowering_is_right;
use lower_sites_laws::{lowered_calls_agree, lowered_checks_are_of_one_form};
use lowering::lowered;
use ramp_constants::{RampKind, ramp_steps};
use std::alloc::{AllocError as NoMemory, Global};
use std::marker::Brand;

/// The alarms of a program, in order. `unroll` turns of each loop are walked one by one before it is widened along the ramp of
/// this kind, and at most `narrow` steps of narrowing follow. Where the program reads no input, has no goto that leads back and
/// turns no loop more often than that, they are those of its one run: none, or one. The only error is want of memory.
pub fn alarms_of(
    alloc: Global,
    program: &TProgram,
    plan: &Plan,
    unroll: u32,
    narrow: u32,
    ramp: RampKind,
) -> Result<Alarms, NoMemory>
    requires { IsReady (tprogram_tree program.now) plan.now }
    ensures alarms { IfOk result (AreAlarmsOf (tprogram_tree program.now)) }
    ensures exact { IfOk result (IsExactWithin unroll (tprogram_tree program.now)) }
{
    // What the lowering keeps, and what the analysis asks of what is lowered.
    lowering_is_right();
    lowered_checks_are_of_one_form();
    lowered_calls_agree();
    analyses_carry_over();
    exact_analyses_carry_over();
    initials_have_eight_bits(program.initial.as_slice());
    let lowered = lowered(alloc, program, plan)?;
    let steps = ramp_steps(alloc, ramp, program)?;
    let alarms = analyzed::<Brand>(alloc, &lowered, unroll, narrow, &steps)?;
    Ok(alarms)
}
