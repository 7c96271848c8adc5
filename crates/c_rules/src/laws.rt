// A program has one outcome at most.
#![tactic(auto)]

ghost use Rattle.c_rules.specs.Outcomes.{AdmittedIsNotRefused, RefusalsAreOne};

use c_rules_calls::orders_exclude_closed_lists;

/// What refuses a program is one question, at one place, and with one size, whichever calls and effects are told.
pub fn refusals_are_one()
    ensures { RefusalsAreOne }
{
    orders_exclude_closed_lists();
}

/// Nothing but running out of memory refuses a program that is admitted.
pub fn admitted_is_not_refused()
    ensures { AdmittedIsNotRefused }
{
    orders_exclude_closed_lists();
}
