// What it means that there are no stray gotos.
#![tactic(auto)]

ghost use Rattle.c_rules_calls.specs.Gotos.{GotosStayWithoutStrays};

/// Where no goto leads into a block that is not around it, the gotos of a body stay, as a plan asks.
pub fn gotos_stay()
    ensures { GotosStayWithoutStrays }
{}
