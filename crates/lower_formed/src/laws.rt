// Laws of lowered programs.
#![tactic(auto)]

ghost use Rattle.lower_formed.specs.Laws.{LoweredIsFormed, LoweredIsMade, LoweredLeadsForward};

/// A typed program with its plan is lowered to one that is formed.
pub fn lowered_is_formed()
    ensures { LoweredIsFormed }
{}

/// Each check, call, loop and label of a lowered program is made by a node of its function at that place, and an input
/// stands only where the source has one.
pub fn lowered_is_made()
    ensures { LoweredIsMade }
{}

/// Where no goto of the source leads back, none of the lowered program does.
pub fn lowered_leads_forward()
    ensures { LoweredLeadsForward }
{}
