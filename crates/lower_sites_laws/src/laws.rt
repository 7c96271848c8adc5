// Laws of the checks of lowered programs.
#![tactic(auto)]

ghost use Rattle.lower_sites_laws.specs.Laws.{LoweredCallsAgree, LoweredChecksAreOfOneForm, LoweredChecksAreSited, LoweredPlacesAreNamed};

use c_sites::calls_agree;

/// Each check of a lowered program is made at a site of its function in the source, and looks at what stands there.
pub fn lowered_checks_are_sited()
    ensures { LoweredChecksAreSited }
{}

/// Where sites at one place agree, checks of one place and kind in one function of the lowered program have as many
/// operands.
pub fn lowered_checks_are_of_one_form()
    ensures { LoweredChecksAreOfOneForm }
{}

/// Where sites at one place agree, each check at a named place looks at the address of its object, moved by constants and
/// by products with constants.
pub fn lowered_places_are_named()
    ensures { LoweredPlacesAreNamed }
{}

/// Where sites at one place agree, calls at one place in one function of the lowered program are of one function.
pub fn lowered_calls_agree()
    ensures { LoweredCallsAgree }
{
    calls_agree();
}
