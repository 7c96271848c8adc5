// What is told of checks by their sites.

ghost use Rattle.c_sites.specs.SitedLaws.{CallsAgree, CallsStandAtSites, ChecksAgree, ChecksAreSited, ChecksStandAtSites};

/// The checks of a statement, each with what it looks at, are the checks that it makes, in their order.
pub fn checks_are_sited()
    ensures { ChecksAreSited }
{}

/// Each check is made at a site of its statement, and looks at what that site tells.
pub fn checks_stand_at_sites()
    ensures { ChecksStandAtSites }
{}

/// Where sites at one place agree, checks at one place look at the same.
pub fn checks_agree()
    ensures { ChecksAgree }
{}

/// Each call is made at a site, which has the function that is called.
pub fn calls_stand_at_sites()
    ensures { CallsStandAtSites }
{}

/// Where sites at one place agree, calls at one place are of one function.
pub fn calls_agree()
    ensures { CallsAgree }
{}
