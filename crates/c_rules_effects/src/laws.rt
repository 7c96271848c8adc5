// What the test of two touches tells.
#![tactic(auto)]

ghost use Rattle.std.specs.Prelude.{◌≡◌, ◌↔◌, Bool, List, true};
ghost use Rattle.c_rules_effects.specs.declared.touch.Touch.{Touch};
ghost use Rattle.c_rules_effects.specs.Meeting.{Meet};
ghost use Rattle.c_rules_effects.specs.Met.{met};

/// The test is true exactly where two touches meet.
pub fn tests_tell_meetings()
    ensures { (taken : List Bool) (a b : Touch) → (met taken a b ≡ true) ↔ Meet taken a b }
{}
