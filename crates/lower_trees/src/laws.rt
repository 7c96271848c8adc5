// Laws of the lowering's definitions.
#![tactic(auto)]

ghost use Rattle.lower_trees.specs.Named.{NamedPlacesStay};
ghost use Rattle.lower_trees.specs.Samples.{SamplesComeTo};
ghost use Rattle.lower_trees.specs.ZeroStores.{ZerosAreBytes};

/// A store of 0 at a scalar type, or of the null pointer, makes the memory that its bytes make, stored one by one.
pub fn zeros_are_bytes()
    ensures { ZerosAreBytes }
{}

/// The address of a named place is lowered to the address of its object, moved by constants and products by constants,
/// whatever the depth.
pub fn named_places_stay()
    ensures { NamedPlacesStay }
{}

/// Small programs, lowered and run, come to what was worked out by hand.
pub fn samples_are_lowered()
    ensures { SamplesComeTo }
{}
