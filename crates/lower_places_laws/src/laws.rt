// Laws on the addresses of named places.
#![tactic(auto)]

ghost use Rattle.lower_places_laws.specs.Laws.{NamedPlacesAreAligned, NamedPlacesAreFixed};

/// The address of a named place is its object's, moved by multiples of the alignment of what stands there.
pub fn named_places_are_aligned()
    ensures { NamedPlacesAreAligned }
{}

/// Where no index stands in it, it is its object's at one offset.
pub fn named_places_are_fixed()
    ensures { NamedPlacesAreFixed }
{}
