//! Laws of places, for the proofs of the crates above: each is the contract of a function that does
//! nothing.

ghost use Rattle.a_place.specs.Laws.{OverlappingNamesDiffer, PlacesAreBelowCount, PlacesAreFew};

/// Names whose intervals share a position have different places.
pub fn overlapping_names_differ()
    ensures { OverlappingNamesDiffer }
{}

/// The place of each name that occurs is below the count.
pub fn places_are_below_count()
    ensures { PlacesAreBelowCount }
{}

/// There are no more places than there are numbers below which all names are.
pub fn places_are_few()
    ensures { PlacesAreFew }
{}
