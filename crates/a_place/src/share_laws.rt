//! Laws of shared places, for the proofs of the crates above: each is the contract of a function
//! that does nothing.

ghost use Rattle.a_place.specs.Marks.{SitesStandAtLines};
ghost use Rattle.a_place.specs.ShareLaws.{SharedParamsDiffer, SharedPlacesAreCounted, SharedPlacesAreFew, SharedSitesAreSafe};

/// Shared places are safe at each instruction.
pub fn shared_sites_are_safe()
    ensures { SharedSitesAreSafe }
{}

/// Parameters have different places.
pub fn shared_params_differ()
    ensures { SharedParamsDiffer }
{}

/// The saved registers and words are enough for the place of each name.
pub fn shared_places_are_counted()
    ensures { SharedPlacesAreCounted }
{}

/// There are no more saved registers and words than 27 and the number below which all names are.
pub fn shared_places_are_few()
    ensures { SharedPlacesAreFew }
{}

/// The sites of a function are those of its lines, in their order.
pub fn sites_stand_at_lines()
    ensures { SitesStandAtLines }
{}
