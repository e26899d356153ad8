//! The law of formation, for the proofs of the crates above: the contract of a function that does
//! nothing.

ghost use Rattle.g_build_keeps.specs.FormationLaws.{FormedIsWellFormed};

/// A lambda that is put together by the rules is well formed, calls functions of the list with an
/// input for each parameter and both states, and names globals that are there.
pub fn formed_is_well_formed()
    ensures { FormedIsWellFormed }
{}
