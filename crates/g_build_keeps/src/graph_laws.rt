//! Laws of built graphs, for the proofs of the crates above: each is the contract of a function
//! that does nothing.

ghost use Rattle.g_build_keeps.specs.BuiltLaws.{WellTypedAreBuilt, SmallAreWithinLimits};

/// The lambdas, globals and names of a well-typed program are those of an image: each lambda is
/// well formed and stands at its number, each call has its function, and `main` is there.
pub fn well_typed_are_built()
    ensures { WellTypedAreBuilt }
{
    c_type::laws::leaves_are_in_order();
    crate::formation_laws::formed_is_well_formed();
}

/// The lambdas and globals of a program within the limits are within the limits of an image.
pub fn small_are_within_limits()
    ensures { SmallAreWithinLimits }
{}
