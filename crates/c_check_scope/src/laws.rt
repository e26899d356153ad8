//! Laws of scopes, for the proofs of the crates above: each is the contract of a function that does
//! nothing.

ghost use Rattle.c_check_scope.specs.ScopeLaws.{DeclarationDecides, DeclarationIsInner, EnteredMeansTheSame};

/// A declaration decides what its name means, and of no other name.
pub fn declaration_decides<T: Copy>()
    ensures { DeclarationDecides T }
{}

/// A declaration leaves the scopes around the innermost one.
pub fn declaration_is_inner<T: Copy>()
    ensures { DeclarationIsInner T }
{}

/// In a scope that has begun, names mean what they mean around it.
pub fn entered_means_the_same<T: Copy>()
    ensures { EnteredMeansTheSame T }
{}
