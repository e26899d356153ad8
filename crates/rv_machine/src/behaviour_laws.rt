//! Laws of behaviour that is kept, for the proofs of the crates above: each is the contract of a
//! function that does nothing.

ghost use Rattle.rv_machine.specs.BehaviourLaws.{NearerIsKept};

use val_laws::laws::runs::Related;

/// A machine that keeps the behaviour of a family of bounded runs keeps that of a nearer family
/// too, where the two families are within each other and no stack of the farther one is deeper.
pub fn nearer_is_kept<A: Related<B>, B>()
    ensures { NearerIsKept A B A.relate }
{}
