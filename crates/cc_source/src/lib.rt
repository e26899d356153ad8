//! From a source to its typed program: which sources are accepted, and why the others are not.
//! Always: each fault is that of the phase that refuses the source, out of memory apart.
#![tactic(auto)]

pub mod accepted_laws;
mod fault;
pub mod laws;
pub mod meaning_laws;
mod offset;
pub mod offset_laws;
mod outcome;
mod refusal;
pub mod refusal_laws;
mod source;

pub use fault::CompileFault;
pub use offset::offset_of;
pub use outcome::outcome_of;
pub use refusal::refusal_of;
pub use source::{accepted_of, typed_of};
