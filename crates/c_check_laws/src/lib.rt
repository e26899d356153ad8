//! The laws that what an operator makes, and what the checker accepts, is well typed.
//! Nothing in it runs, and it takes no memory.
//! Always: a broken rule stands at a token of the declaration that breaks it.
#![tactic(auto)]

pub mod laws;
pub mod name_laws;
pub mod place_laws;
