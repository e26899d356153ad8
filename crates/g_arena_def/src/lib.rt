//! Lambdas as a list of nodes in pre-order, and the changes of one place of it. Nothing in it runs.
//! Always: a list of nodes with numbers of their own is that of one lambda alone.
#![tactic(auto)]

pub mod laws;
mod place;

pub use place::Place;
