//! What regions, lambdas and programs of the graph do, and the laws by which a change keeps it.
//! Nothing in it runs.
#![tactic(auto)]

pub mod laws;
