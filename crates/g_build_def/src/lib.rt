//! The graph of a typed program, node by node, as a definition.
//! It has laws, and nothing in it runs.
#![tactic(auto)]

pub mod laws;
