//! Laws of built graphs: well formed, within limits, and they do what their source does.
//! The program is well typed, and the laws are of each call and of the whole run. Nothing in it
//! runs.
#![tactic(auto)]

pub mod formation_laws;
pub mod graph_laws;
pub mod laws;
pub mod number_laws;
