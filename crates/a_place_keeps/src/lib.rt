//! Laws that code does over places what it does over names, where names share places.
//! The last of them is of the linear code of lists of well-formed lambdas. Nothing in it runs.
#![tactic(auto)]

pub mod laws;
