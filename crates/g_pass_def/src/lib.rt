//! Sweeps and recipes over any table of rules, and what each function of a list is made into.
//! Here are also the laws by which lists of lambdas are kept so. Nothing in it runs.
#![tactic(auto)]

pub mod laws;
