//! What a sweep of one rule over the nodes of a lambda is, with the steps that it makes. Nothing in
//! it runs.
#![tactic(auto)]
