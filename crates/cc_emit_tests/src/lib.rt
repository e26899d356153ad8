//! Worked rows of whole programs: graphs, their images, and runs of these, by evaluation. Nothing
//! in it runs, and it has no function of its own.
#![tactic(auto)]
