//! A list of lambdas optimised by a board, whole or where it is stale.
//! One worker makes them, or several.
//! Promise: the results are the answers of the whole list under the recipe, whoever makes them.
//! A function is stale exactly where its deps lead to a change. Only stale functions are given a
//! job, and where none is stale no worker is hired. Functions, ranks, deps and answers are those
//! of `specs/Renewal`. A lemma says that the answers of the small program, put beside those that
//! are kept, are the answers of the large one.
//! Always: the result of a job is the answer of its function. A function that is not stale keeps
//! its answer, under each table of rules and each recipe.
#![tactic(auto)]

mod changes;
mod jobs;
pub mod laws;
mod merging;
mod numbering;
mod ranks;
mod renewal;
mod results;
mod spread;
mod stale_jobs;
mod staleness;

pub use jobs::LambdaJobs;
pub use merging::merged;
pub use numbering::{deps_of, first_functions, functions_of, jobs_of, ranks_of};
pub use renewal::renewed;
pub use results::{answers, answers_by_workers};
pub use staleness::stale;
