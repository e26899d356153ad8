//! The board of jobs as a machine over events: which jobs are open, held or out.
//! Promise: a claim that is given a job, a publication and a stop are one event each of the
//! machine that specs/Board.antt defines, and no other call changes the board. A law says that
//! after every legal history the result of each job that is out is the one value that recursion
//! on the ranks gives. Each law is the contract of a function that does nothing, over every
//! program and every legal history. Nothing in it runs. The result of each job is the one that
//! recursion on the ranks gives.
//! Always: the history is legal.
#![tactic(auto)]

mod board;
mod checks;
mod event;
pub mod history_laws;
mod job_state;
mod jobs;
pub mod laws;
mod results;
mod work;

pub use board::Board;
pub use event::{Claim, Event, OpenFault};
pub use jobs::{do_jobs, open};
pub use results::all_results;
pub use work::Work;
