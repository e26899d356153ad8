//! Workers that drive a shared board, each in a thread of its own: they claim, make and hand in.
//! They go on until no job is left to claim.
//! Promise: the result of each job is the one that recursion on the ranks gives, however the
//! steps of the workers interleave. That they return is not promised. The contract of `work`,
//! over every work and however the steps of the workers interleave. That the workers return, and
//! that two of them make at once, is not promised.
//! Always: a worker that has a job to make holds it.
#![tactic(auto)]

mod crew;
mod gate;
mod hiring;
mod jobs;
mod serving;
mod threads;
mod turns;
mod worker;

pub use crew::work;
pub use gate::{CountGate, Gate, MeetGate, OpenGate};
pub use hiring::{dismiss, hire};
pub use jobs::do_jobs_by_workers;
pub use threads::crosses_threads;
pub use worker::{Worker, WorkerOf};
