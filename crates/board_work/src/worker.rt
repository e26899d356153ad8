//! A worker of a shared board.

use board_core::Work;
use board_lock::Seat;
use std::sync::Arc;

/// A worker, over the types of its seat and of a result: that it may go to another thread is not
/// found of a struct over a work.
#[derive(Drop)]
pub struct WorkerOf<S, M> {
    /// Its seat at the shared board.
    pub seat: S,
    /// Room for the results that the job which it makes depends on.
    pub deps: Vec<Arc<M>>,
    /// Whether a worker had stopped, this one or another, when it returned.
    pub stopped: bool,
}

/// A worker of a shared board for this work.
pub type Worker<W> = WorkerOf<Seat<W>, <W as Work>::Made>;
