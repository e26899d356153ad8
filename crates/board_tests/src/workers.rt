//! The workers of one shared board.
ghost use Rattle.std.specs.Prelude.{◌≡◌, ◌<◌, []};

use crate::turns::Numbers;
use base::NoMemory;
use board_core::Board;
use board_lock::Shared;
use board_work::{Gate, dismiss, hire, work};
use std::alloc::Global;
use std::sync::Wait;
use std::thread::Threads;

/// What is left of a board when all its workers have returned.
#[derive(Drop)]
pub struct Left {
    pub board: Board<Numbers>,
    pub answer: Result<(), NoMemory>,
    /// How many workers say that one had stopped.
    pub stopped: usize,
}

/// Has all workers of the board do its jobs.
pub fn driven<H: Threads + Wait + Sync, G: Gate>(
    rt: &H,
    alloc: Global,
    task: &Numbers,
    board: Board<Numbers>,
    gate: &G,
) -> Result<Left, NoMemory>
    requires fresh { board.events ≡ [] }
    requires some_worker { 0 < board.workers }
    requires work { board.work ≡ task.now }
{
    let count = board.workers();
    let (shared, first) = Shared::open(alloc, board)?;
    let mut workers = hire(alloc, &shared, first, count)?;
    let answer = work(rt, alloc, &shared, &mut workers, task, gate);
    let stopped = workers.iter().filter(|worker| worker.stopped).count();
    Ok(Left {
        board: dismiss(shared, workers),
        answer,
        stopped,
    })
}
