//! The jobs of a board, done by its workers.

ghost use Rattle.std.specs.Prelude.{◌≡◌, ◌<◌, ◌≤◌, length, map, [], IfOk};
ghost use Rattle.std.specs.Arc.{arc_value};
ghost use Rattle.base.specs.Limits.{most_jobs, most_workers};
ghost use Rattle.board_core.specs.Answers.{IsRanked};
ghost use Rattle.board_core.specs.Calls.{AllOut};
ghost use Rattle.board_core.specs.History.{dep_lists, program_of, state_of};
ghost use Rattle.board_core.specs.Alone.{opened, AreResults};

use crate::{Gate, dismiss, hire, work};
use base::NoMemory;
use board_core::history_laws::results_stay;
use board_core::{Board, Work, all_results, open};
use board_lock::Shared;
use std::alloc::Global;
use std::sync::{Arc, Wait};
use std::thread::Threads;

// The board once all its workers have done all jobs.
fn driven<H: Threads + Wait + Sync, W: Work, G: Gate>(
    rt: &H,
    alloc: Global,
    task: &W,
    board: Board<W>,
    gate: &G,
) -> Result<Board<W>, NoMemory>
    requires fresh { board.events ≡ [] }
    requires some_worker { 0 < board.workers }
    requires work { board.work ≡ task.now }
    ensures same { IfOk result (λ closed. program_of W.made closed ≡ program_of W.made board) }
    ensures out { IfOk result (λ closed.
        AllOut (program_of W.made closed) (state_of W.made closed)) }
{
    results_stay::<W::Made>();
    let count = board.workers();
    let (shared, first) = Shared::open(alloc, board)?;
    let mut workers = hire(alloc, &shared, first, count)?;
    let answer = work(rt, alloc, &shared, &mut workers, task, gate);
    let closed = dismiss(shared, workers);
    answer?;
    Ok(closed)
}

/// The results of all jobs of a work, which 1 to `MOST_WORKERS` workers do, each job once. A worker
/// works in a thread of its own where one can be made, and passes the gate for each job before it
/// makes it. The job j has the rank `ranks[j]` and depends on the jobs `deps[j]`, whose ranks are
/// smaller; there are at most `MOST_JOBS`. `NoMemory` only where the allocator has none. It may
/// wait, and nothing is promised of its returning.
pub fn do_jobs_by_workers<H: Threads + Wait + Sync, W: Work, G: Gate>(
    rt: &H,
    alloc: Global,
    task: &W,
    ranks: &[u32],
    deps: &[Vec<u32>],
    workers: u32,
    gate: &G,
) -> Result<Vec<Arc<W::Made>>, NoMemory>
    requires jobs { length deps.now ≡ W.jobs task.now }
    requires few { length deps.now ≤ most_jobs }
    requires some_worker { 0 < workers }
    requires few_workers { workers ≤ most_workers }
    requires ranked { IsRanked (program_of W.made
        (opened workers ranks.now (dep_lists deps.now) task.now)) }
    ensures { IfOk result (λ all. AreResults
        (program_of W.made (opened workers ranks.now (dep_lists deps.now) task.now))
        (map arc_value all.items)) }
{
    let board = open(alloc, task, ranks, deps, workers)?;
    let closed = driven(rt, alloc, task, board, gate)?;
    all_results(alloc, closed)
}
