//! The jobs of a board, done by one worker.

ghost use Rattle.std.specs.Prelude.{◌≡◌, ◌+◌, ◌*◌, ◌<◌, ◌≤◌, length, map, vec_capacity, true, false, IfOk, OnOk, Ok};
ghost use Rattle.std.specs.Arc.{arc_value};
ghost use Rattle.base.specs.Limits.{most_jobs, most_workers};
ghost use Rattle.board_core.specs.Answers.{IsRanked};
ghost use Rattle.board_core.specs.Board.{Held, deps_of, job_at, results};
ghost use Rattle.board_core.specs.Calls.{with_event, AllOut};
ghost use Rattle.board_core.specs.History.{dep_lists, program_of, state_of};
ghost use Rattle.board_core.specs.Alone.{opened, AreResults, GoesOn, IsBetweenJobs};

use crate::history_laws::events_go_on;
use crate::laws::histories_are_short;
use crate::results::all_results;
use crate::{Board, Claim, Event, OpenFault, Work};
use base::{MOST_JOBS, NoMemory};
use std::alloc::Global;
use std::sync::Arc;

/// A board of at most `MOST_WORKERS` workers, for a work of at most `MOST_JOBS` jobs. The job j has
/// the rank `ranks[j]` and depends on the jobs `deps[j]`, whose ranks are smaller. `NoMemory` only
/// where the allocator has none.
pub fn open<W: Work>(
    alloc: Global,
    work: &W,
    ranks: &[u32],
    deps: &[Vec<u32>],
    workers: u32,
) -> Result<Board<W>, NoMemory>
    requires jobs { length deps.now ≡ W.jobs work.now }
    requires few { length deps.now ≤ most_jobs }
    requires few_workers { workers ≤ most_workers }
    requires ranked { IsRanked (program_of W.made
        (opened workers ranks.now (dep_lists deps.now) work.now)) }
    ensures { IfOk result (λ board.
        board ≡ opened workers ranks.now (dep_lists deps.now) work.now) }
{
    match Board::open(alloc, work, ranks, deps, workers) {
        Ok(board) => Ok(board),
        Err(OpenFault::NoMemory) => Err(NoMemory),
        Err(OpenFault::BadDeps { .. }) => unreachable!(),
    }
}

// Makes the job that the worker holds, and hands it in.
fn finish<W: Work>(
    alloc: Global,
    work: &W,
    board: &mut Board<W>,
    job: u32,
    callees: &[Arc<W::Made>],
) -> Result<(), NoMemory>
    requires work { board.old.work ≡ work.now }
    requires inside { job < W.jobs work.now }
    requires holds { job_at (state_of W.made board.old) job ≡ Held 0 }
    requires callees { map arc_value callees.now
        ≡ results (state_of W.made board.old) (deps_of (program_of W.made board.old) job) }
    ensures { OnOk result (board.new ≡ with_event board.old (Event.Publish 0 job)) }
{
    let made = work.make(alloc, job, callees)?;
    board.publish(0, job, Arc::new(alloc, made)?);
    Ok(())
}

// Does one job, and says whether there was one.
fn step<W: Work>(
    alloc: Global,
    work: &W,
    board: &mut Board<W>,
    callees: &mut Vec<Arc<W::Made>>,
) -> Result<bool, NoMemory>
    requires work { board.old.work ≡ work.now }
    requires between { IsBetweenJobs W.made board.old }
    requires room { most_jobs ≤ vec_capacity callees.old }
    ensures between { OnOk result (IsBetweenJobs W.made board.new) }
    ensures room { most_jobs ≤ vec_capacity callees.new }
    ensures one { result ≡ Ok true → GoesOn board.old board.new }
    ensures none { result ≡ Ok false → board.new ≡ board.old }
    ensures done { result ≡ Ok false
        → AllOut (program_of W.made board.old) (state_of W.made board.old) }
{
    events_go_on::<W::Made>();
    match board.claim(0, callees)? {
        Claim::Job(job) => {
            finish(alloc, work, board, job, callees)?;
            Ok(true)
        }
        Claim::Done => Ok(false),
        Claim::Wait | Claim::Stopped => unreachable!(),
    }
}

// The history of a board has at most two events for each job and one for each worker.
fn history_is_short<W: Work>(board: &Board<W>)
    ensures { length board.now.events ≤ 2 * length board.now.deps + board.now.workers }
{
    histories_are_short::<W::Made>();
    board.events();
}

// Does the jobs until all are out.
fn finish_all<W: Work>(alloc: Global, work: &W, board: &mut Board<W>) -> Result<(), NoMemory>
    requires work { board.old.work ≡ work.now }
    requires between { IsBetweenJobs W.made board.old }
    ensures same { OnOk result (program_of W.made board.new ≡ program_of W.made board.old) }
    ensures out { OnOk result (AllOut (program_of W.made board.new) (state_of W.made board.new)) }
{
    let mut callees = Vec::with_capacity(alloc, MOST_JOBS)?;
    while step(alloc, work, board, &mut callees)? {
        history_is_short(board);
    }
    Ok(())
}

/// The results of all jobs of a work, which one worker does, each once. The job j has the rank
/// `ranks[j]` and depends on the jobs `deps[j]`, whose ranks are smaller; there are at most
/// `MOST_JOBS`. `NoMemory` only where the allocator has none.
pub fn do_jobs<W: Work>(
    alloc: Global,
    work: &W,
    ranks: &[u32],
    deps: &[Vec<u32>],
) -> Result<Vec<Arc<W::Made>>, NoMemory>
    requires jobs { length deps.now ≡ W.jobs work.now }
    requires few { length deps.now ≤ most_jobs }
    requires ranked { IsRanked (program_of W.made
        (opened 1 ranks.now (dep_lists deps.now) work.now)) }
    ensures { IfOk result (λ all. AreResults
        (program_of W.made (opened 1 ranks.now (dep_lists deps.now) work.now))
        (map arc_value all.items)) }
{
    let mut board = open(alloc, work, ranks, deps, 1)?;
    finish_all(alloc, work, &mut board)?;
    all_results(alloc, board)
}
