//! The workers of a shared board, at work.

ghost use Rattle.std.specs.Prelude.{◌≡◌, ◌<◌, ◌↔◌, Ok, Err, true, false, vec_len, length, OnOk, MatchBool, IsErr};
ghost use Rattle.board_lock.specs.Locks.{lock_of};
ghost use Rattle.board_work.specs.Workers.{Each, EachOf, SomeAt, MayWork, HasWorked, HasSeenStop, IsFinished};

use crate::gate::Gate;
use crate::serving::serve;
use crate::worker::{Worker, WorkerOf};
use base::NoMemory;
use board_core::Work;
use board_lock::Shared;
use std::alloc::Global;
use std::sync::{Arc, Wait};
use std::thread;
use std::thread::Threads;

// Serves each worker in a thread of its own, where one can be made.
fn serve_all<H: Threads + Wait + Sync, W: Work, G: Gate>(
    rt: &H,
    alloc: Global,
    shared: &Shared<W>,
    workers: &mut [Worker<W>],
    work: &W,
    gate: &G,
)
    requires some_worker { 0 < length workers.old }
    requires may { Each (MayWork (lock_of shared.now) work.now) workers.old }
    ensures count { length workers.new ≡ length workers.old }
    ensures each { EachOf (HasWorked W.made (lock_of shared.now) work.now) workers.old workers.new }
{
    let threads = workers.len();
    thread::for_each_mut(
        rt,
        workers,
        threads,
        &|position: usize, worker: &mut Worker<W>|
            requires { MayWork (lock_of shared.now) work.now position worker.now }
            ensures { HasWorked W.made (lock_of shared.entry.now) work.entry.now position
                worker.entry.now worker.exit.now }
        { serve(rt, alloc, shared, worker, position, work, gate) },
    );
}

// Whether a worker says that it has seen a stop.
fn is_some_stopped<S, M>(workers: &[WorkerOf<S, M>]) -> bool
    ensures { MatchBool result
        (SomeAt (λ position worker. worker.stopped ≡ true) workers.now)
        (Each (λ position worker. worker.stopped ≡ false) workers.now) }
{
    for worker in workers {
        if worker.stopped {
            return true;
        }
    }
    false
}

/// Has the workers claim, make and hand in jobs, each in a thread of its own where one can be made,
/// until all jobs are out or a worker has stopped. The worker at each position is the one of that
/// number: its seat is that of the shared board, without the turn, and of a board for this work; it
/// holds no job, and has room for `MOST_JOBS` results. `gate.pass` is called for each job after its
/// claim and before it is made, without the board. A worker for whose claim or result there is no
/// memory stops. `Ok` only where all jobs are out and nobody has stopped, `NoMemory` exactly where
/// somebody has. All workers have then returned, and each may work again by the seat that it had.
/// Nothing is promised of their returning.
pub fn work<H: Threads + Wait + Sync, W: Work, G: Gate>(
    rt: &H,
    alloc: Global,
    shared: &Shared<W>,
    workers: &mut Vec<Worker<W>>,
    work: &W,
    gate: &G,
) -> Result<(), NoMemory>
    requires some_worker { 0 < vec_len workers.old }
    requires may { Each (MayWork (lock_of shared.now) work.now) workers.old.items }
    ensures count { vec_len workers.new ≡ vec_len workers.old }
    ensures each { EachOf (HasWorked W.made (lock_of shared.now) work.now)
        workers.old.items workers.new.items }
    ensures finished { OnOk result (Each (IsFinished W.made) workers.new.items) }
    ensures memory { IsErr result ↔ SomeAt HasSeenStop workers.new.items }
{
    serve_all(rt, alloc, shared, workers.as_mut_slice(), work, gate);
    if is_some_stopped(workers.as_slice()) {
        return Err(NoMemory);
    }
    Ok(())
}
