//! How all workers of a shared board are hired and dismissed.

ghost use Rattle.std.specs.Prelude.{◌≡◌, ◌<◌, ◌≤◌, suc, vec_capacity, vec_len, IfOk, List};
ghost use Rattle.base.specs.Limits.{most_jobs};
ghost use Rattle.board_core.specs.declared.event.Event.{Event};
ghost use Rattle.board_core.specs.History.{History};
ghost use Rattle.board_lock.specs.Locks.{lock_of};
ghost use Rattle.board_lock.specs.Seats.{IsSeatOf, first_sitting, sitting};
ghost use Rattle.board_work.specs.Crews.{IsMember, IsCrew, IsTakingIn, IsDismissed};
ghost use Rattle.board_work.specs.Workers.{Each};

use crate::worker::{Worker, WorkerOf};
use base::{MOST_JOBS, NoMemory};
use board_core::{Board, Work};
use board_lock::{Seat, Shared};
use std::alloc::Global;

// A worker at this seat. It has room for as many results as a board has jobs at most.
fn hired<S: Drop, M: Drop>(alloc: Global, seat: S) -> Result<WorkerOf<S, M>, NoMemory>
    ensures { IfOk result (λ worker. (worker.seat ≡ seat)
        × (most_jobs ≤ vec_capacity worker.deps)) }
{
    Ok(WorkerOf {
        seat,
        deps: Vec::with_capacity(alloc, MOST_JOBS)?,
        stopped: false,
    })
}

/// So many workers of a shared board, for `work`: one at its first seat, and one at each of the
/// seats that are split off it.
pub fn hire<W: Work>(
    alloc: Global,
    shared: &Shared<W>,
    first: Seat<W>,
    count: u32,
) -> Result<Vec<Worker<W>>, NoMemory>
    requires seat { IsSeatOf (lock_of shared.now) first }
    requires fresh { (board : History W) × (sitting first ≡ first_sitting board)
        × (count ≤ board.workers) }
    requires some_worker { 0 < count }
    ensures crew { (board : History W) → sitting first ≡ first_sitting board
        → IfOk result (λ workers. IsCrew (lock_of shared.now) board workers.items) }
    ensures count { IfOk result (λ workers. vec_len workers ≡ count) }
{
    let mut first = first;
    let mut workers = Vec::with_capacity(alloc, count as usize)?;
    for _number in 1..count {
        workers.push(hired(alloc, shared.split(&mut first))?)?;
    }
    workers.insert(0, hired(alloc, first)?)?;
    Ok(workers)
}

// The seat of a worker.
fn seat_of<S, M: Drop>(worker: WorkerOf<S, M>) -> S
    ensures { result ≡ worker.seat }
{
    let WorkerOf {
        seat,
        deps: _,
        stopped: _,
    } = worker;
    seat
}

// The first seat takes in all others.
fn take_in<W: Work>(shared: &Shared<W>, seat: &mut Seat<W>, others: Vec<Worker<W>>)
    requires taking { (board : History W) × (front : List Event)
        × IsTakingIn (lock_of shared.now) board front (vec_len others) seat.old
        × Each (λ k. IsMember (lock_of shared.now) board (suc k)) others.items }
    ensures { (board : History W) (front : List Event)
        → IsTakingIn (lock_of shared.now) board front (vec_len others) seat.old
        → Each (λ k. IsMember (lock_of shared.now) board (suc k)) others.items
        → IsTakingIn (lock_of shared.now) board front 0 seat.new }
{
    let mut others = others;
    while let Some(worker) = others.pop() {
        shared.join(seat, seat_of(worker));
    }
}

/// Takes in the seats of all workers of a shared board, and closes it.
pub fn dismiss<W: Work>(shared: Shared<W>, workers: Vec<Worker<W>>) -> Board<W>
    requires crew { (board : History W) × IsCrew (lock_of shared) board workers.items }
    ensures { (board : History W) → IsCrew (lock_of shared) board workers.items
        → IsDismissed W.made board workers.items result }
{
    let mut workers = workers;
    let mut seat = seat_of(workers.remove(0));
    take_in(&shared, &mut seat, workers);
    shared.close(seat)
}
