//! What a worker does while it has the board.

ghost use Rattle.std.specs.Prelude.{◌≡◌, ◌≤◌, ◌++◌, List, false, None, Some, map, vec_capacity};
ghost use Rattle.std.specs.Arc.{arc_value};
ghost use Rattle.base.specs.Limits.{most_jobs};
ghost use Rattle.board_core.specs.declared.event.Event.{Event};
ghost use Rattle.board_core.specs.OwnEvents.{held_from, has_stop};
ghost use Rattle.board_lock.specs.Locks.{lock_of};
ghost use Rattle.board_lock.specs.Seats.{IsSeatOf, sitting, with_noted};
ghost use Rattle.board_work.specs.Workers.{IsResting, IsSameSeat};
ghost use Rattle.board_work.specs.Turns.{IsAtBoard, IsIdle, IsResultOf, IsInHand, IsNextFor, IsChosen, IsTurn, handing_in};

use crate::worker::Worker;
use base::NoMemory;
use board_core::history_laws::{own_events_decide, own_stops_decide};
use board_core::laws::deps_give_answer;
use board_core::{Board, Claim, Work};
use board_lock::{Seat, Shared};
use std::sync::{Arc, Wait};

/// What a worker has when it takes the board.
#[derive(Drop)]
pub(crate) enum Hand<A> {
    Empty,
    /// The result of the job that it holds.
    Full(u32, A),
}

/// What a worker does once it has given the board back.
#[derive(Drop)]
pub(crate) enum Next {
    Make(u32),
    /// It sleeps while the history has so many events.
    Sleep(usize),
    Done,
    Stopped,
}

// Waits for the turn of the seat, and takes the board. Gives the number of the worker too.
pub(crate) fn enter<H: Wait, W: Work>(
    rt: &H,
    shared: &Shared<W>,
    seat: &mut Seat<W>,
    position: usize,
) -> (Board<W>, u32)
    requires seat { IsSeatOf (lock_of shared.now) seat.old }
    requires turn { (sitting seat.old).has_turn ≡ false }
    requires number { (sitting seat.old).number ≡ position }
    ensures seat { IsSeatOf (lock_of shared.now) seat.new }
    ensures same { IsSameSeat (sitting seat.old) (sitting seat.new) }
    ensures own { (sitting seat.new).own ≡ (sitting seat.old).own }
    ensures board { IsAtBoard (sitting seat.new) result.0 }
    ensures number { result.1 ≡ position }
{
    let board = shared.take(rt, seat);
    let _workers = board.workers();
    (board, position as u32)
}

// Hands in the result of the job that the worker holds.
pub(crate) fn hand_in<W: Work>(
    shared: &Shared<W>,
    seat: &mut Seat<W>,
    board: &mut Board<W>,
    worker: u32,
    job: u32,
    made: Arc<W::Made>,
)
    requires seat { IsSeatOf (lock_of shared.now) seat.old }
    requires board { IsAtBoard (sitting seat.old) board.old }
    requires number { (sitting seat.old).number ≡ worker }
    requires holds { held_from None (sitting seat.old).own ≡ Some job }
    requires result { IsResultOf W.made (sitting seat.old) job (arc_value made) }
    ensures seat { IsSeatOf (lock_of shared.now) seat.new }
    ensures board { IsAtBoard (sitting seat.new) board.new }
    ensures noted { sitting seat.new ≡ with_noted (Event.Publish worker job) (sitting seat.old) }
{
    let _events = board.events();
    own_events_decide::<W::Made>();
    deps_give_answer::<W::Made>();
    board.publish(worker, job, made);
    shared.note(seat, board);
}

// Stops the worker, which has not stopped before.
pub(crate) fn stop<W: Work>(
    shared: &Shared<W>,
    seat: &mut Seat<W>,
    board: &mut Board<W>,
    worker: u32,
)
    requires seat { IsSeatOf (lock_of shared.now) seat.old }
    requires board { IsAtBoard (sitting seat.old) board.old }
    requires number { (sitting seat.old).number ≡ worker }
    requires going { has_stop (sitting seat.old).own ≡ false }
    ensures seat { IsSeatOf (lock_of shared.now) seat.new }
    ensures board { IsAtBoard (sitting seat.new) board.new }
    ensures noted { sitting seat.new ≡ with_noted (Event.Stop worker) (sitting seat.old) }
{
    let _events = board.events();
    own_stops_decide::<W::Made>();
    board.stop(worker);
    shared.note(seat, board);
}

// Hands in what the worker has in hand.
fn empty_hand<W: Work>(
    shared: &Shared<W>,
    seat: &mut Seat<W>,
    board: &mut Board<W>,
    worker: u32,
    hand: Hand<Arc<W::Made>>,
)
    requires seat { IsSeatOf (lock_of shared.now) seat.old }
    requires board { IsAtBoard (sitting seat.old) board.old }
    requires number { (sitting seat.old).number ≡ worker }
    requires hand { IsInHand W.made arc_value (sitting seat.old) hand }
    ensures seat { IsSeatOf (lock_of shared.now) seat.new }
    ensures board { IsAtBoard (sitting seat.new) board.new }
    ensures same { IsSameSeat (sitting seat.old) (sitting seat.new) }
    ensures idle { IsIdle (sitting seat.new) }
    ensures noted { (sitting seat.new).own ≡ (sitting seat.old).own ++ handing_in worker hand }
{
    if let Hand::Full(job, made) = hand {
        hand_in(shared, seat, board, worker, job, made);
    }
}

// Claims the next job. Where there is no memory for it, the worker stops.
fn choose<W: Work>(
    shared: &Shared<W>,
    seat: &mut Seat<W>,
    board: &mut Board<W>,
    worker: u32,
    deps: &mut Vec<Arc<W::Made>>,
) -> Next
    requires seat { IsSeatOf (lock_of shared.now) seat.old }
    requires board { IsAtBoard (sitting seat.old) board.old }
    requires number { (sitting seat.old).number ≡ worker }
    requires idle { IsIdle (sitting seat.old) }
    requires room { most_jobs ≤ vec_capacity deps.old }
    ensures seat { IsSeatOf (lock_of shared.now) seat.new }
    ensures board { IsAtBoard (sitting seat.new) board.new }
    ensures same { IsSameSeat (sitting seat.old) (sitting seat.new) }
    ensures next { IsNextFor W.made W.jobs (sitting seat.new)
        (map arc_value deps.new.items) result }
    ensures noted { (chosen : List Event)
        × ((sitting seat.new).own ≡ (sitting seat.old).own ++ chosen)
        × IsChosen worker result chosen }
    ensures room { most_jobs ≤ vec_capacity deps.new }
{
    let _events = board.events();
    own_events_decide::<W::Made>();
    own_stops_decide::<W::Made>();
    deps_give_answer::<W::Made>();
    match board.claim(worker, deps) {
        Ok(Claim::Job(job)) => {
            shared.note(seat, board);
            Next::Make(job)
        }
        Ok(Claim::Wait) => Next::Sleep(board.events().len()),
        Ok(Claim::Done) => Next::Done,
        Ok(Claim::Stopped) => Next::Stopped,
        Err(NoMemory) => {
            stop(shared, seat, board, worker);
            Next::Stopped
        }
    }
}

// Whether one that sleeps has something to do after a turn with this answer: a job is ready, or
// there is nothing to wait for any more.
//
// Nobody sleeps on while there is. Who sleeps was answered `Wait` in a turn that left no job ready,
// and fell asleep while the history was as long as it was then, so nothing had happened since. What
// makes a job ready, the last job out or a stop is an event of a later turn, and that turn wakes
// one of those who sleep. Who is woken takes a turn, of which the same holds.
fn is_more_to_do<W: Work>(board: &mut Board<W>, next: &Next) -> bool
    ensures { board.new ≡ board.old }
{
    match next {
        Next::Make(_) => board.next_job().is_some(),
        Next::Sleep(_) => false,
        Next::Done | Next::Stopped => true,
    }
}

// Wakes one of those who sleep, where there is more to do.
fn wake_for<W: Work>(shared: &Shared<W>, is_more: bool) {
    if is_more {
        shared.wake_one();
    }
}

/// One turn of a worker: it hands in what it has made, and claims the next job. What it has made is
/// handed in also where another worker has stopped.
pub(crate) fn turn<H: Wait, W: Work>(
    rt: &H,
    shared: &Shared<W>,
    worker: &mut Worker<W>,
    position: usize,
    hand: Hand<Arc<W::Made>>,
) -> Next
    requires rests { IsResting (lock_of shared.now) position worker.old }
    requires hand { IsInHand W.made arc_value (sitting worker.old.seat) hand }
    ensures rests { IsResting (lock_of shared.now) position worker.new }
    ensures same { IsSameSeat (sitting worker.old.seat) (sitting worker.new.seat) }
    ensures next { IsNextFor W.made W.jobs (sitting worker.new.seat)
        (map arc_value worker.new.deps.items) result }
    ensures turn { IsTurn position hand result (sitting worker.old.seat)
        (sitting worker.new.seat) }
{
    let (mut board, number) = enter(rt, shared, &mut worker.seat, position);
    empty_hand(shared, &mut worker.seat, &mut board, number, hand);
    let next = choose(
        shared,
        &mut worker.seat,
        &mut board,
        number,
        &mut worker.deps,
    );
    let is_more = is_more_to_do(&mut board, &next);
    shared.give(&mut worker.seat, board);
    wake_for(shared, is_more);
    next
}
