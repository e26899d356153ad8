//! The turns of a script: what a seat does, and what it is answered.

// One turn of a seat, in which it takes the board, does one act, and gives the board back.
ghost use Rattle.std.specs.Prelude.{◌≡◌, ◌<◌, ◌≤◌, Some, true, false, vec_capacity};
ghost use Rattle.base.specs.Limits.{most_jobs};
ghost use Rattle.board_lock.specs.Locks.{lock_of};
ghost use Rattle.board_lock.specs.Rule.{opening};
ghost use Rattle.board_lock.specs.Seats.{IsSeatOf, IsBoardOf};
ghost use Rattle.board_tests.specs.Rests.{IsAct, IsProgram, RestsAs, KeepsCounts};

use base::NoMemory;
use board_core::{Board, Claim, Event, Work};
use board_lock::{Seat, Shared};
use std::alloc::Global;
use std::sync::{Arc, Wait};

/// Each of so many jobs makes its own number, or is refused memory where it is one of `refused`.
#[derive(Drop)]
pub struct Numbers {
    pub jobs: usize,
    pub refused: &'static [u32],
}

impl Work for Numbers {
    type Made = u32;

    ghost jobs = { λ work. work.jobs };

    ghost made = { λ work job callees. job };

    fn make(&self, _alloc: Global, job: u32, _callees: &[Arc<u32>]) -> Result<u32, NoMemory> {
        if self.refused.contains(&job) {
            return Err(NoMemory);
        }
        Ok(job)
    }
}

/// What a seat does in its turn.
#[derive(Clone, Copy)]
pub enum Act {
    Claim,
    Publish(u32),
    Stop,
    Nothing,
}

/// What came of a step. `Refused` is a step whose condition does not hold.
#[derive(Clone, Copy, Debug, PartialEq, Eq)]
pub enum Answer {
    Claimed(Claim),
    Done,
    Refused,
    NoMemory,
}

// These give the answer, and whether the board has one event more.
fn claim(board: &mut Board<Numbers>, worker: u32, out: &mut Vec<Arc<u32>>) -> (Answer, bool)
    requires known { worker < board.old.workers }
    requires room { most_jobs ≤ vec_capacity out.old }
    ensures act { IsAct worker result.1 board.old board.new }
    ensures room { most_jobs ≤ vec_capacity out.new }
{
    if !board.is_idle(worker) {
        return (Answer::Refused, false);
    }
    match board.claim(worker, out) {
        Ok(Claim::Job(job)) => (Answer::Claimed(Claim::Job(job)), true),
        Ok(claim) => (Answer::Claimed(claim), false),
        Err(NoMemory) => (Answer::NoMemory, false),
    }
}

fn publish(alloc: Global, board: &mut Board<Numbers>, worker: u32, job: u32) -> (Answer, bool)
    ensures act { IsAct worker result.1 board.old board.new }
{
    if !board.holds(worker, job) {
        return (Answer::Refused, false);
    }
    let Ok(made) = Arc::new(alloc, job) else {
        return (Answer::NoMemory, false);
    };
    board.publish(worker, job, made);
    (Answer::Done, true)
}

fn stop(board: &mut Board<Numbers>, worker: u32) -> (Answer, bool)
    requires known { worker < board.old.workers }
    ensures act { IsAct worker result.1 board.old board.new }
{
    if board.is_halted() {
        return (Answer::Refused, false);
    }
    board.stop(worker);
    (Answer::Done, true)
}

/// Does the act on the board, for this worker. Gives the answer, and whether the board has one
/// event more.
pub fn on_board(
    alloc: Global,
    board: &mut Board<Numbers>,
    worker: u32,
    act: Act,
    out: &mut Vec<Arc<u32>>,
) -> (Answer, bool)
    requires known { worker < board.old.workers }
    requires room { most_jobs ≤ vec_capacity out.old }
    ensures act { IsAct worker result.1 board.old board.new }
    ensures room { most_jobs ≤ vec_capacity out.new }
{
    match act {
        Act::Claim => claim(board, worker, out),
        Act::Publish(job) => publish(alloc, board, worker, job),
        Act::Stop => stop(board, worker),
        Act::Nothing => (Answer::Done, false),
    }
}

// Tells the lock of the event, where there is one.
fn note_if(shared: &Shared<Numbers>, seat: &mut Seat<Numbers>, board: &Board<Numbers>, adds: bool)
    requires seat { IsSeatOf (lock_of shared.now) seat.old }
    requires turn { seat.old.me.0.has_turn ≡ true }
    requires program { seat.old.me.0.program ≡ Some (opening board.now) }
    requires added { (before : _) × (before.events ≡ seat.old.me.0.front)
        × IsAct seat.old.me.0.number adds before board.now }
    ensures seat { IsSeatOf (lock_of shared.now) seat.new }
    ensures turn { seat.new.me.0.has_turn ≡ true }
    ensures number { seat.new.me.0.number ≡ seat.old.me.0.number }
    ensures program { seat.new.me.0.program ≡ seat.old.me.0.program }
    ensures counts { KeepsCounts seat.old seat.new }
    ensures board { IsBoardOf seat.new board.now }
{
    if adds {
        shared.note(seat, board);
    }
}

/// One turn of the seat of this worker.
pub fn turn<H: Wait>(
    rt: &H,
    alloc: Global,
    shared: &Shared<Numbers>,
    seat: &mut Seat<Numbers>,
    worker: u32,
    out: &mut Vec<Arc<u32>>,
    act: Act,
) -> Answer
    requires rests { RestsAs (lock_of shared.now) seat.old.me.0.program worker seat.old }
    requires program { (workers : _) × IsProgram seat.old.me.0.program workers }
    requires room { most_jobs ≤ vec_capacity out.old }
    ensures rests { RestsAs (lock_of shared.now) seat.old.me.0.program worker seat.new }
    ensures counts { KeepsCounts seat.old seat.new }
    ensures room { most_jobs ≤ vec_capacity out.new }
{
    let mut board = shared.take(rt, seat);
    let (answer, adds) = on_board(alloc, &mut board, worker, act, out);
    note_if(shared, seat, &board, adds);
    shared.give(seat, board);
    answer
}
