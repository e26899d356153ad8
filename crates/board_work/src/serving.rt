//! What one worker does until no job is left to claim.

ghost use Rattle.std.specs.Prelude.{◌≡◌, ◌<◌, ◌∷◌, ◌++◌, [], List, true, false, None, map, IfOk, IfSome, IfNone};
ghost use Rattle.std.specs.Arc.{arc_value};
ghost use Rattle.board_core.specs.Calls.{SomebodyStopped};
ghost use Rattle.board_core.specs.declared.event.Event.{Event};
ghost use Rattle.board_core.specs.OwnEvents.{has_stop};
ghost use Rattle.board_lock.specs.Locks.{lock_of};
ghost use Rattle.board_lock.specs.Seats.{sitting};
ghost use Rattle.board_work.specs.Workers.{IsResting, IsSameSeat, WorksAt, MayWork, HasEnded, HasWorked};
ghost use Rattle.board_work.specs.Turns.{IsIdle, Holds, IsMadeOf, IsInHand, HandsInFirst};

use crate::gate::Gate;
use crate::turns::{Hand, Next, enter, stop, turn};
use crate::worker::{Worker, WorkerOf};
use base::NoMemory;
use board_core::Work;
use board_lock::Shared;
use std::alloc::Global;
use std::sync::{Arc, Wait};

// A sleep compares these bits of the length of the history.
const LOW_BITS: usize = 0xffff_ffff;

// The result of a job.
fn made<W: Work>(
    alloc: Global,
    work: &W,
    job: u32,
    deps: &[Arc<W::Made>],
) -> Result<Arc<W::Made>, NoMemory>
    requires inside { job < W.jobs work.now }
    ensures { IfOk result (λ it. arc_value it ≡ W.made work.now job (map arc_value deps.now)) }
{
    Ok(Arc::new(alloc, work.make(alloc, job, deps)?)?)
}

// Takes the board to stop.
fn give_up<H: Wait, W: Work>(rt: &H, shared: &Shared<W>, worker: &mut Worker<W>, position: usize)
    requires rests { IsResting (lock_of shared.now) position worker.old }
    requires going { has_stop (sitting worker.old.seat).own ≡ false }
    ensures rests { IsResting (lock_of shared.now) position worker.new }
    ensures same { IsSameSeat (sitting worker.old.seat) (sitting worker.new.seat) }
    ensures noted { (sitting worker.new.seat).own
        ≡ (sitting worker.old.seat).own ++ Event.Stop position ∷ [] }
    ensures idle { IsIdle (sitting worker.new.seat) }
    ensures stopped { SomebodyStopped (sitting worker.new.seat).front }
{
    let (mut board, number) = enter(rt, shared, &mut worker.seat, position);
    stop(shared, &mut worker.seat, &mut board, number);
    shared.give(&mut worker.seat, board);
    shared.wake_one();
}

// The worker says whether it has seen a stop, and has nothing in hand.
fn end<S, M, A>(worker: &mut WorkerOf<S, M>, stopped: bool) -> Option<A>
    ensures none { result ≡ None }
    ensures says { worker.new.stopped ≡ stopped }
    ensures seat { worker.new.seat ≡ worker.old.seat }
    ensures deps { worker.new.deps ≡ worker.old.deps }
{
    worker.stopped = stopped;
    None
}

// Makes the result of the job that the worker holds. Where there is no memory for it, the worker
// stops.
fn make<H: Wait, W: Work>(
    rt: &H,
    alloc: Global,
    shared: &Shared<W>,
    worker: &mut Worker<W>,
    position: usize,
    work: &W,
    job: u32,
) -> Option<Hand<Arc<W::Made>>>
    requires rests { IsResting (lock_of shared.now) position worker.old }
    requires program { WorksAt work.now position worker.old }
    requires holds { Holds (sitting worker.old.seat) job }
    requires deps { IsMadeOf W.made W.jobs (sitting worker.old.seat) job
        (map arc_value worker.old.deps.items) }
    ensures rests { IsResting (lock_of shared.now) position worker.new }
    ensures same { IsSameSeat (sitting worker.old.seat) (sitting worker.new.seat) }
    ensures later { (later : List Event)
        × ((sitting worker.new.seat).own ≡ (sitting worker.old.seat).own ++ later) }
    ensures goes_on { IfSome result
        (λ hand. IsInHand W.made arc_value (sitting worker.new.seat) hand) }
    ensures ends { IfNone result (HasEnded W.made position worker.new) }
{
    match made(alloc, work, job, worker.deps.as_slice()) {
        Ok(made) => Some(Hand::Full(job, made)),
        Err(NoMemory) => {
            give_up(rt, shared, worker, position);
            end(worker, true)
        }
    }
}

// One turn, and what follows it. Gives what the worker has in hand, or nothing where it has ended.
// What it had in hand is handed in before it notes anything else.
fn go_on<H: Wait, W: Work, G: Gate>(
    rt: &H,
    alloc: Global,
    shared: &Shared<W>,
    worker: &mut Worker<W>,
    position: usize,
    work: &W,
    gate: &G,
    hand: Hand<Arc<W::Made>>,
) -> Option<Hand<Arc<W::Made>>>
    requires rests { IsResting (lock_of shared.now) position worker.old }
    requires program { WorksAt work.now position worker.old }
    requires hand { IsInHand W.made arc_value (sitting worker.old.seat) hand }
    ensures rests { IsResting (lock_of shared.now) position worker.new }
    ensures same { IsSameSeat (sitting worker.old.seat) (sitting worker.new.seat) }
    ensures goes_on { IfSome result
        (λ hand. IsInHand W.made arc_value (sitting worker.new.seat) hand) }
    ensures handed_in { HandsInFirst position hand (sitting worker.old.seat)
        (sitting worker.new.seat) }
    ensures ends { IfNone result (HasEnded W.made position worker.new) }
{
    match turn(rt, shared, worker, position, hand) {
        Next::Make(job) => {
            gate.pass(job);
            make(rt, alloc, shared, worker, position, work, job)
        }
        Next::Sleep(seen) => {
            shared.await_event(rt, (seen & LOW_BITS) as u32);
            Some(Hand::Empty)
        }
        Next::Done => end(worker, false),
        Next::Stopped => end(worker, true),
    }
}

/// Serves one worker: it claims, makes and hands in, until all jobs are out or some worker has
/// stopped.
pub(crate) fn serve<H: Wait, W: Work, G: Gate>(
    rt: &H,
    alloc: Global,
    shared: &Shared<W>,
    worker: &mut Worker<W>,
    position: usize,
    work: &W,
    gate: &G,
)
    requires { MayWork (lock_of shared.now) work.now position worker.old }
    ensures { HasWorked W.made (lock_of shared.now) work.now position worker.old worker.new }
{
    let mut hand = Hand::Empty;
    for _ in rt.forever() {
        match go_on(rt, alloc, shared, worker, position, work, gate, hand) {
            Some(next) => hand = next,
            None => return,
        }
    }
    unreachable!()
}
