//! A crew of seats that drive a board, through its lock or on a bare board.

// The seats of one shared board, driven step by step or in threads.
ghost use Rattle.std.specs.Prelude.{◌≡◌, ℕ, ◌+◌, ◌<◌, ◌≤◌, [], Some, length, vec_capacity, vec_len};
ghost use Rattle.base.specs.Limits.{most_jobs};
ghost use Rattle.board_core.specs.History.{History};
ghost use Rattle.board_lock.specs.Locks.{lock_of};
ghost use Rattle.board_lock.specs.Rule.{opening};
ghost use Rattle.board_tests.specs.declared.turns.Numbers.{Numbers};
ghost use Rattle.board_tests.specs.Rests.{IsProgram, RestsAs, resting};

use crate::turns::{Act, Answer, Numbers, on_board, turn};
use base::{MOST_JOBS, NoMemory};
use board_core::{Board, Claim};
use board_lock::{Seat, Shared};
use std::alloc::Global;
use std::marker::{Brand, PhantomData};
use std::sync::{Arc, Wait};
use std::thread;
use std::thread::Threads;

/// Names a lock and the program of its board. Each call picks them.
trait Named: Send + Sync {
    ghost use Rattle.std.specs.Prelude.{Option};
    ghost use Rattle.atomic_table.specs.Seated.{TableId};
    ghost use Rattle.board_core.specs.History.{History};
    ghost use Rattle.board_tests.specs.declared.turns.Numbers.{Numbers};

    ghost lock: { TableId };

    ghost program: { Option (History Numbers) };
}

impl Named for Brand {
    ghost use Rattle.std.specs.Prelude.{None};
    ghost use Rattle.board_tests.specs.Rests.{no_lock};

    ghost lock = { no_lock };

    ghost program = { None };
}

/// A step of a row. Workers are named by their numbers.
#[derive(Clone, Copy)]
pub enum Step {
    /// Splits so many seats off.
    Split(u32),
    /// One turn of this worker.
    Turn(u32, Act),
    /// Takes in the seat of this worker.
    Join(u32),
    /// All workers but 0 claim and publish, in four threads, until each learns that all is done.
    Finish,
    /// All workers but 0 take and give the board so often, in four threads.
    Idle(u32),
}

/// A seat. That it may go to another thread is not found of a struct with a seat of a board.
trait Sits {
    ghost use Rattle.board_tests.specs.Rests.{Facts};
    ghost use Rattle.board_tests.specs.declared.turns.Numbers.{Numbers};

    ghost facts: { Self → Facts Numbers };
}

impl Sits for Seat<Numbers> {
    ghost use Rattle.board_tests.specs.Rests.{facts};

    ghost facts = { facts };
}

#[derive(Drop)]
struct MemberOf<S: Sits, L: Named> {
    seat: S,
    worker: u32,
    out: Vec<Arc<u32>>,
    lock: PhantomData<L>,
    ghost rests: { S.facts seat ≡ resting L.lock L.program worker },
    ghost room: { most_jobs ≤ vec_capacity out },
}

type Member<L> = MemberOf<Seat<Numbers>, L>;

impl<L: Named> Member<L> {
    #[tactic(auto, using(crate::proofs::SeatLemmas::of_facts, crate::proofs::SeatLemmas::to_facts))]
    fn act<H: Wait>(&mut self, rt: &H, alloc: Global, shared: &Shared<Numbers>, act: Act) -> Answer
        requires lock { lock_of shared.now ≡ L.lock }
        requires program { (workers : ℕ) × IsProgram L.program workers }
    {
        turn(
            rt,
            alloc,
            shared,
            &mut self.seat,
            self.worker,
            &mut self.out,
            act,
        )
    }

    // Claims and publishes until all is done.
    fn finish<H: Wait>(&mut self, rt: &H, alloc: Global, shared: &Shared<Numbers>)
        requires lock { lock_of shared.now ≡ L.lock }
        requires program { (workers : ℕ) × IsProgram L.program workers }
    {
        for _ in rt.forever() {
            match self.act(rt, alloc, shared, Act::Claim) {
                Answer::Claimed(Claim::Job(job)) => {
                    self.act(rt, alloc, shared, Act::Publish(job));
                }
                Answer::Claimed(Claim::Wait) => {}
                _ => return,
            }
        }
    }

    fn idle<H: Wait>(&mut self, rt: &H, alloc: Global, shared: &Shared<Numbers>, rounds: u32)
        requires lock { lock_of shared.now ≡ L.lock }
        requires program { (workers : ℕ) × IsProgram L.program workers }
    {
        for _ in 0..rounds {
            self.act(rt, alloc, shared, Act::Nothing);
        }
    }
}

// Takes in the seat of a member, which has taken in none.
#[tactic(auto, using(crate::proofs::SeatLemmas::of_facts))]
fn take_in<L: Named>(shared: &Shared<Numbers>, first: &mut Seat<Numbers>, member: Member<L>)
    requires lock { lock_of shared.now ≡ L.lock }
    requires program { (workers : ℕ) × IsProgram L.program workers }
    requires rests { RestsAs L.lock L.program 0 first.old }
    ensures rests { RestsAs L.lock L.program 0 first.new }
    ensures splits { first.new.me.0.splits ≡ first.old.me.0.splits }
    ensures taken { length first.new.me.0.taken ≡ length first.old.me.0.taken + 1 }
{
    let MemberOf {
        seat,
        worker: _,
        out: _,
        lock: _,
    } = member;
    shared.join(first, seat);
}

/// All seats of a shared board; none has the turn.
#[derive(Drop)]
struct Crew<L: Named> {
    first: Seat<Numbers>,
    out: Vec<Arc<u32>>,
    others: Vec<Member<L>>,
    splits: u32,
    workers: u32,
    ghost rests: { RestsAs L.lock L.program 0 first },
    ghost workers_are: { (board : History Numbers) → L.program ≡ Some (opening board)
        → board.workers ≡ workers },
    ghost splits_are: { first.me.0.splits ≡ splits },
    ghost all_known: { splits ≡ length first.me.0.taken + vec_len others },
    ghost room: { most_jobs ≤ vec_capacity out },
}

impl<L: Named> Crew<L> {
    #[tactic(auto, using(crate::proofs::SeatLemmas::to_facts))]
    fn split(&mut self, alloc: Global, shared: &Shared<Numbers>) -> Answer
        requires lock { lock_of shared.now ≡ L.lock }
        requires program { (workers : ℕ) × IsProgram L.program workers }
    {
        if self.workers <= 1 || self.splits >= self.workers - 1 {
            return Answer::Refused;
        }
        let (Ok(out), Ok(())) = (Vec::with_capacity(alloc, MOST_JOBS), self.others.reserve(1))
        else {
            return Answer::NoMemory;
        };
        let seat = shared.split(&mut self.first);
        self.splits += 1;
        self.others.push_reserved(MemberOf {
            seat,
            worker: self.splits,
            out,
            lock: PhantomData,
        });
        Answer::Done
    }

    fn split_many(&mut self, alloc: Global, shared: &Shared<Numbers>, count: u32) -> Answer
        requires lock { lock_of shared.now ≡ L.lock }
        requires program { (workers : ℕ) × IsProgram L.program workers }
    {
        for _ in 0..count {
            let answer = self.split(alloc, shared);
            if answer != Answer::Done {
                return answer;
            }
        }
        Answer::Done
    }

    fn place_of(&self, worker: u32) -> Option<usize> {
        for place in 0..self.others.len() {
            if self.others[place].worker == worker {
                return Some(place);
            }
        }
        None
    }

    fn turn<H: Wait>(
        &mut self,
        rt: &H,
        alloc: Global,
        shared: &Shared<Numbers>,
        worker: u32,
        act: Act,
    ) -> Answer
        requires lock { lock_of shared.now ≡ L.lock }
        requires program { (workers : ℕ) × IsProgram L.program workers }
    {
        if worker == 0 {
            return turn(rt, alloc, shared, &mut self.first, 0, &mut self.out, act);
        }
        match self.place_of(worker) {
            Some(place) if place < self.others.len() => {
                self.others[place].act(rt, alloc, shared, act)
            }
            _ => Answer::Refused,
        }
    }

    fn join(&mut self, shared: &Shared<Numbers>, worker: u32) -> Answer
        requires lock { lock_of shared.now ≡ L.lock }
        requires program { (workers : ℕ) × IsProgram L.program workers }
    {
        match self.place_of(worker) {
            Some(place) if place < self.others.len() => {
                take_in(shared, &mut self.first, self.others.remove(place));
                Answer::Done
            }
            _ => Answer::Refused,
        }
    }

    fn step<R: Threads + Wait + Sync>(
        &mut self,
        rt: &R,
        alloc: Global,
        shared: &Shared<Numbers>,
        step: Step,
    ) -> Answer
        requires lock { lock_of shared.now ≡ L.lock }
        requires program { (workers : ℕ) × IsProgram L.program workers }
    {
        match step {
            Step::Split(count) => self.split_many(alloc, shared, count),
            Step::Turn(worker, act) => self.turn(rt, alloc, shared, worker, act),
            Step::Join(worker) => self.join(shared, worker),
            Step::Finish => finish_all(rt, alloc, shared, self.others.as_mut_slice()),
            Step::Idle(rounds) => idle_all(rt, alloc, shared, self.others.as_mut_slice(), rounds),
        }
    }

    // Takes in the seats that are left, and closes the board.
    fn close(self, shared: Shared<Numbers>) -> Board<Numbers>
        requires lock { lock_of shared ≡ L.lock }
        requires program { (workers : ℕ) × IsProgram L.program workers }
    {
        let Crew {
            mut first,
            out: _,
            others,
            splits: _,
            workers: _,
        } = self;
        for member in others {
            take_in(&shared, &mut first, member);
        }
        shared.close(first)
    }
}

fn finish_all<L: Named, R: Threads + Wait + Sync>(
    rt: &R,
    alloc: Global,
    shared: &Shared<Numbers>,
    members: &mut [Member<L>],
) -> Answer
    requires lock { lock_of shared.now ≡ L.lock }
    requires program { (workers : ℕ) × IsProgram L.program workers }
{
    thread::for_each_mut(
        rt,
        members,
        4,
        &|_: usize, member: &mut Member<L>|
            requires { (lock_of shared.now ≡ L.lock)
                × ((workers : ℕ) × IsProgram L.program workers) }
        { member.finish(rt, alloc, shared) },
    );
    Answer::Done
}

fn idle_all<L: Named, R: Threads + Wait + Sync>(
    rt: &R,
    alloc: Global,
    shared: &Shared<Numbers>,
    members: &mut [Member<L>],
    rounds: u32,
) -> Answer
    requires lock { lock_of shared.now ≡ L.lock }
    requires program { (workers : ℕ) × IsProgram L.program workers }
{
    thread::for_each_mut(
        rt,
        members,
        4,
        &|_: usize, member: &mut Member<L>|
            requires { (lock_of shared.now ≡ L.lock)
                × ((workers : ℕ) × IsProgram L.program workers) }
        { member.idle(rt, alloc, shared, rounds) },
    );
    Answer::Done
}

fn drive<L: Named, R: Threads + Wait + Sync>(
    rt: &R,
    alloc: Global,
    shared: Shared<Numbers>,
    first: Seat<Numbers>,
    workers: u32,
    script: &[(Step, Answer)],
) -> Result<(Option<usize>, Board<Numbers>), NoMemory>
    requires lock { lock_of shared ≡ L.lock }
    requires rests { RestsAs L.lock L.program 0 first }
    requires program { IsProgram L.program workers }
    requires alone { (first.me.0.splits ≡ 0) × (first.me.0.taken ≡ []) }
{
    let mut crew = Crew::<L> {
        first,
        out: Vec::with_capacity(alloc, MOST_JOBS)?,
        others: Vec::new(alloc),
        splits: 0,
        workers,
    };
    let mut wrong = None;
    for (index, (step, answer)) in script.iter().enumerate() {
        if crew.step(rt, alloc, &shared, *step) != *answer && wrong.is_none() {
            wrong = Some(index);
        }
    }
    Ok((wrong, crew.close(shared)))
}

/// Drives a new board by the steps, takes in all seats and closes it. Gives the first step that did
/// not have its answer, and the board.
pub fn run<R: Threads + Wait + Sync>(
    rt: &R,
    alloc: Global,
    board: Board<Numbers>,
    script: &[(Step, Answer)],
) -> Result<(Option<usize>, Board<Numbers>), NoMemory>
    requires fresh { board.events ≡ [] }
    requires some_worker { 0 < board.workers }
{
    let workers = board.workers();
    let (shared, first) = Shared::open(alloc, board)?;
    drive::<Brand, R>(rt, alloc, shared, first, workers, script)
}

/// Does a step on the board without a lock, where it is a turn, and tells whether it has the
/// answer.
fn is_answered(
    alloc: Global,
    board: &mut Board<Numbers>,
    step: Step,
    answer: Answer,
    out: &mut Vec<Arc<u32>>,
) -> bool
    requires room { most_jobs ≤ vec_capacity out.old }
    ensures room { most_jobs ≤ vec_capacity out.new }
{
    match step {
        Step::Turn(worker, act) if worker < board.workers() => {
            on_board(alloc, board, worker, act, out).0 == answer
        }
        Step::Turn(..) => answer == Answer::Refused,
        _ => true,
    }
}

/// Drives a board by the turns of the steps, without a lock. Gives the first turn that did not have
/// its answer, and the board; `out` then holds what the last claim was given.
pub fn run_bare(
    alloc: Global,
    board: Board<Numbers>,
    script: &[(Step, Answer)],
    out: &mut Vec<Arc<u32>>,
) -> (Option<usize>, Board<Numbers>)
    requires room { most_jobs ≤ vec_capacity out.old }
{
    let mut board = board;
    let mut wrong = None;
    for (index, (step, answer)) in script.iter().enumerate() {
        if !is_answered(alloc, &mut board, *step, *answer, out) && wrong.is_none() {
            wrong = Some(index);
        }
    }
    (wrong, board)
}
