//! The board and its calls.

ghost use Rattle.std.specs.Prelude.{◌≡◌, ◌≢◌, ℕ, ◌+◌, ◌<◌, ◌≤◌, ◌↔◌, ◌++◌, None, length, map, option_map, option_to_list, replicate, slice_index, slice_index_or, OnOk, OnErr, IfOk, IfSome, IfNone, MatchBool, IsErr, IsTrue, [], ◌∷◌, vec_capacity, vec_len};
ghost use Rattle.std.specs.List.{filter_map};
ghost use Rattle.std.specs.Arc.{arc_value};
ghost use Rattle.base.specs.Limits.{most_jobs, most_workers};
ghost use Rattle.board_core.specs.Board.{job_at, results, deps_of, HasStopped, Held, HoldsNone, IsLegal, IsNext, IsReady, MayClaim, NobodyStopped, result_of};
ghost use Rattle.board_core.specs.Answers.{IsRanked};
ghost use Rattle.board_core.specs.Calls.{with_event, AllOut, Claims, IsWaiting, IsDone, IsNextWithDeps, IsFirstBad, SomeHeld, SomebodyStopped};
ghost use Rattle.board_core.specs.Choices.{IsChoice};
ghost use Rattle.board_core.specs.History.{dep_lists, program_of, state_of};

use crate::checks::first_bad;
use crate::event::{Claim, Event, OpenFault};
use crate::job_state::{
    JobState, all_open, is_held_by, is_no_holder, is_some_held, next_ready, none_checked, release,
};
use crate::work::Work;
use base::NoMemory;
use std::alloc::{AllocError, Global};
use std::marker::Model;
use std::snapshot::Snapshot;
use std::sync::Arc;

/// A board of jobs for workers. Contracts see its program and its history.
#[derive(Drop)]
pub struct Board<W: Work> {
    work: Snapshot<W>,
    ranks: Vec<u32>,
    deps: Vec<Vec<u32>>,
    workers: u32,
    job_states: Vec<JobState>,
    results: Vec<Option<Arc<W::Made>>>,
    // How many deps of each job, from the first on, are known to be out.
    checked: Vec<usize>,
    is_stopped: bool,
    events: Vec<Event>,
}

impl<W: Work> Model for Board<W> {
    ghost use Rattle.std.specs.Prelude.{◌≡◌, ℕ, map, option_map, vec_capacity, vec_len};
    ghost use Rattle.std.specs.Arc.{arc_value};
    ghost use Rattle.board_core.specs.History.{History, dep_lists, program_of};
    ghost use Rattle.board_core.specs.Kept.{IsKept};

    ghost Value = { History W };

    ghost view = { λ b.
        record {
          ranks = b.ranks.items;
          deps = dep_lists b.deps.items;
          workers = b.workers;
          work =
              b.work.value;
          events = b.events.items;
        } };

    ghost invariant = { λ b.
        (vec_len b.deps ≡ W.jobs b.work.value)
        × IsKept (program_of W.made
        (record {
          ranks = b.ranks.items;
          deps = dep_lists b.deps.items;
          workers = b.workers;
          work =
              b.work.value;
          events = b.events.items;
        })) b.events.items b.job_states.items
        (map (option_map arc_value) b.results.items) b.checked.items b.is_stopped
        (vec_capacity b.events) };
}

// The answer to a claim, before the results are given.
enum Choice {
    Ready(u32),
    Busy,
    Finished,
    Halted,
}

// Appends a result, where there is one.
fn add_result<M: Drop>(found: &Option<Arc<M>>, out: &mut Vec<Arc<M>>) -> Result<(), NoMemory>
    ensures ok { OnOk result (map arc_value out.new.items
        ≡ map arc_value out.old.items ++ option_to_list (option_map arc_value found.now)) }
    ensures room { vec_capacity out.old ≤ vec_capacity out.new }
{
    if let Some(made) = found {
        out.push(Arc::try_clone(made)?)?;
    }
    Ok(())
}

// Appends the results of these jobs.
fn add_results<M: Drop>(
    deps: &[u32],
    results: &[Option<Arc<M>>],
    out: &mut Vec<Arc<M>>,
) -> Result<(), NoMemory>
    requires known { (e : ℕ) → e < length deps.now → slice_index deps.now e < length results.now }
    ensures ok { OnOk result (map arc_value out.new.items ≡ map arc_value out.old.items
        ++ filter_map (λ d. option_map arc_value (slice_index_or results.now d None)) deps.now) }
    ensures err { OnErr result (0 < length deps.now) }
    ensures room { vec_capacity out.old ≤ vec_capacity out.new }
{
    for dep in deps {
        add_result(&results[*dep as usize], out)?;
    }
    Ok(())
}

// Lists of the same deps.
fn copied(alloc: Global, deps: &[Vec<u32>]) -> Result<Vec<Vec<u32>>, AllocError>
    ensures { IfOk result (λ lists. dep_lists lists.items ≡ dep_lists deps.now) }
{
    let mut lists = Vec::with_capacity(alloc, deps.len())?;
    for list in deps {
        lists.push(Vec::from_slice(alloc, list.as_slice())?)?;
    }
    Ok(lists)
}

// So many jobs without a result.
fn no_results<M: Drop>(alloc: Global, count: usize) -> Result<Vec<Option<Arc<M>>>, AllocError>
    ensures { IfOk result (λ found. map (option_map arc_value) found.items ≡ replicate count None) }
{
    let mut found = Vec::with_capacity(alloc, count)?;
    while found.len() < count {
        found.push(None)?;
    }
    Ok(found)
}

// Adds an event to a history that has room for it.
fn log(events: &mut Vec<Event>, event: Event)
    requires { vec_len events.old < vec_capacity events.old }
    ensures items { events.new.items ≡ events.old.items ++ event ∷ [] }
    ensures room { vec_capacity events.old ≤ vec_capacity events.new }
{
    events.push(event).unwrap();
}

impl<W: Work> Board<W> {
    /// A board of this work, where all jobs are open and nothing has happened. The job j has the
    /// rank `ranks[j]` and depends on the jobs `deps[j]`; there are as many as the work has, and at
    /// most `MOST_JOBS`, and at most `MOST_WORKERS` workers. All memory that the board ever needs
    /// is taken here. `BadDeps` exactly where a dep is bad.
    pub fn open(
        alloc: Global,
        work: &W,
        ranks: &[u32],
        deps: &[Vec<u32>],
        workers: u32,
    ) -> Result<Board<W>, OpenFault>
        requires lengths { length ranks.now ≡ length deps.now }
        requires jobs { length deps.now ≡ W.jobs work.now }
        requires few { length deps.now ≤ most_jobs }
        requires few_workers { workers ≤ most_workers }
        ensures ok { IfOk result (λ board. board ≡ record {
          ranks = ranks.now;
          deps = dep_lists deps.now;
          workers = workers;
          work = work.now;
          events = [];
        }) }
        ensures bad { (job dep : ℕ) → (result ≡ Err (OpenFault.BadDeps job dep))
            ↔ IsFirstBad ranks.now (dep_lists deps.now) job dep }
    {
        if let Some((job, dep)) = first_bad(ranks, deps) {
            return Err(OpenFault::BadDeps { job, dep });
        }
        Ok(Board {
            work: Snapshot::of(work),
            ranks: Vec::from_slice(alloc, ranks)?,
            deps: copied(alloc, deps)?,
            workers,
            job_states: all_open(alloc, deps.len())?,
            results: no_results(alloc, deps.len())?,
            checked: none_checked(alloc, deps.len())?,
            is_stopped: false,
            events: Vec::with_capacity(alloc, 2 * deps.len() + workers as usize)?,
        })
    }

    /// The number of workers.
    pub fn workers(&self) -> u32
        ensures { result ≡ self.now.workers }
    {
        self.workers
    }

    /// Whether a worker has stopped; then every claim is `Stopped`.
    pub fn is_halted(&self) -> bool
        ensures { MatchBool result
            (SomebodyStopped self.now.events × (¬ NobodyStopped (state_of W.made self.now)))
            (NobodyStopped (state_of W.made self.now) × (¬ SomebodyStopped self.now.events)) }
    {
        self.is_stopped
    }

    /// Whether the worker holds no job, as `claim` requires.
    pub fn is_idle(&self, worker: u32) -> bool
        ensures { IsTrue result ↔ HoldsNone (state_of W.made self.now) worker }
    {
        is_no_holder(self.job_states.as_slice(), worker)
    }

    /// Whether the worker holds the job, as `publish` requires.
    pub fn holds(&self, worker: u32, job: u32) -> bool
        ensures { IsTrue result ↔ (job_at (state_of W.made self.now) job ≡ Held worker) }
    {
        is_held_by(self.job_states.as_slice(), worker, job)
    }

    /// The least job that is open and whose deps are all out.
    pub fn next_job(&mut self) -> Option<u32>
        ensures same { self.new ≡ self.old }
        ensures some { IfSome result (λ j. (j < length self.old.deps)
            × IsNext (program_of W.made self.old) (state_of W.made self.old) j) }
        ensures inside { IfSome result (λ j. j < W.jobs self.old.work) }
        ensures none { IfNone result
            ((j : ℕ) → ¬ IsReady (program_of W.made self.old) (state_of W.made self.old) j) }
    {
        next_ready(
            self.deps.as_slice(),
            self.job_states.as_slice(),
            self.checked.as_mut_slice(),
        )
    }

    // Whether some job is held. Where none is, and none is ready, all jobs are out.
    fn is_busy(&self) -> bool
        ensures { MatchBool result
            (SomeHeld (state_of W.made self.now)
            × (¬ AllOut (program_of W.made self.now) (state_of W.made self.now)))
            ((¬ SomeHeld (state_of W.made self.now))
            × (((j : ℕ) → ¬ IsReady (program_of W.made self.now) (state_of W.made self.now) j)
            → AllOut (program_of W.made self.now) (state_of W.made self.now))) }
    {
        is_some_held(self.job_states.as_slice())
    }

    // What a claim is to be answered.
    fn choose(&mut self) -> Choice
        ensures same { self.new ≡ self.old }
        ensures choice { IsChoice (program_of W.made self.old)
            (state_of W.made self.old) self.old.events result }
        ensures inside { (j : ℕ) → result ≡ Choice.Ready j → j < W.jobs self.old.work }
    {
        if self.is_halted() {
            return Choice::Halted;
        }
        match self.next_job() {
            Some(job) => Choice::Ready(job),
            None if self.is_busy() => Choice::Busy,
            None => Choice::Finished,
        }
    }

    // The worker holds the job from now on.
    fn hold(&mut self, worker: u32, job: u32)
        requires { MayClaim (program_of W.made self.old) (state_of W.made self.old) worker job }
        ensures { self.new ≡ with_event self.old (Event.Claim worker job) }
    {
        self.job_states[job as usize] = JobState::Held(worker);
        log(&mut self.events, Event::Claim { worker, job });
    }

    /// Gives the worker, which holds no job, the least job that is open and whose deps are all out;
    /// `deps_out`, which has room for `MOST_JOBS` results, then holds those of its deps, in their
    /// order. Only this adds an event. `NoMemory` only in place of a job that has deps. After every
    /// other answer the board is as it was and `deps_out` empty.
    pub fn claim(
        &mut self,
        worker: u32,
        deps_out: &mut Vec<Arc<W::Made>>,
    ) -> Result<Claim, NoMemory>
        requires known { worker < self.old.workers }
        requires idle { HoldsNone (state_of W.made self.old) worker }
        requires room { most_jobs ≤ vec_capacity deps_out.old }
        ensures job { (j : ℕ) → result ≡ Ok (Claim.Job j)
            → Claims W.made self.old self.new worker j (map arc_value deps_out.new.items) }
        ensures inside { (j : ℕ) → result ≡ Ok (Claim.Job j) → j < W.jobs self.old.work }
        ensures wait { (result ≡ Ok Claim.Wait)
            ↔ IsWaiting (program_of W.made self.old) (state_of W.made self.old) }
        ensures done { (result ≡ Ok Claim.Done)
            ↔ IsDone (program_of W.made self.old) (state_of W.made self.old) }
        ensures stopped { (result ≡ Ok Claim.Stopped) ↔ SomebodyStopped self.old.events }
        ensures memory { IsErr result
            → IsNextWithDeps (program_of W.made self.old) (state_of W.made self.old) }

        // Only a job that is claimed changes anything.
        ensures same { ((j : ℕ) → result ≢ Ok (Claim.Job j))
            → (self.new ≡ self.old) × (deps_out.new.items ≡ []) }
        ensures room { most_jobs ≤ vec_capacity deps_out.new }
    {
        deps_out.clear();
        let job = match self.choose() {
            Choice::Ready(job) => job,
            Choice::Busy => return Ok(Claim::Wait),
            Choice::Finished => return Ok(Claim::Done),
            Choice::Halted => return Ok(Claim::Stopped),
        };
        if self.give_deps(job, deps_out).is_err() {
            deps_out.clear();
            return Err(NoMemory);
        }
        self.hold(worker, job);
        Ok(Claim::Job(job))
    }

    // Appends the results of the job's deps.
    fn give_deps(&self, job: u32, out: &mut Vec<Arc<W::Made>>) -> Result<(), NoMemory>
        requires inside { job < length self.now.deps }
        ensures ok { OnOk result (map arc_value out.new.items ≡ map arc_value out.old.items
            ++ results (state_of W.made self.now) (deps_of (program_of W.made self.now) job)) }
        ensures err { OnErr result (0 < length (deps_of (program_of W.made self.now) job)) }
        ensures room { vec_capacity out.old ≤ vec_capacity out.new }
    {
        add_results(
            self.deps[job as usize].as_slice(),
            self.results.as_slice(),
            out,
        )
    }

    /// Takes the result of a job from the worker that holds it: the job is out from then on. Takes
    /// no memory.
    pub fn publish(&mut self, worker: u32, job: u32, made: Arc<W::Made>)
        requires holds { job_at (state_of W.made self.old) job ≡ Held worker }
        requires defined { arc_value made ≡ W.made self.old.work job
            (results (state_of W.made self.old) (deps_of (program_of W.made self.old) job)) }
        ensures { self.new ≡ with_event self.old (Event.Publish worker job) }
    {
        self.job_states[job as usize] = JobState::Out;
        self.results[job as usize] = Some(made);
        log(&mut self.events, Event::Publish { worker, job });
    }

    /// Stops a worker, which has not stopped before: a job that it holds is open again, and from
    /// then on every claim is `Stopped`. Takes no memory.
    pub fn stop(&mut self, worker: u32)
        requires known { worker < self.old.workers }
        requires going { ¬ HasStopped (state_of W.made self.old) worker }
        ensures { self.new ≡ with_event self.old (Event.Stop worker) }
    {
        release(self.job_states.as_mut_slice(), worker);
        self.is_stopped = true;
        log(&mut self.events, Event::Stop { worker });
    }

    /// The events of the board, the first one first.
    pub fn events(&self) -> &[Event]
        ensures events { result.now ≡ self.now.events }
        ensures legal { IsLegal (program_of W.made self.now) self.now.events }
        ensures ranked { IsRanked (program_of W.made self.now) }
    {
        self.events.as_slice()
    }

    /// For each job its result where it is out, else `None`.
    pub fn into_results(self) -> Vec<Option<Arc<W::Made>>>
        ensures { map (option_map arc_value) result.items
            ≡ map result_of (state_of W.made self).jobs }
    {
        let Board {
            work: _,
            ranks: _,
            deps: _,
            workers: _,
            job_states: _,
            results,
            checked: _,
            is_stopped: _,
            events: _,
        } = self;
        results
    }
}
