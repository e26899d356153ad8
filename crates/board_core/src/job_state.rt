//! The states of jobs, without their results.

ghost use Rattle.std.specs.Prelude.{◌≡◌, ℕ, ◌<◌, ◌≤◌, ◌↔◌, length, map, replicate, slice_index, slice_index_or, Contains, [], IsTrue, IfOk, IfSome, IfNone};
ghost use Rattle.base.specs.Limits.{most_jobs};
ghost use Rattle.board_core.specs.JobStates.{job_state_at, AllCheckedOut, IsNextState, IsReadyState, IsSomeHeld, released_state};
ghost use Rattle.board_core.specs.History.{dep_lists};

use std::alloc::{AllocError, Global};

/// The state of a job, without its result.
#[derive(Clone, Copy, Debug, PartialEq, Eq)]
pub(crate) enum JobState {
    Open,
    /// Held by this worker.
    Held(u32),
    Out,
}

/// This many jobs, all open.
pub(crate) fn all_open(alloc: Global, count: usize) -> Result<Vec<JobState>, AllocError>
    ensures { IfOk result (λ job_states. job_states.items ≡ replicate count JobState.Open) }
{
    vec![in alloc; JobState::Open; count]
}

/// For this many jobs, that no dep is known to be out.
pub(crate) fn none_checked(alloc: Global, count: usize) -> Result<Vec<usize>, AllocError>
    ensures { IfOk result (λ checked. checked.items ≡ replicate count 0) }
{
    vec![in alloc; 0; count]
}

// How many of these jobs, from the first on, are out, where the first `from` are known to be.
fn checked_out(deps: &[u32], job_states: &[JobState], from: usize) -> usize
    requires known { (e : ℕ) → e < length deps.now
        → slice_index deps.now e < length job_states.now }
    requires inside { from ≤ length deps.now }
    requires front { (e : ℕ) → e < from
        → job_state_at job_states.now (slice_index deps.now e) ≡ JobState.Out }
    ensures inside { result ≤ length deps.now }
    ensures front { (e : ℕ) → e < result
        → job_state_at job_states.now (slice_index deps.now e) ≡ JobState.Out }
    ensures end { result < length deps.now
        → ¬ (job_state_at job_states.now (slice_index deps.now result) ≡ JobState.Out) }
{
    let mut count = from;
    while count < deps.len() {
        if job_states[deps[count] as usize] != JobState::Out {
            break;
        }
        count += 1;
    }
    count
}

// Whether the job is open and all its deps are out. `checked` has for each job how many of its
// deps, from the first on, are known to be out.
fn is_ready(deps: &[Vec<u32>], job_states: &[JobState], checked: &mut [usize], job: usize) -> bool
    requires deps_length { length deps.now ≡ length job_states.now }
    requires checked_length { length checked.old ≡ length job_states.now }
    requires known { (j d : ℕ) → Contains (slice_index_or (dep_lists deps.now) j []) d
        → d < length job_states.now }
    requires checked { AllCheckedOut (dep_lists deps.now) job_states.now checked.old }
    requires inside { job < length job_states.now }
    ensures length { length checked.new ≡ length checked.old }
    ensures checked { AllCheckedOut (dep_lists deps.now) job_states.now checked.new }
    ensures ready { IsTrue result ↔ IsReadyState (dep_lists deps.now) job_states.now job }
{
    if job_states[job] != JobState::Open {
        return false;
    }
    let own = deps[job].as_slice();
    let count = checked_out(own, job_states, checked[job]);
    checked[job] = count;
    count == own.len()
}

/// The least job that is open and whose deps are all out. `checked` has for each job how many of
/// its deps, from the first on, are known to be out.
pub(crate) fn next_ready(
    deps: &[Vec<u32>],
    job_states: &[JobState],
    checked: &mut [usize],
) -> Option<u32>
    requires few { length job_states.now ≤ most_jobs }
    requires deps_length { length deps.now ≡ length job_states.now }
    requires checked_length { length checked.old ≡ length job_states.now }
    requires known { (j d : ℕ) → Contains (slice_index_or (dep_lists deps.now) j []) d
        → d < length job_states.now }
    requires checked { AllCheckedOut (dep_lists deps.now) job_states.now checked.old }
    ensures length { length checked.new ≡ length checked.old }
    ensures checked { AllCheckedOut (dep_lists deps.now) job_states.now checked.new }
    ensures some { IfSome result (IsNextState (dep_lists deps.now) job_states.now) }
    ensures none { IfNone result ((j : ℕ) → ¬ IsReadyState (dep_lists deps.now) job_states.now j) }
{
    for job in 0..job_states.len() {
        if is_ready(deps, job_states, checked, job) {
            return Some(job as u32);
        }
    }
    None
}

/// Whether this worker holds no job.
pub(crate) fn is_no_holder(job_states: &[JobState], worker: u32) -> bool
    ensures { IsTrue result ↔ ((j : ℕ) → ¬ (job_state_at job_states.now j ≡ JobState.Held worker)) }
{
    for job_state in job_states {
        if *job_state == JobState::Held(worker) {
            return false;
        }
    }
    true
}

/// Whether this worker holds this job.
pub(crate) fn is_held_by(job_states: &[JobState], worker: u32, job: u32) -> bool
    ensures { IsTrue result ↔ (job_state_at job_states.now job ≡ JobState.Held worker) }
{
    match job_states.get(job as usize) {
        Some(job_state) => *job_state == JobState::Held(worker),
        None => false,
    }
}

/// Whether some job is held.
pub(crate) fn is_some_held(job_states: &[JobState]) -> bool
    ensures { IsTrue result ↔ IsSomeHeld job_states.now }
{
    for job_state in job_states {
        if let JobState::Held(_) = *job_state {
            return true;
        }
    }
    false
}

// The state of a job after this worker stops.
fn released(job_state: JobState, worker: u32) -> JobState
    ensures { result ≡ released_state worker job_state }
{
    match job_state {
        JobState::Held(holder) if holder == worker => JobState::Open,
        other => other,
    }
}

/// Opens the jobs that this worker holds.
pub(crate) fn release(job_states: &mut [JobState], worker: u32)
    ensures { job_states.new ≡ map (released_state worker) job_states.old }
{
    for job_state in job_states.iter_mut() {
        *job_state = released(*job_state, worker);
    }
}
