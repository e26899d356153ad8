//! The stale functions as jobs: the function, the rank and the deps of each.

ghost use Rattle.std.specs.Prelude.{◌≡◌, ◌+◌, ◌<◌, ◌^◌, ℕ, [], ◌∷◌, ◌++◌, if◌then◌else◌, length, map, slice_index, slice_index_or, Contains, IfOk, OnOk};
ghost use Rattle.std.specs.List.{range_with_len};
ghost use Rattle.call_order.specs.Units.{call_lists, AllKnown};
ghost use Rattle.g_pass_work.specs.Renewal.{is_stale, functions_of, job_of, stale_jobs};

use base::NoMemory;
use std::alloc::Global;

/// Whether the function is stale; a function of which nothing is said is.
pub(crate) fn is_stale(stale: &[bool], function: u32) -> bool
    ensures { result ≡ is_stale stale.now function }
{
    if function as usize >= stale.len() {
        return true;
    }
    stale[function as usize]
}

// Adds a number where the test holds.
fn push_if(list: &mut Vec<u32>, holds: bool, number: u32) -> Result<(), NoMemory>
    ensures { OnOk result (list.new.items
        ≡ list.old.items ++ (if holds then number ∷ [] else [])) }
{
    if holds {
        list.push(number)?;
    }
    Ok(())
}

// One more where the test holds.
fn counted(count: u32, holds: bool) -> u32
    requires { count + 1 < 2 ^ 32 }
    ensures { result ≡ count + (if holds then 1 else 0) }
{
    if holds { count + 1 } else { count }
}

/// The functions 0 to `count` - 1.
pub fn first_functions(alloc: Global, count: usize) -> Result<Vec<u32>, NoMemory>
    requires { count < 2 ^ 32 }
    ensures { IfOk result (λ functions. functions.items ≡ range_with_len 0 count) }
{
    let mut functions = Vec::with_capacity(alloc, count)?;
    for function in 0..count {
        functions.push(function as u32)?;
    }
    Ok(functions)
}

/// The stale functions in order: the function of each job.
pub fn functions_of(alloc: Global, stale: &[bool]) -> Result<Vec<u32>, NoMemory>
    requires { length stale.now < 2 ^ 32 }
    ensures { IfOk result (λ functions. functions.items ≡ functions_of stale.now) }
{
    let mut functions = Vec::new(alloc);
    for function in 0..stale.len() {
        push_if(
            &mut functions,
            is_stale(stale, function as u32),
            function as u32,
        )?;
    }
    Ok(functions)
}

/// Of each function how many stale ones stand before it: of a stale one its job.
pub fn jobs_of(alloc: Global, stale: &[bool]) -> Result<Vec<u32>, NoMemory>
    requires { length stale.now < 2 ^ 32 }
    ensures { IfOk result (λ jobs.
        jobs.items ≡ map (job_of stale.now) (range_with_len 0 (length stale.now))) }
{
    let mut jobs = Vec::with_capacity(alloc, stale.len())?;
    let mut count = 0;
    for function in 0..stale.len() {
        jobs.push(count)?;
        count = counted(count, is_stale(stale, function as u32));
    }
    Ok(jobs)
}

/// The ranks of these functions.
pub fn ranks_of(alloc: Global, ranks: &[u32], functions: &[u32]) -> Result<Vec<u32>, NoMemory>
    requires { (j : ℕ) → Contains functions.now j → j < length ranks.now }
    ensures { IfOk result (λ own. own.items ≡ map (slice_index ranks.now) functions.now) }
{
    let mut own = Vec::with_capacity(alloc, functions.len())?;
    for function in functions {
        own.push(ranks[*function as usize])?;
    }
    Ok(own)
}

// The jobs of those of these functions that are stale.
fn stale_jobs(
    alloc: Global,
    stale: &[bool],
    jobs: &[u32],
    functions: &[u32],
) -> Result<Vec<u32>, NoMemory>
    requires jobs { jobs.now ≡ map (job_of stale.now) (range_with_len 0 (length stale.now)) }
    requires known { (j : ℕ) → Contains functions.now j → j < length stale.now }
    ensures { IfOk result (λ own. own.items ≡ stale_jobs stale.now functions.now) }
{
    let mut own = Vec::new(alloc);
    for function in functions {
        let job = jobs[*function as usize];
        push_if(&mut own, is_stale(stale, *function), job)?;
    }
    Ok(own)
}

/// The stale deps of these functions, as jobs.
pub fn deps_of(
    alloc: Global,
    stale: &[bool],
    jobs: &[u32],
    deps: &[Vec<u32>],
    functions: &[u32],
) -> Result<Vec<Vec<u32>>, NoMemory>
    requires jobs { jobs.now ≡ map (job_of stale.now) (range_with_len 0 (length stale.now)) }
    requires all { length deps.now ≡ length stale.now }
    requires known { AllKnown (call_lists deps.now) }
    requires inside { (j : ℕ) → Contains functions.now j → j < length deps.now }
    ensures { IfOk result (λ own. call_lists own.items ≡ map
        (λ j. stale_jobs stale.now (slice_index_or (call_lists deps.now) j [])) functions.now) }
{
    let mut own = Vec::with_capacity(alloc, functions.len())?;
    for function in functions {
        own.push(stale_jobs(alloc, stale, jobs, deps[*function as usize].as_slice())?)?;
    }
    Ok(own)
}
