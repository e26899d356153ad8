//! Tests of boards, of workers and of the order of calls; a program that measures the lock.
//! A script drives a board through the lock, by several seats, or bare. `tools/bench` asks what 512
//! jobs without deps take by one worker. No crate stands on it, and it promises nothing of its own.
#![tactic(auto)]

mod boards;
mod crew;
#[cfg(test)]
mod orders;
#[cfg(test)]
mod scripts;
mod turns;
#[cfg(test)]
mod workers;
#[cfg(test)]
mod works;

use crate::boards::{Shape, opened};
use crate::crew::{Step, run, run_bare};
use crate::turns::{Act, Answer, Numbers};
use base::{MOST_JOBS, NoMemory};
use board_core::{Board, Claim, OpenFault};
use std::alloc::Global;
use std::sync::Wait;
use std::thread::Threads;
use std::{env, io};

/// The work that is measured.
const WORK: Numbers = Numbers {
    jobs: 512,
    refused: &[],
};

/// The steps by which one worker finishes the jobs.
fn steps(alloc: Global) -> Result<Vec<(Step, Answer)>, NoMemory> {
    let mut steps = Vec::new(alloc);
    for job in 0..512 {
        let claim = Answer::Claimed(Claim::Job(job));
        steps.push((Step::Turn(0, Act::Claim), claim))?;
        steps.push((Step::Turn(0, Act::Publish(job)), Answer::Done))?;
    }
    Ok(steps)
}

/// How many events there are after the steps, or 0 where a step has another answer.
fn events_after(wrong: Option<usize>, board: &Board<Numbers>) -> usize {
    if wrong.is_some() {
        0
    } else {
        board.events().len()
    }
}

/// How many events there are after the steps through the lock.
fn through_the_lock<R: Threads + Wait + Sync>(
    rt: &R,
    alloc: Global,
    steps: &[(Step, Answer)],
) -> Result<usize, OpenFault> {
    match run(rt, alloc, opened(alloc, &WORK, Shape::Free, 1)?, steps) {
        Ok((wrong, board)) => Ok(events_after(wrong, &board)),
        Err(NoMemory) => Err(OpenFault::NoMemory),
    }
}

/// How many events there are after the steps on a bare board.
fn on_a_bare_board(alloc: Global, steps: &[(Step, Answer)]) -> Result<usize, OpenFault> {
    let board = opened(alloc, &WORK, Shape::Free, 1)?;
    let mut out = Vec::with_capacity(alloc, MOST_JOBS)?;
    let (wrong, board) = run_bare(alloc, board, steps, &mut out);
    Ok(events_after(wrong, &board))
}

fn main(rt: HostRuntime) -> io::Result<()> {
    let alloc = rt.alloc();
    let Ok(steps) = steps(alloc) else {
        return println!(rt; "out of memory");
    };
    let events = match env::args(&rt)?.nth(1) {
        Some(word) if word.as_str() == "lock" => through_the_lock(&rt, alloc, &steps),
        Some(word) if word.as_str() == "bare" => on_a_bare_board(alloc, &steps),
        _ => return eprintln!(rt; "usage: board_tests lock | bare"),
    };
    match events {
        Ok(count) => println!(rt; "{count} events"),
        Err(fault) => println!(rt; "{fault}"),
    }
}
