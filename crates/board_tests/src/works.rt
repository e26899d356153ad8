//! Works of jobs that workers do, with refusals of memory and gates.

// Works that workers do. An expected history is worked by hand from the board's rules.
use crate::boards::{Shape, opened};
use crate::turns::Numbers;
use crate::workers::{Left, driven};
use base::{MOST_JOBS, MOST_WORKERS, NoMemory};
use board_core::Event;
use board_work::{CountGate, Gate, MeetGate, OpenGate};
use std::alloc::Global;
use std::sync::Wait;
use std::test::Fail;
use std::thread::Threads;

/// So many jobs of a shape, of which some are refused memory.
type Jobs = (usize, Shape, &'static [u32]);

/// Works that any number of workers ends: all jobs are done, or one is refused memory.
const WORKS: [Jobs; 10] = [
    (0, Shape::Free, &[]),
    (512, Shape::Free, &[]),
    (512, Shape::Chain, &[]),
    (512, Shape::Fork, &[]),
    (512, Shape::Join, &[]),
    (4, Shape::Free, &[1]),
    (4, Shape::Join, &[1]),
    (4, Shape::Free, &[0, 1, 2, 3]),
    (512, Shape::Chain, &[300]),
    (512, Shape::Join, &[511]),
];

/// Holds the first job for long enough that a second worker falls asleep, and then the second job
/// until the third has passed.
#[derive(Drop)]
struct WakingGate {
    first: MeetGate,
    second: MeetGate,
}

impl Gate for WakingGate {
    fn pass(&self, job: u32) {
        self.first.pass(job);
        self.second.pass(job);
    }
}

// What is left of the jobs after so many workers.
fn left_of<H: Threads + Wait + Sync, G: Gate>(
    rt: &H,
    alloc: Global,
    jobs: Jobs,
    workers: u32,
    gate: &G,
) -> Result<Left, Fail> {
    let (jobs, shape, refused) = jobs;
    if jobs > MOST_JOBS || workers == 0 || workers > MOST_WORKERS {
        return Err("no such board".into());
    }
    let task = Numbers { jobs, refused };
    let board = opened(alloc, &task, shape, workers)?;
    Ok(driven(rt, alloc, &task, board, gate)?)
}

// Whether a work has ended as it is told: with every job done, or with no result of those that are
// refused memory, where each worker says that one has stopped.
fn is_ended(left: Left, jobs: Jobs, workers: u32) -> bool {
    let (count, _, refused) = jobs;
    let events = left.board.events().len();
    let results = left.board.into_results();
    if refused.is_empty() {
        return left.answer == Ok(())
            && left.stopped == 0
            && events / 2 == count
            && events % 2 == 0
            && results.iter().all(Option::is_some);
    }
    left.answer == Err(NoMemory)
        && left.stopped == workers as usize
        && refused.iter().all(|job| results.get(*job as usize).is_some_and(Option::is_none))
}

#[test]
fn works_end_by_any_number_of_workers(rt: HostRuntime) -> Result<(), Fail> {
    for (k, jobs) in WORKS.iter().enumerate() {
        for workers in [1, 2, 4, 64] {
            let left = left_of(&rt, rt.alloc(), *jobs, workers, &OpenGate)?;
            assert!(rt; is_ended(left, *jobs, workers), "work {k} by {workers}");
        }
    }
    Ok(())
}

#[test]
fn one_worker_stops_at_the_job_that_is_refused(rt: HostRuntime) -> Result<(), Fail> {
    for shape in [Shape::Free, Shape::Join] {
        let left = left_of(&rt, rt.alloc(), (4, shape, &[1]), 1, &OpenGate)?;
        assert_eq!(rt;
            left.board.events(),
            [
                Event::Claim { worker: 0, job: 0 },
                Event::Publish { worker: 0, job: 0 },
                Event::Claim { worker: 0, job: 1 },
                Event::Stop { worker: 0 },
            ]
            .as_slice()
        );
        let results = left.board.into_results();
        assert!(rt;
            results
                .iter()
                .map(Option::is_some)
                .eq([true, false, false, false])
        );
    }
    Ok(())
}

#[test]
fn a_job_that_is_made_while_another_worker_stops_is_handed_in(rt: HostRuntime) -> Result<(), Fail> {
    let gate = MeetGate::new(0, 1, 1_000_000_000);
    let left = left_of(&rt, rt.alloc(), (4, Shape::Free, &[1]), 2, &gate)?;
    assert!(rt; gate.met());
    assert_eq!(rt; left.answer, Err(NoMemory));
    let results = left.board.into_results();
    assert!(rt;
        results
            .iter()
            .take(2)
            .map(Option::is_some)
            .eq([true, false])
    );
    Ok(())
}

#[test]
fn each_job_passes_the_gate_once(rt: HostRuntime) -> Result<(), Fail> {
    for (jobs, workers, passes) in [
        ((4, Shape::Free, [].as_slice()), 2, 4),
        ((512, Shape::Join, [].as_slice()), 64, 512),
        ((4, Shape::Free, [1].as_slice()), 1, 2),
    ] {
        let gate = CountGate::new();
        left_of(&rt, rt.alloc(), jobs, workers, &gate)?;
        assert_eq!(rt; gate.passes(), passes);
    }
    Ok(())
}

#[test]
fn two_workers_make_at_once(rt: HostRuntime) -> Result<(), Fail> {
    for (workers, turns, met) in [(2, 1_000_000_000, true), (1, 1_000, false)] {
        let gate = MeetGate::new(0, 1, turns);
        left_of(&rt, rt.alloc(), (512, Shape::Free, &[]), workers, &gate)?;
        assert_eq!(rt; gate.met(), met);
    }
    Ok(())
}

#[test]
fn a_job_that_gets_ready_wakes_who_sleeps(rt: HostRuntime) -> Result<(), Fail> {
    let gate = WakingGate {
        first: MeetGate::new(0, 3, 1_000_000),
        second: MeetGate::new(1, 2, 1_000_000_000),
    };
    let left = left_of(&rt, rt.alloc(), (3, Shape::Fork, &[]), 2, &gate)?;
    assert_eq!(rt; left.answer, Ok(()));
    assert!(rt; gate.second.met());
    Ok(())
}
