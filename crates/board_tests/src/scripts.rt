//! Boards that scripts drive, through the lock and bare. An expected history is worked by hand from
//! the board's rules.
use crate::boards::{Shape, opened};
use crate::crew::{Step, run, run_bare};
use crate::turns::{Act, Answer, Numbers};
use base::{MOST_JOBS, MOST_WORKERS};
use board_core::{Board, Claim, Event, OpenFault, Work};
use std::alloc::Global;
use std::sync::Wait;
use std::test::Fail;
use std::thread::Threads;

/// A claim by a worker, with the answer.
macro_rules! claims {
    ($worker:expr, $answer:expr) => {
        (Step::Turn($worker, Act::Claim), Answer::Claimed($answer))
    };
}

/// A step that is done.
macro_rules! does {
    ($step:expr) => {
        ($step, Answer::Done)
    };
}

/// A publication of a job.
macro_rules! publishes {
    ($worker:expr, $job:expr) => {
        (Step::Turn($worker, Act::Publish($job)), Answer::Done)
    };
}

/// A step that is refused.
macro_rules! refused {
    ($step:expr) => {
        ($step, Answer::Refused)
    };
}

/// The event of a claim.
macro_rules! claim {
    ($worker:expr, $job:expr) => {
        Event::Claim {
            worker: $worker,
            job: $job,
        }
    };
}

/// The event of a publication.
macro_rules! publish {
    ($worker:expr, $job:expr) => {
        Event::Publish {
            worker: $worker,
            job: $job,
        }
    };
}

/// A board, the steps that drive it, its history, and which jobs have results.
#[derive(Clone, Copy)]
struct Script {
    jobs: usize,
    shape: Shape,
    workers: u32,
    steps: &'static [(Step, Answer)],
    events: &'static [Event],
    made: &'static [bool],
}

const SCRIPTS: [Script; 9] = [
    // Two workers finish two jobs, and one that depends on both.
    Script {
        jobs: 3,
        shape: Shape::Join,
        workers: 2,
        steps: &[
            does!(Step::Split(1)),
            claims!(0, Claim::Job(0)),
            claims!(1, Claim::Job(1)),
            publishes!(0, 0),
            claims!(0, Claim::Wait),
            publishes!(1, 1),
            claims!(0, Claim::Job(2)),
            claims!(1, Claim::Wait),
            publishes!(0, 2),
            claims!(1, Claim::Done),
        ],
        events: &[
            claim!(0, 0),
            claim!(1, 1),
            publish!(0, 0),
            publish!(1, 1),
            claim!(0, 2),
            publish!(0, 2),
        ],
        made: &[true, true, true],
    },
    // A seat is split after a publication.
    Script {
        jobs: 3,
        shape: Shape::Join,
        workers: 2,
        steps: &[
            claims!(0, Claim::Job(0)),
            publishes!(0, 0),
            does!(Step::Split(1)),
            refused!(Step::Split(1)),
            claims!(1, Claim::Job(1)),
            publishes!(1, 1),
            claims!(0, Claim::Job(2)),
            publishes!(0, 2),
        ],
        events: &[
            claim!(0, 0),
            publish!(0, 0),
            claim!(1, 1),
            publish!(1, 1),
            claim!(0, 2),
            publish!(0, 2),
        ],
        made: &[true, true, true],
    },
    // Who stops publishes no more, and its job is open again.
    Script {
        jobs: 3,
        shape: Shape::Join,
        workers: 2,
        steps: &[
            does!(Step::Split(1)),
            claims!(1, Claim::Job(0)),
            does!(Step::Turn(1, Act::Stop)),
            refused!(Step::Turn(1, Act::Publish(0))),
            claims!(0, Claim::Stopped),
            claims!(0, Claim::Stopped),
        ],
        events: &[claim!(1, 0), Event::Stop { worker: 1 }],
        made: &[false, false, false],
    },
    // A stop ends the claims.
    Script {
        jobs: 4,
        shape: Shape::Free,
        workers: 1,
        steps: &[
            claims!(0, Claim::Job(0)),
            publishes!(0, 0),
            claims!(0, Claim::Job(1)),
            does!(Step::Turn(0, Act::Stop)),
        ],
        events: &[
            claim!(0, 0),
            publish!(0, 0),
            claim!(0, 1),
            Event::Stop { worker: 0 },
        ],
        made: &[true, false, false, false],
    },
    // The job of a worker that stops is not claimed by others either.
    Script {
        jobs: 1,
        shape: Shape::Free,
        workers: 3,
        steps: &[
            does!(Step::Split(2)),
            claims!(1, Claim::Job(0)),
            does!(Step::Turn(1, Act::Stop)),
            claims!(0, Claim::Stopped),
            claims!(2, Claim::Stopped),
        ],
        events: &[claim!(1, 0), Event::Stop { worker: 1 }],
        made: &[false],
    },
    // A worker that holds nothing stops.
    Script {
        jobs: 1,
        shape: Shape::Free,
        workers: 2,
        steps: &[
            does!(Step::Split(1)),
            does!(Step::Turn(1, Act::Stop)),
            claims!(0, Claim::Stopped),
        ],
        events: &[Event::Stop { worker: 1 }],
        made: &[false],
    },
    // A board without jobs is done.
    Script {
        jobs: 0,
        shape: Shape::Free,
        workers: 1,
        steps: &[claims!(0, Claim::Done)],
        events: &[],
        made: &[],
    },
    // Most seats are not used.
    Script {
        jobs: 1,
        shape: Shape::Free,
        workers: 64,
        steps: &[
            does!(Step::Split(63)),
            claims!(63, Claim::Job(0)),
            publishes!(63, 0),
        ],
        events: &[claim!(63, 0), publish!(63, 0)],
        made: &[true],
    },
    // Seat 3 never takes the board; 2 has seen more than 0 when it is taken in, and 1 less.
    Script {
        jobs: 4,
        shape: Shape::Free,
        workers: 4,
        steps: &[
            does!(Step::Split(3)),
            claims!(1, Claim::Job(0)),
            claims!(2, Claim::Job(1)),
            does!(Step::Join(2)),
            publishes!(1, 0),
            does!(Step::Turn(0, Act::Nothing)),
            claims!(0, Claim::Job(2)),
            does!(Step::Join(1)),
            does!(Step::Join(3)),
            refused!(Step::Join(3)),
        ],
        events: &[claim!(1, 0), claim!(2, 1), publish!(1, 0), claim!(0, 2)],
        made: &[true, false, false, false],
    },
];

/// What is left of a new board after the steps, through the lock or bare: the first step that had
/// another answer, and the board.
fn driven<H: Threads + Wait + Sync>(
    rt: &H,
    alloc: Global,
    (jobs, shape, workers): (usize, Shape, u32),
    steps: &[(Step, Answer)],
    is_locked: bool,
) -> Result<(Option<usize>, Board<Numbers>), Fail> {
    if jobs > MOST_JOBS || workers == 0 || workers > MOST_WORKERS {
        return Err("no such board".into());
    }
    let work = Numbers { jobs, refused: &[] };
    let board = opened(alloc, &work, shape, workers)?;
    if is_locked {
        return Ok(run(rt, alloc, board, steps)?);
    }
    let mut out = Vec::with_capacity(alloc, MOST_JOBS)?;
    Ok(run_bare(alloc, board, steps, &mut out))
}

#[test]
fn boards_answer_scripts(rt: HostRuntime) -> Result<(), Fail> {
    for (k, script) in SCRIPTS.iter().enumerate() {
        let shape = (script.jobs, script.shape, script.workers);
        for is_locked in [true, false] {
            let (wrong, board) = driven(&rt, rt.alloc(), shape, script.steps, is_locked)?;
            assert_eq!(rt; wrong, None, "script {k}");
            assert_eq!(rt; board.events(), script.events, "script {k}");
            let made = board.into_results();
            assert!(rt;
                made.iter()
                    .map(Option::is_some)
                    .eq(script.made.iter().copied()),
                "script {k}"
            );
        }
    }
    Ok(())
}

/// The steps of 64 workers that finish a chain of 512 jobs, while another worker waits.
fn chained(alloc: Global) -> Result<Vec<(Step, Answer)>, Fail> {
    let mut steps = vec![in alloc; does!(Step::Split(63))]?;
    for job in 0..512u32 {
        let worker = job % 64;
        steps.push(claims!(worker, Claim::Job(job)))?;
        steps.push(claims!(63 - worker, Claim::Wait))?;
        steps.push(publishes!(worker, job))?;
    }
    steps.push(claims!(0, Claim::Done))?;
    Ok(steps)
}

/// The steps of 64 workers that finish 512 jobs, 64 at once.
fn at_once(alloc: Global) -> Result<Vec<(Step, Answer)>, Fail> {
    let mut steps = vec![in alloc; does!(Step::Split(63))]?;
    for round in 0..8u32 {
        for worker in 0..64u32 {
            steps.push(claims!(worker, Claim::Job(round * 64 + worker)))?;
        }
        for worker in 0..64u32 {
            steps.push(publishes!(worker, round * 64 + worker))?;
        }
    }
    steps.push(claims!(0, Claim::Done))?;
    Ok(steps)
}

/// Whether steps finish 512 jobs of this shape.
fn are_finished<H: Threads + Wait + Sync>(
    rt: &H,
    alloc: Global,
    (shape, workers): (Shape, u32),
    steps: &[(Step, Answer)],
    is_locked: bool,
) -> Result<bool, Fail> {
    let (wrong, board) = driven(rt, alloc, (512, shape, workers), steps, is_locked)?;
    Ok(
        wrong.is_none()
            && board.events().len() == 1024
            && board.into_results().iter().all(Option::is_some),
    )
}

#[test]
fn boards_of_512_jobs_are_finished(rt: HostRuntime) -> Result<(), Fail> {
    let alloc = rt.alloc();
    let (chained, at_once) = (chained(alloc)?, at_once(alloc)?);
    for is_locked in [false, true] {
        assert!(rt;
            are_finished(
                &rt,
                alloc,
                (Shape::Chain, 64),
                chained.as_slice(),
                is_locked
            )?
        );
        assert!(rt; are_finished(&rt, alloc, (Shape::Free, 64), at_once.as_slice(), is_locked)?);
    }
    Ok(())
}

/// The steps by which four threads finish the jobs, after many turns without an act.
const BY_THREADS: [(Step, Answer); 3] = [
    does!(Step::Split(4)),
    does!(Step::Idle(10000)),
    does!(Step::Finish),
];

#[test]
fn four_threads_finish_512_jobs(rt: HostRuntime) -> Result<(), Fail> {
    assert!(rt;
        are_finished(
            &rt,
            rt.alloc(),
            (Shape::Free, 5),
            BY_THREADS.as_slice(),
            true
        )?
    );
    Ok(())
}

// A board may go to another thread.
fn send<T: Send>(_it: &T) {}

fn send_board<W: Work>(board: &Board<W>) {
    send(board);
}

#[test]
fn a_claim_is_given_the_results_of_its_deps(rt: HostRuntime) -> Result<(), Fail> {
    let alloc = rt.alloc();
    let work = Numbers {
        jobs: 3,
        refused: &[],
    };
    let board = opened(alloc, &work, Shape::Join, 1)?;
    send_board(&board);
    let mut out = Vec::with_capacity(alloc, MOST_JOBS)?;
    let steps = [
        claims!(0, Claim::Job(0)),
        publishes!(0, 0),
        claims!(0, Claim::Job(1)),
        publishes!(0, 1),
        claims!(0, Claim::Job(2)),
    ];
    let (wrong, _board) = run_bare(alloc, board, &steps, &mut out);
    assert_eq!(rt; wrong, None);
    assert!(rt; out.iter().map(|made| **made).eq([0, 1]));
    Ok(())
}

#[test]
fn a_dep_of_no_smaller_rank_is_refused(rt: HostRuntime) -> Result<(), Fail> {
    let alloc = rt.alloc();
    for (dep, ranks, fault) in [
        (0, [0, 0], Some((1, 0))),
        (1, [0, 1], Some((1, 1))),
        (2, [0, 1], Some((1, 2))),
        (0, [1, 0], Some((1, 0))),
        (0, [0, 1], None),
    ] {
        let mut deps = Vec::new(alloc);
        deps.push(Vec::new(alloc))?;
        deps.push(Vec::from_slice(alloc, &[dep])?)?;
        assert_eq!(rt; deps.len(), 2);
        let work = Numbers {
            jobs: 2,
            refused: &[],
        };
        let opened = Board::open(alloc, &work, &ranks, deps.as_slice(), 1);
        let fault = fault.map(|(job, dep)| OpenFault::BadDeps { job, dep });
        assert!(rt; opened.err() == fault);
    }
    Ok(())
}
