//! The gate, which a worker passes before it makes a job.

use std::hint;
use std::sync::atomic::{AtomicBool, AtomicU64, Ordering};

/// What a worker calls between its claim of a job and the making of it, without the board.
pub trait Gate: Sync {
    /// Lets the making of this job begin. It returns in any case.
    fn pass(&self, job: u32);
}

/// The gate that holds nobody.
#[derive(Drop)]
pub struct OpenGate;

impl Gate for OpenGate {
    fn pass(&self, _job: u32) {}
}

/// A gate for tests, which tells whether the makings of two jobs met: it holds one job until
/// another one has passed, for so many turns at most.
#[derive(Drop)]
pub struct MeetGate {
    held: u32,
    awaited: u32,
    turns: u64,
    has_passed: AtomicBool,
    has_met: AtomicBool,
}

impl MeetGate {
    /// A gate that holds the job `held` until the job `awaited` has passed. A turn is one load.
    pub fn new(held: u32, awaited: u32, turns: u64) -> MeetGate {
        MeetGate {
            held,
            awaited,
            turns,
            has_passed: AtomicBool::new(false),
            has_met: AtomicBool::new(false),
        }
    }

    /// Whether the job that was held has found, in its turns, that the other one had passed.
    pub fn met(&self) -> bool {
        self.has_met.load(Ordering::SeqCst)
    }

    fn hold(&self) {
        for _ in 0..self.turns {
            if self.has_passed.load(Ordering::SeqCst) {
                self.has_met.store(true, Ordering::SeqCst);
                return;
            }
            hint::spin_loop();
        }
    }
}

impl Gate for MeetGate {
    fn pass(&self, job: u32) {
        if job == self.held {
            self.hold();
        }
        if job == self.awaited {
            self.has_passed.store(true, Ordering::SeqCst);
        }
    }
}

/// A gate for tests, which counts its passes.
#[derive(Drop)]
pub struct CountGate {
    passes: AtomicU64,
}

impl CountGate {
    /// A gate that nobody has passed.
    pub fn new() -> CountGate {
        CountGate {
            passes: AtomicU64::new(0),
        }
    }

    /// How often it was passed.
    pub fn passes(&self) -> u64 {
        self.passes.load(Ordering::SeqCst)
    }
}

impl Gate for CountGate {
    fn pass(&self, _job: u32) {
        self.passes.fetch_add(1, Ordering::SeqCst);
    }
}
