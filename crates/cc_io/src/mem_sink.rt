//! A sink in memory, with listed calls that fail.

ghost use Rattle.std.specs.Prelude.{◌≡◌, ◌<◌, ◌⊎◌, [], ◌++◌, Some, length, IfOk, OnOk, OnErr, IsErr, is_ok, if◌then◌else◌};

use crate::failed::Failed;
use crate::failing::{FailingCalls, fault};
use crate::sink::Sink;
use std::alloc::Global;

/// A sink in memory, with the numbers of the calls that are to fail. A write that finds no memory
/// fails too.
#[derive(Drop)]
pub struct MemSink {
    bytes: Vec<u8>,
    calls: FailingCalls,
    faults: u64,
}

impl MemSink {
    ghost use Rattle.cc_io.specs.Memory.{sink_held, sink_calls, sink_faults};

    /// An empty sink. `failing` has the numbers of the calls that are to fail, counted from 0.
    pub fn new(alloc: Global, failing: Vec<u64>) -> Self
        ensures held { sink_held result ≡ [] }
        ensures failing { (sink_calls result).listed.items ≡ failing.items }
        ensures calls { (sink_calls result).made ≡ 0 }
        ensures faults { sink_faults result ≡ 0 }
    {
        MemSink {
            bytes: Vec::new(alloc),
            calls: FailingCalls::new(failing),
            faults: 0,
        }
    }

    /// All bytes that were appended.
    pub fn bytes(&self) -> &[u8]
        ensures { result.now ≡ sink_held self.now }
    {
        &self.bytes
    }
}

impl Sink for MemSink {
    ghost use Rattle.cc_io.specs.Faults.{HasCause, raised};
    ghost use Rattle.cc_io.specs.Calls.{NextFails, CountsCall};
    ghost use Rattle.cc_io.specs.Memory.{sink_held, sink_room, sink_calls, sink_faults};

    ghost faults = { sink_faults };

    ghost held = { λ sink. Some (sink_held sink) };

    ghost Rest = { Unit {0} };

    ghost rest = { λ _. tt };

    /// Fails where this call is listed, and where there is no memory for the piece; else takes all
    /// of it.
    fn write(&mut self, piece: &[u8]) -> Result<usize, Failed>
        ensures listed { NextFails (sink_calls self.old) → IsErr result }
        ensures fails { OnErr result
            (NextFails (sink_calls self.old) ⊎ (sink_room self.old < length piece.now)) }
        ensures calls { CountsCall (sink_calls self.old) (sink_calls self.new) }
        ensures faults { sink_faults self.new ≡
            (if is_ok result then sink_faults self.old else raised (sink_faults self.old)) }
        ensures cause { HasCause (sink_faults self.old) (sink_faults self.new) result }

        ensures count { IfOk result (λ n. n ≡ length piece.now) }
        ensures bytes { OnOk result (sink_held self.new ≡ sink_held self.old ++ piece.now) }
        ensures err { OnErr result (sink_held self.new ≡ sink_held self.old) }
    {
        if self.calls.fails_next() || self.bytes.extend_from_slice(piece).is_err() {
            return Err(fault(&mut self.faults));
        }
        Ok(piece.len())
    }
}
