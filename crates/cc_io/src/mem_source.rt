//! Sources in memory: one that never fails, and one with listed calls that fail.

ghost use Rattle.std.specs.Prelude.{◌≡◌, ◌<◌, ◌≤◌, ◌↔◌, ◌++◌, Ok, Some, length, min, take, vec_len, IfOk, OnErr, IsErr, is_ok, if◌then◌else◌};

use crate::failed::Failed;
use crate::failing::{FailingCalls, copy_front, fault};
use crate::source::Source;

/// A source in memory that never fails and takes no memory.
#[derive(Drop)]
pub struct NoFailSource {
    content: Vec<u8>,
    at: usize,
    ghost within: { at ≤ vec_len content },
}

impl NoFailSource {
    ghost use Rattle.cc_io.specs.Memory.{bytes_left};

    /// A source of these bytes.
    pub fn new(content: Vec<u8>) -> Self
        ensures { bytes_left result ≡ content.items }
    {
        NoFailSource { content, at: 0 }
    }
}

impl Source for NoFailSource {
    ghost use Rattle.cc_io.specs.Faults.{HasCause};
    ghost use Rattle.cc_io.specs.Memory.{bytes_left};

    ghost faults = { λ _. 0 };

    ghost left = { λ source. Some (bytes_left source) };

    /// Takes all that fits.
    fn read(&mut self, buf: &mut [u8]) -> Result<usize, Failed>
        requires { 0 < length buf.old }
        ensures never_fails { result ≡ Ok (min (length buf.old) (length (bytes_left self.old))) }
        ensures bytes { IfOk result
            (λ n. bytes_left self.old ≡ take n buf.new ++ bytes_left self.new) }
    {
        let n = copy_front(&self.content[self.at..], buf);
        self.at += n;
        Ok(n)
    }
}

/// A source in memory, with the numbers of the calls that are to fail.
#[derive(Drop)]
pub struct MemSource {
    rest: NoFailSource,
    calls: FailingCalls,
    faults: u64,
}

impl MemSource {
    ghost use Rattle.cc_io.specs.Memory.{source_left, source_calls, source_faults};

    /// A source of these bytes. `failing` has the numbers of the calls that are to fail, counted
    /// from 0.
    pub fn new(content: Vec<u8>, failing: Vec<u64>) -> Self
        ensures left { source_left result ≡ content.items }
        ensures failing { (source_calls result).listed.items ≡ failing.items }
        ensures calls { (source_calls result).made ≡ 0 }
        ensures faults { source_faults result ≡ 0 }
    {
        MemSource {
            rest: NoFailSource::new(content),
            calls: FailingCalls::new(failing),
            faults: 0,
        }
    }
}

impl Source for MemSource {
    ghost use Rattle.cc_io.specs.Faults.{HasCause, raised};
    ghost use Rattle.cc_io.specs.Calls.{NextFails, CountsCall};
    ghost use Rattle.cc_io.specs.Memory.{source_left, source_calls, source_faults};

    ghost faults = { source_faults };

    ghost left = { λ source. Some (source_left source) };

    /// Fails where this call is listed, and else takes all that fits.
    fn read(&mut self, buf: &mut [u8]) -> Result<usize, Failed>
        requires { 0 < length buf.old }
        ensures fails { IsErr result ↔ NextFails (source_calls self.old) }
        ensures calls { CountsCall (source_calls self.old) (source_calls self.new) }
        ensures faults { source_faults self.new ≡
            (if is_ok result then source_faults self.old else raised (source_faults self.old)) }
        ensures cause { HasCause (source_faults self.old) (source_faults self.new) result }

        ensures count { IfOk result
            (λ n. n ≡ min (length buf.old) (length (source_left self.old))) }
        ensures bytes { IfOk result
            (λ n. source_left self.old ≡ take n buf.new ++ source_left self.new) }
        ensures err { OnErr result (source_left self.new ≡ source_left self.old) }
    {
        if self.calls.fails_next() {
            return Err(fault(&mut self.faults));
        }
        self.rest.read(buf)
    }
}
