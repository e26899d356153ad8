//! Streams of bytes that are read.

ghost use Rattle.std.specs.Prelude.{◌≡◌, ◌<◌, ◌≤◌, ℕ, List, Option, length, take, IfOk, OnErr};
ghost use Rattle.cc_io.specs.Faults.{HasCause};
ghost use Rattle.cc_io.specs.Source.{prepend, IsAtEnd};

use crate::failed::Failed;

/// A stream of bytes that is read from its front.
pub trait Source {
    /// How many calls have failed. A count never falls, and stands still at 2^64 - 1.
    ghost faults: { Self → ℕ };

    /// The bytes that are left, where they are known.
    ghost left: { Self → Option (List ℕ) };

    /// Reads the next bytes into the front of `buf`, and gives their number. 0 is the end of the
    /// input. `Failed` only where `faults` increased; nothing was taken then, and what `buf` holds
    /// is not said.
    fn read(&mut self, buf: &mut [u8]) -> Result<usize, Failed>
        requires { 0 < length buf.old }
        ensures count { IfOk result (λ n. n ≤ length buf.old) }
        ensures bytes { IfOk result
            (λ n. left self.old ≡ prepend (take n buf.new) (left self.new)) }
        ensures at_end { IfOk result (λ n. n ≡ 0 → IsAtEnd (left self.new)) }
        ensures err { OnErr result (left self.new ≡ left self.old) }
        ensures cause { HasCause (faults self.old) (faults self.new) result };

    /// Whether the next read may wait for input. `false` where bytes are at hand.
    fn may_wait(&self) -> bool {
        true
    }
}
