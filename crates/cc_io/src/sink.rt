//! Streams of bytes that are written, and the call that writes a list of bytes whole.

ghost use Rattle.std.specs.Prelude.{◌≡◌, ◌<◌, ◌≤◌, ℕ, List, Option, length, take, IfOk, OnOk, OnErr};
ghost use Rattle.cc_io.specs.Faults.{HasCause};
ghost use Rattle.cc_io.specs.Sink.{append};

use crate::failed::Failed;

/// The length of a chunk, in bytes: the most that `write_all` offers in one call, and the length of
/// a reader's buffer.
pub const CHUNK: usize = 4096;

/// A stream of bytes that is written at its end.
pub trait Sink {
    /// How many calls have failed. A count never falls, and stands still at 2^64 - 1.
    ghost faults: { Self → ℕ };

    /// All that was appended, where it is known.
    ghost held: { Self → Option (List ℕ) };

    /// The type of `rest`.
    ghost Rest: { Type 0 };

    /// What is known of the rest of what the sink belongs to. No write changes it.
    ghost rest: { Self → Rest };

    /// Appends the first bytes of `piece`, at least one where it has any, and gives their number.
    /// `Failed` only where `faults` increased; nothing was appended then.
    fn write(&mut self, piece: &[u8]) -> Result<usize, Failed>
        ensures count { IfOk result (λ n. n ≤ length piece.now) }
        ensures some { IfOk result (λ n. 0 < length piece.now → 0 < n) }
        ensures bytes { IfOk result
            (λ n. held self.new ≡ append (held self.old) (take n piece.now)) }
        ensures err { OnErr result (held self.new ≡ held self.old) }
        ensures rest { rest self.new ≡ rest self.old }
        ensures cause { HasCause (faults self.old) (faults self.new) result };

    /// Hands over bytes that were taken and are held back, where there are any. Where that fails
    /// `faults` increases, and no later byte is taken.
    fn flush(&mut self)
        ensures held { held self.new ≡ held self.old }
        ensures rest { rest self.new ≡ rest self.old }
        ensures faults { faults self.old ≤ faults self.new }
    {}
}

/// Appends all of `piece`, in calls of at most `CHUNK` bytes each. `Failed` only where the sink's
/// count of faults increased; a prefix of `piece` was appended then.
pub fn write_all<S: Sink>(sink: &mut S, piece: &[u8]) -> Result<(), Failed>
    ensures ok { OnOk result (S.held sink.new ≡ append (S.held sink.old) piece.now) }
    ensures err { OnErr result
        ((k : ℕ) × (k ≤ length piece.now)
        × (S.held sink.new ≡ append (S.held sink.old) (take k piece.now))) }
    ensures rest { S.rest sink.new ≡ S.rest sink.old }
    ensures cause { HasCause (S.faults sink.old) (S.faults sink.new) result }
{
    let mut at = 0;
    while at < piece.len() {
        let end = at + CHUNK.min(piece.len() - at);
        let n = sink.write(&piece[at..end])?;
        at += n;
    }
    Ok(())
}
