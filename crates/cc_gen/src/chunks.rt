//! A text handed to a sink in chunks.

ghost use Rattle.std.specs.Prelude.{◌≡◌, ◌≤◌, length, drop, OnOk};
ghost use Rattle.cc_io.specs.Faults.{HasCause};
ghost use Rattle.cc_io.specs.Sink.{append};
ghost use Rattle.cc_gen.specs.Chunks.{held_length};

use arrayvec::ArrayVec;
use cc_io::{CHUNK, Failed, Sink};
use std::snapshot::Snapshot;

/// A sink that gathers what is written, and hands it to another sink in chunks of `CHUNK` bytes. It
/// takes no memory.
#[derive(Drop)]
pub(crate) struct Chunks<'a, S: Sink> {
    pub(crate) out: &'a mut S,
    // The other sink as it was first.
    pub(crate) first: Snapshot<S>,
    pub(crate) chunk: ArrayVec<u8, CHUNK>,
    // How many bytes of the chunk were handed on.
    pub(crate) sent: usize,
    ghost within: { sent ≤ length chunk.items },
    ghost grown: { held_length (S.held first.value) ≤ held_length (S.held out.now) },
}

impl<'a, S: Sink> Chunks<'a, S> {
    /// Nothing gathered yet, for this sink.
    pub(crate) fn new(out: &'a mut S) -> Self
        ensures same_reference { result.out.ghost_name ≡ out.entry.ghost_name }
        ensures out { result.out.now ≡ out.old }
        ensures first { result.first.value ≡ out.old }
        ensures empty { length result.chunk.items ≡ 0 }
    {
        let first = Snapshot::of(&*out);
        Chunks {
            out,
            first,
            chunk: ArrayVec::new(),
            sent: 0,
        }
    }

    /// Hands on all that is gathered. After an `Err` what is left of it is still there.
    pub(crate) fn send(&mut self) -> Result<(), Failed>
        ensures ok { OnOk result (length self.new.chunk.items ≡ 0) }
        ensures held { append (S.held self.new.out.now) (drop self.new.sent self.new.chunk.items)
            ≡ append (S.held self.old.out.now) (drop self.old.sent self.old.chunk.items) }
        ensures lender { self.new.out.ghost_name ≡ self.old.out.ghost_name }
        ensures first { self.new.first.value ≡ self.old.first.value }
        ensures rest { S.rest self.new.out.now ≡ S.rest self.old.out.now }
        ensures cause { HasCause (S.faults self.old.out.now) (S.faults self.new.out.now) result }
    {
        while self.sent < self.chunk.len() {
            let n = self.out.write(&self.chunk.as_slice()[self.sent..])?;
            self.sent += n;
        }
        self.sent = 0;
        self.chunk.clear();
        Ok(())
    }
}

/// Ends the loan of the other sink.
pub(crate) fn end<S: Sink>(chunks: Chunks<S>)
    ensures { chunks.exit.0.now ≡ chunks.entry.out.now }
{
    let Chunks {
        out: _out,
        first: _first,
        chunk: _chunk,
        sent: _sent,
    } = chunks;
}

impl<S: Sink> Sink for Chunks<'_, S> {
    ghost use Rattle.cc_gen.specs.Chunks.{RestOfChunks};

    ghost faults = { λ c. S.faults c.out.now };

    ghost held = { λ c. append (S.held c.out.now) (drop c.sent c.chunk.items) };

    ghost Rest = { RestOfChunks S.Rest };

    ghost rest = { λ c. record {
      lender = c.out.ghost_name;
      first = S.held c.first.value;
      rest = S.rest c.out.now;
    } };

    fn write(&mut self, piece: &[u8]) -> Result<usize, Failed> {
        if self.chunk.len() == CHUNK {
            self.send()?;
        }
        let n = piece.len().min(CHUNK - self.chunk.len());
        self.chunk.try_extend_from_slice(&piece[..n]).unwrap();
        Ok(n)
    }
}
