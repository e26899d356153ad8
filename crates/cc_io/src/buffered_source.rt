//! A source that reads ahead from another source.

ghost use Rattle.std.specs.Prelude.{◌≡◌, ◌≤◌, [], length, OnOk};
ghost use Rattle.cc_io.specs.Source.{IsAtEnd};

use crate::failed::Failed;
use crate::failing::copy_front;
use crate::sink::CHUNK;
use crate::source::Source;

/// A source that reads up to `CHUNK` bytes ahead from another source. It takes no memory.
#[derive(Drop)]
pub struct BufferedSource<S> {
    source: S,
    buffer: [u8; CHUNK],
    // The bytes from `at` to `end` of the buffer were read, and not yet given.
    at: usize,
    end: usize,
    ghost ordered: { at ≤ end },
    ghost within: { end ≤ length buffer },
}

impl<S> BufferedSource<S> {
    ghost use Rattle.cc_io.specs.Buffered.{source_behind, read_ahead};

    /// Over this source, with nothing read ahead.
    pub fn new(source: S) -> Self
        ensures source { source_behind result ≡ source }
        ensures read_ahead { read_ahead result ≡ [] }
    {
        BufferedSource {
            source,
            buffer: [0; CHUNK],
            at: 0,
            end: 0,
        }
    }
}

impl<S: Source> BufferedSource<S> {
    ghost use Rattle.cc_io.specs.Faults.{HasCause};
    ghost use Rattle.cc_io.specs.Buffered.{source_behind, read_ahead, left_with};

    /// Reads from the other source, where nothing was read ahead.
    fn fill(&mut self) -> Result<(), Failed>
        ensures left { left_with S.left self.new ≡ left_with S.left self.old }
        ensures at_end { OnOk result
            (read_ahead self.new ≡ [] → IsAtEnd (S.left (source_behind self.new))) }
        ensures cause { HasCause (S.faults (source_behind self.old))
            (S.faults (source_behind self.new)) result }
    {
        if self.at < self.end {
            return Ok(());
        }
        let n = self.source.read(&mut self.buffer)?;
        self.at = 0;
        self.end = n;
        Ok(())
    }
}

impl<S: Source> Source for BufferedSource<S> {
    ghost use Rattle.cc_io.specs.Buffered.{source_behind, left_with};

    ghost faults = { λ b. S.faults (source_behind b) };

    ghost left = { left_with S.left };

    /// Gives of what was read ahead; where there is nothing, it reads first.
    fn read(&mut self, buf: &mut [u8]) -> Result<usize, Failed> {
        self.fill()?;
        let n = copy_front(&self.buffer[self.at..self.end], buf);
        self.at += n;
        Ok(n)
    }

    /// Whether nothing was read ahead, and the other source may wait.
    fn may_wait(&self) -> bool {
        self.at == self.end && self.source.may_wait()
    }
}
