//! A sink that gathers what it takes, and hands it to another sink in chunks.

ghost use Rattle.std.specs.Prelude.{◌≡◌, ◌<◌, ◌≤◌, ◌⊎◌, [], false, length, take, IsTrue, IsErr, IfOk, OnOk, OnErr};
ghost use Rattle.cc_io.specs.Faults.{HasCause, Increased};
ghost use Rattle.cc_io.specs.Sink.{append};

use crate::failed::Failed;
use crate::failing::fault;
use crate::sink::{CHUNK, Sink};
use arrayvec::ArrayVec;

/// When a buffered sink hands over what it has gathered, other than where its buffer is full or
/// where it is asked to (ISO/IEC 9899:2011, 7.21.3).
#[derive(Clone, Copy, Debug, PartialEq, Eq)]
pub enum Buffering {
    /// At no other time.
    Full,
    /// After each line end too.
    Line,
}

/// A sink that gathers up to `CHUNK` bytes, and hands them to another sink where its buffer is full
/// and where it is flushed. Once that fails, no later byte is taken. It takes no memory.
#[derive(Drop)]
pub struct BufferedSink<S> {
    sink: S,
    buffering: Buffering,
    buffer: ArrayVec<u8, CHUNK>,
    // How many bytes of the buffer were handed over.
    sent: usize,
    has_failed: bool,
    faults: u64,
    ghost within: { sent ≤ length buffer.items },
}

impl<S: Sink> BufferedSink<S> {
    ghost use Rattle.cc_io.specs.Buffered.{sink_behind, gathered, has_failed, faults_of, held_with};

    /// Over this sink, with nothing gathered yet.
    pub fn new(sink: S, buffering: Buffering) -> Self
        ensures sink { sink_behind result ≡ sink }
        ensures gathered { gathered result ≡ [] }
        ensures has_failed { has_failed result ≡ false }
        ensures faults { faults_of result ≡ 0 }
    {
        BufferedSink {
            sink,
            buffering,
            buffer: ArrayVec::new(),
            sent: 0,
            has_failed: false,
            faults: 0,
        }
    }

    /// Whether bytes were not handed over since the other sink failed.
    pub fn has_failed(&self) -> bool
        ensures { result ≡ has_failed self.now }
    {
        self.has_failed
    }

    /// Hands over all that is gathered. After an `Err` what is left of it is still there.
    fn hand_over(&mut self) -> Result<(), Failed>
        ensures ok { OnOk result (self.new.buffer.items ≡ []) }
        ensures handed { OnOk result (gathered self.new ≡ []) }
        ensures held { held_with S.held self.new ≡ held_with S.held self.old }
        ensures rest { S.rest (sink_behind self.new) ≡ S.rest (sink_behind self.old) }
        ensures cause { HasCause (S.faults (sink_behind self.old)) (S.faults (sink_behind self.new))
            result }
        ensures has_failed { has_failed self.new ≡ has_failed self.old }
        ensures faults { faults_of self.new ≡ faults_of self.old }
    {
        while self.sent < self.buffer.len() {
            let n = self.sink.write(&self.buffer.as_slice()[self.sent..])?;
            self.sent += n;
        }
        self.sent = 0;
        self.buffer.clear();
        Ok(())
    }

    /// The same, where the other sink has not failed. A failure is counted, and stays.
    fn empty(&mut self) -> Result<(), Failed>
        ensures ok { OnOk result (self.new.buffer.items ≡ []) }
        ensures handed { OnOk result (gathered self.new ≡ []) }
        ensures held { held_with S.held self.new ≡ held_with S.held self.old }
        ensures rest { S.rest (sink_behind self.new) ≡ S.rest (sink_behind self.old) }
        ensures cause { HasCause (faults_of self.old) (faults_of self.new) result }
        ensures failed { OnErr result (IsTrue (has_failed self.new)) }
        ensures why { IsTrue (has_failed self.new) → IsTrue (has_failed self.old)
            ⊎ Increased (S.faults (sink_behind self.old)) (S.faults (sink_behind self.new)) }
        ensures no_more { IsTrue (has_failed self.old)
            → IsErr result × (sink_behind self.new ≡ sink_behind self.old) }
    {
        if self.has_failed || self.hand_over().is_err() {
            self.has_failed = true;
            return Err(fault(&mut self.faults));
        }
        Ok(())
    }

    /// Hands over what is gathered where the buffer is full.
    fn make_room(&mut self) -> Result<(), Failed>
        ensures ok { OnOk result (length self.new.buffer.items < 4096) }
        ensures held { held_with S.held self.new ≡ held_with S.held self.old }
        ensures rest { S.rest (sink_behind self.new) ≡ S.rest (sink_behind self.old) }
        ensures cause { HasCause (faults_of self.old) (faults_of self.new) result }
        ensures failed { OnErr result (IsTrue (has_failed self.new)) }
        ensures no_more { IsTrue (has_failed self.old)
            → IsErr result × (sink_behind self.new ≡ sink_behind self.old) }
    {
        if self.has_failed || self.buffer.is_full() {
            return self.empty();
        }
        Ok(())
    }

    /// Takes what there is room for, and gives its length.
    fn gather(&mut self, piece: &[u8]) -> usize
        requires { length self.old.buffer.items < 4096 }
        ensures count { result ≤ length piece.now }
        ensures some { 0 < length piece.now → 0 < result }
        ensures bytes { held_with S.held self.new
            ≡ append (held_with S.held self.old) (take result piece.now) }
        ensures sink { sink_behind self.new ≡ sink_behind self.old }
        ensures has_failed { has_failed self.new ≡ has_failed self.old }
        ensures faults { faults_of self.new ≡ faults_of self.old }
    {
        let n = piece.len().min(self.buffer.remaining_capacity());
        self.buffer.try_extend_from_slice(&piece[..n]).unwrap();
        n
    }
}

impl<S: Sink> Sink for BufferedSink<S> {
    ghost use Rattle.cc_io.specs.Buffered.{sink_behind, gathered, has_failed, faults_of, held_with};

    ghost faults = { faults_of };

    ghost held = { held_with S.held };

    ghost Rest = { S.Rest };

    ghost rest = { λ b. S.rest (sink_behind b) };

    /// Takes what there is room for. Fails where the bytes before it were not handed over, and
    /// hands nothing on from then on.
    fn write(&mut self, piece: &[u8]) -> Result<usize, Failed>
        ensures count { IfOk result (λ n. n ≤ length piece.now) }
        ensures some { IfOk result (λ n. 0 < length piece.now → 0 < n) }
        ensures bytes { IfOk result (λ n. held_with S.held self.new
            ≡ append (held_with S.held self.old) (take n piece.now)) }
        ensures err { OnErr result (held_with S.held self.new ≡ held_with S.held self.old) }
        ensures rest { S.rest (sink_behind self.new) ≡ S.rest (sink_behind self.old) }
        ensures cause { HasCause (faults_of self.old) (faults_of self.new) result }

        ensures failed { OnErr result (IsTrue (has_failed self.new)) }
        ensures no_more { IsTrue (has_failed self.old)
            → IsErr result × (sink_behind self.new ≡ sink_behind self.old) }
    {
        self.make_room()?;
        let n = self.gather(piece);
        if self.buffering == Buffering::Line && piece[..n].contains(&b'\n') {
            self.flush();
        }
        Ok(n)
    }

    /// Hands over all that is gathered, where the other sink has not failed.
    fn flush(&mut self)
        ensures held { held_with S.held self.new ≡ held_with S.held self.old }
        ensures rest { S.rest (sink_behind self.new) ≡ S.rest (sink_behind self.old) }
        ensures faults { faults_of self.old ≤ faults_of self.new }

        ensures handed { IsTrue (has_failed self.new) ⊎ (gathered self.new ≡ []) }
        ensures why { IsTrue (has_failed self.new) → IsTrue (has_failed self.old)
            ⊎ Increased (S.faults (sink_behind self.old)) (S.faults (sink_behind self.new)) }
        ensures no_more { IsTrue (has_failed self.old)
            → sink_behind self.new ≡ sink_behind self.old }
    {
        let _ = self.empty();
    }
}
