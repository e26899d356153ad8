//! What the forms in memory have in common: the calls that are to fail, counts of faults, and a
//! read of bytes.

ghost use Rattle.std.specs.Prelude.{◌≡◌, ◌≤◌, ◌↔◌, length, min, take, IsTrue};
ghost use Rattle.cc_io.specs.Faults.{raised};

use crate::failed::Failed;

/// Which calls of a value are to fail, counted from 0, and how many were made.
#[derive(Drop)]
pub(crate) struct FailingCalls {
    pub(crate) listed: Vec<u64>,
    pub(crate) made: u64,
}

impl FailingCalls {
    ghost use Rattle.cc_io.specs.Calls.{NextFails, CountsCall};

    pub(crate) fn new(listed: Vec<u64>) -> Self
        ensures listed { result.listed.items ≡ listed.items }
        ensures made { result.made ≡ 0 }
    {
        FailingCalls { listed, made: 0 }
    }

    /// Counts one more call, and says whether it is to fail.
    pub(crate) fn fails_next(&mut self) -> bool
        ensures listed { IsTrue result ↔ NextFails self.old }
        ensures counted { CountsCall self.old self.new }
    {
        let fails = self.listed.contains(&self.made);
        self.made = raised(self.made);
        fails
    }
}

/// Counts a fault, and gives it.
pub(crate) fn fault(count: &mut u64) -> Failed
    ensures raised { count.new ≡ raised count.old }
    ensures no_less { count.old ≤ count.new }
{
    *count = raised(*count);
    Failed
}

/// One more, or the last value.
fn raised(count: u64) -> u64
    ensures { result ≡ raised count }
{
    count.saturating_add(1)
}

/// Copies as many bytes from the front of `from` to the front of `buf` as there are and fit, and
/// says how many.
pub(crate) fn copy_front(from: &[u8], buf: &mut [u8]) -> usize
    ensures count { result ≡ min (length buf.old) (length from.now) }
    ensures bytes { take result buf.new ≡ take result from.now }
{
    let n = buf.len().min(from.len());
    buf[..n].copy_from_slice(&from[..n]);
    n
}
