//! Counts by position, which are summed over ranges.

ghost use Rattle.std.specs.Prelude.{◌≡◌, ℕ, ◌+◌, ◌*◌, ◌<◌, ◌≤◌, length, slice_index};
ghost use Rattle.a_share.specs.Sums.{IsTree, one_at};

use std::alloc::{AllocError, Global};

/// A count for each position below a size, and their sums: entry k is the sum of entries 2k and
/// 2k + 1, and that of a position stands `size` further on. The total is of all counts; where it is
/// 0 there are no entries.
#[derive(Drop)]
pub(crate) struct Counts {
    sums: Vec<u32>,
    size: usize,
    total: u32,
}

impl Counts {
    ghost use Rattle.std.specs.Prelude.{◌^◌, nat_le, nat_lt, ◌&&◌, if◌then◌else◌, OnOk};
    ghost use Rattle.a_share.specs.Counts.{AreCounts, AreFilled, between};

    /// Each count is 0.
    pub(crate) fn new(alloc: Global, size: usize) -> Self
        requires { size < 2 ^ 63 }
        ensures size { result.size ≡ size }
        ensures counts { AreCounts result }
        ensures none { (l r : ℕ) → between result l r ≡ 0 }
    {
        Counts {
            sums: Vec::new(alloc),
            size,
            total: 0,
        }
    }

    /// Adds 1 to the count at a position.
    pub(crate) fn add(&mut self, position: usize) -> Result<(), AllocError>
        requires counts { AreCounts self.old }
        requires inside { position < self.old.size }
        ensures size { OnOk result (self.new.size ≡ self.old.size) }
        ensures counts { OnOk result (AreCounts self.new) }
        ensures added { OnOk result ((l r : ℕ) → l ≤ r → r ≤ self.old.size → between self.new l r
            ≡ (if nat_le l position && nat_lt position r then 1 else 0) + between self.old l r) }
    {
        if self.total == u32::MAX {
            return Err(AllocError);
        }
        self.fill()?;
        self.total += 1;
        add_up(&mut self.sums, self.size + position);
        Ok(())
    }

    // Makes the entries, where there are none yet.
    fn fill(&mut self) -> Result<(), AllocError>
        requires { AreCounts self.old }
        ensures size { OnOk result (self.new.size ≡ self.old.size) }
        ensures total { OnOk result (self.new.total ≡ self.old.total) }
        ensures filled { OnOk result (AreFilled self.new) }
        ensures same { OnOk result ((l r : ℕ) → between self.new l r ≡ between self.old l r) }
    {
        if self.total == 0 {
            self.sums.resize(2 * self.size, 0)?;
        }
        Ok(())
    }

    /// The sum of the counts from position `from` on and before `to`.
    pub(crate) fn sum(&self, from: usize, to: usize) -> u32
        requires counts { AreCounts self.now }
        requires order { from ≤ to }
        requires inside { to ≤ self.now.size }
        ensures { result ≡ between self.now from to }
    {
        if self.total == 0 {
            return 0;
        }
        let mut sum = 0;
        let mut left = self.size + from;
        let mut right = self.size + to;
        while left < right {
            if left % 2 == 1 {
                sum += self.sums[left];
                left += 1;
            }
            if right % 2 == 1 {
                right -= 1;
                sum += self.sums[right];
            }
            left /= 2;
            right /= 2;
        }
        sum
    }

    /// The sums of these counts and of others of the same size from position `from` on and before
    /// `to`.
    pub(crate) fn sums(&self, others: &Counts, from: usize, to: usize) -> (u32, u32)
        requires counts { AreCounts self.now }
        requires others { AreCounts others.now }
        requires size { others.now.size ≡ self.now.size }
        requires order { from ≤ to }
        requires inside { to ≤ self.now.size }
        ensures own { result.0 ≡ between self.now from to }
        ensures other { result.1 ≡ between others.now from to }
    {
        if self.total == 0 || others.total == 0 {
            return (self.sum(from, to), others.sum(from, to));
        }
        let mut own = 0;
        let mut other = 0;
        let mut left = self.size + from;
        let mut right = self.size + to;
        while left < right {
            if left % 2 == 1 {
                own += self.sums[left];
                other += others.sums[left];
                left += 1;
            }
            if right % 2 == 1 {
                right -= 1;
                own += self.sums[right];
                other += others.sums[right];
            }
            left /= 2;
            right /= 2;
        }
        (own, other)
    }
}

// Adds 1 to the last of these entries and to each that is a sum of it.
fn add_up(sums: &mut [u32], last: usize)
    requires inside { last < length sums.old }
    requires room { (k : ℕ) → slice_index sums.old k < 4294967295 }
    ensures tree { (size : ℕ) → length sums.old ≡ 2 * size → size ≤ last → IsTree size sums.old
        → IsTree size sums.new }
    ensures others { (size k : ℕ) → length sums.old ≡ 2 * size → size ≤ last → size ≤ k
        → slice_index sums.new k ≡ slice_index sums.old k + one_at last k }
    ensures most { (k : ℕ) → slice_index sums.new k ≤ slice_index sums.old k + 1 }
{
    let mut entry = last;
    while entry > 0 {
        sums[entry] += 1;
        entry /= 2;
    }
}
