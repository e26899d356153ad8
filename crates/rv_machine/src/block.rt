//! A segment in memory.

ghost use Rattle.std.specs.Prelude.{◌≡◌, ◌+◌, ◌-◌, ◌^◌, ◌<◌, ◌≤◌, length, drop, vec_len, IfOk};
ghost use Rattle.rv_machine.specs.Memory.{number, IsWidth};

use elf_file::Segment;
use std::alloc::{AllocError, Global};

/// A segment in memory: its bytes from the address `at` on. `flags` has the bits 4 to read, 2 to
/// write and 1 to execute.
#[derive(Drop)]
pub(crate) struct Block {
    pub(crate) at: u32,
    pub(crate) flags: u32,
    pub(crate) bytes: Vec<u8>,
    ghost within: { at + vec_len bytes ≤ 2 ^ 32 },
}

impl Block {
    ghost use Rattle.elf_file.specs.Segments as loaded;
    ghost use Rattle.elf_file.specs.Segments.{IsContained};
    ghost use Rattle.rv_machine.specs.Block.{segment_of, padded, SameBounds};
    ghost use Rattle.rv_machine.specs.Memory.{holds, has_flag, written};

    /// The memory of a segment: its bytes, and zeros up to its size.
    pub(crate) fn new(alloc: Global, segment: &Segment<'_>) -> Result<Block, AllocError>
        requires { IsContained (loaded.segment_of segment.now) }
        ensures { IfOk result (λ b. segment_of b ≡ padded (loaded.segment_of segment.now)) }
    {
        let mut bytes = Vec::with_capacity(alloc, segment.size as usize)?;
        bytes.extend_from_slice(segment.bytes)?;
        bytes.resize(segment.size as usize, 0)?;
        Ok(Block {
            at: segment.at,
            flags: segment.flags,
            bytes,
        })
    }

    /// Whether the address is in the segment.
    pub(crate) fn holds(&self, address: u32) -> bool
        ensures { result ≡ holds (segment_of self.now) address }
    {
        (address.wrapping_sub(self.at) as usize) < self.bytes.len()
    }

    /// Whether the segment has the flag.
    pub(crate) fn has_flag(&self, flag: u32) -> bool
        ensures { result ≡ has_flag self.now.flags flag }
    {
        self.flags & flag != 0
    }

    /// The bytes from an address of the segment on.
    pub(crate) fn bytes_from(&self, address: u32) -> &[u8]
        requires from { self.now.at ≤ address }
        requires within { address < self.now.at + vec_len self.now.bytes }
        ensures { result.now ≡ drop (address - self.now.at) self.now.bytes.items }
    {
        &self.bytes[(address - self.at) as usize..]
    }

    /// Writes the low `width` bytes of a word, the lowest first, from the offset `at` on.
    #[inline(always)]
    pub(crate) fn write(&mut self, at: usize, word: u32, width: usize)
        requires { at + width ≤ vec_len self.old.bytes }
        ensures bytes { self.new.bytes.items ≡ written self.old.bytes.items at word width }
        ensures bounds { SameBounds self.old self.new }
    {
        let mut rest = word;
        for i in at..at + width {
            self.bytes[i] = (rest % 256) as u8;
            rest /= 256;
        }
    }
}

/// The number that 1, 2 or 4 bytes make, the lowest first.
#[inline(always)]
pub(crate) fn number_of(bytes: &[u8]) -> u32
    requires { IsWidth (length bytes.now) }
    ensures value { result ≡ number bytes.now }
    ensures byte { length bytes.now ≡ 1 → result < 2 ^ 8 }
    ensures half { length bytes.now ≡ 2 → result < 2 ^ 16 }
{
    match bytes {
        [a] => u32::from(*a),
        [a, b] => u32::from(*a) + 256 * u32::from(*b),
        [a, b, c, d] => u32::from_le_bytes([*a, *b, *c, *d]),
        _ => unreachable!(),
    }
}
