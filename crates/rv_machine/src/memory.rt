//! The memory of an executable, by segments.

ghost use Rattle.std.specs.Prelude.{IfOk, IfSome, ◌≡◌, ◌+◌, ◌^◌, ◌<◌, ◌≤◌, true, MatchOption, if◌then◌else◌, map, AllPairs};
ghost use Rattle.elf_file.specs.Segments.{AreApart};
ghost use Rattle.rv_machine.specs.Block.{segment_of, outline_of};
ghost use Rattle.rv_machine.specs.Memory.{has_flag, allowed, load_bytes, store_bytes, put_at, IsWidth, memory_of, flags_of};
ghost use Rattle.rv_machine.specs.Text.{IsText};

use crate::block::{Block, number_of};
use crate::text::Text;
use elf_file::ImageView;
use std::alloc::{AllocError, Global};

/// The flags of memory: to read, to write and to execute.
pub(crate) const READ: u32 = 4;

pub(crate) const WRITE: u32 = 2;

pub(crate) const EXECUTE: u32 = 1;

/// The memory of an executable: its segments, which are apart, and text of them that was decoded.
#[derive(Drop)]
pub(crate) struct Memory {
    pub(crate) blocks: Vec<Block>,
    pub(crate) text: Text,
    ghost apart: { AllPairs AreApart (map outline_of blocks.items) },
    ghost decoded: { IsText (flags_of (map segment_of blocks.items))
        (memory_of (map segment_of blocks.items)) text.at text.words.items },
}

impl Memory {
    ghost use Rattle.elf_file.specs.ImageView.{executable_of};
    ghost use Rattle.rv_machine.specs.Blocks.{bytes_of, allowance_of, IsAbsent, HoldsAt, IsBlockAt};
    ghost use Rattle.rv_machine.specs.Blocks.{IsOutside, EndsWithin};

    /// The memory of an executable.
    pub(crate) fn new(alloc: Global, view: &ImageView<'_>) -> Result<Memory, AllocError>
        ensures bytes { IfOk result
            (λ m. bytes_of m ≡ memory_of (executable_of view.now).segments) }
        ensures flags { IfOk result
            (λ m. allowance_of m ≡ flags_of (executable_of view.now).segments) }
    {
        let mut blocks = Vec::new(alloc);
        for k in 0..view.count() {
            blocks.push(Block::new(alloc, &view.segment(k))?)?;
        }
        let text = Text::new(alloc, &blocks)?;
        Ok(Memory { blocks, text })
    }

    /// Which segment has the address. The last one is asked first, since data stands behind text.
    fn block_at(&self, address: u32) -> Option<usize>
        ensures { MatchOption result (IsAbsent self.now.blocks.items address)
            (HoldsAt self.now.blocks.items address) }
    {
        for k in (0..self.blocks.len()).rev() {
            if self.blocks[k].holds(address) {
                return Some(k);
            }
        }
        None
    }

    /// The segment that has the address.
    fn find(&self, address: u32) -> Option<&Block>
        ensures { MatchOption result (IsOutside self.now address)
            (λ b. IsBlockAt self.now address b.now) }
    {
        Some(&self.blocks[self.block_at(address)?])
    }

    /// Whether an address has the flag.
    fn allows(&self, flag: u32, address: u32) -> bool
        ensures { result ≡ has_flag (allowance_of self.now address) flag }
    {
        match self.find(address) {
            Some(block) => block.has_flag(flag),
            None => false,
        }
    }

    /// The byte at an address, or 0 where there is no memory.
    pub(crate) fn byte(&self, address: u32) -> u8
        ensures { result ≡ bytes_of self.now address }
    {
        match self.find(address) {
            Some(block) => block.bytes_from(address)[0],
            None => 0,
        }
    }

    /// Whether each of `width` bytes from an address on has the flag.
    pub(crate) fn all_allow(&self, flag: u32, address: u32, width: u32) -> bool
        requires { address + width ≤ 2 ^ 32 }
        ensures { result ≡ allowed (allowance_of self.now) flag address width }
    {
        for i in 0..width {
            if !self.allows(flag, address + i) {
                return false;
            }
        }
        true
    }

    /// The number that `width` bytes from an address on make, the lowest first, where each has the
    /// flag.
    #[inline(always)]
    pub(crate) fn load(&self, flag: u32, address: u32, width: u32) -> Option<u32>
        requires width { IsWidth width }
        requires end { address + width ≤ 2 ^ 32 }
        ensures value { result
            ≡ (if allowed (allowance_of self.now) flag address width then Some
            (load_bytes (bytes_of self.now) address width) else None) }
        ensures byte { IfSome result (λ n. width ≡ 1 → n < 2 ^ 8) }
        ensures half { IfSome result (λ n. width ≡ 2 → n < 2 ^ 16) }
    {
        let block = self.find(address)?;
        let bytes = block.bytes_from(address);
        if bytes.len() < width as usize {
            return self.load_across(flag, address, width);
        }
        if !block.has_flag(flag) {
            return None;
        }
        Some(number_of(&bytes[..width as usize]))
    }

    /// The same, where the bytes may be of several segments.
    fn load_across(&self, flag: u32, address: u32, width: u32) -> Option<u32>
        requires width { IsWidth width }
        requires end { address + width ≤ 2 ^ 32 }
        ensures value { result
            ≡ (if allowed (allowance_of self.now) flag address width then Some
            (load_bytes (bytes_of self.now) address width) else None) }
        ensures byte { IfSome result (λ n. width ≡ 1 → n < 2 ^ 8) }
        ensures half { IfSome result (λ n. width ≡ 2 → n < 2 ^ 16) }
    {
        if !self.all_allow(flag, address, width) {
            return None;
        }
        let mut bytes = [0; 4];
        for i in 0..width {
            bytes[i as usize] = self.byte(address + i);
        }
        Some(number_of(&bytes[..width as usize]))
    }

    /// Writes within the segment `k`, which has the `width` bytes from the address on.
    #[inline(always)]
    fn write_in(&mut self, k: usize, address: u32, word: u32, width: u32)
        requires allowed { allowed (allowance_of self.old) WRITE address width ≡ true }
        requires found { HoldsAt self.old.blocks.items address k }
        requires end { EndsWithin self.old.blocks.items (address + width) k }
        ensures bytes { bytes_of self.new ≡ store_bytes (bytes_of self.old) address word width }
        ensures flags { allowance_of self.new ≡ allowance_of self.old }
    {
        let block = &mut self.blocks[k];
        let at = (address - block.at) as usize;
        block.write(at, word, width as usize);
    }

    /// Writes a byte where there is memory.
    pub(crate) fn store_byte(&mut self, address: u32, byte: u8)
        requires { allowed (allowance_of self.old) WRITE address 1 ≡ true }
        ensures bytes { bytes_of self.new ≡ put_at (bytes_of self.old) address byte }
        ensures flags { allowance_of self.new ≡ allowance_of self.old }
    {
        match self.block_at(address) {
            Some(k) => self.write_in(k, address, u32::from(byte), 1),
            None => unreachable!(),
        }
    }

    /// Writes the low `width` bytes of a word from an address on, the lowest first, where each may
    /// be written.
    #[inline(always)]
    pub(crate) fn store(&mut self, address: u32, word: u32, width: u32) -> bool
        requires width { IsWidth width }
        requires end { address + width ≤ 2 ^ 32 }
        ensures done { result ≡ allowed (allowance_of self.old) WRITE address width }
        ensures bytes { bytes_of self.new
            ≡ (if result then store_bytes
            (bytes_of self.old) address word width else bytes_of self.old) }
        ensures flags { allowance_of self.new ≡ allowance_of self.old }
    {
        let Some(k) = self.block_at(address) else {
            return false;
        };
        let block = &self.blocks[k];
        if block.bytes_from(address).len() < width as usize {
            return self.store_across(address, word, width);
        }
        if !block.has_flag(WRITE) {
            return false;
        }
        self.write_in(k, address, word, width);
        true
    }

    /// The same, where the bytes may be of several segments.
    fn store_across(&mut self, address: u32, word: u32, width: u32) -> bool
        requires { address + width ≤ 2 ^ 32 }
        ensures done { result ≡ allowed (allowance_of self.old) WRITE address width }
        ensures bytes { bytes_of self.new
            ≡ (if result then store_bytes
            (bytes_of self.old) address word width else bytes_of self.old) }
        ensures flags { allowance_of self.new ≡ allowance_of self.old }
    {
        if !self.all_allow(WRITE, address, width) {
            return false;
        }
        let mut rest = word;
        for i in 0..width {
            self.store_byte(address + i, (rest % 256) as u8);
            rest /= 256;
        }
        true
    }
}
