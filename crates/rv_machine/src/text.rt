//! Text that was decoded once, so that a run need not decode each word at each step.

ghost use Rattle.std.specs.Prelude.{◌≡◌, ◌+◌, ◌*◌, ◌^◌, ◌≤◌, vec_len, IfOk, IfSome, map, AllPairs};

use crate::block::{Block, number_of};
use crate::memory::{EXECUTE, WRITE};
use rv_isa::{Instr, decode};
use std::alloc::{AllocError, Global};

/// The most words that are decoded: what lies beyond is decoded at each step.
const MOST_WORDS: usize = 1 << 20;

/// The words of memory from the address `at` on, decoded: `None` where a word is no instruction.
#[derive(Drop)]
pub(crate) struct Text {
    pub(crate) at: u32,
    pub(crate) words: Vec<Option<Instr>>,
    ghost within: { at + 4 * vec_len words ≤ 2 ^ 32 },
}

impl Text {
    ghost use Rattle.elf_file.specs.Segments.{AreApart};
    ghost use Rattle.rv_machine.specs.Block.{segment_of, outline_of};
    ghost use Rattle.rv_machine.specs.Memory.{memory_of, flags_of};
    ghost use Rattle.rv_machine.specs.Text.{AreDecoded, IsText, IsWordAt};

    /// The text of the first segment that may be executed and not written, and whose address is a
    /// multiple of 4; no words where there is none.
    pub(crate) fn new(alloc: Global, blocks: &[Block]) -> Result<Text, AllocError>
        requires { AllPairs AreApart (map outline_of blocks.now) }
        ensures { IfOk result (λ text. IsText (flags_of (map segment_of blocks.now))
            (memory_of (map segment_of blocks.now)) text.at text.words.items) }
    {
        for block in blocks {
            if block.has_flag(EXECUTE) && !block.has_flag(WRITE) && block.at % 4 == 0 {
                return Text::of_block(alloc, block);
            }
        }
        Ok(Text {
            at: 0,
            words: Vec::new(alloc),
        })
    }

    /// The words of a segment.
    fn of_block(alloc: Global, block: &Block) -> Result<Text, AllocError>
        ensures at { IfOk result (λ text. text.at ≡ block.now.at) }
        ensures words { IfOk result
            (λ text. AreDecoded block.now.bytes.items text.words.items) }
    {
        let count = (block.bytes.len() / 4).min(MOST_WORDS);
        let mut words = Vec::with_capacity(alloc, count)?;
        for i in 0..count {
            words.push(decode(number_of(&block.bytes[4 * i..4 * i + 4])))?;
        }
        Ok(Text {
            at: block.at,
            words,
        })
    }

    /// The word at an address, where it is one of the text.
    #[inline(always)]
    pub(crate) fn word_at(&self, address: u32) -> Option<Option<Instr>>
        ensures { IfSome result
            (λ word. IsWordAt self.now.at self.now.words.items address word) }
    {
        let offset = address.wrapping_sub(self.at);
        let i = (offset / 4) as usize;
        if offset % 4 != 0 || i >= self.words.len() {
            return None;
        }
        Some(self.words[i])
    }
}
