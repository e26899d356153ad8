//! Words of the text, each with its address.

ghost use Rattle.std.specs.Prelude.{◌≡◌, ◌++◌, ◌+◌, ◌*◌, ◌<◌, ◌≤◌, ◌∷◌, ◌^◌, [], drop, length, slice_index, take, IfOk, OnOk};
ghost use Rattle.std.specs.Int.{from_le_bytes, w32};
ghost use Rattle.cc_listing.specs.Words.{callee_text, code_text, word_line, words_in, words_text};

use crate::push::{push, push_bytes, push_word};
use base::NoMemory;
use rv_isa::{Instr, decode, push_instruction};
use std::alloc::Global;

fn word_at(bytes: &[u8], at: usize) -> u32
    requires { at + 4 ≤ length bytes.now }
    ensures { result ≡ from_le_bytes w32 (slice_index bytes.now at ∷ slice_index bytes.now (at + 1)
        ∷ slice_index bytes.now (at + 2) ∷ slice_index bytes.now (at + 3) ∷ []) }
{
    u32::from_le_bytes([bytes[at], bytes[at + 1], bytes[at + 2], bytes[at + 3]])
}

/// The words of bytes, each of four, the lowest first. `NoMemory` only where the allocator has
/// none.
#[tactic(auto, using(crate::proofs::WordLemmas::words_step))]
pub(crate) fn words_in(alloc: Global, bytes: &[u8]) -> Result<Vec<u32>, NoMemory>
    ensures { IfOk result (λ words. words.items ≡ words_in bytes.now) }
{
    let mut words = Vec::with_capacity(alloc, bytes.len() / 4)?;
    for index in 0..bytes.len() / 4 {
        words.push(word_at(bytes, 4 * index))?;
    }
    Ok(words)
}

/// The first of words, or all of them where there are fewer, and those after them.
pub(crate) fn cut(words: &[u32], count: usize) -> (&[u32], &[u32])
    ensures front { result.0.now ≡ take count words.now }
    ensures back { result.1.now ≡ drop count words.now }
{
    words.split_at(count.min(words.len()))
}

fn push_code(out: &mut Vec<u8>, word: u32, instr: Option<Instr>) -> Result<(), NoMemory>
    ensures { OnOk result (out.new.items ≡ out.old.items ++ code_text word instr) }
{
    match instr {
        Some(instr) => push_instruction(out, instr),
        None => {
            push(out, ".4byte\t0x")?;
            push_word(out, word)
        }
    }
}

// What the jump of a call leads to.
fn push_callee(out: &mut Vec<u8>, callee: &[u8], word: u32) -> Result<(), NoMemory>
    ensures { OnOk result (out.new.items ≡ out.old.items ++ callee_text callee.now word) }
{
    if word % 0x8000 == 0xe7 {
        push(out, " ")?;
        push_bytes(out, callee)
    } else {
        Ok(())
    }
}

// The line of a word at an address.
fn push_line(out: &mut Vec<u8>, callee: &[u8], at: u32, word: u32) -> Result<(), NoMemory>
    ensures { OnOk result (out.new.items ≡ out.old.items ++ word_line callee.now at word) }
{
    push(out, "\t")?;
    push_code(out, word, decode(word))?;
    push(out, "\t# ")?;
    push_word(out, at)?;
    push(out, " ")?;
    push_word(out, word)?;
    push_callee(out, callee, word)?;
    push(out, "\n")
}

/// The lines of words from an address on. A call among them leads to `callee`.
pub(crate) fn push_words(
    out: &mut Vec<u8>,
    callee: &[u8],
    at: u32,
    words: &[u32],
) -> Result<(), NoMemory>
    requires { at + 4 * length words.now < 2 ^ 32 }
    ensures { OnOk result (out.new.items ≡ out.old.items ++ words_text callee.now at words.now) }
{
    let mut here = at;
    for word in words {
        push_line(out, callee, here, *word)?;
        here += 4;
    }
    Ok(())
}
