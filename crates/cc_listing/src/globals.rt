//! What is said of the globals.

ghost use Rattle.std.specs.Prelude.{◌≡◌, ◌++◌, ◌*◌, ◌<◌, ◌^◌, OnOk};
ghost use Rattle.cc_listing.specs.Globals.{data_text, fixed_text, label_text, name_or_number, object_text, others_text, section_text, size_text, word_text, zeros_text};
ghost use Rattle.cc_listing.specs.Words.{words_in};

use crate::lines::name_at;
use crate::push::{push, push_bytes, push_number, push_word};
use crate::words::{cut, words_in};
use base::{Name, NoMemory};
use elf_file::Image;
use g_graph::Delta;
use std::alloc::Global;

fn push_zeros(out: &mut Vec<u8>, count: usize) -> Result<(), NoMemory>
    requires { 4 * count < 2 ^ 64 }
    ensures { OnOk result (out.new.items ≡ out.old.items ++ zeros_text count) }
{
    if count == 0 {
        return Ok(());
    }
    push(out, "\t.zero\t")?;
    push_number(out, 4 * count as u64)?;
    push(out, "\n")
}

fn push_data_word(out: &mut Vec<u8>, word: u32) -> Result<(), NoMemory>
    ensures { OnOk result (out.new.items ≡ out.old.items ++ word_text word) }
{
    push(out, "\t.4byte\t0x")?;
    push_word(out, word)?;
    push(out, "\n")
}

// Zeros that stand together are one line.
fn push_data(out: &mut Vec<u8>, words: &[u32]) -> Result<(), NoMemory>
    ensures { OnOk result (out.new.items ≡ out.old.items ++ data_text 0 words.now) }
{
    let mut zeros = 0;
    for word in words {
        if *word == 0 {
            zeros += 1;
        } else {
            push_zeros(out, zeros)?;
            push_data_word(out, *word)?;
            zeros = 0;
        }
    }
    push_zeros(out, zeros)
}

// A global that has no name, as a string literal, goes by its number.
fn push_name(out: &mut Vec<u8>, name: &[u8], number: usize) -> Result<(), NoMemory>
    ensures { OnOk result (out.new.items ≡ out.old.items ++ name_or_number name.now number) }
{
    if name.is_empty() {
        push(out, "$")?;
        push_number(out, number as u64)
    } else {
        push_bytes(out, name)
    }
}

// The size of a symbol in bytes.
fn push_size(out: &mut Vec<u8>, name: &[u8], number: usize, size: usize) -> Result<(), NoMemory>
    ensures { OnOk result (out.new.items
        ≡ out.old.items ++ size_text (name_or_number name.now number) size) }
{
    push(out, "\t.size\t\"")?;
    push_name(out, name, number)?;
    push(out, "\", ")?;
    push_number(out, size as u64)?;
    push(out, "\n")
}

fn push_label(out: &mut Vec<u8>, name: &[u8], number: usize) -> Result<(), NoMemory>
    ensures { OnOk result (out.new.items
        ≡ out.old.items ++ label_text (name_or_number name.now number)) }
{
    push(out, "\"")?;
    push_name(out, name, number)?;
    push(out, "\":\n")
}

fn push_object(out: &mut Vec<u8>, name: &[u8], number: usize, size: usize) -> Result<(), NoMemory>
    ensures { OnOk result (out.new.items
        ≡ out.old.items ++ object_text (name_or_number name.now number) size) }
{
    push(out, "\t.type\t\"")?;
    push_name(out, name, number)?;
    push(out, "\", @object\n")?;
    push_size(out, name, number, size)?;
    push_label(out, name, number)
}

// The globals that never change, or the others, whose words come first among these.
fn push_section(
    out: &mut Vec<u8>,
    names: &[Name],
    deltas: &[Delta],
    fixed: bool,
    words: &[u32],
) -> Result<(), NoMemory>
    ensures { OnOk result (out.new.items
        ≡ out.old.items ++ section_text names.now fixed 0 deltas.now words.now) }
{
    let mut rest = words;
    for (number, delta) in deltas.iter().enumerate() {
        if delta.fixed == fixed {
            let size = delta.bytes.len();
            let (own, later) = cut(rest, size.div_ceil(4) + 1);
            push_object(out, name_at(names, number), number, size)?;
            push_data(out, own)?;
            rest = later;
        }
    }
    Ok(())
}

// The globals that never change.
fn push_fixed(
    out: &mut Vec<u8>,
    names: &[Name],
    deltas: &[Delta],
    words: &[u32],
) -> Result<(), NoMemory>
    ensures { OnOk result (out.new.items
        ≡ out.old.items ++ fixed_text names.now deltas.now words.now) }
{
    push(out, "\n\t.section\t.rodata\n")?;
    push_section(out, names, deltas, true, words)
}

// The stubs' buffer and the other globals.
fn push_others(
    out: &mut Vec<u8>,
    names: &[Name],
    deltas: &[Delta],
    words: &[u32],
) -> Result<(), NoMemory>
    ensures { OnOk result (out.new.items
        ≡ out.old.items ++ others_text names.now deltas.now words.now) }
{
    push(
        out,
        "\n\t.data\n\t.type\t\"$buffer\", @object\n\t.size\t\"$buffer\", 4\n\"$buffer\":\n\t.zero\t8\n",
    )?;
    let (_, words) = cut(words, 2);
    push_section(out, names, deltas, false, words)
}

/// What is said of the globals of an image.
pub(crate) fn push_globals(
    out: &mut Vec<u8>,
    alloc: Global,
    names: &[Name],
    deltas: &[Delta],
    image: &Image,
) -> Result<(), NoMemory>
    ensures { OnOk result (out.new.items ≡ out.old.items
        ++ fixed_text names.now deltas.now (words_in image.now.fixed.items)
        ++ others_text names.now deltas.now (words_in image.now.globals.items)) }
{
    let fixed = words_in(alloc, &image.fixed)?;
    push_fixed(out, names, deltas, &fixed)?;
    drop(fixed);
    let others = words_in(alloc, &image.globals)?;
    push_others(out, names, deltas, &others)
}
