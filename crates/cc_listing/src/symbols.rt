//! Symbols, and code that is not of a function of the program.

ghost use Rattle.std.specs.Prelude.{◌≡◌, ◌++◌, ◌+◌, ◌*◌, ◌<◌, ◌^◌, length, OnOk};
ghost use Rattle.cc_listing.specs.Symbols.{commands_text, foot_text, stub_text, symbol_text};

use crate::push::{push, push_bytes, push_word};
use crate::words::push_words;
use base::NoMemory;

/// The symbol of a function.
pub(crate) fn push_symbol(out: &mut Vec<u8>, name: &[u8]) -> Result<(), NoMemory>
    ensures { OnOk result (out.new.items ≡ out.old.items ++ symbol_text name.now) }
{
    push(out, "\t.type\t\"")?;
    push_bytes(out, name)?;
    push(out, "\", @function\n\"")?;
    push_bytes(out, name)?;
    push(out, "\":\n")
}

/// What stands after the words of a symbol: its size.
pub(crate) fn push_foot(out: &mut Vec<u8>, name: &[u8]) -> Result<(), NoMemory>
    ensures { OnOk result (out.new.items ≡ out.old.items ++ foot_text name.now) }
{
    push(out, "\t.size\t\"")?;
    push_bytes(out, name)?;
    push(out, "\", .-\"")?;
    push_bytes(out, name)?;
    push(out, "\"\n")
}

/// The start code or a stub: its words from an address on, a call among which leads to `callee`.
pub(crate) fn push_stub(
    out: &mut Vec<u8>,
    name: &[u8],
    callee: &[u8],
    at: u32,
    words: &[u32],
) -> Result<(), NoMemory>
    requires { at + 4 * length words.now < 2 ^ 32 }
    ensures { OnOk result (out.new.items
        ≡ out.old.items ++ stub_text name.now callee.now at words.now) }
{
    push(out, "\n")?;
    push_symbol(out, name)?;
    push_words(out, callee, at, words)?;
    push_foot(out, name)
}

const COMMANDS: &str =
    "# For a debugger, this listing being F.s:\n#   riscv64-unknown-elf-as -g -march=rv32im -mabi=ilp32 F.s -o F.o\n#   riscv64-unknown-elf-ld -m elf32lriscv --no-relax -e 0x10000 -Ttext=0x10000 --section-start=.rodata=0x";

const OPTIONS: &str = " F.o -o F.sym\n\t.option norvc\n\t.option norelax\n\t.text\n";

/// How the listing is assembled and linked, and its options.
pub(crate) fn push_commands(out: &mut Vec<u8>, fixed_at: u32, data_at: u32) -> Result<(), NoMemory>
    ensures { OnOk result (out.new.items ≡ out.old.items ++ commands_text fixed_at data_at) }
{
    push(out, COMMANDS)?;
    push_word(out, fixed_at)?;
    push(out, " -Tdata=0x")?;
    push_word(out, data_at)?;
    push(out, OPTIONS)
}
