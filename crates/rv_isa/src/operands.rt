//! The operands of instructions. Where memory is refused in the middle, the beginning is there.

ghost use Rattle.std.specs.Prelude.{◌≡◌, ◌++◌, ◌∷◌, ◌-◌, ◌^◌, ◌<◌, ◌≤◌, [], OnOk, decimal};
ghost use Rattle.rv_isa.specs.Texts.{accesses, hex, hex_digit, led, letter, named, numbered, register_name, signed, target};

use crate::Reg;
use base::NoMemory;
use itoa::Buffer;

/// Puts a text behind what is there.
pub fn push(out: &mut Vec<u8>, text: &str) -> Result<(), NoMemory>
    ensures { OnOk result (out.new.items ≡ out.old.items ++ text.now) }
{
    Ok(out.extend_from_slice(text.as_bytes())?)
}

fn push_number(out: &mut Vec<u8>, number: u32) -> Result<(), NoMemory>
    ensures { OnOk result (out.new.items ≡ out.old.items ++ decimal number) }
{
    let mut buffer = Buffer::new();
    push(out, buffer.format(u64::from(number)))
}

// A letter and a number.
fn push_numbered(out: &mut Vec<u8>, letter: &str, number: u32) -> Result<(), NoMemory>
    ensures { OnOk result (out.new.items ≡ out.old.items ++ numbered letter.now number) }
{
    push(out, letter)?;
    push_number(out, number)
}

fn named(number: u32) -> &'static str
    ensures { result.now ≡ named number }
{
    match number {
        0 => "zero",
        1 => "ra",
        2 => "sp",
        3 => "gp",
        _ => "tp",
    }
}

/// Puts the name of a register behind what is there: `zero` for x0, `a0` for x10, and so on, as in
/// the table of the calling convention (RISC-V manual, "RISC-V Assembly Programmer's Handbook").
pub fn push_register(out: &mut Vec<u8>, reg: Reg) -> Result<(), NoMemory>
    ensures { OnOk result (out.new.items ≡ out.old.items ++ register_name reg) }
{
    let number = reg.number();
    if number < 5 {
        push(out, named(number))
    } else if number < 8 {
        push_numbered(out, "t", number - 5)
    } else if number < 10 {
        push_numbered(out, "s", number - 8)
    } else if number < 18 {
        push_numbered(out, "a", number - 10)
    } else if number < 28 {
        push_numbered(out, "s", number - 16)
    } else {
        push_numbered(out, "t", number - 25)
    }
}

// The absolute value of a word that is negative, read as signed.
fn absolute(word: u32) -> u32
    requires { 2 ^ 31 ≤ word }
    ensures { result ≡ 2 ^ 32 - word }
{
    u32::MAX - word + 1
}

/// A word, read as signed.
pub fn push_signed(out: &mut Vec<u8>, word: u32) -> Result<(), NoMemory>
    ensures { OnOk result (out.new.items ≡ out.old.items ++ signed word) }
{
    if word < 1 << 31 {
        push_number(out, word)
    } else {
        push_numbered(out, "-", absolute(word))
    }
}

/// An address so many bytes after that of the instruction.
pub fn push_target(out: &mut Vec<u8>, offset: u32) -> Result<(), NoMemory>
    ensures { OnOk result (out.new.items ≡ out.old.items ++ target offset) }
{
    if offset < 1 << 31 {
        push_numbered(out, ".+", offset)
    } else {
        push_numbered(out, ".-", absolute(offset))
    }
}

fn hex_digit(digit: u32) -> u8
    requires { digit < 16 }
    ensures { result ≡ hex_digit digit }
{
    if digit < 10 {
        b'0' + digit as u8
    } else {
        b'a' + (digit - 10) as u8
    }
}

fn push_digit(out: &mut Vec<u8>, digit: u32) -> Result<(), NoMemory>
    requires { digit < 16 }
    ensures { OnOk result (out.new.items ≡ out.old.items ++ hex_digit digit ∷ []) }
{
    Ok(out.push(hex_digit(digit))?)
}

/// A number in hexadecimal, with at most so many digits and no leading zero.
#[tactic(auto, using(crate::proofs::Hex::hex_one, crate::proofs::Hex::hex_more))]
pub fn push_hex(out: &mut Vec<u8>, digits: u32, number: u32) -> Result<(), NoMemory>
    ensures { OnOk result (out.new.items ≡ out.old.items ++ hex digits number) }
{
    if digits == 0 {
        return Ok(());
    }
    if number < 16 {
        return push_digit(out, number);
    }
    push_hex(out, digits - 1, number / 16)?;
    push_digit(out, number % 16)
}

/// The name of an instruction, a tab and its first register.
pub fn push_led(out: &mut Vec<u8>, name: &str, reg: Reg) -> Result<(), NoMemory>
    ensures { OnOk result (out.new.items ≡ out.old.items ++ led name.now reg) }
{
    push(out, name)?;
    push(out, "\t")?;
    push_register(out, reg)
}

// The letter, where the bit is set.
fn push_letter(out: &mut Vec<u8>, is_set: bool, name: &str) -> Result<(), NoMemory>
    ensures { OnOk result (out.new.items ≡ out.old.items ++ letter is_set name.now) }
{
    if is_set { push(out, name) } else { Ok(()) }
}

/// Which accesses a fence orders, by four bits.
pub fn push_accesses(out: &mut Vec<u8>, bits: u32) -> Result<(), NoMemory>
    ensures { OnOk result (out.new.items ≡ out.old.items ++ accesses bits) }
{
    push_letter(out, bits % 16 > 7, "i")?;
    push_letter(out, bits % 8 > 3, "o")?;
    push_letter(out, bits % 4 > 1, "r")?;
    push_letter(out, bits % 2 > 0, "w")
}
