//! What the operations give on words.

ghost use Rattle.std.specs.Prelude.{◌≡◌};
ghost use Rattle.val_core.specs.Words.{word1, word2, quotient, remainder, shifted_down};

use crate::operation::{Op1, Op2};

/// The word that the operation gives on two words (ISO/IEC 9899:2011, 6.5; RISC-V Unprivileged ISA
/// 20191213, section 2.4 and chapter 7).
///
/// Sums, differences and products are modulo 2^32. Division by 0 gives 2^32 - 1 and the dividend as
/// remainder. The quotient of -2^31 by -1 is 2^31 as a word, and the remainder 0. A shift is by the
/// low five bits of `b`. Comparisons give 1 or 0.
pub fn op2(op: Op2, a: u32, b: u32) -> u32
    ensures { result ≡ word2 op a b }
{
    match op {
        Op2::Add => a.wrapping_add(b),
        Op2::Sub => a.wrapping_sub(b),
        Op2::Mul => a.wrapping_mul(b),
        Op2::Div => div(a, b),
        Op2::Rem => rem(a, b),
        Op2::Divu => a.checked_div(b).unwrap_or(u32::MAX),
        Op2::Remu => a.checked_rem(b).unwrap_or(a),
        Op2::And => a & b,
        Op2::Or => a | b,
        Op2::Xor => a ^ b,
        Op2::Sll => a.wrapping_shl(b),
        Op2::Srl => a.wrapping_shr(b),
        Op2::Sra => sra(a, b),
        Op2::Eq => u32::from(a == b),
        Op2::Ne => u32::from(a != b),
        Op2::Slt => u32::from(a.cast_signed() < b.cast_signed()),
        Op2::Sltu => u32::from(a < b),
    }
}

/// The word that the operation gives on one word: its low 8 or 16 bits, sign-extended or
/// zero-extended.
pub fn op1(op: Op1, a: u32) -> u32
    ensures { result ≡ word1 op a }
{
    match op {
        Op1::Sext8 => i32::from(((a & 0xff) as u8).cast_signed()).cast_unsigned(),
        Op1::Zext8 => a & 0xff,
        Op1::Sext16 => i32::from(((a & 0xffff) as u16).cast_signed()).cast_unsigned(),
        Op1::Zext16 => a & 0xffff,
    }
}

// The signed quotient, rounded toward zero.
fn div(a: u32, b: u32) -> u32
    ensures { result ≡ quotient a b }
{
    if b == 0 {
        u32::MAX
    } else {
        a.cast_signed()
            .wrapping_div(b.cast_signed())
            .cast_unsigned()
    }
}

// The signed remainder, of the dividend's sign.
fn rem(a: u32, b: u32) -> u32
    ensures { result ≡ remainder a b }
{
    if b == 0 {
        a
    } else {
        a.cast_signed()
            .wrapping_rem(b.cast_signed())
            .cast_unsigned()
    }
}

fn sra(a: u32, b: u32) -> u32
    ensures { result ≡ shifted_down a b }
{
    a.cast_signed().wrapping_shr(b).cast_unsigned()
}
