//! A word in two parts, for lui or auipc and what adds the rest: `%hi` and `%lo` of the assembler.

ghost use Rattle.std.specs.Prelude.{◌≡◌};
ghost use Rattle.rv_isa.specs.WordParts.{low_part, upper_part};

use crate::immediates::{Imm12, Upper};

/// The low 12 bits of a word, sign-extended.
pub fn low_part(value: u32) -> Imm12
    ensures { result ≡ low_part value }
{
    let low = value & 0xfff;
    Imm12::new(if low < 0x800 { low } else { low + 0xffff_f000 })
}

/// The upper 20 bits of a word, one more where the low part is negative: the word is this times
/// 4096 plus the low part, modulo 2^32.
pub fn upper_part(value: u32) -> Upper
    ensures { result ≡ upper_part value }
{
    Upper::new(value.wrapping_add(0x800) >> 12)
}
