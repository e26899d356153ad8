//! The fields of a word, which the formats have in common, and the immediates of each format
//! (RISC-V Unprivileged ISA 20191213, sections 2.2 and 2.3).

ghost use Rattle.std.specs.Prelude.{◌≡◌};
ghost use Rattle.rv_isa.specs.Formats as format;

use crate::immediates::{BranchOffset, Imm12, JumpOffset, Shamt, Upper};
use crate::registers::Reg;

/// The major opcode, bits 6 to 0.
pub fn opcode(word: u32) -> u32
    ensures { result ≡ format.opcode_of word }
{
    word & 0x7f
}

/// The destination register, bits 11 to 7.
pub fn rd(word: u32) -> Reg
    ensures { result ≡ format.rd_of word }
{
    Reg::new((word >> 7) & 0x1f)
}

/// funct3, bits 14 to 12.
pub fn funct3(word: u32) -> u32
    ensures { result ≡ format.funct3_of word }
{
    (word >> 12) & 7
}

/// The first source register, bits 19 to 15.
pub fn rs1(word: u32) -> Reg
    ensures { result ≡ format.rs1_of word }
{
    Reg::new((word >> 15) & 0x1f)
}

/// The second source register, bits 24 to 20.
pub fn rs2(word: u32) -> Reg
    ensures { result ≡ format.rs2_of word }
{
    Reg::new((word >> 20) & 0x1f)
}

/// The shift amount, in the field of rs2.
pub fn shamt(word: u32) -> Shamt
    ensures { result ≡ format.rs2_of word }
{
    Shamt::new((word >> 20) & 0x1f)
}

/// funct7, bits 31 to 25.
pub fn funct7(word: u32) -> u32
    ensures { result ≡ format.funct7_of word }
{
    word >> 25
}

/// The immediate of format I, sign-extended.
pub fn i_imm(word: u32) -> Imm12
    ensures { result ≡ format.i_imm word }
{
    Imm12::new((word >> 20) + (word >> 31) * 0xffff_f000)
}

/// The immediate of format S, sign-extended.
pub fn s_imm(word: u32) -> Imm12
    ensures { result ≡ format.s_imm word }
{
    let imm = ((word >> 25) << 5) + ((word >> 7) & 0x1f);
    Imm12::new(imm + (word >> 31) * 0xffff_f000)
}

/// The offset of format B, sign-extended.
pub fn b_imm(word: u32) -> BranchOffset
    ensures { result ≡ format.b_imm word }
{
    let high = ((word >> 31) << 12) + (((word >> 7) & 1) << 11);
    let low = (((word >> 25) & 0x3f) << 5) + (((word >> 8) & 0xf) << 1);
    BranchOffset::new(high + low + (word >> 31) * 0xffff_e000)
}

/// The upper 20 bits of format U.
pub fn u_imm(word: u32) -> Upper
    ensures { result ≡ format.u_imm word }
{
    Upper::new(word >> 12)
}

/// The offset of format J, sign-extended.
pub fn j_imm(word: u32) -> JumpOffset
    ensures { result ≡ format.j_imm word }
{
    let high = ((word >> 31) << 20) + (((word >> 12) & 0xff) << 12);
    let low = (((word >> 20) & 1) << 11) + (((word >> 21) & 0x3ff) << 1);
    JumpOffset::new(high + low + (word >> 31) * 0xffe0_0000)
}
