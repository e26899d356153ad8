//! The six instruction formats (RISC-V Unprivileged ISA 20191213, sections 2.2 and 2.3): each makes
//! the word of its fields, named in the order of the manual's figures.

ghost use Rattle.std.specs.Prelude.{◌≡◌, ◌<◌};
ghost use Rattle.rv_isa.specs.Formats.{packed, IsInRange, r_type as r, i_type as i, s_type as s, b_type as b, u_type as u, j_type as j};

use crate::immediates::{BranchOffset, Imm12, JumpOffset, Shamt, Upper};
use crate::registers::Reg;

/// Format R.
pub fn r_type(funct7: u32, rs2: Reg, rs1: Reg, funct3: u32, rd: Reg, opcode: u32) -> u32
    requires funct7_fits { funct7 < 128 }
    requires funct3_fits { funct3 < 8 }
    requires opcode_fits { opcode < 128 }
    ensures word { result ≡ packed (r funct7 rs2 rs1 funct3 rd opcode) }
    ensures fits { IsInRange (r funct7 rs2 rs1 funct3 rd opcode) }
{
    joined(
        funct7,
        rs2.number(),
        rs1.number(),
        funct3,
        rd.number(),
        opcode,
    )
}

/// A shift by an immediate: format R with the amount in the field of `rs2`.
pub fn shift_type(funct7: u32, shamt: Shamt, rs1: Reg, funct3: u32, rd: Reg, opcode: u32) -> u32
    requires funct7_fits { funct7 < 128 }
    requires funct3_fits { funct3 < 8 }
    requires opcode_fits { opcode < 128 }
    ensures word { result ≡ packed (r funct7 shamt rs1 funct3 rd opcode) }
    ensures fits { IsInRange (r funct7 shamt rs1 funct3 rd opcode) }
{
    joined(
        funct7,
        shamt.bits(),
        rs1.number(),
        funct3,
        rd.number(),
        opcode,
    )
}

/// Format I.
pub fn i_type(imm: Imm12, rs1: Reg, funct3: u32, rd: Reg, opcode: u32) -> u32
    requires funct3_fits { funct3 < 8 }
    requires opcode_fits { opcode < 128 }
    ensures word { result ≡ packed (i imm rs1 funct3 rd opcode) }
    ensures fits { IsInRange (i imm rs1 funct3 rd opcode) }
{
    let low = (rs1.number() << 15) + (funct3 << 12) + (rd.number() << 7) + opcode;
    (imm.word() << 20) + low
}

/// Format S.
pub fn s_type(imm: Imm12, rs2: Reg, rs1: Reg, funct3: u32, opcode: u32) -> u32
    requires funct3_fits { funct3 < 8 }
    requires opcode_fits { opcode < 128 }
    ensures word { result ≡ packed (s imm rs2 rs1 funct3 opcode) }
    ensures fits { IsInRange (s imm rs2 rs1 funct3 opcode) }
{
    let imm = imm.word();
    // imm[11:5] and imm[4:0]
    let high = (imm >> 5) & 0x7f;
    let low = imm & 0x1f;
    joined(high, rs2.number(), rs1.number(), funct3, low, opcode)
}

/// Format B.
pub fn b_type(offset: BranchOffset, rs2: Reg, rs1: Reg, funct3: u32, opcode: u32) -> u32
    requires funct3_fits { funct3 < 8 }
    requires opcode_fits { opcode < 128 }
    ensures word { result ≡ packed (b offset rs2 rs1 funct3 opcode) }
    ensures fits { IsInRange (b offset rs2 rs1 funct3 opcode) }
{
    let imm = offset.word();
    // imm[12|10:5] and imm[4:1|11]
    let high = (((imm >> 12) & 1) << 6) + ((imm >> 5) & 0x3f);
    let low = (((imm >> 1) & 0xf) << 1) + ((imm >> 11) & 1);
    joined(high, rs2.number(), rs1.number(), funct3, low, opcode)
}

/// Format U.
pub fn u_type(imm: Upper, rd: Reg, opcode: u32) -> u32
    requires { opcode < 128 }
    ensures word { result ≡ packed (u imm rd opcode) }
    ensures fits { IsInRange (u imm rd opcode) }
{
    (imm.bits() << 12) + (rd.number() << 7) + opcode
}

/// Format J.
pub fn j_type(offset: JumpOffset, rd: Reg, opcode: u32) -> u32
    requires { opcode < 128 }
    ensures word { result ≡ packed (j offset rd opcode) }
    ensures fits { IsInRange (j offset rd opcode) }
{
    let imm = offset.word();
    // imm[20|10:1] and imm[11|19:12]
    let high = (((imm >> 20) & 1) << 10) + ((imm >> 1) & 0x3ff);
    let low = (((imm >> 11) & 1) << 8) + ((imm >> 12) & 0xff);
    (high << 21) + (low << 12) + (rd.number() << 7) + opcode
}

/// The six fields of a word in formats R, S and B.
fn joined(high: u32, rs2: u32, rs1: u32, funct3: u32, low: u32, opcode: u32) -> u32
    requires high_fits { high < 128 }
    requires rs2_fits { rs2 < 32 }
    requires rs1_fits { rs1 < 32 }
    requires funct3_fits { funct3 < 8 }
    requires low_fits { low < 32 }
    requires opcode_fits { opcode < 128 }
    ensures { result ≡ packed (r high rs2 rs1 funct3 low opcode) }
{
    (high << 25) + (rs2 << 20) + (rs1 << 15) + (funct3 << 12) + (low << 7) + opcode
}
