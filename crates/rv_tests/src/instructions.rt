//! Words as GNU binutils 2.40 assembles and disassembles them.

use rv_isa::{BranchOffset, Imm12, Instr, JumpOffset, Reg, Shamt, Upper, decode, encode};
use std::process::Abort;

fn both_ways(rt: &impl Abort, encodings: &[(u32, Instr)]) {
    for (word, i) in encodings {
        assert_eq!(rt; encode(*i), *word);
        assert_eq!(rt; decode(*word), Some(*i));
    }
}

#[test]
fn start_code_both_ways(rt: HostRuntime) {
    let encodings = [
        (
            0x0001_2437,
            Instr::Lui {
                rd: Reg::S0,
                imm: Upper::new(0x12),
            },
        ),
        (
            0x0004_0413,
            Instr::Addi {
                rd: Reg::S0,
                rs1: Reg::S0,
                imm: Imm12::new(0),
            },
        ),
        (
            0x0080_02b7,
            Instr::Lui {
                rd: Reg::T0,
                imm: Upper::new(0x800),
            },
        ),
        (
            0x0054_0133,
            Instr::Add {
                rd: Reg::SP,
                rs1: Reg::S0,
                rs2: Reg::T0,
            },
        ),
        (
            0x0000_0097,
            Instr::Auipc {
                rd: Reg::RA,
                imm: Upper::new(0),
            },
        ),
        (
            0x0640_80e7,
            Instr::Jalr {
                rd: Reg::RA,
                rs1: Reg::RA,
                offset: Imm12::new(100),
            },
        ),
        (
            0x05d0_0893,
            Instr::Addi {
                rd: Reg::A7,
                rs1: Reg::ZERO,
                imm: Imm12::new(93),
            },
        ),
        (0x0000_0073, Instr::Ecall),
    ];
    both_ways(&rt, &encodings);
}

#[test]
fn upper_and_jumps_both_ways(rt: HostRuntime) {
    let encodings = [
        (
            0xffff_ffb7,
            Instr::Lui {
                rd: Reg::T6,
                imm: Upper::new(0xfffff),
            },
        ),
        (
            0x8000_006f,
            Instr::Jal {
                rd: Reg::ZERO,
                offset: JumpOffset::new(0xfff0_0000),
            },
        ),
        (
            0x7fff_f0ef,
            Instr::Jal {
                rd: Reg::RA,
                offset: JumpOffset::new(1048574),
            },
        ),
        (
            0xffff_f06f,
            Instr::Jal {
                rd: Reg::ZERO,
                offset: JumpOffset::new(0xffff_fffe),
            },
        ),
        (
            0x8000_8067,
            Instr::Jalr {
                rd: Reg::ZERO,
                rs1: Reg::RA,
                offset: Imm12::new(0xffff_f800),
            },
        ),
        (
            0x0000_8067,
            Instr::Jalr {
                rd: Reg::ZERO,
                rs1: Reg::RA,
                offset: Imm12::new(0),
            },
        ),
    ];
    both_ways(&rt, &encodings);
}

#[test]
fn branches_both_ways(rt: HostRuntime) {
    let encodings = [
        (
            0x0005_0663,
            Instr::Beq {
                rs1: Reg::A0,
                rs2: Reg::ZERO,
                offset: BranchOffset::new(12),
            },
        ),
        (
            0x8124_9063,
            Instr::Bne {
                rs1: Reg::S1,
                rs2: Reg::S2,
                offset: BranchOffset::new(0xffff_f000),
            },
        ),
        (
            0x7e62_cfe3,
            Instr::Blt {
                rs1: Reg::T0,
                rs2: Reg::T1,
                offset: BranchOffset::new(4094),
            },
        ),
        (
            0xfe62_ece3,
            Instr::Bltu {
                rs1: Reg::T0,
                rs2: Reg::T1,
                offset: BranchOffset::new(0xffff_fff8),
            },
        ),
    ];
    both_ways(&rt, &encodings);
}

#[test]
fn memory_both_ways(rt: HostRuntime) {
    let encodings = [
        (
            0xfff5_8503,
            Instr::Lb {
                rd: Reg::A0,
                rs1: Reg::A1,
                offset: Imm12::new(0xffff_ffff),
            },
        ),
        (
            0x7ff1_1603,
            Instr::Lh {
                rd: Reg::A2,
                rs1: Reg::SP,
                offset: Imm12::new(2047),
            },
        ),
        (
            0xffc3_2083,
            Instr::Lw {
                rd: Reg::RA,
                rs1: Reg::T1,
                offset: Imm12::new(0xffff_fffc),
            },
        ),
        (
            0x800d_5d83,
            Instr::Lhu {
                rd: Reg::S11,
                rs1: Reg::S10,
                offset: Imm12::new(0xffff_f800),
            },
        ),
        (
            0x00a2_8023,
            Instr::Sb {
                rs1: Reg::T0,
                rs2: Reg::A0,
                offset: Imm12::new(0),
            },
        ),
        (
            0xffce_9fa3,
            Instr::Sh {
                rs1: Reg::T4,
                rs2: Reg::T3,
                offset: Imm12::new(0xffff_ffff),
            },
        ),
        (
            0xfe93_2c23,
            Instr::Sw {
                rs1: Reg::T1,
                rs2: Reg::S1,
                offset: Imm12::new(0xffff_fff8),
            },
        ),
        (
            0x0ff0_000f,
            Instr::Fence {
                rd: Reg::ZERO,
                rs1: Reg::ZERO,
                imm: Imm12::new(0xff),
            },
        ),
        (
            0x8330_000f,
            Instr::Fence {
                rd: Reg::ZERO,
                rs1: Reg::ZERO,
                imm: Imm12::new(0xffff_f833),
            },
        ),
    ];
    both_ways(&rt, &encodings);
}

#[test]
fn immediates_both_ways(rt: HostRuntime) {
    let encodings = [
        (
            0xfff0_0513,
            Instr::Addi {
                rd: Reg::A0,
                rs1: Reg::ZERO,
                imm: Imm12::new(0xffff_ffff),
            },
        ),
        (
            0x0015_3513,
            Instr::Sltiu {
                rd: Reg::A0,
                rs1: Reg::A0,
                imm: Imm12::new(1),
            },
        ),
        (
            0xfffb_4a93,
            Instr::Xori {
                rd: Reg::S5,
                rs1: Reg::S6,
                imm: Imm12::new(0xffff_ffff),
            },
        ),
        (
            0x0ff2_f293,
            Instr::Andi {
                rd: Reg::T0,
                rs1: Reg::T0,
                imm: Imm12::new(255),
            },
        ),
        (
            0x0182_9293,
            Instr::Slli {
                rd: Reg::T0,
                rs1: Reg::T0,
                shamt: Shamt::new(24),
            },
        ),
        (
            0x01f3_5313,
            Instr::Srli {
                rd: Reg::T1,
                rs1: Reg::T1,
                shamt: Shamt::new(31),
            },
        ),
        (
            0x4103_d393,
            Instr::Srai {
                rd: Reg::T2,
                rs1: Reg::T2,
                shamt: Shamt::new(16),
            },
        ),
        (0x0010_0073, Instr::Ebreak),
    ];
    both_ways(&rt, &encodings);
}

#[test]
fn registers_both_ways(rt: HostRuntime) {
    let encodings = [
        (
            0x4051_0133,
            Instr::Sub {
                rd: Reg::SP,
                rs1: Reg::SP,
                rs2: Reg::T0,
            },
        ),
        (
            0x0050_32b3,
            Instr::Sltu {
                rd: Reg::T0,
                rs1: Reg::ZERO,
                rs2: Reg::T0,
            },
        ),
        (
            0x4012_51b3,
            Instr::Sra {
                rd: Reg::GP,
                rs1: Reg::TP,
                rs2: Reg::RA,
            },
        ),
        (
            0x02c5_8533,
            Instr::Mul {
                rd: Reg::A0,
                rs1: Reg::A1,
                rs2: Reg::A2,
            },
        ),
        (
            0x0324_a433,
            Instr::Mulhsu {
                rd: Reg::S0,
                rs1: Reg::S1,
                rs2: Reg::S2,
            },
        ),
        (
            0x03ee_de33,
            Instr::Divu {
                rd: Reg::T3,
                rs1: Reg::T4,
                rs2: Reg::T5,
            },
        ),
        (
            0x038b_fb33,
            Instr::Remu {
                rd: Reg::S6,
                rs1: Reg::S7,
                rs2: Reg::S8,
            },
        ),
    ];
    both_ways(&rt, &encodings);
}

#[test]
fn words_of_no_encoding(rt: HostRuntime) {
    let words = [
        0x0000_0000,
        0xffff_ffff,
        0x0000_1067,
        0x0000_100f,
        0x0000_2063,
        0x0000_3063,
        0x0000_3003,
        0x0000_6003,
        0x0000_7003,
        0x0000_3023,
        0x4000_1013,
        0x0200_1013,
        0x2000_5013,
        0x4200_5013,
        0x4000_1033,
        0x0400_0033,
        0x4200_0033,
        0x8000_0033,
        0x0020_0073,
        0x3020_0073,
        0x0000_1073,
        0x0000_0173,
        0x0000_8073,
        0x0000_007f,
        0x0000_0001,
        0x0000_002f,
        0x0000_0007,
        0x0000_003b,
    ];
    for word in words {
        assert_eq!(rt; decode(word), None, "{word:08x}");
    }
}

#[test]
fn registers_have_the_numbers_of_the_calling_convention(rt: HostRuntime) {
    let registers = [
        Reg::ZERO,
        Reg::RA,
        Reg::SP,
        Reg::GP,
        Reg::TP,
        Reg::T0,
        Reg::T1,
        Reg::T2,
        Reg::S0,
        Reg::S1,
        Reg::A0,
        Reg::A1,
        Reg::A2,
        Reg::A3,
        Reg::A4,
        Reg::A5,
        Reg::A6,
        Reg::A7,
        Reg::S2,
        Reg::S3,
        Reg::S4,
        Reg::S5,
        Reg::S6,
        Reg::S7,
        Reg::S8,
        Reg::S9,
        Reg::S10,
        Reg::S11,
        Reg::T3,
        Reg::T4,
        Reg::T5,
        Reg::T6,
    ];
    for (number, register) in registers.iter().enumerate() {
        assert_eq!(rt; register.number() as usize, number);
    }
}
