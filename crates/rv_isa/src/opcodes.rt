//! The major opcodes, bits 6 to 0 of a word, by their names in the manual's opcode map.

/// lui.
pub const LUI: u32 = 0b0110111;

/// auipc.
pub const AUIPC: u32 = 0b0010111;

/// jal.
pub const JAL: u32 = 0b1101111;

/// jalr.
pub const JALR: u32 = 0b1100111;

/// Branches.
pub const BRANCH: u32 = 0b1100011;

/// Loads.
pub const LOAD: u32 = 0b0000011;

/// Stores.
pub const STORE: u32 = 0b0100011;

/// Operations with an immediate.
pub const OP_IMM: u32 = 0b0010011;

/// Operations on two registers.
pub const OP: u32 = 0b0110011;

/// fence.
pub const MISC_MEM: u32 = 0b0001111;

/// ecall and ebreak.
pub const SYSTEM: u32 = 0b1110011;

/// The whole word of ecall.
pub const ECALL: u32 = 0x0000_0073;

/// The whole word of ebreak.
pub const EBREAK: u32 = 0x0010_0073;
