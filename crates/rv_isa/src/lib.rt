//! RV32IM instructions: the type `Instr`, `encode` to its 32-bit word, and `decode` back.
//! Here is also what the back end and the machine share: the registers' names, the numbers of the
//! environment calls, and a word in two parts. No call takes memory.
//! Promise: the word is the instruction's encoding in the manual's tables, `decode` gives the
//! instruction of the encoding that a word matches and `None` exactly where none does, and the
//! two undo each other. The text is that of the table in specs/Texts.antt.
//! Always: an immediate fits its format. What stood in the buffer before stays before the text.
#![tactic(auto)]

mod calls;
mod decoding;
mod encoding;
mod fields;
mod formats;
mod immediates;
mod instruction;
mod instructions;
pub mod laws;
mod opcodes;
mod operands;
mod registers;
mod word_parts;

pub use calls::{EXIT_CALL, READ_CALL, WRITE_CALL};
pub use decoding::decode;
pub use encoding::encode;
pub use immediates::{BranchOffset, Imm12, JumpOffset, Shamt, Upper};
pub use instruction::Instr;
pub use instructions::push_instruction;
pub use registers::Reg;
pub use word_parts::{low_part, upper_part};
