//! One instruction.

ghost use Rattle.std.specs.Prelude.{◌≡◌, option_map};
ghost use Rattle.rv_isa.specs.Encodings.{decoded};
ghost use Rattle.rv_machine.specs.Machine.{act, call, fetched, next_effect};
ghost use Rattle.rv_machine.specs.View.{state_of, flags_in, OnlyStateChanges, HasDone};

use crate::machine::{BAD_PC, Machine, NO_ACCESS, NO_CALL, NO_INSTRUCTION, Progress};
use crate::memory::{READ, WRITE};
use crate::stop::Ending;
use crate::words::{
    div, divu, is_less, mulh, mulhsu, mulhu, rem, remu, sign_extended_byte, sign_extended_half, sra,
};
use rv_isa::{EXIT_CALL, Instr, READ_CALL, Reg, WRITE_CALL, decode};

impl Machine {
    /// Does the instruction at pc, but for what it writes or reads.
    #[tactic(auto, unfolding(crate::specs::Machine::next_effect))]
    pub(crate) fn advance(&mut self) -> Result<Progress, Ending>
        ensures done { HasDone (flags_in self.old)
            (next_effect (flags_in self.old) (state_of self.old)) (state_of self.old)
            (state_of self.new) result }
        ensures keeps { OnlyStateChanges self.old self.new }
    {
        match self.decoded() {
            Some(Some(instruction)) => self.execute(instruction),
            Some(None) => Err(self.stuck(NO_INSTRUCTION)),
            None => Err(self.stuck(BAD_PC)),
        }
    }

    /// The word at pc, decoded, where it may be executed.
    #[inline(always)]
    fn decoded(&self) -> Option<Option<Instr>>
        ensures { result ≡ option_map decoded (fetched (flags_in self.now) (state_of self.now)) }
    {
        match self.memory.text.word_at(self.pc) {
            Some(word) => Some(word),
            None => Some(decode(self.fetch()?)),
        }
    }

    /// Asks for the environment call that a7 names.
    #[tactic(auto, unfolding(crate::specs::Machine::call))]
    fn call(&self) -> Result<Progress, Ending>
        ensures { HasDone (flags_in self.now) (call (flags_in self.now) (state_of self.now))
            (state_of self.now) (state_of self.now) result }
    {
        let (a0, a1, a2) = (self.look(Reg::A0), self.look(Reg::A1), self.look(Reg::A2));
        match (self.look(Reg::A7), a0, a2) {
            (EXIT_CALL, status, _) => Err(Ending::Exit((status % 256) as u8)),
            (WRITE_CALL, 1, 1) if self.memory.all_allow(READ, a1, 1) => {
                Ok(Progress::Put(self.memory.byte(a1)))
            }
            (READ_CALL, 0, 1) if self.memory.all_allow(WRITE, a1, 1) => Ok(Progress::Get),
            (WRITE_CALL, 1, 1) | (READ_CALL, 0, 1) => Err(self.stuck(NO_ACCESS)),
            _ => Err(self.stuck(NO_CALL)),
        }
    }

    /// Does an instruction, but for what it writes or reads.
    #[tactic(auto, unfolding(crate::specs::Machine::act))]
    fn execute(&mut self, instruction: Instr) -> Result<Progress, Ending>
        ensures done { HasDone (flags_in self.old)
            (act (flags_in self.old) instruction (state_of self.old)) (state_of self.old)
            (state_of self.new) result }
        ensures keeps { OnlyStateChanges self.old self.new }
    {
        match instruction {
            Instr::Lui { rd, imm } => self.give(rd, imm.bits() << 12),
            Instr::Auipc { rd, imm } => self.give(rd, self.pc.wrapping_add(imm.bits() << 12)),
            Instr::Jal { rd, offset } => self.jump(rd, self.pc.wrapping_add(offset.word())),
            Instr::Jalr { rd, rs1, offset } => {
                let target = self.look(rs1).wrapping_add(offset.word());
                self.jump(rd, target - target % 2);
            }
            Instr::Beq { rs1, rs2, offset } => {
                self.branch(self.look(rs1) == self.look(rs2), offset)
            }
            Instr::Bne { rs1, rs2, offset } => {
                self.branch(self.look(rs1) != self.look(rs2), offset)
            }
            Instr::Blt { rs1, rs2, offset } => {
                self.branch(is_less(self.look(rs1), self.look(rs2)), offset)
            }
            Instr::Bge { rs1, rs2, offset } => {
                self.branch(!is_less(self.look(rs1), self.look(rs2)), offset)
            }
            Instr::Bltu { rs1, rs2, offset } => {
                self.branch(self.look(rs1) < self.look(rs2), offset)
            }
            Instr::Bgeu { rs1, rs2, offset } => {
                self.branch(self.look(rs1) >= self.look(rs2), offset)
            }
            Instr::Lb { rd, rs1, offset } => {
                let byte = self.loaded(rs1, offset, 1)?;
                self.give(rd, sign_extended_byte(byte));
            }
            Instr::Lh { rd, rs1, offset } => {
                let half = self.loaded(rs1, offset, 2)?;
                self.give(rd, sign_extended_half(half));
            }
            Instr::Lw { rd, rs1, offset } => {
                let word = self.loaded(rs1, offset, 4)?;
                self.give(rd, word);
            }
            Instr::Lbu { rd, rs1, offset } => {
                let byte = self.loaded(rs1, offset, 1)?;
                self.give(rd, byte);
            }
            Instr::Lhu { rd, rs1, offset } => {
                let half = self.loaded(rs1, offset, 2)?;
                self.give(rd, half);
            }
            Instr::Sb { rs1, rs2, offset } => self.store(rs1, rs2, offset, 1)?,
            Instr::Sh { rs1, rs2, offset } => self.store(rs1, rs2, offset, 2)?,
            Instr::Sw { rs1, rs2, offset } => self.store(rs1, rs2, offset, 4)?,
            Instr::Addi { rd, rs1, imm } => self.give(rd, self.look(rs1).wrapping_add(imm.word())),
            Instr::Slti { rd, rs1, imm } => self.give(
                rd,
                u32::from(is_less(self.look(rs1), imm.word())),
            ),
            Instr::Sltiu { rd, rs1, imm } => self.give(rd, u32::from(self.look(rs1) < imm.word())),
            Instr::Xori { rd, rs1, imm } => self.give(rd, self.look(rs1) ^ imm.word()),
            Instr::Ori { rd, rs1, imm } => self.give(rd, self.look(rs1) | imm.word()),
            Instr::Andi { rd, rs1, imm } => self.give(rd, self.look(rs1) & imm.word()),
            Instr::Slli { rd, rs1, shamt } => self.give(rd, self.look(rs1) << shamt.bits()),
            Instr::Srli { rd, rs1, shamt } => self.give(rd, self.look(rs1) >> shamt.bits()),
            Instr::Srai { rd, rs1, shamt } => self.give(rd, sra(self.look(rs1), shamt.bits())),
            Instr::Add { rd, rs1, rs2 } => self.give(
                rd,
                self.look(rs1).wrapping_add(self.look(rs2)),
            ),
            Instr::Sub { rd, rs1, rs2 } => self.give(
                rd,
                self.look(rs1).wrapping_sub(self.look(rs2)),
            ),
            Instr::Sll { rd, rs1, rs2 } => self.give(
                rd,
                self.look(rs1).wrapping_shl(self.look(rs2)),
            ),
            Instr::Slt { rd, rs1, rs2 } => self.give(
                rd,
                u32::from(is_less(self.look(rs1), self.look(rs2))),
            ),
            Instr::Sltu { rd, rs1, rs2 } => self.give(
                rd,
                u32::from(self.look(rs1) < self.look(rs2)),
            ),
            Instr::Xor { rd, rs1, rs2 } => self.give(rd, self.look(rs1) ^ self.look(rs2)),
            Instr::Srl { rd, rs1, rs2 } => self.give(
                rd,
                self.look(rs1).wrapping_shr(self.look(rs2)),
            ),
            Instr::Sra { rd, rs1, rs2 } => self.give(rd, sra(self.look(rs1), self.look(rs2))),
            Instr::Or { rd, rs1, rs2 } => self.give(rd, self.look(rs1) | self.look(rs2)),
            Instr::And { rd, rs1, rs2 } => self.give(rd, self.look(rs1) & self.look(rs2)),
            Instr::Mul { rd, rs1, rs2 } => self.give(
                rd,
                self.look(rs1).wrapping_mul(self.look(rs2)),
            ),
            Instr::Mulh { rd, rs1, rs2 } => self.give(rd, mulh(self.look(rs1), self.look(rs2))),
            Instr::Mulhsu { rd, rs1, rs2 } => self.give(rd, mulhsu(self.look(rs1), self.look(rs2))),
            Instr::Mulhu { rd, rs1, rs2 } => self.give(rd, mulhu(self.look(rs1), self.look(rs2))),
            Instr::Div { rd, rs1, rs2 } => self.give(rd, div(self.look(rs1), self.look(rs2))),
            Instr::Divu { rd, rs1, rs2 } => self.give(rd, divu(self.look(rs1), self.look(rs2))),
            Instr::Rem { rd, rs1, rs2 } => self.give(rd, rem(self.look(rs1), self.look(rs2))),
            Instr::Remu { rd, rs1, rs2 } => self.give(rd, remu(self.look(rs1), self.look(rs2))),
            Instr::Fence { .. } => self.go_on(),
            Instr::Ecall => return self.call(),
            Instr::Ebreak => return Err(Ending::Stack),
        }
        Ok(Progress::Done)
    }
}
