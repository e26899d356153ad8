//! The machine: its registers, and its accesses to memory.

ghost use Rattle.std.specs.Prelude.{◌≡◌, ◌≢◌, ◌<◌, ◌%◌, ◌^◌, IfOk, IfErr, OnOk, OnErr, MatchResult, if◌then◌else◌, slice_index};

use crate::memory::{EXECUTE, Memory, READ};
use crate::stop::Ending;
use base::NoMemory;
use elf_file::ImageView;
use rv_isa::{BranchOffset, Imm12, Reg};
use std::alloc::Global;

// The reasons to be stuck, as `Stop::Stuck` explains them.
pub(crate) const BAD_PC: u8 = 1;

pub(crate) const NO_INSTRUCTION: u8 = 2;

pub(crate) const NO_ACCESS: u8 = 3;

pub(crate) const MISALIGNED: u8 = 4;

pub(crate) const NO_CALL: u8 = 5;

/// What the streams have still to do for an instruction.
#[derive(Clone, Copy, Debug, PartialEq, Eq)]
pub(crate) enum Progress {
    /// Nothing: the instruction is done.
    Done,
    /// This byte is to be written, and a0 then becomes 1.
    Put(u8),
    /// A byte is to be read to the address in a1, and a0 then becomes 1, or 0 at the end of the
    /// input.
    Get,
}

/// A machine: 32 registers, pc, memory, and how its run has ended, if it has.
#[derive(Drop)]
pub struct Machine {
    pub(crate) registers: [u32; 32],
    pub(crate) pc: u32,
    pub(crate) memory: Memory,
    pub(crate) ending: Option<Ending>,
    ghost zero: { slice_index registers 0 ≡ 0 },
}

impl Machine {
    ghost use Rattle.elf_file.specs.ImageView.{executable_of};
    ghost use Rattle.rv_machine.specs.Machine.{look, go_on, give, jump, store, offset, after};
    ghost use Rattle.rv_machine.specs.Machine.{fetched, access, next, stop, stuck, misaligned};
    ghost use Rattle.rv_machine.specs.Memory.{IsWidth, flags_of, load_bytes, to_read};
    ghost use Rattle.rv_machine.specs.Run.{running, start};
    ghost use Rattle.rv_machine.specs.Endings.{ending_of};
    ghost use Rattle.rv_machine.specs.View.{state_of, flags_in, hart_of, OnlyStateChanges, Allows};
    ghost use Rattle.rv_machine.specs.View.{Refuses};

    /// The machine with this executable in memory, all registers 0, and pc at its entry. `NoMemory`
    /// only where the allocator has none.
    pub fn load(alloc: Global, view: &ImageView<'_>) -> Result<Machine, NoMemory>
        ensures hart { IfOk result (λ m. hart_of m ≡ running (start (executable_of view.now))) }
        ensures flags { IfOk result (λ m. flags_in m ≡ flags_of (executable_of view.now).segments) }
    {
        Ok(Machine {
            registers: [0; 32],
            pc: view.entry(),
            memory: Memory::new(alloc, view)?,
            ending: None,
        })
    }

    /// The value of a register.
    pub(crate) fn look(&self, r: Reg) -> u32
        ensures { result ≡ look (state_of self.now).regs r }
    {
        self.registers[r.number() as usize]
    }

    /// Goes on to the next instruction.
    pub(crate) fn go_on(&mut self)
        ensures state { state_of self.new ≡ go_on (state_of self.old) }
        ensures keeps { OnlyStateChanges self.old self.new }
    {
        self.pc = self.pc.wrapping_add(4);
    }

    /// Goes on with a result in a register.
    #[tactic(auto, unfolding(crate::specs::Machine::give))]
    pub(crate) fn give(&mut self, rd: Reg, value: u32)
        ensures state { state_of self.new ≡ give (state_of self.old) rd value }
        ensures keeps { OnlyStateChanges self.old self.new }
    {
        let number = rd.number();
        if number != 0 {
            self.registers[number as usize] = value;
        }
        self.pc = self.pc.wrapping_add(4);
    }

    /// Goes to a target, with the address of the next instruction in a register.
    #[tactic(auto, unfolding(crate::specs::Machine::give, crate::specs::Machine::jump))]
    pub(crate) fn jump(&mut self, rd: Reg, target: u32)
        ensures state { jump rd target (state_of self.old) ≡ next (state_of self.new) }
        ensures keeps { OnlyStateChanges self.old self.new }
    {
        let link = self.pc.wrapping_add(4);
        self.give(rd, link);
        self.pc = target;
    }

    /// Goes on by the distance where the branch is taken, and else to the next instruction.
    pub(crate) fn branch(&mut self, taken: bool, distance: BranchOffset)
        ensures state { state_of self.new ≡ record (state_of self.old) {
          pc = if taken then offset (state_of self.old).pc distance else after
              (state_of self.old).pc;
        } }
        ensures keeps { OnlyStateChanges self.old self.new }
    {
        let distance = if taken { distance.word() } else { 4 };
        self.pc = self.pc.wrapping_add(distance);
    }

    /// The ending of an instruction that cannot be done.
    pub(crate) fn stuck(&self, why: u8) -> Ending
        ensures { ending_of result ≡ stuck (state_of self.now).pc why }
    {
        Ending::Stuck { pc: self.pc, why }
    }

    /// The address of an access, which has to be a multiple of the width.
    #[inline(always)]
    fn address(&self, rs1: Reg, distance: Imm12, width: u32) -> Result<u32, Ending>
        requires { IsWidth width }
        ensures ok { IfOk result
            (λ address. address ≡ offset (look (state_of self.now).regs rs1) distance) }
        ensures aligned { IfOk result (λ address. address % width ≡ 0) }
        ensures err { OnErr result
            (offset (look (state_of self.now).regs rs1) distance % width ≢ 0) }
        ensures ending { IfErr result (λ e. ending_of e ≡ stuck (state_of self.now).pc misaligned) }
    {
        let address = self.look(rs1).wrapping_add(distance.word());
        if address % width != 0 {
            return Err(self.stuck(MISALIGNED));
        }
        Ok(address)
    }

    /// The number that `width` bytes make, the lowest first.
    #[inline(always)]
    pub(crate) fn loaded(&self, rs1: Reg, distance: Imm12, width: u32) -> Result<u32, Ending>
        requires { IsWidth width }
        ensures ok { IfOk result
            (λ n. n ≡ load_bytes (state_of self.now).mem
            (offset (look (state_of self.now).regs rs1) distance) width) }
        ensures byte { IfOk result (λ n. width ≡ 1 → n < 2 ^ 8) }
        ensures half { IfOk result (λ n. width ≡ 2 → n < 2 ^ 16) }
        ensures access { MatchResult result
            (λ _. Allows (access (flags_in self.now) to_read width
            (offset (look (state_of self.now).regs rs1) distance) (state_of self.now)))
            (Refuses (access (flags_in self.now) to_read width
            (offset (look (state_of self.now).regs rs1) distance) (state_of self.now))) }
    {
        let address = self.address(rs1, distance, width)?;
        self.memory
            .load(READ, address, width)
            .ok_or(self.stuck(NO_ACCESS))
    }

    /// Stores the low `width` bytes of a word, the lowest first, and goes on.
    #[inline(always)]
    pub(crate) fn store(
        &mut self,
        rs1: Reg,
        rs2: Reg,
        distance: Imm12,
        width: u32,
    ) -> Result<(), Ending>
        requires { IsWidth width }
        ensures ok { OnOk result
            (store (flags_in self.old) width rs1 rs2 distance (state_of self.old)
            ≡ next (state_of self.new)) }
        ensures err { IfErr result
            (λ e. store (flags_in self.old) width rs1 rs2 distance (state_of self.old)
            ≡ stop (ending_of e)) }
        ensures unchanged { OnErr result (state_of self.new ≡ state_of self.old) }
        ensures keeps { OnlyStateChanges self.old self.new }
    {
        let address = self.address(rs1, distance, width)?;
        let word = self.look(rs2);
        if !self.memory.store(address, word, width) {
            return Err(self.stuck(NO_ACCESS));
        }
        self.pc = self.pc.wrapping_add(4);
        Ok(())
    }

    /// The word at pc, where it may be executed.
    #[tactic(auto, unfolding(crate::specs::Machine::fetched))]
    pub(crate) fn fetch(&self) -> Option<u32>
        ensures { result ≡ fetched (flags_in self.now) (state_of self.now) }
    {
        if self.pc % 4 != 0 {
            return None;
        }
        self.memory.load(EXECUTE, self.pc, 4)
    }
}
