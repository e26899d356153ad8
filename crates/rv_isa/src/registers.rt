//! The integer registers, and their names in the calling convention.

ghost use Rattle.std.specs.Prelude.{ℕ, ◌≡◌, ◌<◌, ◌↔◌, IsTrue};

use std::marker::Model;

/// An integer register, `x0` to `x31`; clauses see its number, which is below 32.
///
/// The constants are the names of the calling convention (RISC-V ELF psABI).
#[derive(Clone, Copy, PartialEq, Eq, Debug)]
pub struct Reg {
    number: u32,
}

impl Model for Reg {
    ghost Value = { ℕ };

    ghost view = { λ r. r.number };

    ghost invariant = { λ r. r.number < 32 };

    ghost inverse = { λ n. record { number = n } };
}

impl Reg {
    /// x0, which is always 0.
    pub const ZERO: Reg = Reg { number: 0 };

    /// x1, the return address.
    pub const RA: Reg = Reg { number: 1 };

    /// x2, the stack pointer.
    pub const SP: Reg = Reg { number: 2 };

    /// x3, the global pointer.
    pub const GP: Reg = Reg { number: 3 };

    /// x4, the thread pointer.
    pub const TP: Reg = Reg { number: 4 };

    /// x5, a temporary register.
    pub const T0: Reg = Reg { number: 5 };

    /// x6, a temporary register.
    pub const T1: Reg = Reg { number: 6 };

    /// x7, a temporary register.
    pub const T2: Reg = Reg { number: 7 };

    /// x8, which a call keeps.
    pub const S0: Reg = Reg { number: 8 };

    /// x9, which a call keeps.
    pub const S1: Reg = Reg { number: 9 };

    /// x10, an argument and the result.
    pub const A0: Reg = Reg { number: 10 };

    /// x11, an argument.
    pub const A1: Reg = Reg { number: 11 };

    /// x12, an argument.
    pub const A2: Reg = Reg { number: 12 };

    /// x13, an argument.
    pub const A3: Reg = Reg { number: 13 };

    /// x14, an argument.
    pub const A4: Reg = Reg { number: 14 };

    /// x15, an argument.
    pub const A5: Reg = Reg { number: 15 };

    /// x16, an argument.
    pub const A6: Reg = Reg { number: 16 };

    /// x17, an argument, the number of an environment call.
    pub const A7: Reg = Reg { number: 17 };

    /// x18, which a call keeps.
    pub const S2: Reg = Reg { number: 18 };

    /// x19, which a call keeps.
    pub const S3: Reg = Reg { number: 19 };

    /// x20, which a call keeps.
    pub const S4: Reg = Reg { number: 20 };

    /// x21, which a call keeps.
    pub const S5: Reg = Reg { number: 21 };

    /// x22, which a call keeps.
    pub const S6: Reg = Reg { number: 22 };

    /// x23, which a call keeps.
    pub const S7: Reg = Reg { number: 23 };

    /// x24, which a call keeps.
    pub const S8: Reg = Reg { number: 24 };

    /// x25, which a call keeps.
    pub const S9: Reg = Reg { number: 25 };

    /// x26, which a call keeps.
    pub const S10: Reg = Reg { number: 26 };

    /// x27, which a call keeps.
    pub const S11: Reg = Reg { number: 27 };

    /// x28, a temporary register.
    pub const T3: Reg = Reg { number: 28 };

    /// x29, a temporary register.
    pub const T4: Reg = Reg { number: 29 };

    /// x30, a temporary register.
    pub const T5: Reg = Reg { number: 30 };

    /// x31, a temporary register.
    pub const T6: Reg = Reg { number: 31 };

    /// The register of this number.
    pub fn new(number: u32) -> Reg
        requires { number < 32 }
        ensures { result ≡ number }
    {
        Reg { number }
    }

    /// Whether a register has this number.
    pub fn fits(number: u32) -> bool
        ensures { IsTrue result ↔ (number < 32) }
    {
        number < 32
    }

    /// The number, 0 to 31.
    pub fn number(self) -> u32
        ensures value { result ≡ self }
        ensures range { result < 32 }
    {
        self.number
    }
}
