//! Where a value is: in a register, or in a word of the frame.

ghost use Rattle.std.specs.Prelude.{◌≡◌, ◌+◌, ◌-◌, ◌*◌, ◌<◌, ◌≤◌, ◌^◌};
ghost use Rattle.s_linear.specs.Frame.{registers};
ghost use Rattle.s_select.specs.Operands.{in_of, location_of, out_of, place_register};

use rv_isa::{Imm12, Reg};

/// How many places are registers that a call keeps.
pub const REGISTERS: u32 = 11;

/// How many places after them are registers at most, which a call loses.
pub const TEMPORARIES: u32 = 4;

/// Where a value is: in a register, or in a word of the frame at an offset from the stack pointer,
/// near where the offset fits an instruction, and else far.
#[derive(Clone, Copy, PartialEq, Eq, Debug)]
pub enum Location {
    Register(Reg),
    Near(Imm12),
    Far(u32),
}

/// The register of a place: s1 to s11, and t3 to t6 after them.
pub fn place_register(place: u32) -> Reg
    requires { place < REGISTERS + TEMPORARIES }
    ensures { result ≡ place_register place }
{
    Reg::new(if place == 0 { 9 } else { place + 17 })
}

/// Where a place is, with so many temporaries.
pub fn location_of(temporaries: u32, place: u32) -> Location
    requires few { temporaries ≤ TEMPORARIES }
    requires small { 4 * (place - (registers + temporaries)) < 2 ^ 32 }
    ensures { result ≡ location_of temporaries place }
{
    let first_word = REGISTERS + temporaries;
    if place < first_word {
        return Location::Register(place_register(place));
    }
    let offset = 4 * (place - first_word);
    if offset < 2048 {
        Location::Near(Imm12::new(offset))
    } else {
        Location::Far(offset)
    }
}

/// The register that an instruction reads: that of the location, or this one.
pub fn in_of(location: &Location, scratch: Reg) -> Reg
    ensures { result ≡ in_of location.now scratch }
{
    match location {
        Location::Register(register) => *register,
        Location::Near(_) | Location::Far(_) => scratch,
    }
}

/// The register that an instruction writes: that of the location, or t0.
pub fn out_of(location: &Location) -> Reg
    ensures { result ≡ out_of location.now }
{
    match location {
        Location::Register(register) => *register,
        Location::Near(_) | Location::Far(_) => Reg::T0,
    }
}
