//! Variables at file scope and string literals, and the steps that add them.

ghost use Rattle.std.specs.Prelude.{◌≡◌, IfOk, OnOk, slice_get, map};
ghost use Rattle.std.specs.Option.{option_copied};
ghost use Rattle.c_typed.specs.ProgramEncoding.{written_of};
ghost use Rattle.c_check_def.specs.State.{global_type, add_global, change_global};

use crate::maybe_type::MaybeType;
use crate::state::State;
use base::NoMemory;
use c_typed::Written;
use std::marker::Model;

/// A variable at file scope or a string literal (ISO/IEC 9899:2011, 6.2.4p3, 6.4.5p6): the offset
/// of its name or of its first token, its type, which is none while a variable is being declared,
/// whether it is a variable, whether it never changes, and what is written in it.
#[derive(Drop)]
pub struct GlobalObject {
    pub offset: u32,
    pub ty: MaybeType,
    pub is_variable: bool,
    pub fixed: bool,
    pub written: Vec<Written>,
}

impl Model for GlobalObject {
    ghost use Rattle.c_check_def.specs.State.{Global};
    ghost use Rattle.c_check_state.specs.Codes.{coded_global};

    ghost Value = { Global };

    ghost coded = { coded_global };

    ghost use Rattle.std.specs.Prelude.{map};
    ghost use Rattle.c_typed.specs.ProgramEncoding.{written_of};

    ghost view = { λ g. record {
      offset = g.offset;
      type = g.ty;
      is_variable = g.is_variable;
      fixed = g.fixed;
      written = map written_of g.written.items;
    } };
}

impl State {
    /// The global of this number, if there is one.
    pub fn global(&self, number: u32) -> Option<&GlobalObject>
        ensures { option_copied result ≡ slice_get self.now.globals number }
    {
        self.globals.get(number as usize)
    }

    /// The type of the global of this number; none where it has none.
    pub fn global_type(&self, number: u32) -> Result<MaybeType, NoMemory>
        ensures { IfOk result (λ r. r ≡ (global_type number self.now).0) }
    {
        match self.globals.get(number as usize) {
            Some(g) => g.ty.copy(),
            None => Ok(MaybeType::none()),
        }
    }

    /// Appends a global, and gives its number.
    pub fn add_global(&mut self, global: GlobalObject) -> Result<u32, NoMemory>
        ensures number { IfOk result (λ r. r ≡ (add_global global self.old).0) }
        ensures state { OnOk result (self.new ≡ (add_global global self.old).1) }
    {
        let number = self.globals.len();
        if number >= u32::MAX as usize {
            return Err(NoMemory);
        }
        self.globals.push(global)?;
        Ok(number as u32)
    }

    /// Gives the global of this number its type.
    pub fn set_global_type(&mut self, number: u32, ty: MaybeType)
        ensures { self.new ≡
            (change_global number (λ g. record g { type = ty }) self.old).1 }
    {
        let number = number as usize;
        if number < self.globals.len() {
            self.globals[number].ty = ty;
        }
    }

    /// Gives the global of this number its type and what is written in it.
    pub fn begin_global(&mut self, number: u32, ty: MaybeType, written: Vec<Written>)
        ensures { self.new ≡ (change_global number
            (λ g. record g { type = ty; written = map written_of written.items }) self.old).1 }
    {
        let number = number as usize;
        if number < self.globals.len() {
            begin(&mut self.globals[number], ty, written);
        }
    }
}

fn begin(global: &mut GlobalObject, ty: MaybeType, written: Vec<Written>)
    ensures { global.new ≡
        record global.old { type = ty; written = map written_of written.items } }
{
    global.ty = ty;
    global.written = written;
}
