//! The variables of a function, and the numbers of its objects.

ghost use Rattle.std.specs.Prelude.{◌≡◌, ◌<◌, ◌-◌, ◌^◌, if◌then◌else◌, suc, IfOk, option_map, slice_get};
ghost use Rattle.c_typed.specs.Objects.{object_number};

use base::NoMemory;
use c_typed::Variable;
use std::alloc::Global;
use std::marker::Model;

/// A variable of a function: whether it is an object, and how many objects are declared before it.
#[derive(Clone, Copy)]
pub struct Declared {
    pub is_object: bool,
    pub number: u32,
}

/// The variables of a function, with the numbers of its objects. Contracts see the list.
#[derive(Drop)]
pub struct Objects<'a> {
    variables: &'a [Variable],
    numbers: Vec<u32>,
}

impl<'a> Model for Objects<'a> {
    ghost use Rattle.std.specs.Prelude.{List};
    ghost use Rattle.c_typed.specs.Typed.{VariableTree};
    ghost use Rattle.g_build.specs.Variables.{coded_variables};

    ghost Value = { List VariableTree };

    ghost coded = { coded_variables };

    ghost view = { λ o. o.variables.now };

    ghost use Rattle.std.specs.Prelude.{◌≡◌};
    ghost use Rattle.g_build.specs.Variables.{object_numbers};

    ghost invariant = { λ o. o.numbers.items ≡ object_numbers 0 o.variables.now };
}

impl<'a> Objects<'a> {
    /// The variables of a function. `NoMemory` where the allocator has none, or an object has no
    /// number of 32 bits.
    pub fn new(alloc: Global, variables: &'a [Variable]) -> Result<Objects<'a>, NoMemory>
        ensures { IfOk result (λ objects. objects ≡ variables.now) }
    {
        let mut numbers = Vec::with_capacity(alloc, variables.len())?;
        let mut number = 0;
        for variable in variables {
            numbers.push(number)?;
            if number == u32::MAX {
                return Err(NoMemory);
            }
            number = number_after(number, variable.is_object);
        }
        Ok(Objects { variables, numbers })
    }

    /// The variable of a number.
    pub fn get(&self, number: u32) -> Option<Declared>
        ensures { result ≡
            option_map (λ v. record {
              is_object = v.is_object;
              number = object_number self.now number;
            }) (slice_get self.now number) }
    {
        match self.variables.get(number as usize) {
            Some(variable) => match self.numbers.get(number as usize) {
                Some(count) => Some(Declared {
                    is_object: variable.is_object,
                    number: *count,
                }),
                None => None,
            },
            None => None,
        }
    }
}

/// The number of the next object after a variable, which may be one.
pub fn number_after(number: u32, is_object: bool) -> u32
    requires { number < 2 ^ 32 - 1 }
    ensures { result ≡ (if is_object then suc number else number) }
{
    if is_object { number + 1 } else { number }
}
