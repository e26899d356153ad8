//! The variables of a function, and the steps that declare and use them.

ghost use Rattle.std.specs.Prelude.{◌≡◌, ◌∷◌, ◌++◌, [], true, IfOk, OnOk};
ghost use Rattle.c_check_def.specs.State.{variable_in, variable_type, add_variable, change_variable};

use crate::maybe_type::MaybeType;
use crate::state::State;
use base::NoMemory;
use std::marker::Model;

/// A variable of a function: its type, none where it breaks a rule, whether its address is taken,
/// and whether its name was used.
#[derive(Drop)]
pub struct Variable {
    pub ty: MaybeType,
    pub is_taken: bool,
    pub is_named: bool,
}

impl Model for Variable {
    ghost use Rattle.c_check_def.specs.State.{Variable as Record};
    ghost use Rattle.c_check_state.specs.Codes.{coded_variable};

    ghost Value = { Record };

    ghost coded = { coded_variable };

    ghost view = { λ v. record { type = v.ty; is_taken = v.is_taken; is_named = v.is_named } };
}

impl State {
    /// The variables of the function so far, by number.
    pub fn variables(&self) -> &[Variable]
        ensures { result.now ≡ self.now.variables }
    {
        self.variables.as_slice()
    }

    /// The number of the variable in a slot; 0 where the slot is empty.
    pub fn variable_number(&self, slot: u32) -> u32
        ensures { result ≡ variable_in self.now.slots slot }
    {
        match self.slots.get(slot as usize) {
            Some(number) => *number,
            None => 0,
        }
    }

    /// The type of the variable in a slot; none where it has none.
    pub fn variable_type(&self, slot: u32) -> Result<MaybeType, NoMemory>
        ensures { IfOk result (λ r. r ≡ (variable_type slot self.now).0) }
    {
        let number = self.variable_number(slot);
        match self.variables.get(number as usize) {
            Some(v) => v.ty.copy(),
            None => Ok(MaybeType::none()),
        }
    }

    /// Appends a variable of this type, with the next number and in the next slot, and gives the
    /// slot.
    pub fn add_variable(&mut self, ty: MaybeType) -> Result<u32, NoMemory>
        ensures slot { IfOk result (λ r. r ≡ (add_variable ty self.old).0) }
        ensures state { OnOk result (self.new ≡ (add_variable ty self.old).1) }
    {
        let slot = self.slots.len();
        let number = self.variables.len();
        if slot >= u32::MAX as usize || number >= u32::MAX as usize {
            drop(ty);
            return Err(NoMemory);
        }
        self.variables.push(Variable {
            ty,
            is_taken: false,
            is_named: false,
        })?;
        self.slots.push(number as u32)?;
        Ok(slot as u32)
    }

    /// Puts the variable of this number into the next slot.
    pub fn add_slot(&mut self, number: u32) -> Result<(), NoMemory>
        ensures { OnOk result
            (self.new ≡ record self.old { slots = self.old.slots ++ number ∷ [] }) }
    {
        self.slots.push(number)?;
        Ok(())
    }

    /// Notes that the name of the variable in a slot is used.
    pub fn name_variable(&mut self, slot: u32)
        ensures { self.new ≡
            (change_variable slot (λ v. record v { is_named = true }) self.old).1 }
    {
        let number = self.variable_number(slot) as usize;
        if number < self.variables.len() {
            self.variables[number].is_named = true;
        }
    }

    /// Notes that the address of the variable in a slot is taken.
    pub fn take_variable(&mut self, slot: u32)
        ensures { self.new ≡
            (change_variable slot (λ v. record v { is_taken = true }) self.old).1 }
    {
        let number = self.variable_number(slot) as usize;
        if number < self.variables.len() {
            self.variables[number].is_taken = true;
        }
    }

    /// Gives the variable in a slot its type.
    pub fn set_variable_type(&mut self, slot: u32, ty: MaybeType)
        ensures { self.new ≡ (change_variable slot (λ v. record v { type = ty }) self.old).1 }
    {
        let number = self.variable_number(slot) as usize;
        if number < self.variables.len() {
            self.variables[number].ty = ty;
        }
    }

    /// Takes the variables of a function that ends.
    pub fn take_variables(&mut self) -> Vec<Variable>
        ensures variables { result.items ≡ self.old.variables }
        ensures state { self.new ≡ record self.old { variables = [] } }
    {
        let alloc = *self.variables.allocator();
        std::mem::replace(&mut self.variables, Vec::new(alloc))
    }
}
