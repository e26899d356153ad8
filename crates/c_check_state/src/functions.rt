//! The steps that declare and define functions.

ghost use Rattle.std.specs.Prelude.{◌≡◌, ◌∷◌, ◌++◌, [], ◌||◌, length, OnOk, slice_get};
ghost use Rattle.std.specs.Option.{option_copied};
ghost use Rattle.c_check_scope.specs.Scopes.{with_declaration};
ghost use Rattle.c_check_def.specs.declared.meaning.Meaning.TheVariants as means;
ghost use Rattle.c_check_def.specs.State.{changed};

use crate::declared::Declared;
use crate::state::State;
use base::{Name, NoMemory};
use c_check_def::Meaning;
use c_typed::TFunction;

impl State {
    /// The declared function of this number, if there is one.
    pub fn declared(&self, number: u32) -> Option<&Declared>
        ensures { option_copied result ≡ slice_get self.now.declared number }
    {
        self.declared.get(number as usize)
    }

    /// Appends a declared function, whose name means it from here on.
    pub fn add_declared(&mut self, name: &Name, function: Declared) -> Result<(), NoMemory>
        ensures { let number = length self.old.declared in
            OnOk result (self.new ≡ record self.old {
              declared = self.old.declared ++ function ∷ [];
              scopes = with_declaration self.old.scopes name.now (means.Function number);
            }) }
    {
        let number = self.declared.len();
        if number >= u32::MAX as usize {
            return Err(NoMemory);
        }
        self.declared.push(function)?;
        self.scopes.bind(name, Meaning::Function(number as u32))
    }

    /// Notes that the declared function of this number is defined, if it is from here on.
    pub fn declare_again(&mut self, number: u32, is_defined: bool)
        ensures { self.new ≡ record self.old {
          declared = changed
              (λ g. record g { is_defined = g.is_defined || is_defined }) number self.old.declared;
        } }
    {
        let number = number as usize;
        if number < self.declared.len() {
            declare_again(&mut self.declared[number], is_defined);
        }
    }

    /// Appends a function that is defined.
    pub fn add_function(&mut self, function: TFunction) -> Result<(), NoMemory>
        ensures { OnOk result
            (self.new ≡ record self.old { functions = self.old.functions ++ function ∷ [] }) }
    {
        self.functions.push(function)?;
        Ok(())
    }
}

fn declare_again(function: &mut Declared, is_defined: bool)
    ensures { function.new ≡
        record function.old { is_defined = function.old.is_defined || is_defined } }
{
    function.is_defined = function.is_defined || is_defined;
}
