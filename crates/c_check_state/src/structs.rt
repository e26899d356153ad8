//! The steps that look up and define structs.

ghost use Rattle.std.specs.Prelude.{◌≡◌, ◌∷◌, ◌<◌, false, not, length, IfOk, if◌then◌else◌};
ghost use Rattle.c_type.specs.Layout.{is_defined};
ghost use Rattle.c_type.specs.WellDefined.{AreLaidOut};
ghost use Rattle.c_check_scope.specs.Members.{member_number, with_members};
ghost use Rattle.c_check_def.specs.Externals.{is_large_struct};

use crate::state::State;
use base::{Name, NoMemory};
use c_check_scope::Names;
use c_type::{CType, DefineFault, Types};

impl State {
    /// The definitions of structs so far.
    pub fn types(&self) -> &Types
        ensures { result.now ≡ self.now.structs }
    {
        &self.structs
    }

    /// The number of the member of this name of the struct of this tag.
    pub fn member_number(&self, tag: u32, name: &Name) -> Option<u32>
        ensures { result ≡ member_number self.now.members tag name.now }
    {
        self.members.number(tag, name)
    }

    /// Defines the struct of this tag, which has members of these types and names, in order, and
    /// tells whether it does: not where it would have more than `MOST_TYPE_BYTES`, and then nothing
    /// changes.
    pub fn define_struct(
        &mut self,
        tag: u32,
        types: Vec<CType>,
        names: Names,
    ) -> Result<bool, NoMemory>
        requires new { is_defined self.old.structs tag ≡ false }
        requires some { 0 < length types.items }
        requires laid_out { AreLaidOut self.old.structs types.items }
        ensures large { IfOk result (λ defined. defined ≡
            not (is_large_struct self.old.structs (record { tag = tag; members = types.items }))) }
        ensures state { IfOk result (λ defined. self.new ≡ (if defined then record self.old {
          structs = record { tag = tag; members = types.items } ∷ self.old.structs;
          members = with_members self.old.members tag names;
        } else self.old)) }
    {
        match self.structs.define(tag, types) {
            Ok(()) => {
                self.members.define(tag, names)?;
                Ok(true)
            }
            Err(DefineFault::TooLarge) => Ok(false),
            Err(DefineFault::NoMemory) => Err(NoMemory),
        }
    }
}
