//! The steps over names, scopes and tags.

ghost use Rattle.std.specs.Prelude.{◌≡◌, ◌∷◌, [], length, take, IfOk, OnOk};
ghost use Rattle.c_check_scope.specs.Scopes.{outer};
ghost use Rattle.c_check_scope.specs.Names.{number_of};
ghost use Rattle.c_check_def.specs.State.{meaning_of, declare, tag_of, is_tag};
ghost use Rattle.c_check_def.specs.Externals.{bind, declare_tag};

use crate::state::State;
use base::{Name, NoMemory};
use c_check_def::{Meaning, RefusalKind};

impl State {
    /// What a name means here (ISO/IEC 9899:2011, 6.2.1p4).
    pub fn meaning_of(&self, name: &Name) -> Option<Meaning>
        ensures { result ≡ (meaning_of name.now self.now).0 }
    {
        self.scopes.lookup(name)
    }

    /// Declares a name at an offset. A second declaration in one scope breaks a rule (6.7p3).
    pub fn declare(&mut self, name: &Name, offset: u32, meaning: Meaning) -> Result<(), NoMemory>
        ensures { OnOk result (self.new ≡ (declare name.now offset meaning self.old).1) }
    {
        let wrong = self.scopes.is_declared(name);
        self.breaks_if(wrong, RefusalKind::Redeclared, offset);
        self.bind(name, meaning)
    }

    /// Declares a name, which the innermost scope may declare already.
    pub fn bind(&mut self, name: &Name, meaning: Meaning) -> Result<(), NoMemory>
        ensures { OnOk result (self.new ≡ (bind name.now meaning self.old).1) }
    {
        self.scopes.bind(name, meaning)
    }

    /// Begins a scope. It gives how many slots there are, for `leave`.
    pub fn enter(&mut self) -> Result<usize, NoMemory>
        ensures slots { IfOk result (λ r. r ≡ length self.old.slots) }
        ensures state { OnOk result
            (self.new ≡ record self.old { scopes = [] ∷ self.old.scopes }) }
    {
        self.scopes.enter()?;
        Ok(self.slots.len())
    }

    /// Ends the innermost scope, with so many slots left.
    pub fn leave(&mut self, slots: usize)
        ensures { self.new ≡ record self.old {
          scopes = outer self.old.scopes;
          slots = take slots self.old.slots;
        } }
    {
        self.scopes.leave();
        self.slots.truncate(slots);
    }

    /// The number of a tag that is named, which gets one where it is new (6.7.2.3).
    pub fn tag_of(&mut self, name: &Name) -> Result<u32, NoMemory>
        ensures number { IfOk result (λ r. r ≡ (tag_of name.now self.old).0) }
        ensures state { OnOk result (self.new ≡ (tag_of name.now self.old).1) }
    {
        self.tags.number(name)
    }

    /// Whether a tag is declared here.
    pub fn is_tag(&self, name: &Name) -> bool
        ensures { result ≡ (is_tag name.now self.now).0 }
    {
        self.tags.declared(name).is_some()
    }

    /// Declares a tag, which may be declared already, and gives its number.
    #[tactic(auto, using(crate::proofs::TagLemmas::declared_keeps))]
    pub fn declare_tag(&mut self, name: &Name) -> Result<u32, NoMemory>
        ensures number { IfOk result (λ r. r ≡ (declare_tag name.now self.old).0) }
        ensures state { OnOk result (self.new ≡ (declare_tag name.now self.old).1) }
    {
        let number = self.tags.declare(name)?;
        Ok(number)
    }

    /// The number of a function that the file defines anywhere.
    pub fn defined_number(&self, name: &Name) -> Option<u32>
        ensures { result ≡ number_of self.now.defined name.now }
    {
        self.defined.number(name)
    }
}
