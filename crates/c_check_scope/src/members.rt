//! The names of the members of structs, a name space for each struct.

ghost use Rattle.std.specs.Prelude.{◌≡◌, [], OnOk, OnErr};
ghost use Rattle.c_check_scope.specs.Members.{member_number, with_members};

use crate::names::Names;
use base::{Name, NoMemory};
use indexmap::IndexMap;
use std::alloc::Global;
use std::marker::Model;

/// The names of the members of structs, a name space for each struct (ISO/IEC 9899:2011, 6.2.3).
/// Contracts see a list of the structs, each as the number of its tag with its members' names.
#[derive(Drop)]
pub struct Members {
    structs: IndexMap<u32, Names>,
}

impl Model for Members {
    ghost use Rattle.c_check_scope.specs.Members.{Members as List};

    ghost Value = { List };

    ghost view = { λ m. m.structs.entries };
}

impl Members {
    /// No structs.
    pub fn new(alloc: Global) -> Members
        ensures { result ≡ [] }
    {
        Members {
            structs: IndexMap::new(alloc),
        }
    }

    /// The number of the member of this name, counted from 0, of the struct with this tag.
    pub fn number(&self, tag: u32, name: &Name) -> Option<u32>
        ensures { result ≡ member_number self.now tag name.now }
    {
        self.structs.get(&tag)?.number(name)
    }

    /// Makes these names those of the members, in order, of the struct with this tag. Without
    /// memory nothing changes.
    pub fn define(&mut self, tag: u32, names: Names) -> Result<(), NoMemory>
        ensures ok { OnOk result (self.new ≡ with_members self.old tag names) }
        ensures err { OnErr result (self.new ≡ self.old) }
    {
        self.structs.insert(tag, names)?;
        Ok(())
    }
}
