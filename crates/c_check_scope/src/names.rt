//! Sets of names that number their elements.

ghost use Rattle.std.specs.Prelude.{◌≡◌, [], not, OnOk, OnErr, IfOk};
ghost use Rattle.c_check_scope.specs.Names.{has_name, number_of, with_name};

use base::{Name, NoMemory};
use indexmap::IndexSet;
use std::alloc::Global;
use std::marker::Model;

/// A set of names, as those that a file defines, or those of a struct's members. Contracts see a
/// list of them, in the order in which they were inserted, which numbers them from 0.
#[derive(Drop)]
pub struct Names {
    names: IndexSet<Name>,
}

impl Model for Names {
    ghost use Rattle.std.specs.Prelude.{List, ◌<◌, ◌^◌, length};
    ghost use Rattle.c_check_scope.specs.Scopes.{Name as Bytes};

    ghost Value = { List Bytes };

    ghost view = { λ n. n.names.keys };

    ghost invariant = { λ n. length n.names.keys < 2 ^ 32 };
}

impl Names {
    /// No names.
    pub fn new(alloc: Global) -> Names
        ensures { result ≡ [] }
    {
        Names {
            names: IndexSet::new(alloc),
        }
    }

    /// Whether a name is among them.
    pub fn contains(&self, name: &Name) -> bool
        ensures { result ≡ has_name self.now name.now }
    {
        self.names.contains(name)
    }

    /// The number of a name.
    pub fn number(&self, name: &Name) -> Option<u32>
        ensures { result ≡ number_of self.now name.now }
    {
        let index = self.names.get_index_of(name)?;
        Some(index as u32)
    }

    /// Inserts a name, if it is new, and tells whether it is. Without memory nothing changes.
    pub fn insert(&mut self, name: &Name) -> Result<bool, NoMemory>
        ensures new { IfOk result (λ new. new ≡ not (has_name self.old name.now)) }
        ensures names { OnOk result (self.new ≡ with_name self.old name.now) }
        ensures err { OnErr result (self.new ≡ self.old) }
    {
        if self.names.contains(name) {
            return Ok(false);
        }
        // A number has 32 bits.
        if self.names.len() >= u32::MAX as usize {
            return Err(NoMemory);
        }
        let name = name.clone()?;
        self.names.insert(name)?;
        Ok(true)
    }
}
