//! The tags of structs, declared or only named.

ghost use Rattle.std.specs.Prelude.{◌≡◌, [], OnOk, OnErr, IfOk};
ghost use Rattle.indexmap.specs.IndexMap.{insert_entry};
ghost use Rattle.c_check_scope.specs.Scopes.{same_name};
ghost use Rattle.c_check_scope.specs.Tags.{tag_number, declared_tag, with_named_tag, with_declared_tag};

use base::{Name, NoMemory};
use indexmap::IndexMap;
use std::alloc::Global;
use std::marker::Model;

/// The tags of structs, a name space of their own (ISO/IEC 9899:2011, 6.2.3). A tag may be named in
/// a pointer before it is declared. Contracts see a list of the tags, each with whether it is
/// declared, in the order in which they were first named, which numbers them from 0.
#[derive(Drop)]
pub struct Tags {
    tags: IndexMap<Name, bool>,
}

impl Model for Tags {
    ghost use Rattle.c_check_scope.specs.Tags.{Tags as List};

    ghost Value = { List };

    ghost use Rattle.std.specs.Prelude.{◌<◌, ◌^◌, length};

    ghost view = { λ t. t.tags.entries };

    ghost invariant = { λ t. length t.tags.entries < 2 ^ 32 };
}

impl Tags {
    /// No tags.
    pub fn new(alloc: Global) -> Tags
        ensures { result ≡ [] }
    {
        Tags {
            tags: IndexMap::new(alloc),
        }
    }

    /// The number of a tag that is declared.
    pub fn declared(&self, name: &Name) -> Option<u32>
        ensures { result ≡ declared_tag self.now name.now }
    {
        let (index, _, declared) = self.tags.get_full(name)?;
        if *declared { Some(index as u32) } else { None }
    }

    /// The number of a tag that is named, whether or not it is declared. Without memory nothing
    /// changes.
    pub fn number(&mut self, name: &Name) -> Result<u32, NoMemory>
        ensures number { IfOk result (λ number. number ≡ tag_number self.old name.now) }
        ensures tags { OnOk result (self.new ≡ with_named_tag self.old name.now) }
        ensures err { OnErr result (self.new ≡ self.old) }
    {
        if let Some(index) = self.tags.get_index_of(name) {
            return Ok(index as u32);
        }
        self.put(name, false)
    }

    /// Declares a tag, which may be declared already, and gives its number. Without memory nothing
    /// changes.
    pub fn declare(&mut self, name: &Name) -> Result<u32, NoMemory>
        ensures number { IfOk result (λ number. number ≡ tag_number self.old name.now) }
        ensures tags { OnOk result (self.new ≡ with_declared_tag self.old name.now) }
        ensures err { OnErr result (self.new ≡ self.old) }
    {
        self.put(name, true)
    }

    // Makes a tag declared or not, and gives its number.
    fn put(&mut self, name: &Name, declared: bool) -> Result<u32, NoMemory>
        ensures number { IfOk result (λ number. number ≡ tag_number self.old name.now) }
        ensures tags { OnOk result
            (self.new ≡ insert_entry same_name self.old name.now declared) }
        ensures err { OnErr result (self.new ≡ self.old) }
    {
        // A number has 32 bits.
        if self.tags.len() >= u32::MAX as usize {
            return Err(NoMemory);
        }
        let name = name.clone()?;
        let (index, _) = self.tags.insert_full(name, declared)?;
        Ok(index as u32)
    }
}
