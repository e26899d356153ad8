//! The struct definitions of a program.

ghost use Rattle.std.specs.Prelude.{◌≡◌, ◌<◌, ◌≤◌, ◌^◌, ◌-◌, ◌∷◌, ◌↔◌, [], false, length, OnOk, OnErr, IfOk, IfErr, IsTrue, MatchOption, option_copied, option_and_then, slice_get};
ghost use Rattle.base.specs.Limits.{most_type_bytes};
ghost use Rattle.c_type.specs.Layout.{is_defined, members, struct_size};
ghost use Rattle.c_type.specs.WellDefined.{AreDefinitions, AreLaidOut};
ghost use Rattle.c_type.specs.declared.define_fault.DefineFault.TheVariants.{TooLarge, NoMemory};
ghost use Rattle.c_type.specs.Kept.{IsFound};

use crate::define_fault::DefineFault;
use crate::defining::{lay_out, make_index};
use crate::listing::Pending;
use crate::normal::normal_types;
use crate::trees::CType;
use std::alloc::Global;
use std::marker::Model;

/// The struct definitions of a program; contracts see them as a list, the latest first.
#[derive(Debug, Drop)]
pub struct Types {
    // By tag, the index of its definition in `structs`, or `ABSENT`.
    indices: Vec<u32>,
    structs: Vec<Struct>,
}

/// A struct that is defined, with what it occupies.
#[derive(Debug, Drop)]
pub(crate) struct Struct {
    pub(crate) tag: u32,
    pub(crate) members: Vec<CType>,
    // By member, a normal type that occupies what it does: its leaves are listed in few steps.
    pub(crate) parts: Vec<CType>,
    pub(crate) offsets: Vec<u32>,
    pub(crate) size: u32,
    pub(crate) align: u32,
}

impl Model for Types {
    ghost use Rattle.std.specs.Prelude.{[]};
    ghost use Rattle.c_type.specs.Layout.{Definitions};
    ghost use Rattle.c_type.specs.DefinitionEncoding.{coded_definitions};

    ghost Value = { Definitions };

    ghost coded = { coded_definitions };

    ghost use Rattle.c_type.specs.Structs.{definitions_of, AreIndexed};

    ghost view = { λ t. definitions_of [] t.structs.items };

    ghost invariant = { λ t. AreIndexed t.indices.items t.structs.items };
}

impl Types {
    /// No definitions.
    pub fn new(alloc: Global) -> Types
        ensures { result ≡ [] }
    {
        Types {
            indices: Vec::new(alloc),
            structs: Vec::new(alloc),
        }
    }

    /// Whether the struct of this tag is defined.
    pub fn is_defined(&self, tag: u32) -> bool
        ensures value { result ≡ is_defined self.now tag }
        ensures ordered { AreDefinitions self.now }
    {
        let _structs = &self.structs;
        self.find(tag).is_some()
    }

    /// Whether the struct of this tag is defined and has a member of this number, counted from 0.
    pub fn has_member(&self, tag: u32, member: u32) -> bool
        ensures { IsTrue result ↔
            (IsTrue (is_defined self.now tag) × (member < length (members self.now tag))) }
    {
        match self.find(tag) {
            Some(s) => (member as usize) < s.offsets.len(),
            None => false,
        }
    }

    /// The types of the members of the struct of this tag, in order.
    pub fn members(&self, tag: u32) -> &[CType]
        requires { IsTrue (is_defined self.now tag) }
        ensures { result.now ≡ members self.now tag }
    {
        match self.find(tag) {
            Some(s) => s.members.as_slice(),
            None => &[],
        }
    }

    // What is listed first of the leaves of a type.
    pub(crate) fn first<'a>(&'a self, t: &'a CType) -> Pending<'a>
        ensures first { result ≡ Pending.Whole t.entry 0 }
        ensures ordered { AreDefinitions self.now }
    {
        let _structs = &self.structs;
        Pending::Whole(t, 0)
    }

    /// Defines the struct of this tag, which has members of these types.
    ///
    /// After an error the definitions are as before. The answer is `TooLarge` exactly where the
    /// struct would have more than `MOST_TYPE_BYTES`, out of memory apart.
    pub fn define(&mut self, tag: u32, members: Vec<CType>) -> Result<(), DefineFault>
        requires new { is_defined self.old tag ≡ false }
        requires some { 0 < length members.items }
        requires laid_out { AreLaidOut self.old members.items }
        ensures ok { OnOk result
            (self.new ≡ record { tag = tag; members = members.items } ∷ self.old) }
        ensures small { OnOk result (struct_size self.new tag ≤ most_type_bytes) }
        ensures err { OnErr result (self.new ≡ self.old) }
        ensures too_large { IfErr result (λ e. e ≡ TooLarge → most_type_bytes <
            struct_size (record { tag = tag; members = members.items } ∷ self.old) tag) }
    {
        let layout = lay_out(*members.allocator(), self, &members)?;
        let parts = normal_types(*members.allocator(), self, &members)?;
        let index = next_index(&self.structs)?;
        make_index(&mut self.indices, tag)?;
        self.structs.push(Struct {
            tag,
            members,
            parts,
            offsets: layout.offsets,
            size: layout.size,
            align: layout.align,
        })?;
        self.indices[tag as usize] = index;
        Ok(())
    }

    // The struct of this tag, where it is defined.
    pub(crate) fn find(&self, tag: u32) -> Option<&Struct>
        ensures { MatchOption result (is_defined self.now tag ≡ false)
            (λ s. IsFound self.now tag s.now) }
    {
        struct_at(&self.indices, &self.structs, tag)
    }
}

// The struct at the index of this tag.
fn struct_at<'a>(indices: &[u32], structs: &'a [Struct], tag: u32) -> Option<&'a Struct>
    ensures { option_copied result ≡
        option_and_then (slice_get structs.now) (slice_get indices.now tag) }
{
    let index = indices.get(tag as usize)?;
    structs.get(*index as usize)
}

// The index of one more struct. There are fewer structs than tags, so only memory can be short.
fn next_index(structs: &Vec<Struct>) -> Result<u32, DefineFault>
    ensures ok { IfOk result (λ p. (p ≡ length structs.now.items) × (p < 2 ^ 32 - 1)) }
    ensures err { IfErr result (λ e. e ≡ NoMemory) }
{
    if structs.len() < u32::MAX as usize {
        Ok(structs.len() as u32)
    } else {
        Err(DefineFault::NoMemory)
    }
}
