//! Declarations in order, of which the latest of each name is found at once.

ghost use Rattle.std.specs.Prelude.{◌≡◌, ◌<◌, ◌≤◌, ◌^◌, [], ◌∷◌, length, take, drop, Some, is_some, IsSome, OnOk, OnErr};
ghost use Rattle.std.specs.Map.{lookup};
ghost use Rattle.indexmap.specs.IndexMap.{get, Updates, IsUnchanged};
ghost use Rattle.c_check_scope.specs.Scopes.{same_name};

use base::{Name, NoMemory};
use indexmap::IndexMap;
use std::alloc::Global;
use std::marker::Model;

// Declarations in order, the latest of each name being found at once. Contracts see a list of names
// with their meanings, the latest first.
#[derive(Drop)]
pub(crate) struct Declarations<T: Copy> {
    // Each name that is declared, with the index of its latest declaration.
    latest: IndexMap<Name, usize>,
    all: Vec<Declaration<T>>,
}

#[derive(Drop)]
pub(crate) struct Declaration<T: Copy> {
    name: Name,
    meaning: T,
    // The index of the declaration of the name that this one hides.
    hidden: Option<usize>,
}

impl<T: Copy> Model for Declarations<T> {
    ghost use Rattle.c_check_scope.specs.Scopes.{Scope};

    ghost Value = { Scope T };

    ghost use Rattle.std.specs.Prelude.{reverse};
    ghost use Rattle.indexmap.specs.IndexMap.{get};
    ghost use Rattle.c_check_scope.specs.Scopes.{same_name};
    ghost use Rattle.c_check_scope.specs.Latest.{declared_of, IsLatest};

    ghost view = { λ d. declared_of (reverse d.all.items) };

    ghost invariant = { λ d. IsLatest (get same_name d.latest) (reverse d.all.items) };
}

impl<T: Copy> Declarations<T> {
    // No declarations.
    pub(crate) fn new(alloc: Global) -> Declarations<T>
        ensures { result ≡ [] }
    {
        Declarations {
            latest: IndexMap::new(alloc),
            all: Vec::new(alloc),
        }
    }

    // What the latest declaration of a name says.
    pub(crate) fn lookup(&self, name: &Name) -> Option<T>
        ensures { result ≡ lookup (same_name name.now) self.now }
    {
        let index = *self.latest.get(name)?;
        Some(self.all.get(index)?.meaning)
    }

    // Whether one of the latest `count` declarations is of the name.
    pub(crate) fn is_among_latest(&self, count: usize, name: &Name) -> bool
        requires { count ≤ length self.now }
        ensures value { result ≡ is_some (lookup (same_name name.now) (take count self.now)) }
        ensures small { length self.now < 2 ^ 63 }
    {
        match self.latest.get(name) {
            Some(index) => *index >= self.all.len() - count,
            None => false,
        }
    }

    // Declares a name. Without memory nothing changes.
    pub(crate) fn push(&mut self, name: &Name, meaning: T) -> Result<(), NoMemory>
        ensures ok { OnOk result (self.new ≡ (name.now, meaning) ∷ self.old) }
        ensures err { OnErr result (self.new ≡ self.old) }
        ensures small { length self.old < 2 ^ 63 }
    {
        let hidden = self.latest.get(name).copied();
        let index = self.all.len();
        let key = name.clone()?;
        let name = name.clone()?;
        self.all.push(Declaration {
            name,
            meaning,
            hidden,
        })?;
        let noted = note(&mut self.latest, key, index);
        if noted.is_err() {
            self.all.pop();
        }
        noted
    }

    // Takes back the latest declaration, if any, and finds again what it hid.
    pub(crate) fn pop(&mut self)
        ensures { self.new ≡ drop 1 self.old }
    {
        if let Some(last) = self.all.pop() {
            restore(&mut self.latest, last.name, last.hidden);
        }
    }
}

// Makes an index that of a name. Without memory nothing changes.
fn note(latest: &mut IndexMap<Name, usize>, name: Name, index: usize) -> Result<(), NoMemory>
    ensures ok { OnOk result (Updates same_name latest.old latest.new name (Some index)) }
    ensures err { OnErr result (IsUnchanged latest.old latest.new) }
{
    latest.insert(name, index)?;
    Ok(())
}

// Makes the index of a name what it was before its latest declaration.
fn restore(latest: &mut IndexMap<Name, usize>, name: Name, hidden: Option<usize>)
    requires { IsSome (get same_name latest.old name) }
    ensures { Updates same_name latest.old latest.new name hidden }
{
    match hidden {
        Some(index) => drop(latest.insert(name, index)),
        None => {
            latest.swap_remove(&name);
        }
    }
}
