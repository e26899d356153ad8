//! Bounds by name: each changes whether the name is needed, for every position before it.

use smallvec::SmallVec;
use std::alloc::{AllocError, Global};
use std::marker::Model;

/// A list of bounds for each name below a count. Most lists are short.
#[derive(Drop)]
pub(crate) struct Toggles {
    lists: Vec<SmallVec<usize, 8>>,
}

impl Model for Toggles {
    ghost use Rattle.std.specs.Prelude.{ℕ, List, map};

    ghost Value = { List (List ℕ) };

    ghost view = { λ t. map (λ list. list.items) t.lists.items };
}

impl Toggles {
    ghost use Rattle.std.specs.Prelude.{◌≡◌, [], ◌∷◌, ◌++◌, IfOk, OnOk};
    ghost use Rattle.std.specs.Prelude.{slice_set, replicate};
    ghost use Rattle.a_share.specs.Bounds.{bounds_of, needed_now};

    /// Empty lists.
    pub(crate) fn new(alloc: Global, count: usize) -> Result<Self, AllocError>
        ensures { IfOk result (λ t. t ≡ replicate count []) }
    {
        let mut lists = Vec::with_capacity(alloc, count)?;
        for _ in 0..count {
            lists.push(SmallVec::new(alloc))?;
        }
        Ok(Toggles { lists })
    }

    /// Adds a bound of a name, if it is below the count.
    pub(crate) fn add(&mut self, name: usize, bound: usize) -> Result<(), AllocError>
        ensures { OnOk result (self.new ≡ slice_set self.old name (bounds_of self.old name ++ bound ∷ [])) }
    {
        if name < self.lists.len() {
            self.lists[name].push(bound)?;
        }
        Ok(())
    }

    /// Whether a name has an odd number of bounds.
    pub(crate) fn is_odd(&self, name: usize) -> bool
        ensures { result ≡ needed_now self.now name }
    {
        name < self.lists.len() && self.lists[name].len() % 2 == 1
    }

    /// The bounds of a name.
    pub(crate) fn list(&self, name: usize) -> &[usize]
        ensures { result.now ≡ bounds_of self.now name }
    {
        if name < self.lists.len() {
            self.lists[name].as_slice()
        } else {
            &[]
        }
    }
}
