//! Lists of numbers by index.

use smallvec::SmallVec;
use std::alloc::{AllocError, Global};
use std::marker::Model;

/// A list of numbers for each index below a size. Most lists are short.
#[derive(Drop)]
pub(crate) struct Lists {
    lists: Vec<SmallVec<usize, 4>>,
}

impl Model for Lists {
    ghost use Rattle.std.specs.Prelude.{ℕ, List, map};

    ghost Value = { List (List ℕ) };

    ghost view = { λ b. map (λ list. list.items) b.lists.items };
}

impl Lists {
    ghost use Rattle.std.specs.Prelude.{◌≡◌, ◌<◌, [], ◌∷◌, ◌++◌, length, IfOk, OnOk};
    ghost use Rattle.std.specs.Prelude.{slice_index_or, slice_set, replicate};

    /// Empty lists.
    pub(crate) fn new(alloc: Global, size: usize) -> Result<Self, AllocError>
        ensures { IfOk result (λ b. b ≡ replicate size []) }
    {
        let mut lists = Vec::with_capacity(alloc, size)?;
        for _ in 0..size {
            lists.push(SmallVec::new(alloc))?;
        }
        Ok(Lists { lists })
    }

    /// Adds a number at the end of a list.
    pub(crate) fn put(&mut self, index: usize, number: usize) -> Result<(), AllocError>
        requires { index < length self.old }
        ensures { OnOk result (self.new ≡ slice_set
            self.old index (slice_index_or self.old index [] ++ number ∷ [])) }
    {
        self.lists[index].push(number)?;
        Ok(())
    }

    /// The list at an index.
    pub(crate) fn get(&self, index: usize) -> &[usize]
        requires { index < length self.now }
        ensures { result.now ≡ slice_index_or self.now index [] }
    {
        self.lists[index].as_slice()
    }
}
