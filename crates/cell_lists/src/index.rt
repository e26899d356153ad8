//! Cells that hold keys, with an index from each key to the cells that hold it.

ghost use Rattle.std.specs.Prelude.{◌≡◌, ◌<◌, IfOk, None, Some, length, position, replicate};
ghost use Rattle.cell_lists.specs.Keys.{
  no_keys,
  is_key,
  key_at,
  count_of,
  first_of,
  with_key,
  with_moved,
};

use crate::CellLists;
use base::NoMemory;
use std::alloc::Global;
use std::marker::Model;

/// Cells, numbered from 0, that each hold a key or none; keys are numbered from 0. Contracts see
/// the number of keys and what each cell holds.
#[derive(Drop)]
pub struct InvertedIndex {
    keys: Vec<Option<usize>>,
    lists: CellLists,
}

impl Model for InvertedIndex {
    ghost use Rattle.std.specs.Prelude.{length};
    ghost use Rattle.cell_lists.specs.Keys.{Keys, IsIndexed};

    ghost Value = { Keys };

    ghost view = { λ s. record { count = length s.lists.lists; cells = s.keys.items } };

    ghost invariant = { λ s. IsIndexed s.keys.items s.lists };
}

impl InvertedIndex {
    /// So many keys, and so many cells that hold none.
    pub fn new(alloc: Global, keys: usize, cells: usize) -> Result<InvertedIndex, NoMemory>
        ensures { IfOk result (λ made. made ≡ no_keys keys cells) }
    {
        let lists = CellLists::new(alloc, keys, cells)?;
        let keys = no_keys(alloc, cells)?;
        Ok(InvertedIndex { keys, lists })
    }

    /// A cell comes to hold a key, or none.
    pub fn set(&mut self, cell: usize, key: usize)
        requires cell_in { cell < length self.old.cells }
        requires key_in { key < self.old.count }
        ensures { self.new ≡ with_key self.old cell (Some key) }
    {
        self.clear(cell);
        self.put(cell, key);
    }

    // A cell that holds none comes to hold a key.
    fn put(&mut self, cell: usize, key: usize)
        requires cell_in { cell < length self.old.cells }
        requires key_in { key < self.old.count }
        requires free { key_at self.old cell ≡ None }
        ensures { self.new ≡ with_key self.old cell (Some key) }
    {
        self.lists.push_last(key, cell);
        self.keys[cell] = Some(key);
    }

    /// A cell comes to hold no key.
    pub fn clear(&mut self, cell: usize)
        requires { cell < length self.old.cells }
        ensures { self.new ≡ with_key self.old cell None }
    {
        let Some(_) = self.keys[cell] else {
            return;
        };
        self.lists.remove(cell);
        self.keys[cell] = None;
    }

    /// A cell that holds none comes to hold what another one held, which then holds none.
    pub fn move_key(&mut self, from: usize, to: usize)
        requires from_in { from < length self.old.cells }
        requires to_in { to < length self.old.cells }
        requires free { key_at self.old to ≡ None }
        ensures { self.new ≡ with_moved self.old from to }
    {
        let Some(key) = self.keys[from] else {
            return;
        };
        self.lists.replace(from, to);
        self.keys[to] = Some(key);
        self.keys[from] = None;
    }

    /// How many cells hold a key.
    pub fn count(&self, key: usize) -> usize
        requires { key < self.now.count }
        ensures { result ≡ count_of key self.now.cells }
    {
        self.lists.len(key)
    }

    /// The first cell that holds a key.
    pub fn first(&self, key: usize) -> Option<usize>
        requires { key < self.now.count }
        ensures { result ≡ first_of key self.now.cells }
    {
        if self.lists.is_rising(key) {
            return self.lists.first(key);
        }
        first_in(&self.keys, key)
    }
}

// So many cells that hold none.
fn no_keys(alloc: Global, cells: usize) -> Result<Vec<Option<usize>>, NoMemory>
    ensures { IfOk result (λ v. v.items ≡ replicate cells None) }
{
    let held = vec![in alloc; None; cells]?;
    Ok(held)
}

// The first of these cells that holds a key.
fn first_in(cells: &[Option<usize>], key: usize) -> Option<usize>
    ensures { result ≡ position (is_key key) cells.now }
{
    cells.iter().position(|held| is_key(key, *held))
}

// Whether a cell that holds this holds a key.
fn is_key(key: usize, held: Option<usize>) -> bool
    ensures { result ≡ is_key key held }
{
    match held {
        Some(other) => other == key,
        None => false,
    }
}
