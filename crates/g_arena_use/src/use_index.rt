//! The uses of origins, each in a cell, with an index from an origin to the cells of its uses.

ghost use Rattle.std.specs.Prelude.{◌≡◌, ◌+◌, ◌-◌, ◌<◌, ◌≤◌, IfOk, OnOk, Some, None, [], length, replicate};
ghost use Rattle.g_arena_use.specs.UseCells.{
  IsNamed,
  with_name,
  number_of,
  no_uses,
  count_of,
  first_of,
  cell_at,
  with_use,
  with_moved,
  with_written,
  with_closed,
};
ghost use Rattle.g_arena_use.specs.Named.{AreOnce};
ghost use Rattle.g_arena_use.specs.Lists.{AreNamedIn};
ghost use Rattle.g_arena_use.specs.Sites.{held};

use base::NoMemory;
use cell_lists::InvertedIndex;
use g_arena_def::Place;
use g_graph::Origin;
use indexmap::IndexSet;
use std::alloc::Global;
use std::marker::Model;

/// A use of an origin in the region at a place.
#[derive(Clone, Copy, PartialEq, Eq, Hash, Debug)]
pub struct Use {
    pub home: Place,
    pub of: Origin,
}

/// The uses that there can be, each with a number. Contracts see them in order, each once.
#[derive(Drop)]
pub struct UseNames {
    set: IndexSet<Use>,
}

impl Model for UseNames {
    ghost use Rattle.std.specs.Prelude.{List};
    ghost use Rattle.g_arena_use.specs.declared.use_index.Use.{Use};

    ghost Value = { List Use };

    ghost use Rattle.g_arena_use.specs.Named.{AreOnce};

    ghost view = { λ s. s.set.keys };

    ghost invariant = { λ s. AreOnce s.set.keys };
}

impl UseNames {
    /// No names.
    pub fn new(alloc: Global) -> UseNames
        ensures { result ≡ [] }
    {
        UseNames {
            set: IndexSet::new(alloc),
        }
    }

    /// A use gets a number, where it has none.
    pub fn add(&mut self, name: Use) -> Result<(), NoMemory>
        ensures { OnOk result (self.new ≡ with_name name self.old) }
    {
        self.set.insert(name)?;
        Ok(())
    }

    /// How many there are.
    pub fn len(&self) -> usize
        ensures len { result ≡ length self.now }
        ensures once { AreOnce self.now }
    {
        self.set.len()
    }

    /// The number of a use.
    pub fn number(&self, name: Use) -> Option<usize>
        ensures { result ≡ number_of name self.now }
    {
        self.set.get_index_of(&name)
    }
}

/// Cells that each hold a use or none, and the uses that there can be. Contracts see both.
#[derive(Drop)]
pub(crate) struct UseIndex {
    names: UseNames,
    index: InvertedIndex,
}

impl Model for UseIndex {
    ghost use Rattle.g_arena_use.specs.UseCells.{UseCells};

    ghost Value = { UseCells };

    ghost use Rattle.g_arena_use.specs.Named.{uses_named, AreNamed};

    ghost view = { λ s. uses_named s.names s.index };

    ghost invariant = { λ s. AreNamed s.names s.index };
}

impl UseIndex {
    /// So many cells that hold none, for the uses of these names.
    pub fn new(alloc: Global, names: UseNames, cells: usize) -> Result<UseIndex, NoMemory>
        ensures { IfOk result (λ made. made ≡ no_uses names cells) }
    {
        let index = InvertedIndex::new(alloc, names.len(), cells)?;
        Ok(UseIndex { names, index })
    }

    /// A cell comes to hold a use.
    pub fn set(&mut self, cell: usize, held: Use)
        requires cell_in { cell < length self.old.cells }
        requires named { IsNamed held self.old.names }
        ensures { self.new ≡ with_use self.old cell (Some held) }
    {
        let Some(key) = self.names.number(held) else {
            return;
        };
        self.index.set(cell, key);
    }

    /// A cell comes to hold none.
    pub fn clear(&mut self, cell: usize)
        requires { cell < length self.old.cells }
        ensures { self.new ≡ with_use self.old cell None }
    {
        self.index.clear(cell);
    }

    /// A cell that holds none comes to hold what another one held, which then holds none.
    pub fn move_use(&mut self, from: usize, to: usize)
        requires from_in { from < length self.old.cells }
        requires to_in { to < length self.old.cells }
        requires free { cell_at self.old to ≡ None }
        ensures { self.new ≡ with_moved self.old from to }
    {
        self.index.move_key(from, to);
    }

    /// From a cell on the cells come to hold the uses of these origins in the region at a place.
    /// All stand before the cell `end`.
    pub fn put(&mut self, cell: usize, end: usize, home: Place, origins: &[Origin])
        requires room { cell + length origins.now ≤ end }
        requires within { end ≤ length self.old.cells }
        requires named { AreNamedIn self.old.names home origins.now }
        ensures { self.new ≡ with_written self.old cell (held home origins.now) }
    {
        for (k, of) in origins.iter().enumerate() {
            self.set(cell + k, Use { home, of: *of });
        }
    }

    /// The cells from one to before another come to hold none.
    pub fn clear_all(&mut self, from: usize, end: usize)
        requires order { from ≤ end }
        requires within { end ≤ length self.old.cells }
        ensures { self.new ≡ with_written self.old from (replicate (end - from) None) }
    {
        for cell in from..end {
            self.clear(cell);
        }
    }

    /// A cell gives up what it holds, and those behind it before another one move on by one.
    pub fn close(&mut self, cell: usize, end: usize)
        requires order { cell < end }
        requires within { end ≤ length self.old.cells }
        ensures { self.new ≡ with_closed self.old cell (end - (cell + 1)) }
    {
        self.clear(cell);
        for from in cell + 1..end {
            self.move_use(from, from - 1);
        }
    }

    /// How many cells hold a use.
    pub fn count(&self, held: Use) -> usize
        ensures { result ≡ count_of held self.now.cells }
    {
        let Some(key) = self.names.number(held) else {
            return 0;
        };
        self.index.count(key)
    }

    /// The first cell that holds a use.
    pub fn first(&self, held: Use) -> Option<usize>
        ensures { result ≡ first_of held self.now.cells }
    {
        let Some(key) = self.names.number(held) else {
            return None;
        };
        self.index.first(key)
    }
}
