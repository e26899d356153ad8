//! The lists and their calls.

ghost use Rattle.std.specs.Prelude.{◌≡◌, ◌==◌, ℕ, ◌<◌, IfOk, true, length};
ghost use Rattle.cell_lists.specs.Lists.{
  no_cells,
  list_at,
  is_in,
  IsFree,
  IsListed,
  AreDistinct,
  pushed,
  removed,
  replaced,
  first_or,
  last_or,
  before_in,
  after_in,
  falls,
};

use crate::links::{Ends, Link, set_after, set_before, with_last, with_other, without_cell};
use base::NoMemory;
use std::alloc::Global;
use std::marker::Model;

/// Lists, numbered from 0, over cells that are numbered from 0. Contracts see the number of cells
/// and for each list its cells in order.
#[derive(Drop)]
pub struct CellLists {
    links: Vec<Link>,
    lists: Vec<Ends>,
}

impl Model for CellLists {
    ghost use Rattle.cell_lists.specs.Lists.{Lists};

    ghost Value = { Lists };

    ghost use Rattle.cell_lists.specs.Linked.{lists_seen, AreLinked};

    ghost view = { λ s. lists_seen s.links.items s.lists.items };

    ghost invariant = { λ s. AreLinked s.links.items s.lists.items };
}

impl CellLists {
    /// So many empty lists over so many cells.
    pub fn new(alloc: Global, lists: usize, cells: usize) -> Result<CellLists, NoMemory>
        ensures { IfOk result (λ made. made ≡ no_cells lists cells) }
    {
        let link = Link {
            list: 0,
            before: None,
            after: None,
        };
        let ends = Ends {
            first: None,
            last: None,
            len: 0,
            falls: 0,
        };
        let links = vec![in alloc; link; cells]?;
        let lists = vec![in alloc; ends; lists]?;
        Ok(CellLists { links, lists })
    }

    /// A cell that is in no list becomes the last of one.
    pub fn push_last(&mut self, list: usize, cell: usize)
        requires list_in { list < length self.old.lists }
        requires cell_in { cell < self.old.cells }
        requires free { IsFree cell self.old }
        ensures { self.new ≡ pushed self.old list cell }
    {
        let ends = self.lists[list];
        set_after(&mut self.links, ends.last, Some(cell));
        self.links[cell] = Link {
            list,
            before: ends.last,
            after: None,
        };
        self.lists[list] = with_last(ends, cell);
    }

    /// A cell goes from its list.
    pub fn remove(&mut self, cell: usize)
        requires { IsListed cell self.old }
        ensures { self.new ≡ removed self.old cell }
    {
        let link = self.links[cell];
        set_after(&mut self.links, link.before, link.after);
        set_before(&mut self.links, link.after, link.before);
        let ends = self.lists[link.list];
        self.lists[link.list] = without_cell(ends, cell, link);
    }

    /// A cell that is in no list stands where one stood, which then is in none.
    pub fn replace(&mut self, cell: usize, other: usize)
        requires listed { IsListed cell self.old }
        requires cell_in { other < self.old.cells }
        requires free { IsFree other self.old }
        ensures { self.new ≡ replaced self.old cell other }
    {
        let link = self.links[cell];
        set_after(&mut self.links, link.before, Some(other));
        set_before(&mut self.links, link.after, Some(other));
        self.links[other] = link;
        let ends = self.lists[link.list];
        self.lists[link.list] = with_other(ends, cell, other, link);
    }

    /// The first cell of a list.
    pub fn first(&self, list: usize) -> Option<usize>
        requires { list < length self.now.lists }
        ensures { result ≡ first_or None (list_at self.now list) }
    {
        self.lists[list].first
    }

    /// The last cell of a list.
    pub fn last(&self, list: usize) -> Option<usize>
        requires { list < length self.now.lists }
        ensures { result ≡ last_or None (list_at self.now list) }
    {
        self.lists[list].last
    }

    /// The cell before one in its list.
    pub fn before(&self, cell: usize) -> Option<usize>
        requires { IsListed cell self.now }
        ensures { (k : ℕ) → is_in cell (list_at self.now k) ≡ true
            → result ≡ before_in None cell (list_at self.now k) }
    {
        self.links[cell].before
    }

    /// The cell after one in its list.
    pub fn after(&self, cell: usize) -> Option<usize>
        requires { IsListed cell self.now }
        ensures { (k : ℕ) → is_in cell (list_at self.now k) ≡ true
            → result ≡ after_in cell (list_at self.now k) }
    {
        self.links[cell].after
    }

    /// The number of cells in a list.
    pub fn len(&self, list: usize) -> usize
        requires { list < length self.now.lists }
        ensures value { result ≡ length (list_at self.now list) }
        ensures distinct { AreDistinct (list_at self.now list) }
    {
        self.lists[list].len
    }

    /// Whether the cells of a list rise: none follows a greater one.
    pub fn is_rising(&self, list: usize) -> bool
        requires { list < length self.now.lists }
        ensures { result ≡ (falls None (list_at self.now list) == 0) }
    {
        self.lists[list].falls == 0
    }
}
