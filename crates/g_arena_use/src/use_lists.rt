//! Lists of origins with an index of their uses.

ghost use Rattle.std.specs.Prelude.{◌≡◌, ◌+◌, ◌<◌, ◌≤◌, ℕ, IfOk, OnOk, false, [], ◌∷◌, ◌++◌, length, map, replicate, slice_set};
ghost use Rattle.std.specs.List.{remove};
ghost use Rattle.g_graph.specs.declared.op.Origin.TheVariants.{Arg, Out};
ghost use Rattle.g_graph.specs.Scope.{same_origin};
ghost use Rattle.g_arena_def.specs.Edits.{at_with, output_less, argument_less};
ghost use Rattle.g_arena_use.specs.UseCells.{IsNamed, with_written};
ghost use Rattle.g_arena_use.specs.Lists.{
  AreNamedIn,
  AllNamed,
  made_of,
  origins_at,
  use_in,
  uses_of,
  use_moved,
  moved,
  all_renamed,
  without,
  emptied,
};
ghost use Rattle.g_arena_use.specs.Sites.{list_seen, held, cells_of, AreLaid, AreFull};

use crate::use_index::{Use, UseIndex, UseNames};
use base::NoMemory;
use g_arena_def::Place;
use g_graph::Origin;
use smallvec::SmallVec;
use std::alloc::Global;
use std::marker::Model;

/// The inputs of a node or the results of a region, with the place of the region where they stand.
/// Contracts see it as a plain record.
#[derive(Drop)]
pub struct OriginList {
    pub home: Place,
    pub origins: SmallVec<Origin, 4>,
}

impl Model for OriginList {
    ghost use Rattle.g_arena_use.specs.Lists.{PlainList};

    ghost Value = { PlainList };

    ghost view = { λ s. record { home = s.home; origins = s.origins.items } };
}

// A list, and its cells in the index, which begin at `cell` and of which there are `room`.
#[derive(Drop)]
struct Site {
    home: Place,
    origins: SmallVec<Origin, 4>,
    cell: usize,
    room: usize,
}

impl Model for Site {
    ghost use Rattle.g_arena_use.specs.Sites.{PlainSite};

    ghost Value = { PlainSite };

    ghost view = { λ s. record {
      home = s.home;
      origins = s.origins.items;
      cell = s.cell;
      room = s.room;
    } };
}

/// Lists of origins, numbered from 0, with an index from an origin in the region at a place to its
/// uses. Contracts see the lists, and the uses that can be.
#[derive(Drop)]
pub struct UseLists {
    sites: Vec<Site>,
    // The list of each cell.
    owners: Vec<usize>,
    uses: UseIndex,
}

impl Model for UseLists {
    ghost use Rattle.g_arena_use.specs.Lists.{PlainUses};

    ghost Value = { PlainUses };

    ghost use Rattle.g_arena_use.specs.Held.{uses_seen, AreIndexed};

    ghost view = { λ s. uses_seen s };

    ghost invariant = { λ s. AreIndexed s };
}

impl UseLists {
    /// These lists, whose uses are to be among these names.
    pub fn new(alloc: Global, names: UseNames, lists: Vec<OriginList>) -> Result<UseLists, NoMemory>
        requires { AllNamed names lists.items }
        ensures { IfOk result (λ made. made ≡ made_of names lists.items) }
    {
        let mut sites = Vec::new(alloc);
        let mut owners = Vec::new(alloc);
        for list in lists {
            add_site(&mut sites, &mut owners, list)?;
        }
        let uses = index_of(alloc, names, &sites, owners.len())?;
        Ok(UseLists {
            sites,
            owners,
            uses,
        })
    }

    /// How many lists there are.
    pub fn len(&self) -> usize
        ensures { result ≡ length self.now.lists }
    {
        self.sites.len()
    }

    /// The list of a number.
    pub fn list(&self, at: usize) -> &[Origin]
        requires { at < length self.now.lists }
        ensures { result.now ≡ origins_at self.now.lists at }
    {
        origins_of(&self.sites[at])
    }

    /// How often a use stands in the lists.
    pub fn count(&self, used: Use) -> usize
        ensures value { result ≡ uses_of used self.now.lists }
        ensures most { result ≤ self.now.room }
    {
        self.uses.count(used)
    }

    /// The first of these uses, if there is one, comes from another origin.
    pub fn move_first(&mut self, used: Use, to: Origin)
        requires { IsNamed (use_in used.home to) self.old.names }
        ensures { self.new ≡ record self.old { lists = use_moved used to self.old.lists } }
    {
        let Some(cell) = self.uses.first(used) else {
            return;
        };
        let at = self.owners[cell];
        let first = first_cell(&self.sites[at]);
        let index = cell - first;
        set_origin(&mut self.sites[at], index, to);
        self.uses.set(
            cell,
            Use {
                home: used.home,
                of: to,
            },
        );
    }

    /// Each of these uses comes from another origin.
    fn move_all(&mut self, used: Use, to: Origin)
        requires named { IsNamed (use_in used.home to) self.old.names }
        requires other { same_origin used.of to ≡ false }
        ensures { self.new ≡ record self.old { lists = all_renamed used.home (moved used.of to) self.old.lists } }
    {
        while self.count(used) > 0 {
            self.move_first(used, to);
        }
    }

    /// What names a later one of the outputs of a node, of which there are so many, names the one
    /// before it.
    pub fn follow_output(&mut self, home: Place, node: u32, port: u32, count: u32)
        requires there { port < count }
        requires named { (q : ℕ) → q < count → IsNamed (use_in home (Out node q)) self.old.names }
        ensures { self.new ≡ record self.old { lists = all_renamed home (output_less node port count) self.old.lists } }
    {
        for later in port + 1..count {
            let of = Origin::Out { node, port: later };
            let to = Origin::Out {
                node,
                port: later - 1,
            };
            self.move_all(Use { home, of }, to);
        }
    }

    /// What names a later one of the arguments of a region, of which there are so many, names the
    /// one before it.
    pub fn follow_argument(&mut self, home: Place, index: u32, count: u32)
        requires there { index < count }
        requires named { (q : ℕ) → q < count → IsNamed (use_in home (Arg q)) self.old.names }
        ensures { self.new ≡ record self.old { lists = all_renamed home (argument_less index count) self.old.lists } }
    {
        for later in index + 1..count {
            let of = Origin::Arg(later);
            let to = Origin::Arg(later - 1);
            self.move_all(Use { home, of }, to);
        }
    }

    /// An origin goes from a list.
    pub fn remove(&mut self, at: usize, index: usize)
        requires list_in { at < length self.old.lists }
        requires there { index < length (origins_at self.old.lists at) }
        ensures { self.new ≡ record self.old { lists = at_with at (without index) self.old.lists } }
    {
        let first = first_cell(&self.sites[at]);
        let count = take_origin(&mut self.sites[at], index);
        self.uses.close(first + index, first + count);
    }

    /// All origins go from a list.
    pub fn clear(&mut self, at: usize)
        requires { at < length self.old.lists }
        ensures { self.new ≡ record self.old { lists = at_with at emptied self.old.lists } }
    {
        let first = first_cell(&self.sites[at]);
        let count = take_origins(&mut self.sites[at]);
        self.uses.clear_all(first, first + count);
    }
}

// The origins of a list.
fn origins_of(site: &Site) -> &[Origin]
    ensures { result.now ≡ site.now.origins }
{
    site.origins.as_slice()
}

// The first cell of a list.
fn first_cell(site: &Site) -> usize
    ensures { result ≡ site.now.cell }
{
    site.cell
}

// An origin of a list is another one.
fn set_origin(site: &mut Site, index: usize, to: Origin)
    requires { index < length site.old.origins }
    ensures { site.new ≡ record site.old { origins = slice_set site.old.origins index to } }
{
    site.origins.as_mut_slice()[index] = to;
}

// An origin of a list goes. The answer is how many there were.
fn take_origin(site: &mut Site, index: usize) -> usize
    requires { index < length site.old.origins }
    ensures less { site.new ≡ record site.old { origins = remove site.old.origins index } }
    ensures count { result ≡ length site.old.origins }
{
    let count = site.origins.len();
    site.origins.remove(index);
    count
}

// All origins of a list go. The answer is how many there were.
fn take_origins(site: &mut Site) -> usize
    ensures less { site.new ≡ record site.old { origins = [] } }
    ensures count { result ≡ length site.old.origins }
{
    let count = site.origins.len();
    site.origins.clear();
    count
}

// One more list, with cells behind those of the others.
fn add_site(
    sites: &mut Vec<Site>,
    owners: &mut Vec<usize>,
    list: OriginList,
) -> Result<(), NoMemory>
    ensures sites { OnOk result (sites.new.items ≡ sites.old.items ++ record {
      home = list.home;
      origins = list.origins;
      cell = length owners.old.items;
      room = length list.origins;
    } ∷ []) }
    ensures owners { OnOk result (owners.new.items
        ≡ owners.old.items ++ replicate (length list.origins) (length sites.old.items)) }
{
    let OriginList { home, origins } = list;
    let cell = owners.len();
    let room = origins.len();
    let at = sites.len();
    for cell_ in 0..room {
        owners.push(at)?;
    }
    sites.push(Site {
        home,
        origins,
        cell,
        room,
    })?;
    Ok(())
}

// The index of what these lists hold, which have so many cells.
fn index_of(
    alloc: Global,
    names: UseNames,
    sites: &[Site],
    cells: usize,
) -> Result<UseIndex, NoMemory>
    requires laid { AreLaid 0 sites.now }
    requires full { AreFull sites.now }
    requires cells { cells ≡ length (cells_of sites.now) }
    requires named { AllNamed names (map list_seen sites.now) }
    ensures { IfOk result (λ made. made ≡ record { names = names; cells = cells_of sites.now }) }
{
    let mut uses = UseIndex::new(alloc, names, cells)?;
    for site in sites {
        put_site(&mut uses, site, cells);
    }
    Ok(uses)
}

// The uses of a list, whose cells stand before the cell `end`.
fn put_site(uses: &mut UseIndex, site: &Site, end: usize)
    requires room { site.now.cell + length site.now.origins ≤ end }
    requires within { end ≤ length uses.old.cells }
    requires named { AreNamedIn uses.old.names site.now.home site.now.origins }
    ensures { uses.new ≡ with_written uses.old site.now.cell (held site.now.home site.now.origins) }
{
    uses.put(site.cell, end, site.home, site.origins.as_slice());
}
