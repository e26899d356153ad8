//! The store, and how blocks come into it and leave it.

ghost use Rattle.std.specs.Prelude.{◌≡◌, ◌+◌, IsTrue, OnOk, IfOk, List, [], ◌∷◌, ◌++◌, length, map};
ghost use Rattle.val_core.specs.Memory.{Memory, closed};
ghost use Rattle.val_core.specs.Objects.{opened, word_of};
ghost use Rattle.c_interp_store.specs.Ascending.{ascends};
ghost use Rattle.c_interp_store.specs.Cells.{offset_of, blank_cell};
ghost use Rattle.c_interp_store.specs.Blocks.{shapes_of, whole_block};
ghost use Rattle.c_interp_store.specs.Holding.{Opened, Holds, IsGrown, opened_of, globals_of};

use crate::block::Block;
use crate::cell::Cell;
use crate::objects::Objects;
use crate::shape::Shape;
use base::NoMemory;
use std::alloc::Global;
use val_core::Leaf;

/// The memory of a run: the blocks of objects whose lifetimes last, in ascending order of number,
/// and how many blocks were made so far. Contracts say which memory it holds.
#[derive(Drop)]
pub struct Store {
    pub(crate) blocks: Vec<Block>,
    made: u64,
}

impl Store {
    /// A store without blocks.
    pub fn new(alloc: Global) -> Store
        ensures { Holds result [] [] }
    {
        Store {
            blocks: Vec::new(alloc),
            made: 0,
        }
    }

    /// Adds the block of one more global, of this size in bytes and with these cells, which are in
    /// order of offset. A fixed one takes no store. `NoMemory` too where no number is left for it.
    pub fn add(&mut self, size: u32, fixed: bool, cells: Vec<Cell>) -> Result<(), NoMemory>
        requires { IsTrue (ascends offset_of 0 cells.items) }
        ensures { OnOk result ((m : Memory) → Holds self.old (globals_of m) m
            → let n = m ++ whole_block (word_of size) fixed cells.items ∷ [] in
            Holds self.new (globals_of n) n) }
    {
        self.push(size, fixed, cells)
    }

    /// Opens the blocks of the objects of a call, of these shapes and without values. `NoMemory`
    /// too where no numbers are left for them; the store is then to be let go.
    pub fn open(&mut self, alloc: Global, shapes: &[Shape]) -> Result<Objects, NoMemory>
        ensures { IfOk result (λ objects. (calls : List Opened) (m : Memory)
            → Holds self.old calls m
            → (opened_of objects ≡ record { first = length m; count = length shapes.now })
            × Holds self.new (opened_of objects ∷ calls) (m ++ opened (shapes_of shapes.now))) }
    {
        let first = self.made;
        for shape in shapes {
            self.push(shape.size, false, new_cells(alloc, &shape.leaves)?)?;
        }
        Ok(Objects {
            first,
            count: self.made - first,
        })
    }

    /// Ends the lifetimes of the objects of the newest call.
    pub fn close(&mut self, objects: Objects)
        ensures { (calls : List Opened) (m : Memory) → Holds self.old (opened_of objects ∷ calls) m
            → Holds self.new calls (closed objects.first objects.count m) }
    {
        let left = self.blocks.len().saturating_sub(objects.count as usize);
        self.blocks.truncate(left);
    }

    fn push(&mut self, size: u32, fixed: bool, cells: Vec<Cell>) -> Result<(), NoMemory>
        requires { IsTrue (ascends offset_of 0 cells.items) }
        ensures made { OnOk result (self.new.made ≡ self.old.made + 1) }
        ensures grown { OnOk result
            (IsGrown self.old self.new (whole_block (word_of size) fixed cells.items)) }
    {
        let Some(made) = self.made.checked_add(1) else {
            return Err(NoMemory);
        };
        self.blocks.push(Block {
            number: self.made,
            size,
            fixed,
            cells,
        })?;
        self.made = made;
        Ok(())
    }
}

// The cells of a new block, without values.
fn new_cells(alloc: Global, leaves: &[Leaf]) -> Result<Vec<Cell>, NoMemory>
    ensures { IfOk result (λ cells. cells.items ≡ map blank_cell leaves.now) }
{
    let mut cells = Vec::new(alloc);
    for leaf in leaves {
        cells.push(Cell {
            leaf: *leaf,
            value: None,
        })?;
    }
    Ok(cells)
}
