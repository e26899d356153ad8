//! Blocks that live.

ghost use Rattle.std.specs.Prelude.{IsTrue};
ghost use Rattle.c_interp_store.specs.Ascending.{ascends};
ghost use Rattle.c_interp_store.specs.Cells.{offset_of};

use crate::cell::{Cell, cell_index, clear_cells};
use val_core::Value;

// A block that lives: its number, its size in bytes, whether no store changes it, and its cells in
// order of offset.
#[derive(Drop)]
pub(crate) struct Block {
    pub(crate) number: u64,
    pub(crate) size: u32,
    pub(crate) fixed: bool,
    pub(crate) cells: Vec<Cell>,
    ghost in_order: { IsTrue (ascends offset_of 0 cells.items) },
}

impl Block {
    ghost use Rattle.std.specs.Prelude.{◌≡◌, true};
    ghost use Rattle.std.specs.List.{list_any};
    ghost use Rattle.val_core.specs.Memory.{value_at, is_at, written, zeroed};
    ghost use Rattle.c_interp_store.specs.Blocks.{block_of};

    // The value of the leaf of this width and offset, where it has one.
    pub(crate) fn read(&self, width: u8, offset: u32) -> Option<Value>
        ensures { result ≡ value_at width offset (block_of self.now).cells }
    {
        match cell_index(&self.cells, width, offset) {
            Some(i) => self.cells[i].value,
            None => None,
        }
    }

    // Whether there is a leaf of this width and offset; it then has the value.
    pub(crate) fn write(&mut self, width: u8, offset: u32, value: Value) -> bool
        ensures there { result ≡ list_any (is_at width offset) (block_of self.old).cells }
        ensures written { result ≡ true
            → block_of self.new ≡ written width offset value (block_of self.old) }
        ensures number { self.new.number ≡ self.old.number }
    {
        match cell_index(&self.cells, width, offset) {
            Some(i) => {
                self.cells[i].value = Some(value);
                true
            }
            None => false,
        }
    }

    // Every leaf is 0.
    pub(crate) fn clear(&mut self)
        ensures zeroed { block_of self.new ≡ zeroed (block_of self.old) }
        ensures number { self.new.number ≡ self.old.number }
    {
        clear_cells(&mut self.cells);
    }
}
