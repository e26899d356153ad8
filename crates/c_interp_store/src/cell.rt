//! The cells of a block.

ghost use Rattle.std.specs.Prelude.{◌≡◌, IsTrue, IfSome, IfNone, MatchOption, false, map};
ghost use Rattle.std.specs.List.{list_any};
ghost use Rattle.val_core.specs.Memory.{is_at};
ghost use Rattle.c_interp_store.specs.Ascending.{ascends, IsFoundAt, IsAbsent};
ghost use Rattle.c_interp_store.specs.Cells.{offset_of, cell_of, cells_of, zero_cell, IsCellAt};

use val_core::{Leaf, Value};

/// A leaf of a block, and its value, if it has one.
#[derive(Clone, Copy)]
pub struct Cell {
    pub leaf: Leaf,
    pub value: Option<Value>,
}

// The index of the leaf of this width and offset. One of an array stands where its offset says;
// else it is searched.
pub(crate) fn cell_index(cells: &[Cell], width: u8, offset: u32) -> Option<usize>
    requires { IsTrue (ascends offset_of 0 cells.now) }
    ensures { MatchOption result (list_any (is_at width offset) (cells_of cells.now) ≡ false)
        (IsCellAt cells.now width offset) }
{
    let guess = (offset / u32::from(width.max(1))) as usize;
    if guess < cells.len() && is_at(cells[guess], width, offset) {
        return Some(guess);
    }
    match offset_index(cells, offset) {
        Some(i) if is_at(cells[i], width, offset) => Some(i),
        _ => None,
    }
}

// The index of the cell of this offset.
fn offset_index(cells: &[Cell], offset: u32) -> Option<usize>
    ensures some { IfSome result (IsFoundAt offset_of cells.now offset) }
    ensures none { IfNone result (IsTrue (ascends offset_of 0 cells.now)
        → IsAbsent offset_of cells.now offset) }
{
    match cells.binary_search_by_key(&offset, |cell| cell.leaf.offset) {
        Ok(i) => Some(i),
        Err(_) => None,
    }
}

// Every cell has the value 0.
pub(crate) fn clear_cells(cells: &mut [Cell])
    ensures { cells.new ≡ map zero_cell cells.old }
{
    for cell in cells.iter_mut() {
        cell.value = Some(Value::Num(0));
    }
}

fn is_at(cell: Cell, width: u8, offset: u32) -> bool
    ensures { result ≡ is_at width offset (cell_of cell) }
{
    cell.leaf.offset == offset && cell.leaf.width == width
}
