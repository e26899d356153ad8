//! The memory as a program begins: the blocks of its globals.

ghost use Rattle.std.specs.Prelude.{◌≡◌, ◌∷◌, ◌≤◌, ℕ, List, false, IsTrue, IfOk, drop, length, map, slice_index_or};
ghost use Rattle.val_core.specs.declared.leaf.Leaf.{Leaf as AnyLeaf};
ghost use Rattle.val_core.specs.declared.values.Value.{Value as AnyValue};
ghost use Rattle.val_core.specs.declared.values.Value.TheVariants.{Num};
ghost use Rattle.c_type.specs.Layout.{IsLaidOut, leaves};
ghost use Rattle.c_type.specs.WellDefined.{AreDefinitions};
ghost use Rattle.c_typed.specs.Typed.{WrittenTree};
ghost use Rattle.c_typed.specs.ProgramEncoding.{written_of};
ghost use Rattle.c_typed.specs.WellTyped.{IsWellTyped, WrittenFits};
ghost use Rattle.c_mean.specs.Run.{leaf_value};
ghost use Rattle.c_mean.specs.Run as run;
ghost use Rattle.c_interp_store.specs.Ascending.{ascends, leaf_offset};
ghost use Rattle.c_interp_store.specs.Cells.{offset_of};
ghost use Rattle.c_interp_store.specs.Holding.{Holds, globals_of};
ghost use Rattle.c_interp_store.specs.Laid.{IsLaid};
ghost use Rattle.c_interp_store.specs.Starts.{start_cell, are_written, is_past, first_is_past, globals_in, AreFit, GlobalsFit, HoldsGlobals};

use crate::layout::Layouts;
use crate::{Cell, Store};
use base::NoMemory;
use c_type::laws::leaves_are_in_order;
use c_type::{CType, Types, leaves, size_of};
use c_typed::{TGlobal, Typed, Written};
use std::alloc::Global;
use val_core::{Leaf, Value};

/// A store that holds the memory in which a program begins.
pub fn first_memory(alloc: Global, typed: &Typed, layouts: &Layouts) -> Result<Store, NoMemory>
    requires typed { IsWellTyped typed.now }
    requires laid { IsLaid typed.now layouts.now }
    ensures { IfOk result
        (λ s. Holds s (globals_of (run.first_memory typed.now)) (run.first_memory typed.now)) }
{
    blocks(alloc, &typed.structs, layouts, &typed.globals)
}

fn blocks(
    alloc: Global,
    types: &Types,
    layouts: &Layouts,
    globals: &[TGlobal],
) -> Result<Store, NoMemory>
    requires defined { AreDefinitions types.now }
    requires fit { GlobalsFit types.now globals.now }
    ensures { IfOk result (λ s. HoldsGlobals types.now (globals_in layouts.now) globals.now s) }
{
    let mut store = Store::new(alloc);
    for g in globals {
        let cells = cells_of(alloc, types, layouts, &g.ty, &g.written)?;
        store.add(size_of(types, &g.ty), g.fixed, cells)?;
    }
    Ok(store)
}

// The cells of a global of this type, each with what is written at it, or 0.
fn cells_of(
    alloc: Global,
    types: &Types,
    layouts: &Layouts,
    t: &CType,
    written: &[Written],
) -> Result<Vec<Cell>, NoMemory>
    requires defined { AreDefinitions types.now }
    requires laid_out { IsLaidOut types.now t.now }
    requires fit { AreFit (are_written written.now) }
    ensures cells { IfOk result (λ cells. cells.items
        ≡ map (start_cell (globals_in layouts.now) (are_written written.now))
        (leaves types.now t.now)) }
    ensures ascend { IfOk result (λ cells. IsTrue (ascends offset_of 0 cells.items)) }
{
    leaves_are_in_order();
    let leaves = leaves(alloc, types, t)?;
    start_cells(alloc, layouts, written, &leaves)
}

fn start_cells(
    alloc: Global,
    layouts: &Layouts,
    written: &[Written],
    leaves: &[Leaf],
) -> Result<Vec<Cell>, NoMemory>
    requires fit { AreFit (are_written written.now) }
    requires ascend { IsTrue (ascends leaf_offset 0 leaves.now) }
    ensures { IfOk result (λ cells. cells.items
        ≡ map (start_cell (globals_in layouts.now) (are_written written.now)) leaves.now) }
{
    let mut cells = Vec::new(alloc);
    let mut from = 0;
    for leaf in leaves {
        from = skipped(written, from, leaf.offset);
        let value = value_from(layouts, written, from, leaf.offset);
        cells.push(Cell {
            leaf: *leaf,
            value: Some(value),
        })?;
    }
    Ok(cells)
}

// What is written at this offset, or 0, by what is written from an index on.
fn value_from(layouts: &Layouts, written: &[Written], from: usize, offset: u32) -> Value
    requires fit { AreFit (are_written written.now) }
    requires next { first_is_past offset (drop from (are_written written.now)) ≡ false }
    ensures { result
        ≡ leaf_value (globals_in layouts.now) offset (drop from (are_written written.now)) }
{
    match written.get(from) {
        Some(w) => value_at(layouts, w, offset),
        None => Value::Num(0),
    }
}

// From an index on, the first index where what is written ends after this offset, or their number.
fn skipped(written: &[Written], from: usize, offset: u32) -> usize
    requires { from ≤ length written.now }
    ensures within { result ≤ length written.now }
    ensures same { (global : ℕ → AnyValue) (q : ℕ) → offset ≤ q →
        leaf_value global q (drop from (are_written written.now))
        ≡ leaf_value global q (drop result (are_written written.now)) }
    ensures next { first_is_past offset (drop result (are_written written.now)) ≡ false }
{
    let mut i = from;
    while i < written.len() {
        if !is_past(&written[i], offset) {
            return i;
        }
        i += 1;
    }
    i
}

// Whether what is written ends at this offset or before it.
fn is_past(w: &Written, offset: u32) -> bool
    ensures { result ≡ is_past offset (written_of w.now) }
{
    match w {
        Written::Word { offset: at, .. } | Written::Link { offset: at, .. } => *at < offset,
        Written::Characters {
            offset: at,
            characters,
        } => u64::from(*at) + characters.as_slice().len() as u64 <= u64::from(offset),
    }
}

// What is written at this offset, or 0, by what is written first of all that ends after it.
fn value_at(layouts: &Layouts, w: &Written, offset: u32) -> Value
    ensures { (ls : List AnyLeaf) (n low : ℕ) (ws : List WrittenTree) →
        is_past offset (written_of w.now) ≡ false → WrittenFits ls n low (written_of w.now ∷ ws) →
        result ≡ leaf_value (globals_in layouts.now) offset (written_of w.now ∷ ws) }
{
    match w {
        Written::Word {
            offset: at,
            word,
            ..
        } if *at == offset => Value::Num(*word),
        Written::Link { offset: at, number } if *at == offset => layouts.global(*number),
        Written::Characters {
            offset: at,
            characters,
        } if *at <= offset => character(characters.as_slice(), offset - *at),
        _ => Value::Num(0),
    }
}

fn character(characters: &[u8], at: u32) -> Value
    ensures { result ≡ Num (slice_index_or characters.now at 0) }
{
    match characters.get(at as usize) {
        Some(c) => Value::Num(u32::from(*c)),
        None => Value::Num(0),
    }
}
