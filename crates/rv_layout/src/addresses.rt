//! Where everything of a program stands.

ghost use Rattle.std.specs.Prelude.{◌≡◌, ◌+◌, ◌<◌, ◌^◌, true, false, sum_by, IfOk};
ghost use Rattle.elf_file.specs.Image.{next_page};
ghost use Rattle.rv_layout.specs.Items.{items_size};
ghost use Rattle.rv_layout.specs.Globals.{global_room, globals_where, globals_from};
ghost use Rattle.rv_layout.specs.Layout.{item_lists, functions_at, stub_at, functions_from, addresses_of};
ghost use Rattle.rv_layout.specs.Conditions.{FitsMemory};

use crate::Item;
use crate::sizes::{global_room, items_size};
use base::NoMemory;
use elf_file::{PAGE, TEXT_AT};
use g_graph::Delta;
use std::alloc::Global;
use std::marker::Model;

/// The address of the stub that puts a byte, after the start code.
const PUT_AT: u32 = TEXT_AT + 4 * 8;

/// The address of the stub that gets a byte.
const GET_AT: u32 = PUT_AT + 4 * 9;

/// The address of the first function.
pub const FUNCTIONS_AT: u32 = GET_AT + 4 * 12;

/// The address of a stub: 0 puts a byte, and 1 gets one.
pub fn stub_at(stub: u8) -> u32
    ensures { result ≡ stub_at stub }
{
    if stub == 0 { PUT_AT } else { GET_AT }
}

/// Where the functions and globals stand, and where the fixed globals, the others and the stack
/// begin.
#[derive(Debug, Drop)]
pub struct Addresses {
    pub functions: Vec<u32>,
    pub globals: Vec<u32>,
    pub fixed_at: u32,
    pub data_at: u32,
    pub stack_at: u32,
}

impl Model for Addresses {
    ghost use Rattle.rv_layout.specs.Layout as plain;

    ghost Value = { plain.Addresses };

    ghost view = { λ a. record {
      functions = a.functions.items;
      globals = a.globals.items;
      fixed_at = a.fixed_at;
      data_at = a.data_at;
      stack_at = a.stack_at;
    } };
}

/// The least multiple of a page's size that is not below `end`.
fn next_page(end: u32) -> u32
    requires { end + PAGE < 2 ^ 32 }
    ensures { result ≡ next_page end }
{
    end.next_multiple_of(PAGE)
}

/// Where the functions stand, and the end of the last one.
fn function_addresses(alloc: Global, functions: &[Vec<Item>]) -> Result<(Vec<u32>, u32), NoMemory>
    requires { functions_at + sum_by items_size (item_lists functions.now) < 2 ^ 32 }
    ensures all { IfOk result (λ r.
        r.0.items ≡ functions_from functions_at (item_lists functions.now)) }
    ensures end { IfOk result (λ r.
        r.1 ≡ functions_at + sum_by items_size (item_lists functions.now)) }
{
    let mut all = Vec::with_capacity(alloc, functions.len())?;
    let mut at = FUNCTIONS_AT;
    for items in functions {
        all.push(at)?;
        at += items_size(items);
    }
    Ok((all, at))
}

/// The bytes of the fixed globals in memory, or of the others.
fn room_of(globals: &[Delta], fixed: bool) -> u32
    requires { sum_by global_room (globals_where fixed globals.now) < 2 ^ 32 }
    ensures { result ≡ sum_by global_room (globals_where fixed globals.now) }
{
    let mut room = 0;
    for global in globals {
        if global.fixed == fixed {
            room += global_room(global);
        }
    }
    room
}

/// Where the globals stand, the fixed ones from `fixed` on, the others from `other` on.
fn global_addresses(
    alloc: Global,
    globals: &[Delta],
    fixed: u32,
    other: u32,
) -> Result<Vec<u32>, NoMemory>
    requires fixed_end { fixed + sum_by global_room (globals_where true globals.now) < 2 ^ 32 }
    requires other_end { other + sum_by global_room (globals_where false globals.now) < 2 ^ 32 }
    ensures { IfOk result (λ all. all.items ≡ globals_from fixed other globals.now) }
{
    let mut all = Vec::with_capacity(alloc, globals.len())?;
    let (mut fixed, mut other) = (fixed, other);
    for global in globals {
        if global.fixed {
            all.push(fixed)?;
            fixed += global_room(global);
        } else {
            all.push(other)?;
            other += global_room(global);
        }
    }
    Ok(all)
}

/// Where everything stands. It takes time linear in the items and globals.
pub fn addresses_of(
    alloc: Global,
    functions: &[Vec<Item>],
    globals: &[Delta],
) -> Result<Addresses, NoMemory>
    requires { FitsMemory (item_lists functions.now) globals.now }
    ensures { IfOk result (λ a. a ≡ addresses_of (item_lists functions.now) globals.now) }
{
    let (functions, end) = function_addresses(alloc, functions)?;
    let fixed_at = next_page(end);
    let data_at = next_page(fixed_at + room_of(globals, true));
    let stack_at = next_page(data_at + 8 + room_of(globals, false));
    let globals = global_addresses(alloc, globals, fixed_at, data_at + 8)?;
    Ok(Addresses {
        functions,
        globals,
        fixed_at,
        data_at,
        stack_at,
    })
}
