//! The image of functions and globals.

ghost use Rattle.std.specs.Prelude.{◌≡◌, ◌+◌, ◌<◌, ◌^◌, ◌++◌, IsTrue, true, false, length, replicate, sum_by, slice_index, IfOk};
ghost use Rattle.std.specs.List.{flat_map};
ghost use Rattle.elf_file.specs.Image.{sections_of};
ghost use Rattle.g_graph.specs.WellFormed.{all_of};
ghost use Rattle.rv_layout.specs.Sequences.{start_code, put_stub, get_stub, bytes_of};
ghost use Rattle.rv_layout.specs.Items.{items_size};
ghost use Rattle.rv_layout.specs.Globals.{global_room, globals_where, global_bytes};
ghost use Rattle.rv_layout.specs.Layout.{item_lists, functions_at, addresses_of, text_of, laid_out};
ghost use Rattle.rv_layout.specs.Conditions.{function_fits, global_fits, CanLayOut};

use crate::Item;
use crate::addresses::{Addresses, addresses_of};
use crate::globals::push_globals;
use crate::items::push_functions;
use crate::sequences::{push_code, push_get_stub, push_put_stub, push_start_code};
use base::NoMemory;
use elf_file::{Image, TEXT_AT};
use g_graph::Delta;
use rv_isa::Instr;
use std::alloc::Global;

/// The start code and the two stubs, of a program that begins with the function at `main`.
fn start_and_stubs(alloc: Global, main: u32, addresses: &Addresses) -> Result<Vec<Instr>, NoMemory>
    requires { TEXT_AT + 16 < main }
    ensures { IfOk result (λ code. code.items
        ≡ start_code addresses.now.stack_at main
        ++ put_stub addresses.now.data_at ++ get_stub addresses.now.data_at) }
{
    let mut code = Vec::new(alloc);
    push_start_code(&mut code, addresses.stack_at, main)?;
    push_put_stub(&mut code, addresses.data_at)?;
    push_get_stub(&mut code, addresses.data_at)?;
    Ok(code)
}

fn address_of(addresses: &[u32], index: u32) -> u32
    requires { index < length addresses.now }
    ensures { result ≡ slice_index addresses.now index }
{
    addresses[index as usize]
}

/// The text of a program.
fn text_of(
    alloc: Global,
    functions: &[Vec<Item>],
    main: u32,
    addresses: &Addresses,
) -> Result<Vec<u8>, NoMemory>
    requires fits { IsTrue (all_of
        (function_fits (length addresses.now.functions) (length addresses.now.globals))
        (item_lists functions.now)) }
    requires end { functions_at + sum_by items_size (item_lists functions.now) < 2 ^ 32 }
    requires has_main { main < length addresses.now.functions }
    requires after_start { TEXT_AT + 16 < slice_index addresses.now.functions main }
    ensures { IfOk result (λ text. text.items
        ≡ bytes_of (text_of addresses.now (item_lists functions.now) main)) }
{
    let start = start_and_stubs(alloc, address_of(&addresses.functions, main), addresses)?;
    let size = addresses.fixed_at.saturating_sub(TEXT_AT) as usize;
    let mut text = Vec::with_capacity(alloc, size)?;
    push_code(&mut text, &start)?;
    push_functions(alloc, &mut text, functions, addresses)?;
    Ok(text)
}

/// The fixed globals in memory.
fn fixed_section(alloc: Global, globals: &[Delta], addresses: &[u32]) -> Result<Vec<u8>, NoMemory>
    requires fits { IsTrue (all_of (global_fits (length addresses.now)) globals.now) }
    requires room { sum_by global_room (globals_where true globals.now) < 2 ^ 32 }
    ensures { IfOk result (λ section. section.items
        ≡ flat_map (global_bytes addresses.now) (globals_where true globals.now)) }
{
    let mut section = Vec::new(alloc);
    push_globals(&mut section, globals, true, addresses)?;
    Ok(section)
}

/// The word that the stubs use and the 4 bytes after it, and the other globals in memory.
fn data_section(alloc: Global, globals: &[Delta], addresses: &[u32]) -> Result<Vec<u8>, NoMemory>
    requires fits { IsTrue (all_of (global_fits (length addresses.now)) globals.now) }
    requires room { sum_by global_room (globals_where false globals.now) < 2 ^ 32 }
    ensures { IfOk result (λ section. section.items
        ≡ replicate 8 0 ++ flat_map (global_bytes addresses.now) (globals_where false
        globals.now)) }
{
    let mut section = vec![in alloc; 0; 8]?;
    push_globals(&mut section, globals, false, addresses)?;
    Ok(section)
}

/// The image of these functions and globals, of a program that begins with function `main`: the
/// text with the start code and the stubs, the fixed globals, the others, and where the sections
/// and the stack begin (in bytes). It takes time n log n in the items of each function, and linear
/// in all else. `NoMemory` only where the allocator has none.
pub fn lay(
    alloc: Global,
    functions: &[Vec<Item>],
    deltas: &[Delta],
    main: u32,
) -> Result<Image, NoMemory>
    requires { CanLayOut (item_lists functions.now) deltas.now main }
    ensures { IfOk result (λ image.
        sections_of image ≡ laid_out (item_lists functions.now) deltas.now main) }
{
    let addresses = addresses_of(alloc, functions, deltas)?;
    let text = text_of(alloc, functions, main, &addresses)?;
    let fixed = fixed_section(alloc, deltas, &addresses.globals)?;
    let globals = data_section(alloc, deltas, &addresses.globals)?;
    Ok(Image {
        text,
        fixed,
        fixed_at: addresses.fixed_at,
        globals,
        data_at: addresses.data_at,
        stack_at: addresses.stack_at,
    })
}
