//! The text of functions, once everything has its address.

ghost use Rattle.std.specs.Prelude.{◌≡◌, ℕ, ◌+◌, ◌<◌, ◌%◌, ◌^◌, ◌++◌, IsTrue, length, sum_by, OnOk};
ghost use Rattle.std.specs.Ordering.{nat_cmp};
ghost use Rattle.std.specs.BTreeMap.{get};
ghost use Rattle.g_graph.specs.WellFormed.{all_of};
ghost use Rattle.rv_layout.specs.Sequences.{bytes_of};
ghost use Rattle.rv_layout.specs.Items.{items_size, label_at};
ghost use Rattle.rv_layout.specs.Layout.{item_lists, offset_to, item_code, function_code, functions_at, functions_code};
ghost use Rattle.rv_layout.specs.Conditions.{CanJump, Reaches, item_fits, function_fits};

use crate::Item;
use crate::addresses::{Addresses, FUNCTIONS_AT, stub_at};
use crate::labels::labels_of;
use crate::sequences::{call, load_address, push_code};
use crate::sizes::{item_size, items_size};
use base::NoMemory;
use rv_isa::{Instr, JumpOffset, Reg};
use std::alloc::{AllocError, Global};
use std::collections::BTreeMap;

fn jump(from: u32, to: u32) -> Instr
    requires { CanJump from to }
    ensures { result ≡ Instr.Jal 0 (offset_to from to) }
{
    Instr::Jal {
        rd: Reg::ZERO,
        offset: JumpOffset::new(to.wrapping_sub(from)),
    }
}

/// The instructions of an item at an address.
fn push_item(
    text: &mut Vec<u8>,
    item: &Item,
    at: u32,
    labels: &BTreeMap<u32, u32>,
    addresses: &Addresses,
) -> Result<(), AllocError>
    requires fits { IsTrue
        (item_fits (length addresses.now.functions) (length addresses.now.globals) item.now) }
    requires reaches { Reaches (get nat_cmp labels.now) at item.now }
    ensures { OnOk result (text.new.items
        ≡ text.old.items ++ bytes_of (item_code addresses.now (get nat_cmp labels.now) at
        item.now)) }
{
    match item {
        Item::Word(i) => push_code(text, &[*i]),
        Item::Mark(_) => push_code(text, &[]),
        Item::Jump(label) => {
            push_code(text, &[jump(at, labels.get(label).copied().unwrap_or(0))])
        }
        Item::Call(function) => {
            let to = addresses.functions[*function as usize];
            push_code(text, &call(to.wrapping_sub(at)))
        }
        Item::Stub(stub) => push_code(text, &call(stub_at(*stub).wrapping_sub(at))),
        Item::Address(register, global) => {
            let address = addresses.globals[*global as usize];
            push_code(text, &load_address(Reg::new(*register as u32), address))
        }
    }
}

/// The instructions of a function's items, from an address on.
fn push_items(
    text: &mut Vec<u8>,
    items: &[Item],
    at: u32,
    labels: &BTreeMap<u32, u32>,
    addresses: &Addresses,
) -> Result<(), AllocError>
    requires fits { IsTrue
        (function_fits (length addresses.now.functions) (length addresses.now.globals) items.now) }
    requires end { at + items_size items.now < 2 ^ 32 }
    requires aligned { at % 4 ≡ 0 }
    requires found { (label : ℕ) → get nat_cmp labels.now label ≡ label_at label at items.now }
    ensures { OnOk result (text.new.items
        ≡ text.old.items ++ bytes_of (function_code addresses.now at items.now)) }
{
    let mut here = at;
    for item in items {
        push_item(text, item, here, labels, addresses)?;
        here += item_size(*item);
    }
    Ok(())
}

/// The instructions of a function at an address.
fn push_function(
    alloc: Global,
    text: &mut Vec<u8>,
    items: &[Item],
    at: u32,
    addresses: &Addresses,
) -> Result<(), NoMemory>
    requires fits { IsTrue
        (function_fits (length addresses.now.functions) (length addresses.now.globals) items.now) }
    requires end { at + items_size items.now < 2 ^ 32 }
    requires aligned { at % 4 ≡ 0 }
    ensures { OnOk result (text.new.items
        ≡ text.old.items ++ bytes_of (function_code addresses.now at items.now)) }
{
    let labels = labels_of(alloc, items, at)?;
    push_items(text, items, at, &labels, addresses)?;
    Ok(())
}

/// The instructions of every function, one after the other. It takes time n log n in the items of
/// each.
pub fn push_functions(
    alloc: Global,
    text: &mut Vec<u8>,
    functions: &[Vec<Item>],
    addresses: &Addresses,
) -> Result<(), NoMemory>
    requires fits { IsTrue (all_of
        (function_fits (length addresses.now.functions) (length addresses.now.globals))
        (item_lists functions.now)) }
    requires end { functions_at + sum_by items_size (item_lists functions.now) < 2 ^ 32 }
    ensures { OnOk result (text.new.items
        ≡ text.old.items
        ++ bytes_of (functions_code addresses.now functions_at (item_lists functions.now))) }
{
    let mut at = FUNCTIONS_AT;
    for items in functions {
        push_function(alloc, text, items, at, addresses)?;
        at += items_size(items);
    }
    Ok(())
}
