//! The bytes of globals, with the addresses that their links name.

ghost use Rattle.std.specs.Prelude.{◌≡◌, ◌+◌, ◌<◌, ◌≤◌, ◌^◌, ◌++◌, IsTrue, length, sum_by, OnOk};
ghost use Rattle.std.specs.List.{flat_map};
ghost use Rattle.g_graph.specs.WellFormed.{all_of};
ghost use Rattle.rv_layout.specs.Globals.{global_room, globals_where, with_word, with_links, global_bytes};
ghost use Rattle.rv_layout.specs.Conditions.{link_has_global, link_is_within, global_fits};

use crate::sizes::global_room;
use g_graph::{Delta, Link};
use std::alloc::AllocError;

/// Puts a word in place of the four bytes at an offset.
fn set_word(bytes: &mut [u8], at: usize, word: u32)
    requires { at + 4 ≤ length bytes.old }
    ensures { bytes.new ≡ with_word at word bytes.old }
{
    bytes[at..at + 4].copy_from_slice(&word.to_le_bytes());
}

/// Puts an address in place of the four bytes at each link.
fn set_links(bytes: &mut [u8], links: &[Link], addresses: &[u32])
    requires named { IsTrue (all_of (link_has_global (length addresses.now)) links.now) }
    requires within { IsTrue (all_of (link_is_within (length bytes.old)) links.now) }
    ensures { bytes.new ≡ with_links addresses.now links.now bytes.old }
{
    for link in links {
        set_word(bytes, link.at as usize, addresses[link.delta as usize]);
    }
}

/// A global in memory; zeros follow its bytes.
fn push_global(section: &mut Vec<u8>, global: &Delta, addresses: &[u32]) -> Result<(), AllocError>
    requires fits { IsTrue (global_fits (length addresses.now) global.now) }
    requires room { global_room global.now < 2 ^ 32 }
    ensures { OnOk result (section.new.items
        ≡ section.old.items ++ global_bytes addresses.now global.now) }
{
    let start = section.len();
    section.extend_from_slice(&global.bytes)?;
    set_links(&mut section[start..], &global.links, addresses);
    section.resize(start + global_room(global) as usize, 0)?;
    Ok(())
}

/// The fixed globals in memory, or the others.
pub fn push_globals(
    section: &mut Vec<u8>,
    globals: &[Delta],
    fixed: bool,
    addresses: &[u32],
) -> Result<(), AllocError>
    requires fits { IsTrue (all_of (global_fits (length addresses.now)) globals.now) }
    requires room { sum_by global_room (globals_where fixed globals.now) < 2 ^ 32 }
    ensures { OnOk result (section.new.items
        ≡ section.old.items ++ flat_map (global_bytes addresses.now) (globals_where fixed
        globals.now)) }
{
    for global in globals {
        if global.fixed == fixed {
            push_global(section, global, addresses)?;
        }
    }
    Ok(())
}
