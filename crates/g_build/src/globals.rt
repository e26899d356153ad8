//! The globals of a program: their bytes, links and leaves.

ghost use Rattle.std.specs.Prelude.{◌≡◌, ◌++◌, ◌∷◌, ◌≤◌, [], length, map, OnOk, IfOk};
ghost use Rattle.c_type.specs.Layout.{IsLaidOut};
ghost use Rattle.c_typed.specs.Typed.{word_at, characters_at};
ghost use Rattle.c_typed.specs.ProgramEncoding.{written_of};
ghost use Rattle.c_typed.specs.WellTyped.{IsWellTyped};
ghost use Rattle.g_build_def.specs.Globals.{bytes_from, links_in, global_made, globals_made};
ghost use Rattle.g_build.specs.Globals.{StandApart, item_bytes};

use base::NoMemory;
use c_type::{Types, leaves, size_of};
use c_typed::{TGlobal, Typed, Written};
use g_graph::{Delta, Link};
use std::alloc::Global;

// Zeros up to an offset, and a word there, the lowest byte first.
#[tactic(auto, using(crate::proofs::WrittenBytes::words_pushed))]
fn push_word(bytes: &mut Vec<u8>, offset: u32, width: u8, word: u32) -> Result<(), NoMemory>
    requires { length bytes.old.items ≤ offset }
    ensures { OnOk result (bytes.new.items ≡ bytes.old.items
        ++ item_bytes (length bytes.old.items) (word_at offset width word)) }
{
    bytes.resize(offset as usize, 0)?;
    let mut rest = word;
    for i in 0..width {
        bytes.push((rest % 256) as u8)?;
        rest /= 256;
    }
    Ok(())
}

// Zeros up to an offset, and characters there.
#[tactic(auto, using(crate::proofs::WrittenBytes::characters_pushed))]
fn push_characters(bytes: &mut Vec<u8>, offset: u32, characters: &[u8]) -> Result<(), NoMemory>
    requires { length bytes.old.items ≤ offset }
    ensures { OnOk result (bytes.new.items ≡ bytes.old.items
        ++ item_bytes (length bytes.old.items) (characters_at offset characters.now)) }
{
    bytes.resize(offset as usize, 0)?;
    bytes.extend_from_slice(characters)?;
    Ok(())
}

fn push_written(bytes: &mut Vec<u8>, item: &Written) -> Result<(), NoMemory>
    requires { StandApart (length bytes.old.items) (written_of item.now ∷ []) }
    ensures { OnOk result (bytes.new.items ≡ bytes.old.items
        ++ item_bytes (length bytes.old.items) (written_of item.now)) }
{
    match item {
        Written::Word {
            offset,
            width,
            word,
        } => push_word(bytes, *offset, *width, *word),
        Written::Link { offset, number } => Ok(()),
        Written::Characters { offset, characters } => {
            push_characters(bytes, *offset, characters.as_slice())
        }
    }
}

// So many bytes: those of the items, and zeros around them.

fn bytes(alloc: Global, size: u32, written: &[Written]) -> Result<Vec<u8>, NoMemory>
    requires { StandApart 0 (map written_of written.now) }
    ensures { IfOk result (λ bytes. bytes.items ≡ bytes_from (map written_of written.now) 0 size) }
{
    let mut bytes = Vec::with_capacity(alloc, size as usize)?;
    for item in written {
        push_written(&mut bytes, item)?;
    }
    bytes.resize(size as usize, 0)?;
    Ok(bytes)
}

fn push_link(links: &mut Vec<Link>, item: &Written) -> Result<(), NoMemory>
    ensures { OnOk result (links.new.items ≡
        links.old.items ++ links_in (written_of item.now ∷ [])) }
{
    match item {
        Written::Link { offset, number } => {
            links.push(Link {
                at: *offset,
                delta: *number,
            })?;
            Ok(())
        }
        _ => Ok(()),
    }
}

fn links(alloc: Global, written: &[Written]) -> Result<Vec<Link>, NoMemory>
    ensures { IfOk result (λ links. links.items ≡ links_in (map written_of written.now)) }
{
    let mut links = Vec::new(alloc);
    for item in written {
        push_link(&mut links, item)?;
    }
    Ok(links)
}

fn build_global(alloc: Global, types: &Types, global: &TGlobal) -> Result<Delta, NoMemory>
    requires laid_out { IsLaidOut types.now global.now.type }
    requires apart { StandApart 0 global.now.written }
    ensures { IfOk result (λ delta. delta ≡ global_made types.now global.now) }
{
    let size = size_of(types, &global.ty);
    let bytes = bytes(alloc, size, &global.written)?;
    let links = links(alloc, &global.written)?;
    let leaves = leaves(alloc, types, &global.ty)?;
    Ok(Delta {
        bytes,
        links,
        leaves,
        fixed: global.fixed,
    })
}

/// The globals of a well-typed program. `NoMemory` where the allocator has none. It takes time
/// linear in the sizes of the globals and in what is written in them.
pub fn build_globals(alloc: Global, typed: &Typed) -> Result<Vec<Delta>, NoMemory>
    requires { IsWellTyped typed.now }
    ensures { IfOk result (λ deltas. deltas.items ≡ globals_made typed.now) }
{
    let mut deltas = Vec::new(alloc);
    for i in 0..typed.globals.len() {
        deltas.push(build_global(alloc, &typed.structs, &typed.globals[i])?)?;
    }
    Ok(deltas)
}
