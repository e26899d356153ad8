//! Layouts of types. A row is a list of words, with definitions of structs that are empty at first.
//!
//! A type is written from its base on: `v` (void), `c` (char), `sc`, `uc`, `h` (short), `uh`, `i`,
//! `u`, or `s` and a tag; then `.p` for a pointer to that, and `.3` for an array of 3 of that.
//! `=TAG:TYPE,..` defines a struct by its members; `+` for the tag is the one after the last that
//! is defined, which `s-` names. `TYPE` says size and alignment, `TAG+N` the offset of a member,
//! `TAG~TYPE,..` whether these are the members, and `*TYPE` the leaves of a copy of the type, each
//! as offset and width, with `x` and a count where leaves of one width follow one another.
//!
//! In the table the structs of the tags 4, 0, 7 and 1 are laid out as clang 14 does for riscv32
//! (`clang --target=riscv32-unknown-elf -std=c11`) of
//!
//!     struct A { char c; int n; };
//!     struct B { char c; short s; char d; };
//!     struct C { struct B b[3]; char x; struct A *p; };
//!     struct D { unsigned char c[5]; struct A a[2]; struct C d; signed char e; };

use crate::sources::source_of;
use base::NoMemory;
use c_type::{
    CType, DefineFault, Scalar, Types, align_of, are_laid_out, is_complete, is_laid_out, leaves,
    offset_of, size_of,
};
use std::alloc::Global;
use val_core::Leaf;

// `void` or the scalar of this name; `int` where it is none.
fn plain_named(name: &str) -> CType {
    match name {
        "v" => CType::void(),
        "c" => CType::scalar(Scalar::Char),
        "sc" => CType::scalar(Scalar::SignedChar),
        "uc" => CType::scalar(Scalar::UnsignedChar),
        "h" => CType::scalar(Scalar::Short),
        "uh" => CType::scalar(Scalar::UnsignedShort),
        "u" => CType::scalar(Scalar::UnsignedInt),
        _ => CType::scalar(Scalar::Int),
    }
}

fn base_named(name: &str, last: u32) -> CType {
    match name.strip_prefix('s') {
        Some("-") => CType::structure(last),
        Some(tag) if tag != "c" => CType::structure(tag.parse::<u32>().unwrap_or(0)),
        _ => plain_named(name),
    }
}

/// The type that is written so, where the last struct that is defined has this tag.
pub fn type_of(alloc: Global, text: &str, last: u32) -> Result<CType, NoMemory> {
    let mut parts = text.split('.');
    let mut found = base_named(parts.next().unwrap_or(""), last);
    for part in parts {
        found = match part.parse::<u32>() {
            Ok(length) => CType::array_of(alloc, found, length)?,
            Err(_) => CType::pointer_to(alloc, found)?,
        };
    }
    Ok(found)
}

fn types_of(alloc: Global, list: &str, last: u32) -> Result<Vec<CType>, NoMemory> {
    let mut found = Vec::new(alloc);
    for text in list.split(',') {
        found.push(type_of(alloc, text, last)?)?;
    }
    Ok(found)
}

/// Defines a struct of members that are written so, and says why, where it cannot.
pub fn define(
    out: &mut String,
    types: &mut Types,
    tag: u32,
    list: &str,
    last: u32,
) -> Result<(), NoMemory> {
    let members = types_of(*out.allocator(), list, last)?;
    if !types.is_defined(tag) && !members.is_empty() && are_laid_out(types, &members) {
        return say_fault(out, types.define(tag, members));
    }
    Ok(out.push_str(" bad")?)
}

fn say_fault(out: &mut String, defined: Result<(), DefineFault>) -> Result<(), NoMemory> {
    match defined {
        Ok(()) => Ok(()),
        Err(DefineFault::TooLarge) => Ok(out.push_str(" too large")?),
        Err(DefineFault::NoMemory) => Err(NoMemory),
    }
}

fn say_size(out: &mut String, types: &Types, t: &CType) -> Result<(), NoMemory> {
    if is_laid_out(types, t) {
        let size = size_of(types, t);
        let align = align_of(types, t);
        return Ok(write!(out, " {size}/{align}")?);
    }
    let is_complete = is_complete(types, t);
    let fault = if is_complete {
        " too large"
    } else {
        " incomplete"
    };
    Ok(out.push_str(fault)?)
}

fn say_offset(out: &mut String, types: &Types, tag: u32, member: u32) -> Result<(), NoMemory> {
    if types.has_member(tag, member) {
        let offset = offset_of(types, tag, member);
        return Ok(write!(out, " {offset}")?);
    }
    Ok(out.push_str(" none")?)
}

fn say_run(out: &mut String, first: Leaf, count: u32) -> Result<(), NoMemory> {
    write!(out, " {}:{}", first.offset, first.width)?;
    if count > 1 {
        write!(out, "x{count}")?;
    }
    Ok(())
}

fn say_listed(out: &mut String, found: &[Leaf]) -> Result<(), NoMemory> {
    let Some((first, rest)) = found.split_first() else {
        return Ok(());
    };
    let mut first = *first;
    let mut count = 1u32;
    for leaf in rest {
        let width = u32::from(first.width);
        let next = first.offset.saturating_add(width.saturating_mul(count));
        if leaf.width == first.width && leaf.offset == next {
            count = count.saturating_add(1);
        } else {
            say_run(out, first, count)?;
            first = *leaf;
            count = 1;
        }
    }
    say_run(out, first, count)
}

fn say_leaves(out: &mut String, types: &Types, t: &CType) -> Result<(), NoMemory> {
    let alloc = *out.allocator();
    let copy = t.copy(alloc)?;
    if copy.is_same(t) && is_laid_out(types, &copy) {
        let found = leaves(alloc, types, &copy)?;
        return say_listed(out, &found);
    }
    Ok(out.push_str(" bad")?)
}

fn are_same(some: &[CType], others: &[CType]) -> bool {
    for (s, t) in some.iter().zip(others.iter()) {
        if !s.is_same(t) {
            return false;
        }
    }
    some.len() == others.len()
}

fn are_members(types: &Types, tag: u32, list: &[CType]) -> bool {
    if types.is_defined(tag) {
        return are_same(types.members(tag), list);
    }
    false
}

fn tag_of(text: &str, last: u32) -> u32 {
    match text {
        "+" => last.saturating_add(1),
        _ => text.parse::<u32>().unwrap_or(0),
    }
}

// Says what a word asks that defines nothing.
fn say_asked(out: &mut String, types: &Types, word: &str, last: u32) -> Result<(), NoMemory> {
    let alloc = *out.allocator();
    if let Some(text) = word.strip_prefix('*') {
        let t = type_of(alloc, text, last)?;
        return say_leaves(out, types, &t);
    }
    if let Some((tag, member)) = word.split_once('+') {
        return say_offset(
            out,
            types,
            tag_of(tag, last),
            member.parse::<u32>().unwrap_or(0),
        );
    }
    if let Some((tag, list)) = word.split_once('~') {
        let list = types_of(alloc, list, last)?;
        let are = are_members(types, tag_of(tag, last), &list);
        return Ok(write!(out, " {are}")?);
    }
    let t = type_of(alloc, word, last)?;
    say_size(out, types, &t)
}

// The tag and the members of a definition.
fn definition_of(word: &str) -> Option<(&str, &str)> {
    word.strip_prefix('=')?.split_once(':')
}

fn say_words(out: &mut String, types: &mut Types, words: &str) -> Result<(), NoMemory> {
    let mut last = 0u32;
    for word in words.split_whitespace() {
        match definition_of(word) {
            Some((tag, list)) => {
                let tag = tag_of(tag, last);
                define(out, types, tag, list, last)?;
                last = tag;
            }
            None => say_asked(out, types, word, last)?,
        }
    }
    Ok(out.push_str("\n")?)
}

/// Says the answers of a row (`sources` says how it is written in short).
pub fn say_layouts(out: &mut String, row: &str) -> Result<(), NoMemory> {
    let alloc = *out.allocator();
    let words = source_of(alloc, row)?;
    let mut types = Types::new(alloc);
    say_words(out, &mut types, words.as_str())
}
