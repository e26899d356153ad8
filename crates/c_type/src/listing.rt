//! The leaves of a type: its scalars and pointers in order of offset.

ghost use Rattle.std.specs.Prelude.{◌≡◌, ◌+◌, ◌*◌, ◌<◌, ◌≤◌, ◌++◌, ◌∷◌, ◌-◌, [], OnOk, IfOk, drop, length, map};
ghost use Rattle.c_type.specs.Layout.{size, leaves, leaves_at, repeated, IsLaidOut};
ghost use Rattle.c_type.specs.Trees.{tree_height};
ghost use Rattle.c_type.specs.Moved.{moved, CanMove};
ghost use Rattle.c_type.specs.Pending.{CanGoOn, HasGoneOn, IsBegun};

use crate::layout::{align_of, rounded_up, size_of, width};
use crate::structs::Types;
use crate::trees::{CType, TypeForm};
use base::{NoMemory, Steps};
use std::alloc::Global;
use std::marker::Brand;
use std::sync::ledger::{Blank, Ledger};
use val_core::Leaf;

// What is still to be listed. Structs nest thousands deep, so there is no recursion on them.
#[derive(Drop)]
pub(crate) enum Pending<'a> {
    // A type that begins at this offset.
    Whole(&'a CType, u32),
    // Members of a struct that begins at an offset, after the earlier ones, which end so many bytes
    // after it.
    Members(&'a [CType], u32, u32),
    // The later ones of so many elements of a type, the first of which begins at an offset; its
    // leaves stand at an index.
    Elements(&'a CType, u32, u32, usize),
}

/// The scalars and pointers of a complete type of at most `MOST_TYPE_BYTES`, in order of offset.
pub fn leaves(alloc: Global, types: &Types, t: &CType) -> Result<Vec<Leaf>, NoMemory>
    requires { IsLaidOut types.now t.now }
    ensures { IfOk result (λ v. v.items ≡ leaves types.now t.now) }
{
    leaves_in::<Brand>(alloc, Blank::new(1), types, t)
}

// The leaves, with their steps counted in a ledger of its own.
fn leaves_in<L: Ledger>(
    alloc: Global,
    blank: Blank,
    types: &Types,
    t: &CType,
) -> Result<Vec<Leaf>, NoMemory>
    requires name { blank.name ≡ L.name }
    requires parts { blank.parts ≡ L.parts }
    requires some { 0 < blank.parts }
    requires laid_out { IsLaidOut types.now t.now }
    ensures { IfOk result (λ v. v.items ≡ leaves types.now t.now) }
{
    let mut steps = Steps::<L>::new(blank);
    counted_leaves(alloc, types, t, &mut steps)
}

/// `leaves`, with its steps counted: one for each type, struct or array that is visited, and one
/// for each leaf.
pub fn counted_leaves<L: Ledger>(
    alloc: Global,
    types: &Types,
    t: &CType,
    steps: &mut Steps<L>,
) -> Result<Vec<Leaf>, NoMemory>
    requires { IsLaidOut types.now t.now }
    ensures leaves { IfOk result (λ v. v.items ≡ leaves types.now t.now) }
    ensures cost { let count = length (leaves types.now t.now) in
        steps.new ≤ steps.old + (6 * count + 3 * tree_height t.now) }
{
    let mut out = Vec::new(alloc);
    let mut pending = Vec::new(alloc);
    pending.push(types.first(t))?;
    while let Some(next) = pending.pop() {
        let had = out.len();
        list(types, next, &mut pending, &mut out)?;
        steps.add(1 + (out.len() - had));
    }
    Ok(out)
}

// Lists what is next, or leaves its members and elements to be listed.
fn list<'a>(
    types: &'a Types,
    next: Pending<'a>,
    pending: &mut Vec<Pending<'a>>,
    out: &mut Vec<Leaf>,
) -> Result<(), NoMemory>
    requires { CanGoOn types.now next pending.old.items out.old.items }
    ensures { let left = pending.new.items in
        OnOk result
        (HasGoneOn types.now next.entry pending.old.items left out.old.items out.new.items) }
{
    match next {
        Pending::Whole(t, at) => list_whole(types, t, at, pending, out),
        Pending::Members(ts, at, end) => list_member(types, ts, at, end, pending, out),
        Pending::Elements(of, count, at, first) => list_elements(types, of, count, at, first, out),
    }
}

fn list_whole<'a>(
    types: &'a Types,
    t: &'a CType,
    at: u32,
    pending: &mut Vec<Pending<'a>>,
    out: &mut Vec<Leaf>,
) -> Result<(), NoMemory>
    requires { CanGoOn types.now (Pending.Whole t at) pending.old.items out.old.items }
    ensures { let next = Pending.Whole t.entry at in
        let left = pending.new.items in
        OnOk result (HasGoneOn types.now next pending.old.items left out.old.items out.new.items) }
{
    match &t.form {
        TypeForm::Void => Ok(()),
        TypeForm::Scalar(s) => push_leaf(at, width(*s), out),
        TypeForm::Pointer(_) => push_leaf(at, 4, out),
        TypeForm::Array(of, length) => {
            pending.push(Pending::Elements(of, *length, at, out.len()))?;
            pending.push(Pending::Whole(of, at))?;
            Ok(())
        }
        TypeForm::Struct(tag) => {
            if let Some(s) = types.find(*tag) {
                pending.push(Pending::Members(&s.parts, at, 0))?;
            }
            Ok(())
        }
    }
}

fn list_member<'a>(
    types: &Types,
    ts: &'a [CType],
    at: u32,
    end: u32,
    pending: &mut Vec<Pending<'a>>,
    out: &Vec<Leaf>,
) -> Result<(), NoMemory>
    requires { CanGoOn types.now (Pending.Members ts at end) pending.old.items out.now.items }
    ensures { let next = Pending.Members ts.entry at end in
        let left = pending.new.items in
        OnOk result (HasGoneOn types.now next pending.old.items left out.now.items out.now.items) }
{
    if let Some((t, rest)) = ts.split_first() {
        let offset = rounded_up(end, align_of(types, t));
        pending.push(Pending::Members(rest, at, offset + size_of(types, t)))?;
        pending.push(Pending::Whole(t, at + offset))?;
    }
    Ok(())
}

// Appends the leaves of the later ones of so many elements, those of the first standing from the
// index `first` on.
fn list_elements(
    types: &Types,
    of: &CType,
    count: u32,
    at: u32,
    first: usize,
    out: &mut Vec<Leaf>,
) -> Result<(), NoMemory>
    requires { IsBegun types.now of.now count at first out.old.items }
    ensures { let bytes = size types.now of.now in
        let later = repeated (count - 1) bytes (at + bytes) (leaves_at types.now of.now) in
        OnOk result (out.new.items ≡ out.old.items ++ later) }
{
    if count == 1 {
        return Ok(());
    }
    let stride = size_of(types, of);
    let leaves = out.len() - first;
    for _i in 1..count {
        push_again(leaves, stride, out)?;
    }
    Ok(())
}

// Appends the last leaves again, moved by so many bytes.
fn push_again(count: usize, by: u32, out: &mut Vec<Leaf>) -> Result<(), NoMemory>
    requires count { count ≤ length out.old.items }
    requires room { CanMove by (drop (length out.old.items - count) out.old.items) }
    ensures { let last = drop (length out.old.items - count) out.old.items in
        OnOk result (out.new.items ≡ out.old.items ++ map (moved by) last) }
{
    let first = out.len() - count;
    for i in first..out.len() {
        let leaf = out[i];
        out.push(Leaf {
            offset: leaf.offset + by,
            width: leaf.width,
        })?;
    }
    Ok(())
}

fn push_leaf(offset: u32, width: u32, out: &mut Vec<Leaf>) -> Result<(), NoMemory>
    requires { width ≤ 4 }
    ensures { OnOk result (out.new.items ≡
        out.old.items ++ (record { offset = offset; width = width }) ∷ []) }
{
    out.push(Leaf {
        offset,
        width: width as u8,
    })?;
    Ok(())
}
