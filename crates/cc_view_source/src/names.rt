//! The names of functions and of globals.

ghost use Rattle.std.specs.Prelude.{◌≡◌};
ghost use Rattle.cc_view_source.specs.Names.{function_name};

use base::{Name, NoMemory};
use std::alloc::Global;

/// The name of the function of this number, and an empty one where there is none.
pub fn function_name(names: &[Name], function: usize) -> &[u8]
    ensures { result.now ≡ function_name names.now function }
{
    if function < names.len() {
        names[function].as_slice()
    } else {
        &[]
    }
}

const fn is_of_name(byte: u8) -> bool {
    byte.is_ascii_alphanumeric() || byte == b'_'
}

// The bytes of names and numbers that stand from an offset on.
fn name_at(source: &[u8], at: usize) -> &[u8] {
    let rest = &source[source.len().min(at)..];
    match rest.iter().position(|byte| !is_of_name(*byte)) {
        Some(end) => &rest[..rest.len().min(end)],
        None => rest,
    }
}

/// The name of each global that stands at these offsets into the source; an empty one for a string
/// literal.
pub fn names_at(alloc: Global, source: &[u8], offsets: &[u32]) -> Result<Vec<Name>, NoMemory> {
    let mut names = Vec::with_capacity(alloc, offsets.len())?;
    for at in offsets {
        names.push(Name::from_slice(alloc, name_at(source, *at as usize))?)?;
    }
    Ok(names)
}
