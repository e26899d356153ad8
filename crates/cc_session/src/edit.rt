//! The parts of an edit: where a function stands, a source with a text in its place, and names.

ghost use Rattle.std.specs.Prelude.{◌≡◌, IfOk};
ghost use Rattle.std.specs.Cmp.Lexicographic.{pointwise};
ghost use Rattle.c_check_scope.specs.Scopes.{same_name};
ghost use Rattle.cc_session.specs.Edits.{extent_of, names_of, replaced};

use base::NoMemory;
use c_typed::TFunction;
use std::alloc::Global;

/// Where the definition of the first function of this name begins and ends in the source.
pub(crate) fn extent_of(functions: &[TFunction], name: &[u8]) -> Option<(u32, u32)>
    ensures { result ≡ extent_of functions.now name.now }
{
    for function in functions {
        if function.name.as_slice() == name {
            return Some((function.starts, function.ends));
        }
    }
    None
}

/// A source in which a text stands in place of what was from one offset to another.
pub(crate) fn replaced(
    alloc: Global,
    source: &[u8],
    extent: (u32, u32),
    text: &[u8],
) -> Result<Vec<u8>, NoMemory>
    ensures { IfOk result (λ new. new.items ≡ replaced source.now extent text.now) }
{
    let starts = source.len().min(extent.0 as usize);
    let ends = source.len().min(extent.1 as usize);
    let mut new = Vec::new(alloc);
    new.extend_from_slice(&source[..starts])?;
    new.extend_from_slice(text)?;
    new.extend_from_slice(&source[ends..])?;
    Ok(new)
}

/// Whether these functions have, in order, the names that those have.
pub(crate) fn have_same_names(functions: &[TFunction], others: &[TFunction]) -> bool
    ensures { result ≡ pointwise same_name (names_of functions.now) (names_of others.now) }
{
    match (functions.split_first(), others.split_first()) {
        (Some((f, fs)), Some((g, gs))) => f.name == g.name && have_same_names(fs, gs),
        (None, None) => true,
        _ => false,
    }
}
