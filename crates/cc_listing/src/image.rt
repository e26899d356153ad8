//! The listing of an image.

ghost use Rattle.std.specs.Prelude.{◌≡◌, ℕ, ◌++◌, ◌+◌, ◌*◌, ◌<◌, ◌≤◌, ◌^◌, Some, drop, length, map, slice_get, sum_by, IfOk, OnOk};
ghost use Rattle.std.specs.Arc.{arc_value};
ghost use Rattle.elf_file.specs.Image.{sections_of};
ghost use Rattle.g_graph.specs.Plain.{PlainLambda};
ghost use Rattle.rv_layout.specs.Layout.{functions_at};
ghost use Rattle.s_linear.specs.declared.frame.CodeForm.TheVariants.{Plain};
ghost use Rattle.cc_emit.specs.Image.{CanEmit, code_size, image_of, lambdas_of};
ghost use Rattle.cc_emit.specs.Laws.{IsFunction};
ghost use Rattle.cc_listing.specs.Lines.{IsListing, functions_text, start_text, text_of};
ghost use Rattle.cc_listing.specs.Words.{words_in};

use crate::functions::push_function;
use crate::globals::push_globals;
use crate::lines::name_at;
use crate::symbols::{push_commands, push_stub};
use crate::words::{cut, words_in};
use base::{Name, NoMemory};
use elf_file::{Image, TEXT_AT};
use g_graph::Omega;
use r_rule::Optimised;
use std::alloc::Global;
use std::sync::Arc;

// The functions of a program, the words of the first from an address on.
fn push_functions(
    out: &mut Vec<u8>,
    alloc: Global,
    names: &[Name],
    answers: &[Arc<Optimised>],
    at: u32,
    words: &[u32],
) -> Result<(), NoMemory>
    requires functions { (f : ℕ) (l : PlainLambda)
        → slice_get (lambdas_of (map arc_value answers.now)) f ≡ Some l → IsFunction l }
    requires whole { sum_by (code_size Plain) (lambdas_of (map arc_value answers.now))
        ≤ 4 * length words.now }
    requires end { at + 4 * length words.now < 2 ^ 32 }
    ensures { OnOk result (out.new.items ≡ out.old.items ++ functions_text names.now 0 at
        (lambdas_of (map arc_value answers.now)) words.now) }
{
    let mut here = at;
    let mut rest = words;
    for (number, answer) in answers.iter().enumerate() {
        let name = name_at(names, number);
        let end = push_function(out, alloc, names, name, &answer.lambda, here, rest)?;
        let (_, later) = cut(rest, ((end - here) / 4) as usize);
        rest = later;
        here = end;
    }
    Ok(())
}

// The start code and the stubs.
fn push_start(out: &mut Vec<u8>, words: &[u32]) -> Result<(), NoMemory>
    requires { 29 ≤ length words.now }
    ensures { OnOk result (out.new.items ≡ out.old.items ++ start_text words.now) }
{
    push_stub(out, b"$start", b"main", TEXT_AT, &words[..8])?;
    push_stub(out, b"$put", b"", TEXT_AT + 32, &words[8..17])?;
    push_stub(out, b"$get", b"", TEXT_AT + 68, &words[17..29])
}

// The words of a text.
fn push_text(
    out: &mut Vec<u8>,
    alloc: Global,
    names: &[Name],
    answers: &[Arc<Optimised>],
    words: &[u32],
) -> Result<(), NoMemory>
    requires functions { (f : ℕ) (l : PlainLambda)
        → slice_get (lambdas_of (map arc_value answers.now)) f ≡ Some l → IsFunction l }
    requires there { 29 ≤ length words.now }
    requires whole { sum_by (code_size Plain) (lambdas_of (map arc_value answers.now))
        ≤ 4 * length (drop 29 words.now) }
    requires end { functions_at + 4 * length (drop 29 words.now) < 2 ^ 32 }
    ensures { OnOk result (out.new.items ≡ out.old.items
        ++ text_of names.now (lambdas_of (map arc_value answers.now)) words.now) }
{
    push_start(out, words)?;
    let (_, words) = cut(words, 29);
    push_functions(out, alloc, names, answers, TEXT_AT + 116, words)
}

// The text of an image.
fn push_code(
    out: &mut Vec<u8>,
    alloc: Global,
    image: &Image,
    omega: &Omega,
    answers: &[Arc<Optimised>],
) -> Result<(), NoMemory>
    requires program { CanEmit omega.now (lambdas_of (map arc_value answers.now)) }
    requires image { sections_of image.now
        ≡ image_of Plain omega.now (lambdas_of (map arc_value answers.now)) }
    ensures { OnOk result (out.new.items ≡ out.old.items ++ text_of omega.now.names
        (lambdas_of (map arc_value answers.now)) (words_in image.now.text.items)) }
{
    let words = words_in(alloc, &image.text)?;
    push_text(out, alloc, &omega.names, answers, &words)
}

/// The listing of the image of a program: the words of its text with their addresses, those of a
/// function under the lines of its linear code whose items have them, and its globals. A function
/// goes by its name in `omega`, a global by its name in `globals`, and one that has an empty name or
/// none there by its number. It takes memory linear in the listing, and time n log n in the values
/// of each function. `NoMemory` only where the allocator has none.
pub fn listing(
    alloc: Global,
    image: &Image,
    omega: &Omega,
    answers: &[Arc<Optimised>],
    globals: &[Name],
) -> Result<Vec<u8>, NoMemory>
    requires program { CanEmit omega.now (lambdas_of (map arc_value answers.now)) }
    requires image { sections_of image.now
        ≡ image_of Plain omega.now (lambdas_of (map arc_value answers.now)) }
    ensures { IfOk result (λ text.
        IsListing omega.now (lambdas_of (map arc_value answers.now)) text.items) }
{
    let mut out = Vec::new(alloc);
    push_commands(&mut out, image.fixed_at, image.data_at)?;
    push_code(&mut out, alloc, image, omega, answers)?;
    push_globals(&mut out, alloc, globals, &omega.deltas, image)?;
    Ok(out)
}
