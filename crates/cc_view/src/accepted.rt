//! What is said of a source that is accepted.

ghost use Rattle.std.specs.Prelude.{◌≡◌, ◌++◌, ◌<◌, ◌^◌, List, ℕ, length, map, IfOk, OnOk};
ghost use Rattle.std.specs.Arc.{arc_value};
ghost use Rattle.g_pass_order.specs.Calls.{CallsAreKnown};
ghost use Rattle.s_linear.specs.declared.frame.CodeForm.TheVariants.{Plain};
ghost use Rattle.cc_emit.specs.Image.{image_of, lambdas_of, main_of, CanEmit};
ghost use Rattle.cc_emit.specs.Images.{frames};
ghost use Rattle.cc_view.specs.Depths.{depth_at};
ghost use Rattle.cc_view.specs.Explanation.{depth_line, recursive_line, IsExplained, IsStackLine, IsStackOf};

use crate::chain::{chain_from, depth_at};
use crate::cycles::recursive_from;
use crate::depths;
use crate::frames::{frames, lambdas_of};
use crate::text::{push_code, push_depth, push_frames, push_recursive};
use base::{Name, NoMemory};
use cc_emit::emit;
use cc_view_source::Made;
use g_graph::{Lambda, Omega, main_index};
use g_pass_order::laws::complete_lists_know_calls;
use g_pass_order::order;
use s_linear::CodeForm;
use std::alloc::Global;

// The number of the function that a program begins with.
fn main_of(omega: &Omega) -> u32
    requires { main_of omega.now < 2 ^ 32 }
    ensures { result ≡ main_of omega.now }
{
    match main_index(&omega.names) {
        Some(index) => index as u32,
        None => 0,
    }
}

// The line of a depth, with a deepest chain of calls from `main` on.
fn push_chain(
    alloc: Global,
    out: &mut Vec<u8>,
    names: &[Name],
    lambdas: &[Lambda],
    depths: &[Option<u64>],
    main: u32,
    depth: u64,
) -> Result<(), NoMemory>
    ensures { OnOk result ((chain : List ℕ)
        × (out.new.items ≡ out.old.items ++ depth_line names.now depth chain)) }
{
    let chain = chain_from(alloc, lambdas, depths, main)?;
    push_depth(out, names, depth, &chain)
}

// The line of a stack that has no bound, with the functions that `main` reaches and that call
// themselves.
fn push_cycles(
    alloc: Global,
    out: &mut Vec<u8>,
    names: &[Name],
    lambdas: &[Lambda],
    main: u32,
) -> Result<(), NoMemory>
    requires few { length lambdas.now < 2 ^ 32 }
    requires known { CallsAreKnown lambdas.now }
    ensures { OnOk result ((fs : List ℕ)
        × (out.new.items ≡ out.old.items ++ recursive_line names.now fs)) }
{
    let order = order(alloc, lambdas)?;
    let recursive = recursive_from(alloc, lambdas, &order.deps, main)?;
    push_recursive(out, names, &recursive)
}

// The line of the stack of a program whose `main` has this number.
fn push_stack_of(
    alloc: Global,
    out: &mut Vec<u8>,
    names: &[Name],
    lambdas: &[Lambda],
    depths: &[Option<u64>],
    main: u32,
) -> Result<(), NoMemory>
    requires few { length lambdas.now < 2 ^ 32 }
    requires known { CallsAreKnown lambdas.now }
    ensures { OnOk result ((line : List ℕ) × IsStackLine names.now (depth_at depths.now main) line
        × (out.new.items ≡ out.old.items ++ line)) }
{
    match depth_at(depths, main as usize) {
        Some(depth) => push_chain(alloc, out, names, lambdas, depths, main, depth),
        None => push_cycles(alloc, out, names, lambdas, main),
    }
}

// The line of the stack of what is made of a source, whose frames have these sizes.
fn push_stack(alloc: Global, out: &mut Vec<u8>, made: &Made, sizes: &[u32]) -> Result<(), NoMemory>
    requires emit { CanEmit made.now.omega (lambdas_of (map arc_value made.now.answers.items)) }
    requires framed { sizes.now ≡ frames Plain (lambdas_of (map arc_value made.now.answers.items)) }
    ensures { OnOk result ((line : List ℕ) × IsStackOf made.now.omega
        (lambdas_of (map arc_value made.now.answers.items)) line
        × (out.new.items ≡ out.old.items ++ line)) }
{
    complete_lists_know_calls();
    let lambdas = lambdas_of(alloc, &made.answers)?;
    let depths = depths(alloc, &lambdas, sizes)?;
    let main = main_of(&made.omega);
    push_stack_of(alloc, out, &made.omega.names, &lambdas, &depths, main)
}

// The bytes of the code of the image.
fn code_bytes(alloc: Global, made: &Made) -> Result<u64, NoMemory>
    requires { CanEmit made.now.omega (lambdas_of (map arc_value made.now.answers.items)) }
    ensures { IfOk result (λ bytes. bytes ≡ length (image_of Plain made.now.omega
        (lambdas_of (map arc_value made.now.answers.items))).text) }
{
    let image = emit(alloc, CodeForm::Plain, &made.answers, &made.omega)?;
    Ok(image.text.len() as u64)
}

/// What is said of a source that is accepted: how many bytes of code its image has, the bytes of
/// the frame of each function, and the depth of the stack of `main` with a deepest chain of calls,
/// or the functions that it reaches and that call themselves. `NoMemory` only where the allocator
/// has none.
pub fn accepted_text(alloc: Global, made: &Made) -> Result<Vec<u8>, NoMemory>
    requires { CanEmit made.now.omega (lambdas_of (map arc_value made.now.answers.items)) }
    ensures { IfOk result (λ text. IsExplained made.now.omega
        (lambdas_of (map arc_value made.now.answers.items)) text.items) }
{
    let mut out = Vec::new(alloc);
    push_code(&mut out, code_bytes(alloc, made)?)?;
    let frames = frames(alloc, &made.answers)?;
    push_frames(&mut out, &made.omega.names, &frames)?;
    push_stack(alloc, &mut out, made, &frames)?;
    Ok(out)
}
