//! The image of a program.

ghost use Rattle.std.specs.Prelude.{◌≡◌, ◌<◌, ◌^◌, map, IfOk};
ghost use Rattle.std.specs.Arc.{arc_value};
ghost use Rattle.elf_file.specs.Image.{sections_of, IsPlaced};
ghost use Rattle.elf_file.specs.Written.{file_of};
ghost use Rattle.rv_layout.specs.Layout.{item_lists};
ghost use Rattle.cc_emit.specs.Image.{image_of, lambdas_of, main_of, CanEmit};
ghost use Rattle.cc_emit.specs.Images.{KeepsLambdas};
ghost use Rattle.cc_emit.specs.Items.{image_of_items, CanEmitItems};

use crate::functions::all_items;
use base::NoMemory;
use elf_file::Image;
use g_graph::{Omega, main_index};
use r_rule::Optimised;
use rv_layout::{Item, lay};
use s_linear::CodeForm;
use std::alloc::Global;
use std::sync::Arc;

/// The number of the function that a program begins with.
fn main_of(omega: &Omega) -> u32
    requires { main_of omega.now < 2 ^ 32 }
    ensures { result ≡ main_of omega.now }
{
    match main_index(&omega.names) {
        Some(index) => index as u32,
        None => 0,
    }
}

/// The image of a program of whose functions these are the items, with the globals of the program.
/// It takes time n log n in the items of each function, and linear in all else. `NoMemory` only
/// where the allocator has none.
pub fn emit_items(alloc: Global, functions: &[Vec<Item>], omega: &Omega) -> Result<Image, NoMemory>
    requires { CanEmitItems omega.now (item_lists functions.now) }
    ensures image { IfOk result (λ image.
        sections_of image ≡ image_of_items omega.now (item_lists functions.now)) }
    ensures placed { IfOk result (λ image. IsPlaced (sections_of image)) }
{
    crate::image_laws::image_is_placed();
    lay(alloc, functions, &omega.deltas, main_of(omega))
}

/// The image of a program: the functions that these lambdas are, in the order of the source, and
/// the globals of the program, in this form. Its file keeps the behaviour of the lambdas: on every input on which
/// no bound makes them undefined it does on the machine what they do, or stops for want of stack.
/// It takes time n log n in the values of each function, and linear in all else. `NoMemory` only
/// where the allocator has none.
pub fn emit(
    alloc: Global,
    form: CodeForm,
    answers: &[Arc<Optimised>],
    omega: &Omega,
) -> Result<Image, NoMemory>
    requires { CanEmit omega.now (lambdas_of (map arc_value answers.now)) }
    ensures image { IfOk result (λ image.
        sections_of image ≡ image_of form omega.now (lambdas_of (map arc_value answers.now))) }
    ensures placed { IfOk result (λ image. IsPlaced (sections_of image)) }
    ensures kept { IfOk result (λ image. KeepsLambdas form omega.now
        (lambdas_of (map arc_value answers.now)) (file_of (sections_of image))) }
{
    crate::laws::images_keep_meaning();
    let functions = all_items(alloc, form, answers)?;
    emit_items(alloc, &functions, omega)
}
