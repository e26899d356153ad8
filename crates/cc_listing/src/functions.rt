//! The listing of functions.

ghost use Rattle.std.specs.Prelude.{◌≡◌, ◌++◌, ◌+◌, ◌*◌, ◌<◌, ◌≤◌, ◌^◌, length, IfOk, OnOk};
ghost use Rattle.s_linear.specs.Frame.{frame_size};
ghost use Rattle.rv_layout.specs.Items.{items_size};
ghost use Rattle.s_select.specs.Conditions.{CanSelect};
ghost use Rattle.s_select.specs.Templates.{items_of};
ghost use Rattle.s_linear.specs.declared.frame.CodeForm.TheVariants.{Plain};
ghost use Rattle.cc_emit.specs.Image.{code_size};
ghost use Rattle.cc_emit.specs.Laws.{IsFunction};
ghost use Rattle.cc_listing.specs.Lines.{function_text, global_text, head_text, place_text, placed_text, places_text};

use crate::lines::push_lines;
use crate::push::{push, push_bytes, push_number};
use crate::symbols::{push_foot, push_symbol};
use a_place::{frame, place};
use base::{Name, NoMemory};
use g_graph::{Lambda, Object};
use s_linear::{Frame, Linear, Places};
use s_select::{Function, offsets_from};
use s_sequence::sequence;
use std::alloc::Global;

fn push_place(out: &mut Vec<u8>, name: usize, place: u32) -> Result<(), NoMemory>
    ensures { OnOk result (out.new.items ≡ out.old.items ++ place_text name place) }
{
    push(out, " n")?;
    push_number(out, name as u64)?;
    push(out, ":")?;
    push_number(out, u64::from(place))
}

fn push_places(out: &mut Vec<u8>, places: &[u32]) -> Result<(), NoMemory>
    ensures { OnOk result (out.new.items ≡ out.old.items ++ places_text 0 places.now) }
{
    for (name, place) in places.iter().enumerate() {
        push_place(out, name, *place)?;
    }
    push(out, "\n")
}

// The symbol of a function that others see.
fn push_global(out: &mut Vec<u8>, name: &[u8]) -> Result<(), NoMemory>
    ensures { OnOk result (out.new.items ≡ out.old.items ++ global_text name.now) }
{
    push(out, "\t.globl\t\"")?;
    push_bytes(out, name)?;
    push(out, "\"\n")?;
    push_symbol(out, name)
}

// What stands before the lines: the frame, the places and the symbol.
fn push_head(out: &mut Vec<u8>, name: &[u8], size: u32, places: &[u32]) -> Result<(), NoMemory>
    ensures { OnOk result (out.new.items ≡ out.old.items ++ head_text name.now size places.now) }
{
    push(out, "\n# frame ")?;
    push_number(out, u64::from(size))?;
    push(out, ", places")?;
    push_places(out, places)?;
    push_global(out, name)
}

// The listing of the function of this name and linear code, whose words come first among these. A
// function that it calls goes by its name among the names. The address after its words.
fn push_placed(
    out: &mut Vec<u8>,
    alloc: Global,
    names: &[Name],
    name: &[u8],
    linear: &Linear,
    places: &Places,
    frame: &Frame,
    objects: &[Object],
    at: u32,
    words: &[u32],
) -> Result<u32, NoMemory>
    requires select { CanSelect linear.now places.now frame.now objects.now }
    requires fits { frame_size places.now.count objects.now < 2 ^ 32 }
    requires whole { items_size (items_of places.now objects.now linear.now) ≤ 4 * length
        words.now }
    requires end { at + items_size (items_of places.now objects.now linear.now) < 2 ^ 32 }
    ensures end { IfOk result (λ end.
        end ≡ at + items_size (items_of places.now objects.now linear.now)) }
    ensures text { OnOk result (out.new.items ≡ out.old.items ++ placed_text names.now name.now
        places.now objects.now linear.now at words.now) }
{
    let offsets = offsets_from(alloc, frame.objects_at, objects)?;
    let function = Function {
        places,
        objects,
        offsets: &offsets,
        size: frame.size,
    };
    push_head(out, name, frame.size, &places.of)?;
    let end = push_lines(out, names, &function, &linear.lines, at, words)?;
    push_foot(out, name)?;
    Ok(end)
}

/// The listing of the function of this name and lambda, whose words come first among these. A
/// function that it calls goes by its name among the names. The address after its words.
pub(crate) fn push_function(
    out: &mut Vec<u8>,
    alloc: Global,
    names: &[Name],
    name: &[u8],
    lambda: &Lambda,
    at: u32,
    words: &[u32],
) -> Result<u32, NoMemory>
    requires function { IsFunction lambda.now }
    requires whole { code_size Plain lambda.now ≤ 4 * length words.now }
    requires end { at + code_size Plain lambda.now < 2 ^ 32 }
    ensures end { IfOk result (λ end. end ≡ at + code_size Plain lambda.now) }
    ensures text { OnOk result (out.new.items
        ≡ out.old.items ++ function_text names.now name.now lambda.now at words.now) }
{
    let linear = sequence(alloc, lambda)?;
    let places = place(alloc, &linear)?;
    let frame = frame(&places, &lambda.objects);
    push_placed(
        out,
        alloc,
        names,
        name,
        &linear,
        &places,
        &frame,
        &lambda.objects,
        at,
        words,
    )
}
