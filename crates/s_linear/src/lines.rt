//! Lines. Where memory is refused in the middle of a text, its beginning is there.

ghost use Rattle.std.specs.Prelude.{◌≡◌, ◌++◌, [], ◌∷◌, OnOk, codes, decimal};
ghost use Rattle.s_linear.specs.Views.{instr_of, line_of};
ghost use Rattle.s_linear.specs.Texts.{instr_text, label_text, line_text, names_text, numbered, target_text};

use crate::{Instr, Line};
use base::NoMemory;
use g_text::{binary_name, unary_name};
use itoa::Buffer;

fn push(out: &mut Vec<u8>, text: &str) -> Result<(), NoMemory>
    ensures { OnOk result (out.new.items ≡ out.old.items ++ text.now) }
{
    Ok(out.extend_from_slice(text.as_bytes())?)
}

fn push_number(out: &mut Vec<u8>, number: u32) -> Result<(), NoMemory>
    ensures { OnOk result (out.new.items ≡ out.old.items ++ decimal number) }
{
    let mut buffer = Buffer::new();
    push(out, buffer.format(u64::from(number)))
}

// A word, a blank and a number.
fn push_numbered(out: &mut Vec<u8>, word: &str, number: u32) -> Result<(), NoMemory>
    ensures { OnOk result (out.new.items ≡ out.old.items ++ numbered word.now number) }
{
    push(out, word)?;
    push(out, " ")?;
    push_number(out, number)
}

// Each with a blank before it.
fn push_names(out: &mut Vec<u8>, names: &[u32]) -> Result<(), NoMemory>
    ensures { OnOk result (out.new.items ≡ out.old.items ++ names_text names.now) }
{
    for name in names {
        push(out, " n")?;
        push_number(out, *name)?;
    }
    Ok(())
}

fn push_label(out: &mut Vec<u8>, label: u32) -> Result<(), NoMemory>
    ensures { OnOk result (out.new.items ≡ out.old.items ++ label_text label) }
{
    push(out, " L")?;
    push_number(out, label)
}

fn push_target(out: &mut Vec<u8>, target: u32) -> Result<(), NoMemory>
    ensures { OnOk result (out.new.items ≡ out.old.items ++ target_text target) }
{
    push(out, "n")?;
    push_number(out, target)?;
    push(out, " = ")
}

// The target, and a word with a number behind it.
fn push_made(out: &mut Vec<u8>, target: u32, word: &str, number: u32) -> Result<(), NoMemory>
    ensures { OnOk result
        (out.new.items ≡ out.old.items ++ target_text target ++ numbered word.now number) }
{
    push_target(out, target)?;
    push_numbered(out, word, number)
}

// The target, and a word.
fn push_alone(out: &mut Vec<u8>, target: u32, word: &str) -> Result<(), NoMemory>
    ensures { OnOk result (out.new.items ≡ out.old.items ++ target_text target ++ word.now) }
{
    push_target(out, target)?;
    push(out, word)
}

// A word, and the names that are read.
fn push_read(out: &mut Vec<u8>, word: &str, names: &[u32]) -> Result<(), NoMemory>
    ensures { OnOk result (out.new.items ≡ out.old.items ++ word.now ++ names_text names.now) }
{
    push(out, word)?;
    push_names(out, names)
}

// The target, a word, and the names that are read.
fn push_result(out: &mut Vec<u8>, target: u32, word: &str, names: &[u32]) -> Result<(), NoMemory>
    ensures { OnOk result
        (out.new.items ≡ out.old.items ++ target_text target ++ word.now ++ names_text names.now) }
{
    push_target(out, target)?;
    push_read(out, word, names)
}

fn push_load(out: &mut Vec<u8>, width: u8, target: u32, address: u32) -> Result<(), NoMemory>
    ensures { OnOk result (out.new.items ≡ out.old.items ++ target_text target
        ++ numbered (codes "Load") width ++ names_text (address ∷ [])) }
{
    push_made(out, target, "Load", u32::from(width))?;
    push_names(out, &[address])
}

fn push_store(out: &mut Vec<u8>, width: u8, address: u32, value: u32) -> Result<(), NoMemory>
    ensures { OnOk result (out.new.items ≡ out.old.items
        ++ numbered (codes "Store") width ++ names_text (address ∷ value ∷ [])) }
{
    push_numbered(out, "Store", u32::from(width))?;
    push_names(out, &[address, value])
}

fn push_call(
    out: &mut Vec<u8>,
    function: u32,
    target: u32,
    arguments: &[u32],
) -> Result<(), NoMemory>
    ensures { OnOk result (out.new.items ≡ out.old.items ++ target_text target
        ++ numbered (codes "Apply") function ++ names_text arguments.now) }
{
    push_made(out, target, "Apply", function)?;
    push_names(out, arguments)
}

fn push_instr(out: &mut Vec<u8>, instr: &Instr) -> Result<(), NoMemory>
    ensures { OnOk result (out.new.items ≡ out.old.items ++ instr_text (instr_of instr.now)) }
{
    match instr {
        Instr::Const { target, word } => push_made(out, *target, "Const", *word),
        Instr::Undef { target } => push_alone(out, *target, "Undef"),
        Instr::ObjectAddress { target, number } => push_made(out, *target, "Local", *number),
        Instr::GlobalAddress { target, number } => push_made(out, *target, "Delta", *number),
        Instr::Binary {
            op,
            target,
            left,
            right,
        } => push_result(out, *target, binary_name(*op), &[*left, *right]),
        Instr::Unary { op, target, input } => {
            push_result(out, *target, unary_name(*op), &[*input])
        }
        Instr::Load {
            width,
            target,
            address,
        } => push_load(out, *width, *target, *address),
        Instr::Store {
            width,
            address,
            value,
        } => push_store(out, *width, *address, *value),
        Instr::Clear { number } => push_numbered(out, "Clear", *number),
        Instr::EqualPointers {
            target,
            left,
            right,
        } => push_result(out, *target, "PtrEq", &[*left, *right]),
        Instr::Move { target, source } => push_result(out, *target, "Move", &[*source]),
        Instr::Call {
            function,
            target,
            arguments,
        } => push_call(out, *function, *target, arguments),
        Instr::Put { byte } => push_read(out, "Put", &[*byte]),
        Instr::Get { target } => push_alone(out, *target, "Get"),
        Instr::Exit { status } => push_read(out, "Exit", &[*status]),
    }
}

// A word, a predicate and a label.
fn push_branch(out: &mut Vec<u8>, word: &str, predicate: u32, label: u32) -> Result<(), NoMemory>
    ensures { OnOk result (out.new.items ≡ out.old.items
        ++ word.now ++ names_text (predicate ∷ []) ++ label_text label) }
{
    push_read(out, word, &[predicate])?;
    push_label(out, label)
}

fn push_branch_equal(
    out: &mut Vec<u8>,
    predicate: u32,
    number: u32,
    label: u32,
) -> Result<(), NoMemory>
    ensures { OnOk result (out.new.items ≡ out.old.items
        ++ numbered (codes "BranchEqual" ++ names_text (predicate ∷ [])) number
        ++ label_text label) }
{
    push_read(out, "BranchEqual", &[predicate])?;
    push(out, " ")?;
    push_number(out, number)?;
    push_label(out, label)
}

// A word and a label.
fn push_labelled(out: &mut Vec<u8>, word: &str, label: u32) -> Result<(), NoMemory>
    ensures { OnOk result (out.new.items ≡ out.old.items ++ word.now ++ label_text label) }
{
    push(out, word)?;
    push_label(out, label)
}

/// The text of a line goes to the end of the buffer. `NoMemory` only where the allocator has none;
/// then the beginning of it may be there.
pub fn push_line(out: &mut Vec<u8>, line: &Line) -> Result<(), NoMemory>
    ensures { OnOk result (out.new.items ≡ out.old.items ++ line_text (line_of line.now)) }
{
    match line {
        Line::Enter { params } => push_read(out, "Enter", params),
        Line::Leave { value } => push_read(out, "Leave", &[*value]),
        Line::Done { instr } => push_instr(out, instr),
        Line::BranchNotZero { predicate, label } => {
            push_branch(out, "BranchNotZero", *predicate, *label)
        }
        Line::BranchZero { predicate, label } => {
            push_branch(out, "BranchZero", *predicate, *label)
        }
        Line::BranchEqual {
            predicate,
            number,
            label,
        } => push_branch_equal(out, *predicate, *number, *label),
        Line::Jump { label } => push_labelled(out, "Jump", *label),
        Line::Label { number } => push_labelled(out, "Label", *number),
    }
}
