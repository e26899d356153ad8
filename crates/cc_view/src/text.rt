//! The lines of what is said of an image. Where memory is refused in the middle, their beginning
//! is there.

ghost use Rattle.std.specs.Prelude.{◌≡◌, ◌++◌, OnOk, decimal};
ghost use Rattle.cc_view.specs.Explanation.{depth_line, frame_line, frame_lines, names_text, recursive_line, code_line};

use base::{Name, NoMemory};
use cc_view_source::function_name;
use itoa::Buffer;

// The bytes of the stack of an image.
const STACK_SIZE: u64 = 8_388_608;

fn push(out: &mut Vec<u8>, text: &str) -> Result<(), NoMemory>
    ensures { OnOk result (out.new.items ≡ out.old.items ++ text.now) }
{
    Ok(out.extend_from_slice(text.as_bytes())?)
}

fn push_number(out: &mut Vec<u8>, number: u64) -> Result<(), NoMemory>
    ensures { OnOk result (out.new.items ≡ out.old.items ++ decimal number) }
{
    let mut buffer = Buffer::new();
    push(out, buffer.format(number))
}

// The names, each with a blank before it.
fn push_names(out: &mut Vec<u8>, names: &[Name], functions: &[u32]) -> Result<(), NoMemory>
    ensures { OnOk result (out.new.items ≡ out.old.items ++ names_text names.now functions.now) }
{
    for function in functions {
        push(out, " ")?;
        out.extend_from_slice(function_name(names, *function as usize))?;
    }
    Ok(())
}

/// The line of so many bytes of code goes to the end of the buffer.
pub fn push_code(out: &mut Vec<u8>, bytes: u64) -> Result<(), NoMemory>
    ensures { OnOk result (out.new.items ≡ out.old.items ++ code_line bytes) }
{
    push(out, "text ")?;
    push_number(out, bytes)?;
    push(out, "\n")
}

fn push_frame(out: &mut Vec<u8>, size: u32, name: &[u8]) -> Result<(), NoMemory>
    ensures { OnOk result (out.new.items ≡ out.old.items ++ frame_line size name.now) }
{
    push(out, "frame ")?;
    push_number(out, u64::from(size))?;
    push(out, " ")?;
    out.extend_from_slice(name)?;
    push(out, "\n")
}

/// So do the lines of the frames of functions.
pub fn push_frames(out: &mut Vec<u8>, names: &[Name], frames: &[u32]) -> Result<(), NoMemory>
    ensures { OnOk result (out.new.items ≡ out.old.items ++ frame_lines names.now 0 frames.now) }
{
    for (function, size) in frames.iter().enumerate() {
        push_frame(out, *size, function_name(names, function))?;
    }
    Ok(())
}

/// So does the line of a stack of this depth, with a chain of calls.
pub fn push_depth(
    out: &mut Vec<u8>,
    names: &[Name],
    depth: u64,
    chain: &[u32],
) -> Result<(), NoMemory>
    ensures { OnOk result (out.new.items ≡ out.old.items ++ depth_line names.now depth chain.now) }
{
    push(out, "stack ")?;
    push_number(out, depth)?;
    push(out, " of ")?;
    push_number(out, STACK_SIZE)?;
    push(out, ":")?;
    push_names(out, names, chain)?;
    push(out, "\n")
}

/// So does the line of a stack that has no bound, with the functions that call themselves.
pub fn push_recursive(out: &mut Vec<u8>, names: &[Name], functions: &[u32]) -> Result<(), NoMemory>
    ensures { OnOk result (out.new.items ≡ out.old.items ++ recursive_line names.now functions.now) }
{
    push(out, "stack recursive:")?;
    push_names(out, names, functions)?;
    push(out, "\n")
}
