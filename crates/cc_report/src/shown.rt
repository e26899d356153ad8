//! What is shown of a line.

ghost use Rattle.std.specs.Prelude.{◌≡◌, ◌+◌, ◌++◌, ◌≤◌, ◌<◌, ◌^◌, OnOk, length, map};
ghost use Rattle.cc_report.specs.Excerpt.{below, excerpt, left_of, right_of, shown, two_lines};

use crate::lines::{after, before};
use base::NoMemory;

fn push(out: &mut Vec<u8>, text: &str) -> Result<(), NoMemory>
    ensures { OnOk result (out.new.items ≡ out.old.items ++ text.now) }
{
    Ok(out.extend_from_slice(text.as_bytes())?)
}

fn shown(byte: u8) -> u8
    ensures { result ≡ shown byte }
{
    if byte == b'\t' || (32 <= byte && byte <= 126) {
        byte
    } else {
        b'.'
    }
}

fn below(byte: u8) -> u8
    ensures { result ≡ below byte }
{
    if byte == b'\t' { b'\t' } else { b' ' }
}

fn push_shown(out: &mut Vec<u8>, bytes: &[u8]) -> Result<(), NoMemory>
    ensures { OnOk result (out.new.items ≡ out.old.items ++ map shown bytes.now) }
{
    for byte in bytes {
        out.push(shown(*byte))?;
    }
    Ok(())
}

fn push_below(out: &mut Vec<u8>, bytes: &[u8]) -> Result<(), NoMemory>
    ensures { OnOk result (out.new.items ≡ out.old.items ++ map below bytes.now) }
{
    for byte in bytes {
        out.push(below(*byte))?;
    }
    Ok(())
}

fn push_two_lines(out: &mut Vec<u8>, earlier: &[u8], later: &[u8]) -> Result<(), NoMemory>
    ensures { OnOk result (out.new.items ≡ out.old.items ++ two_lines earlier.now later.now) }
{
    push_shown(out, earlier)?;
    push_shown(out, later)?;
    push(out, "\n")?;
    push_below(out, earlier)?;
    push(out, "^\n")
}

fn push_part(out: &mut Vec<u8>, earlier: &[u8], later: &[u8]) -> Result<(), NoMemory>
    requires { length earlier.now + length later.now < 2 ^ 64 }
    ensures { OnOk result (out.new.items ≡ out.old.items
        ++ two_lines (left_of earlier.now later.now) (right_of earlier.now later.now)) }
{
    if earlier.len() + later.len() > 100 {
        let from = earlier.len().saturating_sub(50);
        let to = later.len().min(50);
        push_two_lines(out, &earlier[from..], &later[..to])
    } else {
        push_two_lines(out, earlier, later)
    }
}

/// The line of an offset goes to the end of the buffer, and a line with a caret below the byte
/// there. `NoMemory` only where the allocator has none; then the beginning of it may be there. It
/// takes time linear in the text up to the end of the line.
pub fn push_excerpt(out: &mut Vec<u8>, source: &[u8], at: usize) -> Result<(), NoMemory>
    requires inside { at ≤ length source.now }
    requires small { length source.now < 2 ^ 32 }
    ensures { OnOk result (out.new.items ≡ out.old.items ++ excerpt source.now at) }
{
    push_part(out, before(source, at), after(source, at))
}
