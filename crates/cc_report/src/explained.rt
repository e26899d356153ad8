//! The text that explains a refusal. Where memory is refused in the middle, its beginning is there.

ghost use Rattle.std.specs.Prelude.{◌≡◌, ◌++◌, ◌≤◌, ◌<◌, ◌^◌, OnOk, length, decimal};
ghost use Rattle.cc_report.specs.Explained.{count_text, place_text, refusal_text, rule_text};

use crate::rules::{section, sentence};
use crate::{Refusal, RefusalKind, column, push_excerpt};
use base::NoMemory;
use itoa::Buffer;

fn push(out: &mut Vec<u8>, text: &str) -> Result<(), NoMemory>
    ensures { OnOk result (out.new.items ≡ out.old.items ++ text.now) }
{
    Ok(out.extend_from_slice(text.as_bytes())?)
}

fn push_number(out: &mut Vec<u8>, number: u64) -> Result<(), NoMemory>
    ensures { OnOk result (out.new.items ≡ out.old.items ++ decimal number) }
{
    let mut buffer = Buffer::new();
    push(out, buffer.format(number))
}

fn push_place(out: &mut Vec<u8>, refusal: &Refusal, column: u64) -> Result<(), NoMemory>
    ensures { OnOk result (out.new.items ≡ out.old.items ++ place_text refusal.now column) }
{
    push(out, refusal.kind.name())?;
    push(out, " ")?;
    push_number(out, u64::from(refusal.kind.number()))?;
    push(out, " line ")?;
    push_number(out, refusal.line)?;
    push(out, " column ")?;
    push_number(out, column)
}

fn push_count(out: &mut Vec<u8>, kind: RefusalKind) -> Result<(), NoMemory>
    ensures { OnOk result (out.new.items ≡ out.old.items ++ count_text kind) }
{
    match kind {
        RefusalKind::Limit { which, count } => {
            push(out, " which ")?;
            push_number(out, u64::from(which))?;
            push(out, " count ")?;
            push_number(out, count)
        }
        _ => Ok(()),
    }
}

fn push_rule(out: &mut Vec<u8>, kind: RefusalKind) -> Result<(), NoMemory>
    ensures { OnOk result (out.new.items ≡ out.old.items ++ rule_text kind) }
{
    push(out, sentence(kind))?;
    push(out, "\ndocs/LANGUAGE.md, ")?;
    push(out, section(kind))?;
    push(out, "\n")
}

/// What explains a refusal of a source at this offset goes to the end of the buffer: the name and
/// the number, line and column; the line, with a caret below the byte; when the rule is broken, and
/// the section that has it. `NoMemory` only where the allocator has none; then the beginning of it
/// may be there.
pub fn push_refusal(
    out: &mut Vec<u8>,
    refusal: &Refusal,
    source: &[u8],
    at: usize,
) -> Result<(), NoMemory>
    requires inside { at ≤ length source.now }
    requires small { length source.now < 2 ^ 32 }
    ensures { OnOk result
        (out.new.items ≡ out.old.items ++ refusal_text refusal.now source.now at) }
{
    push_place(out, refusal, column(source, at) as u64)?;
    push_count(out, refusal.kind)?;
    push(out, "\n")?;
    push_excerpt(out, source, at)?;
    push_rule(out, refusal.kind)
}
