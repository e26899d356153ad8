//! Pieces of texts. Where memory is refused in the middle of a text, its beginning is there.

ghost use Rattle.std.specs.Prelude.{◌≡◌, ◌++◌, flat_map, OnOk, OnErr};
ghost use Rattle.r_rule.specs.Names.{rule_name};
ghost use Rattle.cc_watch.specs.Texts.{head_text, number_text, row_text, step_text, log_text, Extends};

use crate::Row;
use base::NoMemory;
use itoa::Buffer;
use r_rule::{Rule, Step, rule_name};

/// Appends bytes.
pub fn push_bytes(out: &mut Vec<u8>, bytes: &[u8]) -> Result<(), NoMemory>
    ensures ok { OnOk result (out.new.items ≡ out.old.items ++ bytes.now) }
    ensures err { OnErr result (Extends out.old.items out.new.items) }
{
    Ok(out.extend_from_slice(bytes)?)
}

/// Appends a blank and a number in decimal.
pub fn push_number(out: &mut Vec<u8>, number: u32) -> Result<(), NoMemory>
    ensures ok { OnOk result (out.new.items ≡ out.old.items ++ number_text number) }
    ensures err { OnErr result (Extends out.old.items out.new.items) }
{
    push_bytes(out, b" ")?;
    let mut buffer = Buffer::new();
    push_bytes(out, buffer.format(number).as_bytes())
}

fn push_step(out: &mut Vec<u8>, step: Step) -> Result<(), NoMemory>
    ensures ok { OnOk result (out.new.items ≡ out.old.items ++ step_text step) }
    ensures err { OnErr result (Extends out.old.items out.new.items) }
{
    push_bytes(out, rule_name(step.rule).as_bytes())?;
    push_number(out, step.node)?;
    push_bytes(out, b"\n")
}

fn push_head(out: &mut Vec<u8>, row: &Row) -> Result<(), NoMemory>
    ensures ok { OnOk result (out.new.items ≡ out.old.items ++ head_text row.now) }
    ensures err { OnErr result (Extends out.old.items out.new.items) }
{
    push_bytes(out, b"function ")?;
    push_bytes(out, row.name.as_slice())?;
    push_number(out, row.before)?;
    push_number(out, row.after)?;
    push_bytes(out, b"\n")
}

fn push_steps(out: &mut Vec<u8>, steps: &[Step]) -> Result<(), NoMemory>
    ensures ok { OnOk result (out.new.items ≡ out.old.items ++ flat_map step_text steps.now) }
    ensures err { OnErr result (Extends out.old.items out.new.items) }
{
    for step in steps {
        push_step(out, *step)?;
    }
    Ok(())
}

fn push_row(out: &mut Vec<u8>, row: &Row) -> Result<(), NoMemory>
    ensures ok { OnOk result (out.new.items ≡ out.old.items ++ row_text row.now) }
    ensures err { OnErr result (Extends out.old.items out.new.items) }
{
    push_head(out, row)?;
    push_steps(out, row.steps.as_slice())
}

/// Appends the log of these rows.
pub fn push_log(out: &mut Vec<u8>, rows: &[Row]) -> Result<(), NoMemory>
    ensures ok { OnOk result (out.new.items ≡ out.old.items ++ log_text rows.now) }
    ensures err { OnErr result (Extends out.old.items out.new.items) }
{
    for row in rows {
        push_row(out, row)?;
    }
    Ok(())
}
