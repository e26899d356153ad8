//! The text of a table. Where memory is refused in the middle, its beginning is there.

ghost use Rattle.std.specs.Prelude.{◌≡◌, ◌++◌, OnOk, decimal};
ghost use Rattle.cc_view_source.specs.Tables.{head_text, row_text, rows_text, table_text};

use base::NoMemory;
use g_pass::SweepCount;
use itoa::Buffer;
use r_rule::rule_name;

fn push(out: &mut Vec<u8>, text: &str) -> Result<(), NoMemory>
    ensures { OnOk result (out.new.items ≡ out.old.items ++ text.now) }
{
    Ok(out.extend_from_slice(text.as_bytes())?)
}

fn push_number(out: &mut Vec<u8>, number: u64) -> Result<(), NoMemory>
    ensures { OnOk result (out.new.items ≡ out.old.items ++ decimal number) }
{
    let mut buffer = Buffer::new();
    push(out, buffer.format(number))
}

fn push_row(out: &mut Vec<u8>, number: u64, count: &SweepCount) -> Result<(), NoMemory>
    ensures { OnOk result (out.new.items ≡ out.old.items ++ row_text number count.now) }
{
    push_number(out, number)?;
    push(out, " ")?;
    push(out, rule_name(count.rule))?;
    push(out, " ")?;
    push_number(out, count.visited as u64)?;
    push(out, " ")?;
    push_number(out, count.steps as u64)?;
    push(out, " ")?;
    push_number(out, count.before)?;
    push(out, " ")?;
    push_number(out, count.after)?;
    push(out, "\n")
}

fn push_rows(out: &mut Vec<u8>, counts: &[SweepCount]) -> Result<(), NoMemory>
    ensures { OnOk result (out.new.items ≡ out.old.items ++ rows_text 1 counts.now) }
{
    for (index, count) in counts.iter().enumerate() {
        push_row(out, index as u64 + 1, count)?;
    }
    Ok(())
}

fn push_head(out: &mut Vec<u8>, name: &[u8]) -> Result<(), NoMemory>
    ensures { OnOk result (out.new.items ≡ out.old.items ++ head_text name.now) }
{
    push(out, "function ")?;
    out.extend_from_slice(name)?;
    push(out, "\nsweep rule nodes steps before after\n")
}

/// The table of the function of this name goes to the end of the buffer.
pub fn push_table(out: &mut Vec<u8>, name: &[u8], counts: &[SweepCount]) -> Result<(), NoMemory>
    ensures { OnOk result (out.new.items ≡ out.old.items ++ table_text name.now counts.now) }
{
    push_head(out, name)?;
    push_rows(out, counts)
}
