//! Sources of rows, which are written in short.

use base::NoMemory;
use std::alloc::Global;

// Appends the text, each `#` in it written as the number.
fn push_numbered(source: &mut String, text: &str, number: u32) -> Result<(), NoMemory> {
    for (i, part) in text.split('#').enumerate() {
        if i > 0 {
            write!(source, "{number}")?;
        }
        source.push_str(part)?;
    }
    Ok(())
}

/// The source of a row. Between two `@` stand a count, a blank and a text, which the source repeats
/// that often; a `#` in it is the number of the turn, from 0.
pub fn source_of(alloc: Global, row: &str) -> Result<String, NoMemory> {
    let mut source = String::new(alloc);
    for (i, chunk) in row.split('@').enumerate() {
        match chunk.split_once(' ') {
            Some((count, text)) if i % 2 == 1 => {
                for turn in 0..count.parse::<u32>().unwrap_or(0) {
                    push_numbered(&mut source, text, turn)?;
                }
            }
            _ => source.push_str(chunk)?,
        }
    }
    Ok(source)
}

/// The length of a source.
pub fn length_of(source: &str) -> u32 {
    u32::try_from(source.len()).unwrap_or(u32::MAX)
}
