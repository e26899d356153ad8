//! The calls of a row, but for those of `commands` and `texts`.
//!
//! `file NAME TEXT` is a file that commands are given from then on. `input NAME` is the input of
//! the commands that follow: what this file holds. `fail FILES INPUT OUTPUT REPORT` says which of
//! their calls fail on the files and on each stream, each a list of numbers with commas between
//! them, counted from 0; another word is an empty list. `whole NAME` says with which file OUT is
//! compared. `#` begins a remark.

use crate::outside::outside;
use crate::row::{Row, bytes_of, split};
use base::NoMemory;

fn put_file(row: &mut Row, words: &str) -> Result<(), NoMemory> {
    let (name, text) = split(words);
    let bytes = bytes_of(row.alloc, text)?;
    row.put_file(name, bytes)
}

fn set_input(row: &mut Row, name: &str) -> Result<(), NoMemory> {
    row.input = row.content(name).to_vec(row.alloc)?;
    Ok(())
}

fn set(text: &mut String, words: &str) -> Result<(), NoMemory> {
    text.clear();
    Ok(text.push_str(words)?)
}

/// Makes a call, a word and what is behind it.
pub fn call(host: &HostRuntime, row: &mut Row, word: &str, rest: &str) -> Result<(), NoMemory> {
    match word {
        "" | "#" => Ok(()),
        "=" => row.want(rest),
        "file" => put_file(row, rest),
        "input" => set_input(row, rest),
        "fail" => set(&mut row.failing, rest),
        "whole" => set(&mut row.whole, rest),
        _ => outside(host, row, word, rest),
    }
}
