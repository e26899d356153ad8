//! Operations on words and values. `word OP A B` and `unary OP A` say a word; `value OP A B`,
//! `value1 OP A` and `kept WIDTH A` say a value. A value is a number, `at:N`, which is an address
//! in a block of 12 bytes, or `bad`.

use crate::row::Row;
use base::NoMemory;
use g_text::{binary_named, unary_named};
use val_core::{BlockName, Value, kept, op1, op2, value1, value2};

fn words_of(text: &str) -> Option<u64> {
    let (op, words) = text.split_once(' ')?;
    let (a, b) = words.split_once(' ')?;
    let op = binary_named(op)?;
    Some(u64::from(op2(op, a.parse::<u32>().ok()?, b.parse::<u32>().ok()?)))
}

/// Says what an operation makes of two words.
pub fn word_of_two(row: &mut Row, text: &str) -> Result<(), NoMemory> {
    match words_of(text) {
        Some(word) => row.say_number(word),
        None => row.say("no operation"),
    }
}

fn word_of(text: &str) -> Option<u64> {
    let (op, a) = text.split_once(' ')?;
    Some(u64::from(op1(unary_named(op)?, a.parse::<u32>().ok()?)))
}

/// Says what an operation makes of a word.
pub fn unary_of(row: &mut Row, text: &str) -> Result<(), NoMemory> {
    match word_of(text) {
        Some(word) => row.say_number(word),
        None => row.say("no operation"),
    }
}

fn value_of(text: &str) -> Option<Value> {
    let block = BlockName {
        number: 3,
        size: 12,
    };
    if text == "bad" {
        return Some(Value::Bad);
    }
    match text.strip_prefix("at:") {
        Some(offset) => Some(Value::At {
            block,
            offset: offset.parse::<u32>().ok()?,
        }),
        None => Some(Value::Num(text.parse::<u32>().ok()?)),
    }
}

fn say_value(row: &mut Row, value: Option<Value>) -> Result<(), NoMemory> {
    match value {
        Some(Value::Num(word)) => row.say_number(u64::from(word)),
        Some(Value::At { block: _, offset }) => {
            row.said.push_str("at:")?;
            row.say_number(u64::from(offset))
        }
        Some(Value::Bad) => row.say("bad"),
        None => row.say("none"),
    }
}

fn value_of_words(text: &str) -> Option<Value> {
    let (op, values) = text.split_once(' ')?;
    let (x, y) = values.split_once(' ')?;
    Some(value2(binary_named(op)?, value_of(x)?, value_of(y)?))
}

/// Says what an operation makes of two values.
pub fn value_of_two(row: &mut Row, text: &str) -> Result<(), NoMemory> {
    say_value(row, value_of_words(text))
}

fn value_of_word(text: &str) -> Option<Value> {
    let (op, value) = text.split_once(' ')?;
    Some(value1(unary_named(op)?, value_of(value)?))
}

/// Says what an operation makes of a value.
pub fn value_of_one(row: &mut Row, text: &str) -> Result<(), NoMemory> {
    say_value(row, value_of_word(text))
}

fn kept_value(text: &str) -> Option<Value> {
    let (width, value) = text.split_once(' ')?;
    kept(width.parse::<u8>().ok()?, value_of(value)?)
}

/// Says what a leaf of a width keeps of a value.
pub fn kept_of(row: &mut Row, text: &str) -> Result<(), NoMemory> {
    say_value(row, kept_value(text))
}
