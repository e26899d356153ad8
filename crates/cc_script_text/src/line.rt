//! What the line of a `replace` says.

ghost use Rattle.std.specs.Prelude.{◌≡◌, ◌^◌, min, option_map};
ghost use Rattle.std.specs.List.{list_all};
ghost use Rattle.c_lex.specs.Classes as class;
ghost use Rattle.cc_script_text.specs.Script as spec;

use crate::pieces::cut;
use base::{MOST_NAME_BYTES, MOST_SOURCE_BYTES};

/// The most digits of a length.
const MOST_LENGTH_DIGITS: usize = 7;

fn is_letter(b: u8) -> bool
    ensures { result ≡ class.is_letter b }
{
    (b >= b'a' && b <= b'z') || (b >= b'A' && b <= b'Z') || b == b'_'
}

fn is_digit(b: u8) -> bool
    ensures { result ≡ class.is_digit b }
{
    b >= b'0' && b <= b'9'
}

fn is_name_byte(b: u8) -> bool
    ensures { result ≡ class.is_name_byte b }
{
    is_letter(b) || is_digit(b)
}

fn are_name_bytes(bytes: &[u8]) -> bool
    ensures { result ≡ list_all class.is_name_byte bytes.now }
{
    bytes.iter().all(|b| is_name_byte(*b))
}

fn is_identifier(bytes: &[u8]) -> bool
    ensures { result ≡ spec.is_identifier bytes.now }
{
    match bytes {
        [] => false,
        [first, rest @ ..] => is_letter(*first) && are_name_bytes(rest),
    }
}

fn is_name(bytes: &[u8]) -> bool
    ensures { result ≡ spec.is_name bytes.now }
{
    is_identifier(bytes) && bytes.len() <= MOST_NAME_BYTES
}

fn all_digits(word: &[u8]) -> bool
    ensures { result ≡ list_all class.is_digit word.now }
{
    word.iter().all(|b| is_digit(*b))
}

// Whether the word is 1 to `MOST_LENGTH_DIGITS` digits.
fn are_digits(word: &[u8]) -> bool
    ensures { result ≡ spec.are_digits word.now }
{
    1 <= word.len() && word.len() <= MOST_LENGTH_DIGITS && all_digits(word)
}

// The value of decimal digits, or 10^7 where it is greater.
fn decimal_value(digits: &[u8]) -> usize
    ensures { result ≡ min (10 ^ 7) (spec.decimal_value digits.now) }
{
    let mut value: usize = 0;
    for digit in digits {
        value = (value * 10 + usize::from(digit.saturating_sub(b'0'))).min(10_000_000);
    }
    value
}

// The length of a text that a word says.
fn length_of(word: &[u8]) -> Option<usize>
    ensures { result ≡ spec.length_of word.now }
{
    if !are_digits(word) {
        return None;
    }
    let value = decimal_value(word);
    if value <= MOST_SOURCE_BYTES {
        Some(value)
    } else {
        None
    }
}

// What NAME and LENGTH say.
fn named(words: &[u8]) -> Option<(&[u8], usize)>
    ensures { option_map (λ said. (said.0.now, said.1)) result
        ≡ spec.named (spec.cut 32 words.now) }
{
    let (name, digits) = cut(b' ', words)?;
    if !is_name(name) {
        return None;
    }
    let count = length_of(digits)?;
    Some((name, count))
}

/// The name and the length of the text, where the line is that of a `replace`.
pub(crate) fn replace_of(line: &[u8]) -> Option<(&[u8], usize)>
    ensures { option_map (λ said. (said.0.now, said.1)) result ≡ spec.replace_of line.now }
{
    let (word, words) = cut(b' ', line)?;
    if word == b"replace".as_slice() {
        named(words)
    } else {
        None
    }
}
