//! How many bytes at the front of a text are of a class.

ghost use Rattle.std.specs.Prelude.{◌≡◌, ◌≤◌, length};
ghost use Rattle.std.specs.List.{prefix_len, position_or_len};
ghost use Rattle.c_lex.specs.Classes as class;
ghost use Rattle.c_lex.specs.Digits as digit;

use crate::classes::{is_inner_blank, is_name_byte, is_number_byte};
use crate::digits::is_digit_in;

pub(crate) fn identifier_len(text: &[u8]) -> usize
    ensures run { result ≡ prefix_len class.is_name_byte text.now }
    ensures within { result ≤ length text.now }
{
    text.iter()
        .position(|b| !is_name_byte(*b))
        .unwrap_or(text.len())
}

pub(crate) fn number_len(text: &[u8]) -> usize
    ensures run { result ≡ prefix_len class.is_number_byte text.now }
    ensures within { result ≤ length text.now }
{
    text.iter()
        .position(|b| !is_number_byte(*b))
        .unwrap_or(text.len())
}

pub(crate) fn blanks_len(text: &[u8]) -> usize
    ensures run { result ≡ prefix_len class.is_inner_blank text.now }
    ensures within { result ≤ length text.now }
{
    text.iter()
        .position(|b| !is_inner_blank(*b))
        .unwrap_or(text.len())
}

/// How many digits of the base stand at the front.
pub(crate) fn digits_len(base: u32, text: &[u8]) -> usize
    ensures run { result ≡ prefix_len (digit.is_digit_in base) text.now }
    ensures within { result ≤ length text.now }
{
    text.iter()
        .position(|b| !is_digit_in(base, *b))
        .unwrap_or(text.len())
}

/// How many bytes the first line has.
pub(crate) fn line_len(text: &[u8]) -> usize
    ensures run { result ≡ position_or_len class.is_line_end text.now }
    ensures within { result ≤ length text.now }
{
    text.iter().position(|b| *b == b'\n').unwrap_or(text.len())
}
