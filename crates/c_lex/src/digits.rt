//! Digits and their values.

ghost use Rattle.std.specs.Prelude.{◌≡◌, ◌<◌, ◌^◌, SomeIff};
ghost use Rattle.c_lex.specs.Digits as spec;

use crate::classes::{is_digit, is_hex_digit};

fn digit_value(b: u8) -> u32
    ensures { result ≡ spec.digit_value b }
{
    if is_digit(b) {
        u32::from(b - b'0')
    } else if b >= b'a' && b <= b'f' {
        u32::from(b - b'a') + 10
    } else {
        u32::from(b.saturating_sub(b'A' - 10))
    }
}

pub(crate) fn is_digit_in(base: u32, b: u8) -> bool
    ensures { result ≡ spec.is_digit_in base b }
{
    is_hex_digit(b) && digit_value(b) < base
}

/// The value of digits, where it is below 2^32.
#[tactic(auto, using(crate::proofs::Scans::value_step, crate::proofs::Scans::value_all, crate::proofs::Scans::value_over))]
pub(crate) fn digits_value(base: u32, digits: &[u8]) -> Option<u32>
    requires { 0 < base }
    ensures { let v = spec.digits_value base digits.now in SomeIff result (v < 2 ^ 32) v }
{
    let mut value: u32 = 0;
    for d in digits {
        value = value.checked_mul(base)?.checked_add(digit_value(*d))?;
    }
    Some(value)
}
