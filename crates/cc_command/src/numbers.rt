//! Numbers of the command line.

ghost use Rattle.std.specs.Prelude.{◌≡◌, ◌<◌, ◌≤◌, ◌^◌, min, IfSome};
ghost use Rattle.std.specs.List.{list_all};
ghost use Rattle.cc_command.specs.Command.{digits_value, is_digit, is_number, number_in};

fn are_digits(text: &[u8]) -> bool
    ensures { result ≡ list_all is_digit text.now }
{
    text.iter().all(|b| b.is_ascii_digit())
}

fn is_number(text: &[u8]) -> bool
    ensures { result ≡ is_number text.now }
{
    1 <= text.len() && text.len() <= 20 && are_digits(text)
}

/// The value of decimal digits, or 10^18 where it is greater.
fn digits_value(digits: &[u8]) -> u64
    ensures { result ≡ min (10 ^ 18) (digits_value digits.now) }
{
    let mut value: u64 = 0;
    for digit in digits {
        value = (value * 10 + u64::from(digit.saturating_sub(b'0'))).min(1_000_000_000_000_000_000);
    }
    value
}

/// The number that a text of 1 to 20 decimal digits gives, where it is in this range.
pub fn number_in(least: u64, most: u64, text: &str) -> Option<u64>
    requires ordered { least ≤ most }
    requires small { most < 10 ^ 18 }
    ensures value { result ≡ number_in least most text.now }
    ensures from { IfSome result (λ n. least ≤ n) }
    ensures within { IfSome result (λ n. n ≤ most) }
{
    let digits = text.as_bytes();
    if !is_number(digits) {
        return None;
    }
    let value = digits_value(digits);
    if least <= value && value <= most {
        Some(value)
    } else {
        None
    }
}
