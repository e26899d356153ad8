//! The classes of bytes.

ghost use Rattle.std.specs.Prelude.{◌≡◌};
ghost use Rattle.c_lex.specs.Classes as spec;

pub(crate) fn is_digit(b: u8) -> bool
    ensures { result ≡ spec.is_digit b }
{
    b >= b'0' && b <= b'9'
}

pub(crate) fn is_octal_digit(b: u8) -> bool
    ensures { result ≡ spec.is_octal_digit b }
{
    b >= b'0' && b <= b'7'
}

pub(crate) fn is_hex_digit(b: u8) -> bool
    ensures { result ≡ spec.is_hex_digit b }
{
    is_digit(b) || (b >= b'a' && b <= b'f') || (b >= b'A' && b <= b'F')
}

/// A letter or `_`.
pub(crate) fn is_letter(b: u8) -> bool
    ensures { result ≡ spec.is_letter b }
{
    (b >= b'a' && b <= b'z') || (b >= b'A' && b <= b'Z') || b == b'_'
}

/// What a name goes on with.
pub(crate) fn is_name_byte(b: u8) -> bool
    ensures { result ≡ spec.is_name_byte b }
{
    is_letter(b) || is_digit(b)
}

/// What a number goes on with.
pub(crate) fn is_number_byte(b: u8) -> bool
    ensures { result ≡ spec.is_number_byte b }
{
    is_name_byte(b) || b == b'.'
}

/// A blank that ends no line.
pub(crate) fn is_inner_blank(b: u8) -> bool
    ensures { result ≡ spec.is_inner_blank b }
{
    b == b' ' || b == b'\t' || (b >= 11 && b <= 13)
}
