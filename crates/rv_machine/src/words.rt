//! The operations on 32-bit words that Rust has under no name of its own.

ghost use Rattle.std.specs.Prelude.{◌≡◌, ◌^◌, ◌<◌};
ghost use Rattle.rv_isa.specs.Formats.{sign_extended};
ghost use Rattle.rv_machine.specs.Words as word;

/// Whether `a` is less than `b`, both signed.
pub(crate) fn is_less(a: u32, b: u32) -> bool
    ensures { result ≡ word.is_less a b }
{
    a.cast_signed() < b.cast_signed()
}

/// `a` shifted right by the low five bits of `b`, filling with the sign.
pub(crate) fn sra(a: u32, b: u32) -> u32
    ensures { result ≡ word.sra a b }
{
    (a.cast_signed() >> (b % 32)).cast_unsigned()
}

/// The high word of the product, both signed.
pub(crate) fn mulh(a: u32, b: u32) -> u32
    ensures { result ≡ word.mulh a b }
{
    let product = i64::from(a.cast_signed()) * i64::from(b.cast_signed());
    (product.cast_unsigned() >> 32) as u32
}

/// The high word of the product, `a` signed and `b` unsigned.
pub(crate) fn mulhsu(a: u32, b: u32) -> u32
    ensures { result ≡ word.mulhsu a b }
{
    let product = i64::from(a.cast_signed()) * i64::from(b);
    (product.cast_unsigned() >> 32) as u32
}

/// The high word of the product, both unsigned.
pub(crate) fn mulhu(a: u32, b: u32) -> u32
    ensures { result ≡ word.mulhu a b }
{
    ((u64::from(a) * u64::from(b)) >> 32) as u32
}

/// The quotient, signed, rounded towards zero.
pub(crate) fn div(a: u32, b: u32) -> u32
    ensures { result ≡ word.div a b }
{
    if b == 0 {
        return u32::MAX;
    }
    a.cast_signed()
        .wrapping_div(b.cast_signed())
        .cast_unsigned()
}

/// The quotient, unsigned.
pub(crate) fn divu(a: u32, b: u32) -> u32
    ensures { result ≡ word.divu a b }
{
    if b == 0 { u32::MAX } else { a / b }
}

/// The remainder, signed.
pub(crate) fn rem(a: u32, b: u32) -> u32
    ensures { result ≡ word.rem a b }
{
    if b == 0 {
        return a;
    }
    a.cast_signed()
        .wrapping_rem(b.cast_signed())
        .cast_unsigned()
}

/// The remainder, unsigned.
pub(crate) fn remu(a: u32, b: u32) -> u32
    ensures { result ≡ word.remu a b }
{
    if b == 0 { a } else { a % b }
}

/// The word whose low 8 bits are those of `byte`, and whose other bits are its sign.
pub(crate) fn sign_extended_byte(byte: u32) -> u32
    requires { byte < 2 ^ 8 }
    ensures { result ≡ sign_extended 8 byte }
{
    byte + (byte >> 7) * 0xffff_ff00
}

/// The word whose low 16 bits are those of `half`, and whose other bits are its sign.
pub(crate) fn sign_extended_half(half: u32) -> u32
    requires { half < 2 ^ 16 }
    ensures { result ≡ sign_extended 16 half }
{
    half + (half >> 15) * 0xffff_0000
}
