//! The integer types.

/// An integer type (ISO/IEC 9899:2011, 6.2.5). `Char` has the range of `UnsignedChar` and is a type
/// apart from it.
#[derive(Clone, Copy, PartialEq, Eq, Debug)]
pub enum Scalar {
    Char,
    SignedChar,
    UnsignedChar,
    Short,
    UnsignedShort,
    Int,
    UnsignedInt,
}
