//! Dimensions of declarators.

/// A dimension of a declarator (ISO/IEC 9899:2011, 6.7.6.2).
#[derive(Clone, Copy, PartialEq, Eq, Debug)]
pub enum Dimension {
    /// It is left empty.
    Empty,
    /// It has a size, or breaks a rule.
    Sized(Option<u32>),
}
