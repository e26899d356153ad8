//! Leaves: the parts of a type that hold one scalar each.

/// A place of a type that holds one scalar: its byte offset from the object's start, and its width
/// in bytes, which is 1, 2 or 4 in every type of the language (ISO/IEC 9899:2011, 6.2.6.1).
#[derive(Clone, Copy, PartialEq, Eq, Debug)]
pub struct Leaf {
    pub offset: u32,
    pub width: u8,
}
