//! The type of a link: the address of a global that stands in another global.

/// The address of a global, by its index in the list, that stands in the four bytes at an offset.
#[derive(Clone, Copy, PartialEq, Eq, Debug)]
pub struct Link {
    pub at: u32,
    pub delta: u32,
}
