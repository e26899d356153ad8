//! Identifiers, and the offsets at which tokens stand in the source.

use base::Name;

/// Where a token stands: the spans of its first byte and of the byte after its last.
#[derive(Clone, Copy)]
pub struct Span {
    pub at: u32,
    pub end: u32,
}

/// An identifier and where it stands.
#[derive(Drop)]
pub struct Identifier {
    pub name: Name,
    pub span: Span,
}
