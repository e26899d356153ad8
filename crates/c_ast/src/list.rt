//! The elements of lists that have commas between them.

use crate::Span;

/// An element of a list that stands after a comma.
#[derive(Drop)]
pub struct Next<T> {
    pub comma: Span,
    pub element: T,
}
