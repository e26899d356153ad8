//! The one error of the outside.

use thiserror::Error;

/// A call of the outside failed. It comes only where the count of faults of that kind of call
/// increased in it.
#[derive(Clone, Copy, Debug, PartialEq, Eq, Error)]
#[error("input or output failed")]
pub struct Failed;
