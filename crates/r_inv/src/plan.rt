//! The plan: which uses are to move.

use g_graph::Origin;

/// Which uses are to move.
#[derive(Drop)]
pub enum Plan {
    /// Those of exit variables of a Gamma, which go: what each carries, and which carry nothing.
    Gamma(Vec<Option<Origin>>, Vec<bool>),
    /// Those of loop variables of a Theta: what each carries.
    Theta(Vec<Option<Origin>>),
}
