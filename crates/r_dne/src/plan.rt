//! The plan: what of a region is to go.

/// What of a region is to go.
#[derive(Drop)]
pub enum Plan {
    /// A node.
    Node,
    /// Exit variables of a Gamma, and then entry variables: those where it is false.
    Gamma(Vec<bool>, Vec<bool>),
    /// Loop variables of a Theta: those where it is false.
    Theta(Vec<bool>),
}
