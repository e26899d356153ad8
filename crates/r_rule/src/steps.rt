//! The rules by name, and the steps that apply them.

/// A rule that changes a lambda and keeps its meaning.
#[derive(Clone, Copy, PartialEq, Eq, Debug)]
pub enum Rule {
    Fold,
    /// Common node elimination.
    Cne,
    /// Dead node elimination.
    Dne,
    /// Invariant value redirection.
    Inv,
    Push,
    Pull,
    /// The inversion of a Theta and a Gamma in it.
    Invert,
    /// The unrolling of a Theta.
    Unroll,
    Inline,
}

/// A rule, applied at the node of this number.
#[derive(Clone, Copy, PartialEq, Eq, Debug)]
pub struct Step {
    pub rule: Rule,
    pub node: u32,
}
