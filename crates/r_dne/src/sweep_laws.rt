//! The rule on lists of nodes.

ghost use Rattle.r_dne.specs.SweepLaws.{DneIsListed, DneSweepsAreListed};

/// At a node of the list of a well-formed lambda the rule does what it does in the lambda, and so
/// does a sweep of it.
pub fn dne_is_listed()
    ensures node { DneIsListed }
    ensures sweep { DneSweepsAreListed }
{
    crate::laws::dne_keeps_meaning();
}
