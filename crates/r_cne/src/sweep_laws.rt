//! The rule on lists of nodes.

ghost use Rattle.r_cne.specs.SweepLaws.{CneIsListed, CneSweepsAreListed};

/// At a node of the list of a well-formed lambda the rule does what it does in the lambda, and so
/// does a sweep of it.
pub fn cne_is_listed()
    ensures node { CneIsListed }
    ensures sweep { CneSweepsAreListed }
{
    crate::laws::cne_keeps_meaning();
}
