//! The rule on lists of nodes.

ghost use Rattle.r_inv.specs.SweepLaws.{InvIsListed, InvSweepsAreListed};

/// At a node of the list of a well-formed lambda the rule does what it does in the lambda, and so
/// does a sweep of it.
pub fn inv_is_listed()
    ensures node { InvIsListed }
    ensures sweep { InvSweepsAreListed }
{
    crate::laws::inv_keeps_meaning();
}
