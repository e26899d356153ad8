//! The way out of a region.

ghost use Rattle.std.specs.Prelude.{◌≡◌};
ghost use Rattle.r_push.specs.Walk.{exit_of, is_open, is_loop, growth_of};
ghost use Rattle.r_push.specs.Walks.{exit_in};

use g_graph::{Node, Op};

/// Nodes do not leave the region, or they leave the Gamma of so many regions, or the Theta, that it
/// is a region of.
#[derive(Clone, Copy)]
pub enum Exit {
    Shut,
    Choice(u64),
    Loop,
}

impl Exit {
    pub fn is_open(self) -> bool
        ensures { result ≡ is_open (exit_in self) }
    {
        !matches!(self, Exit::Shut)
    }

    pub fn is_loop(self) -> bool
        ensures { result ≡ is_loop (exit_in self) }
    {
        matches!(self, Exit::Loop)
    }

    /// The values that come with a node that leaves so.
    pub fn growth(self) -> u64
        ensures { result ≡ growth_of (exit_in self) }
    {
        match self {
            Exit::Shut => 0,
            Exit::Choice(regions) => regions,
            Exit::Loop => 3,
        }
    }
}

/// The exit of the regions of a node.
pub fn exit_of(node: &Node) -> Exit
    ensures { exit_in result ≡ exit_of node.now }
{
    match node.op {
        Op::Gamma => if node.inputs.is_empty() {
            Exit::Shut
        } else {
            Exit::Choice(node.regions.len() as u64)
        },
        Op::Theta => if node.regions.len() == 1 {
            Exit::Loop
        } else {
            Exit::Shut
        },
        _ => Exit::Shut,
    }
}
