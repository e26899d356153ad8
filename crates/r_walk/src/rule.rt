//! What a rule says of a node in a walk.

ghost use Rattle.std.specs.Prelude.{◌≡◌, IfOk};
ghost use Rattle.g_graph.specs.Plain.{node, regions_of};
ghost use Rattle.g_mean.specs.Copies.{AllClosed};
ghost use Rattle.r_walk.specs.Around.{IsAround};
ghost use Rattle.r_walk.specs.Asks.{made_of, part_of, said_of, AreSoundIn};

use crate::{Uses, Words};
use base::NoMemory;
use g_graph::{Node, Op, Origin, Region};
use r_rule::Rule;
use std::alloc::Global;

/// What comes in the place of a node: nodes that are not walked, the origins that uses of its
/// outputs become, and how many new numbers they take, from the lambda's next one on.
#[derive(Drop)]
pub struct New {
    pub nodes: Vec<Node>,
    pub outputs: Vec<Origin>,
    pub taken: u32,
}

/// The nodes of one of its regions come in the place of a node, and are walked: the region's
/// arguments become these inputs, and uses of the node's outputs its results from one on.
#[derive(Drop)]
pub struct Opening {
    pub which: usize,
    pub inputs: Vec<Origin>,
    pub from: usize,
}

/// What a rule says of a node.
#[derive(Drop)]
pub enum Said {
    Stays,
    Becomes(New),
    Opened(Opening),
}

/// Nodes that are not walked come, where there are any.
pub fn becomes_or_stays(new: Option<New>) -> Said
    ensures { said_of result ≡ part_of (made_of new) }
{
    match new {
        Some(new) => Said::Becomes(new),
        None => Said::Stays,
    }
}

/// A rule that a walk asks about each node.
pub trait WalkRule {
    ghost use Rattle.std.specs.Prelude.{Bool, List};
    ghost use Rattle.g_graph.specs.Plain.{NodeTrees};
    ghost use Rattle.g_graph.specs.declared.op.Origin.{Origin};
    ghost use Rattle.r_rule.specs.declared.steps.Rule.{Rule};
    ghost use Rattle.r_walk.specs.Walk.{Asked};

    ghost rule: { Self → Rule };

    ghost asked: { Self → Asked };

    ghost looks: { Self → Bool };

    /// The rule that each step names.
    fn rule(&self) -> Rule
        ensures { result ≡ rule self.now };

    /// Whether the rule looks at the constants that were written and at what is used; where it does
    /// not, these are not kept.
    fn looks(&self) -> bool
        ensures { result ≡ looks self.now };

    /// What the rule says of the node with this number, op, inputs and regions, in a lambda of so
    /// many values whose next node has the number `next`, where these constants of the region were
    /// written and these outputs are used. The regions are those of a node of a well-formed lambda.
    /// `NoMemory` only where the allocator has none.
    fn ask(
        &self,
        alloc: Global,
        values: u64,
        next: u32,
        words: &Words,
        uses: &Uses,
        id: u32,
        op: Op,
        inputs: &[Origin],
        regions: &[Region],
    ) -> Result<Said, NoMemory>
        requires closed { AllClosed (regions_of regions.now) }
        requires sound { AreSoundIn op (regions_of regions.now) }
        ensures { IfOk result (λ said. (before : NodeTrees) (os : List Origin) →
            IsAround (looks self.now) words.now uses.now before os →
            said_of said ≡ asked self.now values next before os
            (node id op inputs.now (regions_of regions.now))) };
}
