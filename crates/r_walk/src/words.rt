//! The words of the constants that were written.

ghost use Rattle.std.specs.Prelude.{◌≡◌, OnOk, None};
ghost use Rattle.g_graph.specs.Nodes.{constant};
ghost use Rattle.g_graph.specs.Plain.{NodeTrees, nodes_of, no_nodes, node_then};
ghost use Rattle.g_graph.specs.Splice.{joined_nodes};
ghost use Rattle.r_walk.specs.Around.{word_in, AreWords};

use base::NoMemory;
use g_graph::{Node, Origin, const_word};
use indexmap::IndexMap;
use std::alloc::Global;

/// The words of the nodes of a region that were written, by number: of a constant its word.
#[derive(Drop)]
pub struct Words {
    words: IndexMap<u32, Option<u32>>,
}

impl Words {
    /// No node was written.
    pub fn new(alloc: Global) -> Words
        ensures { AreWords result no_nodes }
    {
        Words {
            words: IndexMap::new(alloc),
        }
    }

    /// The word that an origin is, where a constant that was written gives it.
    pub fn constant(&self, origin: Origin) -> Option<u32>
        ensures { (before : NodeTrees) → AreWords self.now before → result ≡ constant before origin }
    {
        match origin {
            Origin::Arg(_) => None,
            Origin::Out { node, port } => { if port == 0 { self.word_of(node) } else { None } }
        }
    }

    fn word_of(&self, node: u32) -> Option<u32>
        ensures { result ≡ word_in self.now node }
    {
        match self.words.get(&node) {
            Some(word) => *word,
            None => None,
        }
    }

    /// The node is written.
    pub fn note(&mut self, node: &Node) -> Result<(), NoMemory>
        ensures { OnOk result ((before : NodeTrees) → AreWords self.old before →
            AreWords self.new (joined_nodes before (node_then node.now no_nodes))) }
    {
        if !self.words.contains_key(&node.id) {
            self.words.insert(node.id, const_word(node))?;
        }
        Ok(())
    }

    /// These nodes are written.
    pub fn note_all(&mut self, nodes: &[Node]) -> Result<(), NoMemory>
        ensures { OnOk result ((before : NodeTrees) → AreWords self.old before →
            AreWords self.new (joined_nodes before (nodes_of nodes.now))) }
    {
        for node in nodes {
            self.note(node)?;
        }
        Ok(())
    }
}
