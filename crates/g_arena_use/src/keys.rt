//! The first node of each place, op and inputs.

ghost use Rattle.std.specs.Prelude.{◌≡◌, ◌+◌, [], IfOk, OnErr, OnOk};
ghost use Rattle.g_arena_use.specs.Kept.{kept_or, with_kept};

use base::{NoMemory, Steps};
use g_arena_def::Place;
use g_graph::{Op, Origin};
use indexmap::IndexMap;
use smallvec::SmallVec;
use std::alloc::Global;
use std::marker::Model;
use std::sync::ledger::Ledger;

// The place, the op and the inputs of a node.
#[derive(PartialEq, Eq, Hash, Drop)]
struct Key {
    home: Place,
    op: Op,
    inputs: SmallVec<Origin, 4>,
}

/// The first node of each place, op and inputs. Contracts see the keys with their nodes, in the
/// order in which they came.
#[derive(Drop)]
pub struct Keys {
    alloc: Global,
    nodes: IndexMap<Key, u32>,
}

impl Model for Keys {
    ghost use Rattle.std.specs.Prelude.{List};
    ghost use Rattle.g_arena_use.specs.Kept.{Kept};

    ghost Value = { List Kept };

    ghost use Rattle.g_arena_use.specs.KeptKeys.{keys_seen};

    ghost view = { λ s. keys_seen s.nodes.entries };
}

impl Keys {
    /// No keys.
    pub fn new(alloc: Global) -> Keys
        ensures { result ≡ [] }
    {
        Keys {
            alloc,
            nodes: IndexMap::new(alloc),
        }
    }

    /// The node that is kept for the place, op and inputs. Where none is kept, `node` is kept, and
    /// is the answer. After NoMemory the keys are as they were.
    pub fn first<L: Ledger>(
        &mut self,
        home: Place,
        op: Op,
        inputs: &[Origin],
        node: u32,
        looks: &mut Steps<L>,
    ) -> Result<u32, NoMemory>
        ensures ok { OnOk result (self.new ≡ with_kept home op inputs.now node self.old) }
        ensures node { IfOk result (λ n. n ≡ kept_or home op inputs.now node self.old) }
        ensures err { OnErr result (self.new ≡ self.old) }
        ensures looks { looks.new ≡ looks.old + 1 }
    {
        looks.add(1);
        let inputs = SmallVec::from_slice(self.alloc, inputs)?;
        let key = Key { home, op, inputs };
        if let Some(kept) = self.nodes.get(&key) {
            return Ok(*kept);
        }
        self.nodes.insert(key, node)?;
        Ok(node)
    }
}
