//! The names and kinds of a region's origins.

ghost use Rattle.std.specs.Prelude.{◌≡◌, ℕ, ◌==◌, if◌then◌else◌, map, OnOk, IfOk};
ghost use Rattle.g_graph.specs.declared.op.Origin.TheVariants.{Out};
ghost use Rattle.s_sequence.specs.Ports.{port_at};
ghost use Rattle.s_sequence.specs.Scope.{port_in, name_in};

use crate::ports::{Port, Ports};
use base::NoMemory;
use g_graph::Origin;
use std::alloc::Global;
use std::collections::BTreeMap;

/// The names and kinds of a region's arguments, and of the outputs of its nodes so far by the
/// nodes' numbers.
#[derive(Drop)]
pub struct Scope {
    pub args: Ports,
    outputs: BTreeMap<u32, Ports>,
}

impl Scope {
    /// A region's scope before its nodes.
    pub fn new(alloc: Global, args: Ports) -> Scope
        ensures args { result.args ≡ args }
        ensures outputs { (n p : ℕ) → port_in result (Out n p)
            ≡ record { name = 0; kind = None } }
    {
        Scope {
            args,
            outputs: BTreeMap::new(alloc),
        }
    }

    /// Adds the outputs of the node of this number.
    pub fn add(&mut self, id: u32, outputs: Ports) -> Result<(), NoMemory>
        ensures args { OnOk result (self.new.args ≡ self.old.args) }
        ensures outputs { OnOk result ((n p : ℕ) → port_in self.new (Out n p)
            ≡ (if n == id then port_at outputs p else port_in self.old (Out n p))) }
    {
        self.outputs.insert(id, outputs)?;
        Ok(())
    }

    /// The port of an origin.
    pub fn port(&self, origin: Origin) -> Port
        ensures { result ≡ port_in self.now origin }
    {
        match origin {
            Origin::Arg(index) => self.args.at(index),
            Origin::Out { node, port } => match self.outputs.get(&node) {
                Some(outputs) => outputs.at(port),
                None => Port {
                    name: 0,
                    kind: None,
                },
            },
        }
    }

    /// The names of these origins, in order.
    pub fn names(&self, alloc: Global, origins: &[Origin]) -> Result<Vec<u32>, NoMemory>
        ensures { IfOk result (λ names. names.items ≡ map (name_in self.now) origins.now) }
    {
        let mut names = Vec::with_capacity(alloc, origins.len())?;
        for origin in origins {
            names.push(self.port(*origin).name)?;
        }
        Ok(names)
    }
}
