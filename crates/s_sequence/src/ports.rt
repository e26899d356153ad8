//! Arguments and outputs, each with its kind and its name.

ghost use Rattle.std.specs.Prelude.{◌≡◌, ◌+◌, ◌<◌, ◌^◌, map, OnOk, IfOk};
ghost use Rattle.std.specs.declared.option.Option.TheVariants.{Some};
ghost use Rattle.s_sequence.specs.Sequence.{values_in};
ghost use Rattle.s_sequence.specs.Ports.{ports_from, port_at, port_added, no_ports};

use base::NoMemory;
use g_graph::Kind;
use smallvec::SmallVec;
use std::alloc::Global;
use std::marker::Model;

/// An argument or an output: its kind, and its name if it is a value. Of a state the name says
/// nothing.
#[derive(Clone, Copy, Debug)]
pub struct Port {
    pub name: u32,
    pub kind: Option<Kind>,
}

/// The value of the unused slots of a short list of ports.
impl Default for Port {
    fn default() -> Port {
        Port {
            name: 0,
            kind: None,
        }
    }
}

/// The arguments of a region or the outputs of a node, the name where theirs begin, and the name
/// after theirs. Contracts see a plain record.
#[derive(Debug, Drop)]
pub struct Ports {
    pub first: u32,
    list: SmallVec<Port, 2>,
    pub end: u32,
}

impl Model for Ports {
    ghost use Rattle.s_sequence.specs.Ports.{PlainPorts};

    ghost Value = { PlainPorts };

    ghost view = { λ p. record { first = p.first; list = p.list.items; end = p.end } };
}

impl Ports {
    /// None, where the next is named `first`.
    pub fn new(alloc: Global, first: u32) -> Ports
        ensures { result ≡ no_ports first }
    {
        Ports {
            first,
            list: SmallVec::new(alloc),
            end: first,
        }
    }

    /// Adds a port of this kind, whose name is the next.
    pub fn push(&mut self, kind: Option<Kind>) -> Result<(), NoMemory>
        requires { self.old.end + 1 < 2 ^ 32 }
        ensures { OnOk result (self.new ≡ port_added self.old kind) }
    {
        self.list.push(Port {
            name: self.end,
            kind,
        })?;
        if let Some(Kind::Value) = kind {
            self.end += 1;
        }
        Ok(())
    }

    /// The port of this index, or where there is none one without a kind, named by the name after
    /// theirs.
    pub fn at(&self, index: u32) -> Port
        ensures { result ≡ port_at self.now index }
    {
        match self.list.as_slice().get(index as usize) {
            Some(port) => *port,
            None => Port {
                name: self.end,
                kind: None,
            },
        }
    }
}

/// Ports of these kinds, whose names begin at `first`.
pub fn ports_of(alloc: Global, kinds: &[Kind], first: u32) -> Result<Ports, NoMemory>
    requires { first + values_in (map Some kinds.now) + 1 < 2 ^ 32 }
    ensures { IfOk result (λ p. p ≡ ports_from first (map Some kinds.now)) }
{
    let mut ports = Ports::new(alloc, first);
    for kind in kinds {
        ports.push(Some(*kind))?;
    }
    Ok(ports)
}
