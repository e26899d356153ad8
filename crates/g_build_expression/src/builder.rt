//! The graph under way.

ghost use Rattle.std.specs.Prelude.{◌≡◌, ◌+◌, ◌≤◌, [], ◌∷◌, ◌++◌, false, OnOk, IfOk, option_map, option_to_list};
ghost use Rattle.g_graph.specs.declared.op.Origin.TheVariants.{Arg, Out};
ghost use Rattle.g_graph.specs.Plain.{node, region, nodes_of};
ghost use Rattle.g_build_def.specs.Writer.{straight, exchanged, last_origins, last_kinds, carried_kinds, variable_at, variable_set, newest, slot_origin, carried_origins, pushed, popped, with_variables, with_go, with_go_and_ret, with_jumps};
ghost use Rattle.g_build_def.specs.Operations.{value_node, store_made, clear_made, put_made, exit_made, get_made};
ghost use Rattle.g_build_expression.specs.SlotViews.{slot_of, form_of};
ghost use Rattle.g_build_expression.specs.Work.{made, moved_to, opened, open_region, without_nodes, enclosing_is, region_added, with_regions, node_added, applied, carried_from, begun, closed, with_exchanged, ended, ended_id, extra_count, node_ended, ended_value};

use crate::variables::{InScope, Variables, origin_from};
use base::NoMemory;
use g_graph::{Kind, Node, Op, Origin, Region};
use smallvec::SmallVec;
use std::alloc::Global;
use std::marker::Model;
use std::mem;

// A node whose regions are being made: the nodes before it, its number, its inputs, and its regions
// so far. Contracts see a plain record.
#[derive(Drop)]
struct Enclosing {
    nodes: Vec<Node>,
    id: u32,
    inputs: SmallVec<Origin, 4>,
    regions: Vec<Region>,
}

impl Model for Enclosing {
    ghost use Rattle.g_build_expression.specs.Work.{Enclosing as PlainEnclosing};
    ghost use Rattle.g_build_expression.specs.WorkCodes.{coded_enclosing};

    ghost Value = { PlainEnclosing };

    ghost coded = { coded_enclosing };

    ghost view = { λ a. record {
      nodes = a.nodes.items;
      id = a.id;
      inputs = a.inputs.items;
      regions = a.regions.items;
    } };
}

/// The graph under way: the nodes of the region that stands open, the nodes whose regions enclose
/// it, the next number, and what is carried. Contracts see a plain record. Where a call fails, what
/// stands in it is of no use.
#[derive(Drop)]
pub struct Builder {
    alloc: Global,
    enclosing: Vec<Enclosing>,
    nodes: Vec<Node>,
    next: u32,
    variables: Variables,
    jumps: bool,
    go: Origin,
    ret: Origin,
    memory: Origin,
    io: Origin,
}

impl Model for Builder {
    ghost use Rattle.std.specs.Prelude.{reverse};
    ghost use Rattle.g_build_expression.specs.Work.{Work};
    ghost use Rattle.g_build_expression.specs.WorkCodes.{coded_work};
    ghost use Rattle.g_build_expression.specs.SlotViews.{form_of};

    ghost Value = { Work };

    ghost coded = { coded_work };

    ghost view = { λ b. record {
      enclosing = reverse b.enclosing.items;
      nodes = b.nodes.items;
      point = record {
        next = b.next;
        carried = record {
          form = form_of b.jumps;
          variables = b.variables;
          go = b.go;
          ret = b.ret;
          memory = b.memory;
          io = b.io;
        };
      };
    } };
}

/// The body of a function, and the number after those of its nodes.
#[derive(Drop)]
pub struct Body {
    pub region: Region,
    pub next: u32,
}

impl Builder {
    /// No node is made, no variable is in scope, and the states are these.
    pub fn new(alloc: Global, memory: Origin, io: Origin) -> Builder
        ensures { result ≡ record {
          enclosing = [];
          nodes = [];
          point = record {
            next = 0;
            carried = record {
              form = straight;
              variables = [];
              go = Arg 0;
              ret = Arg 0;
              memory = memory;
              io = io;
            };
          };
        } }
    {
        Builder {
            alloc,
            enclosing: Vec::new(alloc),
            nodes: Vec::new(alloc),
            next: 0,
            variables: Variables::new(alloc),
            jumps: false,
            go: Origin::Arg(0),
            ret: Origin::Arg(0),
            memory,
            io,
        }
    }

    /// Where the memory comes from.
    pub fn memory(&self) -> Origin
        ensures { result ≡ self.now.point.carried.memory }
    {
        self.memory
    }

    /// Where the input and output come from.
    pub fn io(&self) -> Origin
        ensures { result ≡ self.now.point.carried.io }
    {
        self.io
    }

    /// Where `ret` comes from.
    pub fn ret(&self) -> Origin
        ensures { result ≡ self.now.point.carried.ret }
    {
        self.ret
    }

    /// The nodes that stand open, as a region with these arguments that gives a value and the
    /// states, and the next number.
    pub fn finish(self, args: Vec<Kind>, value: Origin) -> Result<Body, NoMemory>
        ensures region { IfOk result (λ body. body.region ≡
            region args.items (nodes_of self.nodes)
            (value ∷ self.point.carried.memory ∷ self.point.carried.io ∷ [])) }
        ensures next { IfOk result (λ body. body.next ≡ self.point.next) }
    {
        let mut results = Vec::new(self.alloc);
        results.push(value)?;
        results.push(self.memory)?;
        results.push(self.io)?;
        let region = Region {
            args,
            nodes: self.nodes,
            results,
        };
        Ok(Body {
            region,
            next: self.next,
        })
    }

    /// Where `go` comes from.
    pub fn go(&self) -> Origin
        ensures { result ≡ self.now.point.carried.go }
    {
        self.go
    }

    /// The allocator of what is made.
    pub fn allocator(&self) -> Global {
        self.alloc
    }

    /// A list of no origins.
    pub fn no_origins(&self) -> Vec<Origin>
        ensures { result.items ≡ [] }
    {
        Vec::new(self.alloc)
    }

    /// What stands at a slot.
    pub fn variable(&self, slot: u32) -> Option<InScope>
        ensures { option_map slot_of result ≡ variable_at self.now.point.carried.variables slot }
    {
        self.variables.at(slot)
    }

    /// The origin of the newest variable.
    pub fn newest(&self) -> Origin
        ensures { result ≡ slot_origin (newest self.now.point.carried.variables) }
    {
        self.variables.newest()
    }

    /// The value variable at the slot has another origin.
    pub fn set_variable(&mut self, slot: u32, origin: Origin)
        ensures { self.new ≡
            moved_to self.old (with_variables self.old.point
            (variable_set self.old.point.carried.variables slot origin)) }
    {
        self.variables.set(slot, origin);
    }

    /// A variable comes into scope.
    pub fn push_variable(&mut self, variable: InScope) -> Result<(), NoMemory>
        ensures { OnOk result
            (self.new ≡ moved_to self.old (pushed (slot_of variable) self.old.point)) }
    {
        self.variables.push(variable)
    }

    /// The newest variable leaves the scope.
    pub fn pop_variable(&mut self)
        ensures { self.new ≡ moved_to self.old (popped self.old.point) }
    {
        self.variables.pop();
    }

    /// `go` has another origin.
    pub fn set_go(&mut self, go: Origin)
        ensures { self.new ≡ moved_to self.old (with_go self.old.point go) }
    {
        self.go = go;
    }

    /// `go` and `ret` have other origins.
    pub fn set_go_and_ret(&mut self, go: Origin, ret: Origin)
        ensures { self.new ≡ moved_to self.old (with_go_and_ret self.old.point go ret) }
    {
        self.go = go;
        self.ret = ret;
    }

    /// The function has jumps or not, and `go` and `ret` have these origins.
    pub fn set_jumps(&mut self, jumps: bool, go: Origin, ret: Origin)
        ensures { self.new ≡ moved_to self.old (with_jumps self.old.point (form_of jumps) go ret) }
    {
        self.jumps = jumps;
        self.go = go;
        self.ret = ret;
    }

    // A node without regions, which leaves the states as they are; its number is given.
    fn add_node(&mut self, op: Op, inputs: &[Origin]) -> Result<u32, NoMemory>
        ensures work { OnOk result (self.new ≡ node_added op inputs.now self.old) }
        ensures id { IfOk result (λ id. id ≡ self.old.point.next) }
    {
        let id = self.next;
        if id == u32::MAX {
            return Err(NoMemory);
        }
        let inputs = SmallVec::from_slice(self.alloc, inputs)?;
        let regions = Vec::new(self.alloc);
        self.nodes.push(Node {
            id,
            op,
            inputs,
            regions,
        })?;
        self.next = id + 1;
        Ok(id)
    }

    /// A node without regions that gives a value and leaves the states as they are.
    pub fn value(&mut self, op: Op, inputs: &[Origin]) -> Result<Origin, NoMemory>
        ensures work { OnOk result
            (self.new ≡ made self.old (value_node self.old.point op inputs.now)) }
        ensures value { IfOk result
            (λ v. v ≡ (value_node self.old.point op inputs.now).value) }
    {
        let id = self.add_node(op, inputs)?;
        Ok(Origin::Out { node: id, port: 0 })
    }

    /// The value is written at the address, in so many bytes, and given.
    pub fn store(&mut self, width: u8, address: Origin, value: Origin) -> Result<Origin, NoMemory>
        ensures work { OnOk result
            (self.new ≡ made self.old (store_made width address value self.old.point)) }
        ensures value { IfOk result
            (λ v. v ≡ (store_made width address value self.old.point).value) }
    {
        let memory = self.memory;
        let id = self.add_node(Op::Store(width), &[address, value, memory])?;
        self.memory = Origin::Out { node: id, port: 0 };
        Ok(value)
    }

    /// Every leaf of an object becomes zero.
    pub fn clear(&mut self, object: u32) -> Result<(), NoMemory>
        ensures { OnOk result (self.new ≡ made self.old (clear_made object self.old.point)) }
    {
        let memory = self.memory;
        let id = self.add_node(Op::Clear(object), &[memory])?;
        self.memory = Origin::Out { node: id, port: 0 };
        Ok(())
    }

    /// The call of a function, with these arguments and the states.
    pub fn apply(&mut self, function: u32, inputs: &[Origin]) -> Result<Origin, NoMemory>
        ensures work { OnOk result (self.new ≡ applied function inputs.now self.old) }
        ensures value { IfOk result (λ v. v ≡ Out self.old.point.next 0) }
    {
        let id = self.add_node(Op::Apply(function), inputs)?;
        self.memory = Origin::Out { node: id, port: 1 };
        self.io = Origin::Out { node: id, port: 2 };
        Ok(Origin::Out { node: id, port: 0 })
    }

    /// The value is written as a byte, and given.
    pub fn put(&mut self, value: Origin) -> Result<Origin, NoMemory>
        ensures work { OnOk result (self.new ≡ made self.old (put_made value self.old.point)) }
        ensures value { IfOk result (λ v. v ≡ (put_made value self.old.point).value) }
    {
        let io = self.io;
        let id = self.add_node(Op::Put, &[value, io])?;
        self.io = Origin::Out { node: id, port: 0 };
        Ok(value)
    }

    /// The program ends with a status, which is given.
    pub fn exit(&mut self, status: Origin) -> Result<Origin, NoMemory>
        ensures work { OnOk result (self.new ≡ made self.old (exit_made status self.old.point)) }
        ensures value { IfOk result (λ v. v ≡ (exit_made status self.old.point).value) }
    {
        let io = self.io;
        let id = self.add_node(Op::Exit, &[status, io])?;
        self.io = Origin::Out { node: id, port: 0 };
        Ok(status)
    }

    /// A byte is read.
    pub fn get(&mut self) -> Result<Origin, NoMemory>
        ensures work { OnOk result (self.new ≡ made self.old (get_made self.old.point)) }
        ensures value { IfOk result (λ v. v ≡ (get_made self.old.point).value) }
    {
        let io = self.io;
        let id = self.add_node(Op::Get, &[io])?;
        self.io = Origin::Out { node: id, port: 1 };
        Ok(Origin::Out { node: id, port: 0 })
    }

    // The carried variables have other origins, the arguments of a region or the outputs of a node
    // from a first one on.
    #[tactic(auto, using(crate::proofs::Renaming::last_from))]
    fn rename(&mut self, node: Option<u32>, first: u32) -> Result<(), NoMemory>
        requires { first ≤ 1 }
        ensures { OnOk result (self.new ≡ carried_from node first self.old) }
    {
        let next = self.variables.rename(self.alloc, node, first)?;
        if self.jumps {
            self.go = origin_from(node, next);
            self.ret = origin_from(node, next + 1);
            self.memory = origin_from(node, next + 2);
            self.io = origin_from(node, next + 3);
        } else {
            self.go = Origin::Arg(0);
            self.ret = Origin::Arg(0);
            self.memory = origin_from(node, next);
            self.io = origin_from(node, next + 1);
        }
        Ok(())
    }

    // These origins, and those of what is carried.
    fn carried(&self, first: Option<Origin>) -> Result<Vec<Origin>, NoMemory>
        ensures { IfOk result (λ origins. origins.items ≡
            option_to_list first ++ carried_origins self.now.point.carried) }
    {
        let mut origins = Vec::new(self.alloc);
        if let Some(origin) = first {
            origins.push(origin)?;
        }
        self.variables.push_origins(&mut origins)?;
        self.push_last(&mut origins)?;
        Ok(origins)
    }

    fn push_last(&self, origins: &mut Vec<Origin>) -> Result<(), NoMemory>
        ensures { let k = self.now.point.carried in
            OnOk result (origins.new.items ≡
            origins.old.items ++ last_origins k.form k.go k.ret k.memory k.io) }
    {
        if self.jumps {
            origins.push(self.go)?;
            origins.push(self.ret)?;
            origins.push(self.memory)?;
            origins.push(self.io)?;
            return Ok(());
        }
        origins.push(self.memory)?;
        origins.push(self.io)?;
        Ok(())
    }

    fn kinds(&self) -> Result<Vec<Kind>, NoMemory>
        ensures { IfOk result (λ kinds. kinds.items ≡ carried_kinds self.now.point.carried) }
    {
        let mut kinds = Vec::new(self.alloc);
        self.variables.push_kinds(&mut kinds)?;
        push_last_kinds(self.jumps, &mut kinds)?;
        Ok(kinds)
    }

    /// A node with regions begins, with this input, if any, and the carried ones; its first region
    /// stands open.
    #[tactic(auto, using(crate::proofs::Renaming::renamed_args))]
    pub fn begin(&mut self, first: Option<Origin>) -> Result<(), NoMemory>
        ensures { OnOk result (self.new ≡ begun (option_to_list first) self.old) }
    {
        self.open_node(first)?;
        self.rename(None, 0)
    }

    #[tactic(auto, using(crate::proofs::Renaming::reverse_last))]
    fn open_node(&mut self, first: Option<Origin>) -> Result<(), NoMemory>
        ensures { OnOk result (self.new ≡ opened (option_to_list first) self.old) }
    {
        let id = self.next;
        if id == u32::MAX {
            return Err(NoMemory);
        }
        let origins = self.carried(first)?;
        let inputs = SmallVec::from_slice(self.alloc, &origins)?;
        let nodes = mem::replace(&mut self.nodes, Vec::new(self.alloc));
        let regions = Vec::new(self.alloc);
        self.enclosing.push(Enclosing {
            nodes,
            id,
            inputs,
            regions,
        })?;
        self.next = id + 1;
        Ok(())
    }

    /// The region that stands open is closed, with this result, if any, and the carried ones;
    /// another one stands open.
    #[tactic(auto, using(crate::proofs::Renaming::renamed_args))]
    pub fn close(&mut self, first: Option<Origin>) -> Result<(), NoMemory>
        ensures { OnOk result (self.new ≡ closed (option_to_list first) self.old) }
    {
        let region = self.take_region(first)?;
        self.add_region(region)?;
        self.rename(None, 0)
    }

    fn take_region(&mut self, first: Option<Origin>) -> Result<Region, NoMemory>
        ensures region { IfOk result (λ r. r ≡ open_region (option_to_list first) self.old) }
        ensures work { OnOk result (self.new ≡ without_nodes self.old) }
    {
        let results = self.carried(first)?;
        let args = self.kinds()?;
        let nodes = mem::replace(&mut self.nodes, Vec::new(self.alloc));
        Ok(Region {
            args,
            nodes,
            results,
        })
    }

    #[tactic(auto, using(crate::proofs::Renaming::reverse_last))]
    fn add_region(&mut self, region: Region) -> Result<(), NoMemory>
        ensures { OnOk result
            (self.new ≡ enclosing_is (region_added region self.old.enclosing) self.old) }
    {
        let Some(enclosing) = self.enclosing.pop() else {
            return Ok(());
        };
        let more = with_region(enclosing, region)?;
        self.enclosing.push(more)?;
        Ok(())
    }

    /// The first two regions of the node change places.
    #[tactic(auto, using(crate::proofs::Renaming::reverse_last))]
    pub(crate) fn exchange(&mut self) -> Result<(), NoMemory>
        ensures { OnOk result (self.new ≡ with_exchanged self.old) }
    {
        let Some(enclosing) = self.enclosing.pop() else {
            return Ok(());
        };
        self.enclosing.push(exchanged(enclosing))?;
        Ok(())
    }

    #[tactic(auto, using(crate::proofs::Renaming::reverse_last))]
    fn end_node(&mut self, op: Op) -> Result<Option<u32>, NoMemory>
        ensures work { OnOk result (self.new ≡ node_ended self.old.enclosing op self.old) }
        ensures id { IfOk result (λ id. id ≡ ended_id self.old.enclosing) }
    {
        let Some(enclosing) = self.enclosing.pop() else {
            return Ok(None);
        };
        let Enclosing {
            nodes,
            id,
            inputs,
            regions,
        } = enclosing;
        self.nodes = nodes;
        self.nodes.push(Node {
            id,
            op,
            inputs,
            regions,
        })?;
        Ok(Some(id))
    }

    /// The node with regions ends; the region that stood open is left out. Its first output is
    /// given.
    #[tactic(auto, using(crate::proofs::Ends::ended_is))]
    pub fn end(&mut self, op: Op, extra: bool) -> Result<Origin, NoMemory>
        ensures work { OnOk result (self.new ≡ ended op extra self.old) }
        ensures value { IfOk result (λ v. v ≡ ended_value self.old.enclosing) }
    {
        match self.end_node(op)? {
            Some(id) => {
                self.rename(Some(id), extra_count(extra))?;
                Ok(Origin::Out { node: id, port: 0 })
            }
            None => Ok(Origin::Arg(0)),
        }
    }
}

fn extra_count(extra: bool) -> u32
    ensures value { result ≡ extra_count extra }
    ensures small { result ≤ 1 }
{
    if extra { 1 } else { 0 }
}

fn with_region(enclosing: Enclosing, region: Region) -> Result<Enclosing, NoMemory>
    ensures { IfOk result (λ a. a ≡ with_regions enclosing (enclosing.regions ++ region ∷ [])) }
{
    let mut enclosing = enclosing;
    enclosing.regions.push(region)?;
    Ok(enclosing)
}

fn exchanged(enclosing: Enclosing) -> Enclosing
    ensures { result ≡ with_regions enclosing (exchanged enclosing.regions) }
{
    let mut enclosing = enclosing;
    if enclosing.regions.len() >= 2 {
        enclosing.regions.swap(0, 1);
    }
    enclosing
}

fn push_last_kinds(jumps: bool, kinds: &mut Vec<Kind>) -> Result<(), NoMemory>
    ensures { OnOk result (kinds.new.items ≡ kinds.old.items ++ last_kinds (form_of jumps)) }
{
    if jumps {
        kinds.push(Kind::Value)?;
        kinds.push(Kind::Value)?;
    }
    kinds.push(Kind::Memory)?;
    kinds.push(Kind::Io)?;
    Ok(())
}
