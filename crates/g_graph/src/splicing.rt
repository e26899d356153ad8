//! The nodes of a replacement put in the place of a node.

ghost use Rattle.std.specs.Prelude.{◌≡◌, ◌+◌, ◌<◌, ◌++◌, OnOk, OnErr, take, drop, vec_len};
ghost use Rattle.std.specs.declared.option.Option.TheVariants.{Some};
ghost use Rattle.g_graph.specs.Plain.{nodes_of};
ghost use Rattle.g_graph.specs.Change.{in_region_of, node_index};
ghost use Rattle.g_graph.specs.Splice.{nodes_spliced, region_spliced, spliced};

use crate::change::{Change, change_lambda};
use crate::find::{holds_node, node_index};
use crate::redirect::{
    ArgsToInputs, OutputsToResults, redirect_nodes, redirect_origins, redirect_region,
};
use crate::{Lambda, Node, Origin, Region};
use base::NoMemory;
use std::alloc::Global;
use std::mem;

/// Puts the nodes of the replacement instead of the node `at`, in the region that holds it. The
/// replacement's arguments become these inputs, and uses of the node's outputs become the
/// replacement's results, in the same order. Where there is no such node nothing changes. It takes
/// time linear in the lambda and the replacement.
pub fn splice(
    alloc: Global,
    lambda: &mut Lambda,
    at: u32,
    replacement: Region,
    inputs: &[Origin],
) -> Result<(), NoMemory>
    ensures ok { OnOk result (lambda.new ≡ spliced at replacement inputs.now lambda.old) }
    ensures err { OnErr result (lambda.new ≡ lambda.old) }
{
    let mut replacement = replacement;
    redirect_region(&mut replacement, &ArgsToInputs { inputs });
    change_lambda(
        lambda,
        &mut Replacement {
            alloc,
            at,
            replacement,
        },
    )?;
    Ok(())
}

// The exchange of a node for a replacement whose arguments are origins of the node's region.
#[derive(Drop)]
struct Replacement {
    alloc: Global,
    at: u32,
    replacement: Region,
}

impl Change for Replacement {
    type Fault = NoMemory;

    ghost changed = { λ p. in_region_of p.at (region_spliced p.at p.replacement) };

    fn make(&mut self, region: &mut Region) -> Result<bool, NoMemory> {
        if !holds_node(region, self.at) {
            return Ok(false);
        }
        let none = Region {
            args: Vec::new(self.alloc),
            nodes: Vec::new(self.alloc),
            results: Vec::new(self.alloc),
        };
        splice_region(region, self.at, mem::replace(&mut self.replacement, none))?;
        Ok(true)
    }
}

/// Puts the nodes of the replacement, whose arguments are origins of the region already, instead of
/// the region's node `at`, uses of whose outputs become the replacement's results, in the same
/// order. It takes time linear in the region and the replacement.
pub fn splice_region(region: &mut Region, at: u32, replacement: Region) -> Result<(), NoMemory>
    ensures ok { OnOk result (region.new ≡ region_spliced at replacement region.old) }
    ensures err { OnErr result (region.new ≡ region.old) }
{
    let Region {
        args: _,
        nodes,
        results,
    } = replacement;
    let outputs = results.as_slice();
    put_nodes(&mut region.nodes, at, nodes, outputs)?;
    redirect_origins(
        region.results.as_mut_slice(),
        &OutputsToResults { at, outputs },
    );
    Ok(())
}

fn put_nodes(
    nodes: &mut Vec<Node>,
    at: u32,
    replacement: Vec<Node>,
    outputs: &[Origin],
) -> Result<(), NoMemory>
    ensures ok { OnOk result (nodes_of nodes.new.items ≡
        nodes_spliced at (nodes_of replacement.items) outputs.now (nodes_of nodes.old.items)) }
    ensures err { OnErr result (nodes.new.items ≡ nodes.old.items) }
{
    match node_index(nodes, at) {
        Some(index) => put_nodes_at(nodes, index, at, replacement, outputs),
        None => Ok(()),
    }
}

fn put_nodes_at(
    nodes: &mut Vec<Node>,
    index: usize,
    at: u32,
    replacement: Vec<Node>,
    outputs: &[Origin],
) -> Result<(), NoMemory>
    requires { node_index at 0 (nodes_of nodes.old.items) ≡ Some index }
    ensures ok { OnOk result (nodes_of nodes.new.items ≡
        nodes_spliced at (nodes_of replacement.items) outputs.now (nodes_of nodes.old.items)) }
    ensures err { OnErr result (nodes.new.items ≡ nodes.old.items) }
{
    let rest = nodes.len() - index - 1;
    exchange(nodes, index, replacement)?;
    let following = nodes.len() - rest;
    redirect_nodes(nodes, following, &OutputsToResults { at, outputs });
    Ok(())
}

fn exchange(nodes: &mut Vec<Node>, index: usize, replacement: Vec<Node>) -> Result<(), NoMemory>
    requires { index < vec_len nodes.old }
    ensures ok { OnOk result (nodes.new.items ≡
        (take index nodes.old.items ++ replacement.items) ++ drop (index + 1) nodes.old.items) }
    ensures err { OnErr result (nodes.new.items ≡ nodes.old.items) }
{
    drop(nodes.splice(index..index + 1, replacement)?);
    Ok(())
}
