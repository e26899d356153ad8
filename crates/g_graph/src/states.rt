//! Whether origins are the last of their kind of state.

ghost use Rattle.std.specs.Prelude.{◌≡◌, map, if◌then◌else◌};
ghost use Rattle.std.specs.declared.option.Option.TheVariants.{Some, None};
ghost use Rattle.g_graph.specs.declared.op.Origin.TheVariants.{Arg, Out};
ghost use Rattle.g_graph.specs.Plain.{nodes_of};
ghost use Rattle.g_graph.specs.Signatures.{output_kinds};
ghost use Rattle.g_graph.specs.Scope.{same_origin, last_index, origin_at, last_state};
ghost use Rattle.g_graph.specs.WellFormed.{is_origin, is_last, all_of};

use crate::count::outputs;
use crate::kinds::{is_of, known, output_kind, same_kind};
use crate::{Kind, Node, Origin};

/// Whether each of these origins is a value, or the last of its kind of state.
pub fn all_last(args: &[Kind], before: &[Node], origins: &[Origin]) -> bool
    ensures { result ≡ all_of (is_last args.now (nodes_of before.now)) origins.now }
{
    for origin in origins {
        if !is_last(args, before, *origin) {
            return false;
        }
    }
    true
}

fn is_last(args: &[Kind], before: &[Node], origin: Origin) -> bool
    ensures { result ≡ is_last args.now (nodes_of before.now) origin }
{
    match known(args, before, origin) {
        Some(Kind::Value) => true,
        Some(kind) => is_state(kind, args, before, origin),
        None => false,
    }
}

// Whether the state of this kind comes from this origin after these nodes.
#[tactic(auto, using(crate::proofs::StateLemmas::is_origin_after))]
fn is_state(kind: Kind, args: &[Kind], before: &[Node], origin: Origin) -> bool
    ensures { result ≡ is_origin (last_state kind args.now (nodes_of before.now)) origin }
{
    let mut here = is_last_arg(kind, args, origin);
    for node in before {
        if let Some(port) = last_output(kind, node) {
            here = is_output(node.id, port, origin);
        }
    }
    here
}

fn is_last_arg(kind: Kind, args: &[Kind], origin: Origin) -> bool
    ensures { result ≡ is_origin (origin_at Arg (last_index kind 0 (map Some args.now) None) None)
        origin }
{
    match last_arg(kind, args) {
        Some(index) => is_arg(index, origin),
        None => false,
    }
}

fn last_arg(kind: Kind, args: &[Kind]) -> Option<usize>
    ensures { result ≡ last_index kind 0 (map Some args.now) None }
{
    let mut found = None;
    for (index, arg) in args.iter().enumerate() {
        found = later(same_kind(kind, *arg), index, found);
    }
    found
}

#[tactic(auto, using(crate::proofs::KindLemmas::drop_at))]
fn last_output(kind: Kind, node: &Node) -> Option<usize>
    ensures { result ≡ last_index kind 0 (output_kinds node.now) None }
{
    let mut found = None;
    for port in 0..outputs(node) {
        found = later(is_of(kind, output_kind(node, port)), port, found);
    }
    found
}

fn later(here: bool, index: usize, before: Option<usize>) -> Option<usize>
    ensures { result ≡ (if here then Some index else before) }
{
    if here { Some(index) } else { before }
}

fn is_arg(index: usize, origin: Origin) -> bool
    ensures { result ≡ same_origin (Arg index) origin }
{
    match origin {
        Origin::Arg(other) => index == other as usize,
        _ => false,
    }
}

fn is_output(id: u32, port: usize, origin: Origin) -> bool
    ensures { result ≡ same_origin (Out id port) origin }
{
    match origin {
        Origin::Out { node, port: other } => id == node && port == other as usize,
        _ => false,
    }
}
