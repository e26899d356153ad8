//! The kinds of lists of origins: whether they are the wanted ones, and how many of a kind there
//! are.

ghost use Rattle.std.specs.Prelude.{◌≡◌, ◌+◌, ◌-◌, ◌++◌, map, ◌∷◌, [], replicate, length, count_by, if◌then◌else◌};
ghost use Rattle.std.specs.declared.option.Option.TheVariants.{Some};
ghost use Rattle.g_graph.specs.declared.op.Kind.TheVariants.{Value, Memory, Io};
ghost use Rattle.g_graph.specs.Plain.{nodes_of};
ghost use Rattle.g_graph.specs.Signatures.{output_kinds};
ghost use Rattle.g_graph.specs.Scope.{known, is_of};
ghost use Rattle.g_graph.specs.WellFormed.{are, same, all_of, kinds_of};

use crate::count::outputs;
use crate::kinds::{is_of, known, output_kind, same_kind};
use crate::{Kind, Node, Origin};

/// Whether these kinds are the wanted ones, in number too.
pub fn same_kinds(kinds: &[Kind], wanted: &[Kind]) -> bool
    ensures { result ≡ same kinds.now wanted.now }
{
    if kinds.len() != wanted.len() {
        return false;
    }
    for (i, kind) in kinds.iter().enumerate() {
        if !same_kind(*kind, wanted[i]) {
            return false;
        }
    }
    true
}

/// Whether these origins have these kinds, in number too.
pub fn have_kinds(args: &[Kind], before: &[Node], origins: &[Origin], wanted: &[Kind]) -> bool
    ensures { result ≡ are (map (known args.now (nodes_of before.now)) origins.now) wanted.now }
{
    if origins.len() != wanted.len() {
        return false;
    }
    for (i, origin) in origins.iter().enumerate() {
        match known(args, before, *origin) {
            Some(kind) => {
                if !same_kind(kind, wanted[i]) {
                    return false;
                }
            }
            None => return false,
        }
    }
    true
}

/// Whether these origins are a value and then these kinds.
pub fn have_value_and(args: &[Kind], before: &[Node], origins: &[Origin], wanted: &[Kind]) -> bool
    ensures { result ≡ are (map (known args.now (nodes_of before.now)) origins.now)
        (Value ∷ wanted.now) }
{
    match origins.split_first() {
        Some((first, rest)) => match known(args, before, *first) {
            Some(Kind::Value) => have_kinds(args, before, rest, wanted),
            _ => false,
        },
        None => false,
    }
}

fn all_values(args: &[Kind], before: &[Node], origins: &[Origin]) -> bool
    ensures { result ≡ all_of (λ o.
        is_of Value (known args.now (nodes_of before.now) o)) origins.now }
{
    for origin in origins {
        if !is_of(Kind::Value, known(args, before, *origin)) {
            return false;
        }
    }
    true
}

/// Whether these origins are values and then both states, as a call takes them.
#[tactic(auto, using(crate::proofs::KindLemmas::are_values_then, crate::proofs::KindLemmas::are_unequal))]
pub fn have_values_and_states(args: &[Kind], before: &[Node], origins: &[Origin]) -> bool
    ensures { result ≡ are (map (known args.now (nodes_of before.now)) origins.now)
        (replicate (length origins.now - 2) Value ++ Memory ∷ Io ∷ []) }
{
    if origins.len() < 2 {
        return false;
    }
    let (values, states) = origins.split_at(origins.len() - 2);
    all_values(args, before, values) && have_kinds(args, before, states, &[Kind::Memory, Kind::Io])
}

fn are_values(kinds: &[Kind]) -> bool
    ensures { result ≡ all_of (λ k. is_of Value (Some k)) kinds.now }
{
    for kind in kinds {
        if !same_kind(Kind::Value, *kind) {
            return false;
        }
    }
    true
}

/// Whether these kinds are so many values and then both states.
#[tactic(auto, using(crate::proofs::KindLemmas::same_values_then, crate::proofs::KindLemmas::same_values_unequal))]
pub fn are_values_and_states(kinds: &[Kind], values: u32) -> bool
    ensures { result ≡ same kinds.now (replicate values Value ++ Memory ∷ Io ∷ []) }
{
    let count = values as usize;
    if kinds.len() != count + 2 {
        return false;
    }
    let (values, states) = kinds.split_at(count);
    are_values(values) && same_kinds(states, &[Kind::Memory, Kind::Io])
}

/// Whether these origins have the kinds that those of another region have, where they are known
/// there.
#[tactic(auto, using(crate::proofs::KindLemmas::are_none))]
pub fn match_known(
    args: &[Kind],
    before: &[Node],
    origins: &[Origin],
    other_args: &[Kind],
    other: &[Node],
    wanted: &[Origin],
) -> bool
    ensures { result ≡ are (map (known args.now (nodes_of before.now)) origins.now)
        (kinds_of (map (known other_args.now (nodes_of other.now)) wanted.now)) }
{
    let mut index = 0;
    for origin in wanted {
        if let Some(kind) = known(other_args, other, *origin) {
            if index >= origins.len() {
                return false;
            }
            if !is_of(kind, known(args, before, origins[index])) {
                return false;
            }
            index += 1;
        }
    }
    index == origins.len()
}

/// How many of these origins have this kind.
pub fn count_of_origins(args: &[Kind], before: &[Node], origins: &[Origin], kind: Kind) -> usize
    ensures { result ≡ count_by (is_of kind)
        (map (known args.now (nodes_of before.now)) origins.now) }
{
    let mut count = 0;
    for origin in origins {
        count += one_if(is_of(kind, known(args, before, *origin)));
    }
    count
}

/// How many of these kinds are this one.
pub fn count_of_args(args: &[Kind], kind: Kind) -> usize
    ensures { result ≡ count_by (is_of kind) (map Some args.now) }
{
    let mut count = 0;
    for arg in args {
        count += one_if(same_kind(kind, *arg));
    }
    count
}

/// How many outputs of the node have this kind.
#[tactic(auto, using(crate::proofs::KindLemmas::count_by_port))]
pub fn count_of_outputs(node: &Node, kind: Kind) -> usize
    ensures { result ≡ count_by (is_of kind) (output_kinds node.now) }
{
    let mut count = 0;
    for port in 0..outputs(node) {
        count += one_if(is_of(kind, output_kind(node, port)));
    }
    count
}

fn one_if(test: bool) -> usize
    ensures { result ≡ (if test then 1 else 0) }
{
    if test { 1 } else { 0 }
}
