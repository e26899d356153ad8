//! The lines of regions, of their nodes, and of choices and loops.

ghost use Rattle.std.specs.Prelude.{◌≡◌, ◌+◌, ◌<◌, ◌≤◌, ◌^◌, [], ◌∷◌, ◌++◌, map, length, OnOk, IfOk};
ghost use Rattle.std.specs.declared.option.Option.TheVariants.{Some};
ghost use Rattle.g_graph.specs.declared.op.Op.TheVariants.{Gamma};
ghost use Rattle.g_graph.specs.declared.op.Origin.{Origin};
ghost use Rattle.g_graph.specs.declared.op.Origin.TheVariants.{Arg};
ghost use Rattle.g_graph.specs.Plain.{regions_of, args_of, count_of};
ghost use Rattle.g_graph.specs.Signatures.{result_kinds, outputs_of};
ghost use Rattle.g_graph.specs.Count.{region_values, regions_values, node_values};
ghost use Rattle.s_linear.specs.Linear.{Code, choice};
ghost use Rattle.s_linear.specs.Lines.{code_lines, step_lines};
ghost use Rattle.s_sequence.specs.Sequence.{values_in, value_args, region_names, regions_names, node_names, outputs_at, bases, branch_codes, branch_code, loop_step};
ghost use Rattle.s_sequence.specs.Ports.{ports_from};
ghost use Rattle.s_sequence.specs.Scope.{port_in};
ghost use Rattle.s_sequence.specs.Shape.{HasShape, RegionShaped, RegionsShaped, NodeShaped};
ghost use Rattle.s_sequence.specs.Written.{HasRoom, region_labels, regions_labels, node_labels, region_code, region_port, entered_code, StepWritten, node_ports, other_lines, others_lines, cases_lines};

use crate::choices::{write_branches, write_plain};
use crate::loops::write_turn;
use crate::moves::{write_exits, write_moves};
use crate::ports::{Ports, ports_of};
use crate::scope::Scope;
use crate::writer::Writer;
use base::NoMemory;
use g_graph::{Node, Op, Region};
use s_linear::Line;
use std::alloc::Global;

/// Writes the nodes of a region whose names begin at the next one, and gives what its origins are
/// then, boxed, so that a nest of regions takes less of the stack.
#[cycle(regions)]
pub fn write_nodes(alloc: Global, w: &mut Writer, region: &Region) -> Result<Box<Scope>, NoMemory>
    requires shaped { RegionShaped region.now }
    requires room { HasRoom w.old (region_values region.now) (region_labels region.now) }
    ensures lines { OnOk result ((k : Code) → w.new.lines ++ code_lines w.new.label k
        ≡ w.old.lines ++ code_lines w.old.label (region_code w.old.next region.now k)) }
    ensures next { OnOk result (w.new.next ≡ w.old.next + region_names region.now) }
    ensures label { OnOk result (w.new.label ≡ w.old.label + region_labels region.now) }
    ensures scope { IfOk result (λ scope. (o : Origin) →
        port_in scope.value o ≡ region_port w.old.next region.now o) }
{
    let args = ports_of(alloc, &region.args, w.next)?;
    w.next = args.end;
    let mut scope = Scope::new(alloc, args);
    for node in &region.nodes {
        let outputs = write_step(alloc, w, &scope, node)?;
        scope.add(node.id, outputs)?;
    }
    Ok(Box::new(alloc, scope)?)
}

// Writes the step of a node, and gives its outputs.
#[cycle(regions)]
fn write_step(alloc: Global, w: &mut Writer, scope: &Scope, node: &Node) -> Result<Ports, NoMemory>
    requires shaped { NodeShaped node.now }
    requires room { HasRoom w.old (node_values node.now) (node_labels node.now) }
    ensures lines { OnOk result (StepWritten w.old w.new scope.now node.now) }
    ensures next { OnOk result (w.new.next ≡ w.old.next + node_names node.now) }
    ensures label { OnOk result (w.new.label ≡ w.old.label + node_labels node.now) }
    ensures outputs { IfOk result (λ outputs. outputs ≡ node_ports w.old.next node.now) }
{
    let inputs = node.inputs.as_slice();
    match node.op {
        Op::Gamma => {
            let names = scope.names(alloc, inputs)?;
            match names.split_first() {
                Some((predicate, entries)) => {
                    write_choice(alloc, w, *predicate, entries, &node.regions)
                }
                None => Ok(Ports::new(alloc, w.next)),
            }
        }
        Op::Theta => {
            let entries = scope.names(alloc, inputs)?;
            match node.regions.first() {
                Some(region) => write_loop(alloc, w, &entries, region),
                None => Ok(Ports::new(alloc, w.next)),
            }
        }
        op => write_plain(alloc, w, scope, op, inputs),
    }
}

// Writes a choice by a predicate among regions.
#[cycle(regions)]
fn write_choice(
    alloc: Global,
    w: &mut Writer,
    predicate: u32,
    entries: &[u32],
    regions: &[Region],
) -> Result<Ports, NoMemory>
    requires shaped { RegionsShaped (regions_of regions.now) }
    requires shape { HasShape Gamma (Arg 0 ∷ []) (regions_of regions.now) }
    requires room { HasRoom w.old (1 + regions_values (regions_of regions.now))
        (count_of (regions_of regions.now) + regions_labels (regions_of regions.now)) }
    ensures lines { OnOk result (let rs = regions_of regions.now in
        let outputs = values_in (outputs_of Gamma rs) in
        w.new.lines ≡ w.old.lines ++ step_lines w.old.label (choice predicate
        (branch_codes entries.now (outputs_at w.old.next rs)
        (bases w.old.next outputs rs) rs))) }
    ensures next { OnOk result (let rs = regions_of regions.now in
        w.new.next ≡ w.old.next + (regions_names rs + values_in (outputs_of Gamma rs))) }
    ensures label { OnOk result (let rs = regions_of regions.now in
        w.new.label ≡ w.old.label + (count_of rs + regions_labels rs)) }
    ensures outputs { IfOk result (λ outputs. let rs = regions_of regions.now in
        outputs ≡ ports_from (outputs_at w.old.next rs) (outputs_of Gamma rs)) }
{
    let first = w.label;
    let count = regions.len() as u32;
    w.label += count;
    if regions.len() == 2 {
        w.push(Line::BranchNotZero {
            predicate,
            label: first,
        })?;
        return write_cases(alloc, w, entries, first, &regions[0], &regions[1..]);
    }
    match regions.split_last() {
        Some((last, others)) => {
            write_branches(w, predicate, first, count - 1)?;
            write_cases(alloc, w, entries, first, last, others)
        }
        None => Ok(Ports::new(alloc, w.next)),
    }
}

// Writes the branch that stands first, the others, labelled from `first` on, and the label of the
// end.
#[cycle(regions)]
fn write_cases(
    alloc: Global,
    w: &mut Writer,
    entries: &[u32],
    first: u32,
    standing: &Region,
    others: &[Region],
) -> Result<Ports, NoMemory>
    requires shaped { RegionShaped standing.now × RegionsShaped (regions_of others.now) }
    requires room { HasRoom w.old
        (region_values standing.now + regions_values (regions_of others.now))
        (region_labels standing.now + regions_labels (regions_of others.now)) }
    requires labels { first + length others.now < 2 ^ 32 }
    ensures lines { OnOk result (w.new.lines ≡ w.old.lines ++ cases_lines entries.now first
        w.old.label w.old.next standing.now (values_in (result_kinds standing.now))
        (regions_of others.now)) }
    ensures next { OnOk result (w.new.next ≡ w.old.next + region_names standing.now
        + values_in (result_kinds standing.now) + regions_names (regions_of others.now)) }
    ensures label { OnOk result (w.new.label ≡ w.old.label + region_labels standing.now
        + regions_labels (regions_of others.now)) }
    ensures outputs { IfOk result (λ outputs. outputs ≡ ports_from
        (w.old.next + region_names standing.now) (result_kinds standing.now)) }
{
    let end = first + others.len() as u32;
    let outputs = write_first(alloc, w, entries, standing)?;
    write_others(alloc, w, entries, outputs.first, first, end, others)?;
    w.push(Line::Label { number: end })?;
    Ok(outputs)
}

// Writes the branch that stands first, and gives the outputs that its results are moved to.
#[cycle(regions)]
fn write_first(
    alloc: Global,
    w: &mut Writer,
    entries: &[u32],
    region: &Region,
) -> Result<Ports, NoMemory>
    requires shaped { RegionShaped region.now }
    requires room { HasRoom w.old (region_values region.now) (region_labels region.now) }
    ensures lines { OnOk result (w.new.lines ≡ w.old.lines ++ code_lines w.old.label
        (branch_code entries.now (w.old.next + region_names region.now) w.old.next region.now)) }
    ensures next { OnOk result (w.new.next ≡ w.old.next + region_names region.now
        + values_in (result_kinds region.now)) }
    ensures label { OnOk result (w.new.label ≡ w.old.label + region_labels region.now) }
    ensures outputs { IfOk result (λ outputs. outputs ≡ ports_from
        (w.old.next + region_names region.now) (result_kinds region.now)) }
{
    let boxed = write_entered(alloc, w, entries, region)?;
    let scope = boxed.as_ref();
    let first = w.next;
    let outputs = write_exits(alloc, w, scope, &region.results, first)?;
    w.next = outputs.end;
    Ok(outputs)
}

// Writes these branches, labelled from `first` on.
#[cycle(regions)]
fn write_others(
    alloc: Global,
    w: &mut Writer,
    entries: &[u32],
    outputs: u32,
    first: u32,
    end: u32,
    others: &[Region],
) -> Result<(), NoMemory>
    requires shaped { RegionsShaped (regions_of others.now) }
    requires room { HasRoom w.old (1 + regions_values (regions_of others.now))
        (regions_labels (regions_of others.now)) }
    requires labels { first + length others.now < 2 ^ 32 }
    requires outputs { outputs ≤ w.old.next }
    ensures lines { OnOk result (w.new.lines ≡ w.old.lines ++ others_lines entries.now outputs first
        end w.old.label w.old.next (regions_of others.now)) }
    ensures next { OnOk result (w.new.next
        ≡ w.old.next + regions_names (regions_of others.now)) }
    ensures label { OnOk result (w.new.label
        ≡ w.old.label + regions_labels (regions_of others.now)) }
{
    for (i, region) in others.iter().enumerate() {
        write_other(alloc, w, entries, outputs, first + i as u32, end, region)?;
    }
    Ok(())
}

// Writes a branch after a jump to the end and its label.
#[cycle(regions)]
fn write_other(
    alloc: Global,
    w: &mut Writer,
    entries: &[u32],
    outputs: u32,
    label: u32,
    end: u32,
    region: &Region,
) -> Result<(), NoMemory>
    requires shaped { RegionShaped region.now }
    requires room { HasRoom w.old (region_values region.now) (region_labels region.now) }
    requires outputs { outputs ≤ w.old.next }
    ensures lines { OnOk result (w.new.lines ≡ w.old.lines ++ other_lines entries.now outputs label
        end w.old.label w.old.next region.now) }
    ensures next { OnOk result (w.new.next ≡ w.old.next + region_names region.now) }
    ensures label { OnOk result (w.new.label ≡ w.old.label + region_labels region.now) }
{
    w.push(Line::Jump { label: end })?;
    w.push(Line::Label { number: label })?;
    let boxed = write_entered(alloc, w, entries, region)?;
    let scope = boxed.as_ref();
    write_exits(alloc, w, scope, &region.results, outputs)?;
    Ok(())
}

// Writes the moves into a region, and its nodes.
#[cycle(regions)]
fn write_entered(
    alloc: Global,
    w: &mut Writer,
    entries: &[u32],
    region: &Region,
) -> Result<Box<Scope>, NoMemory>
    requires shaped { RegionShaped region.now }
    requires room { HasRoom w.old (region_values region.now) (region_labels region.now) }
    ensures lines { OnOk result ((k : Code) → w.new.lines ++ code_lines w.new.label k
        ≡ w.old.lines ++ code_lines w.old.label
        (entered_code entries.now w.old.next region.now k)) }
    ensures next { OnOk result (w.new.next ≡ w.old.next + region_names region.now) }
    ensures label { OnOk result (w.new.label ≡ w.old.label + region_labels region.now) }
    ensures scope { IfOk result (λ scope. (o : Origin) →
        port_in scope.value o ≡ region_port w.old.next region.now o) }
{
    let base = w.next;
    write_moves(w, &region.args, entries, base)?;
    write_nodes(alloc, w, region)
}

// Writes a loop, and gives its outputs.
#[cycle(regions)]
fn write_loop(
    alloc: Global,
    w: &mut Writer,
    entries: &[u32],
    region: &Region,
) -> Result<Ports, NoMemory>
    requires shaped { RegionShaped region.now }
    requires room { HasRoom w.old (1 + length (args_of region.now) + region_values region.now)
        (2 + region_labels region.now) }
    ensures lines { OnOk result (w.new.lines ≡ w.old.lines ++ step_lines w.old.label
        (loop_step entries.now w.old.next region.now)) }
    ensures next { OnOk result (w.new.next ≡ w.old.next + region_names region.now
        + value_args (args_of region.now)) }
    ensures label { OnOk result (w.new.label ≡ w.old.label + 2 + region_labels region.now) }
    ensures outputs { IfOk result (λ outputs. outputs ≡ ports_from
        (w.old.next + region_names region.now) (map Some (args_of region.now))) }
{
    let first = w.label;
    let base = w.next;
    w.label += 2;
    write_moves(w, &region.args, entries, base)?;
    w.push(Line::Label { number: first })?;
    let boxed = write_nodes(alloc, w, region)?;
    let scope = boxed.as_ref();
    let results = scope.names(alloc, &region.results)?;
    write_turn(alloc, w, &region.args, &results, base, first)
}
