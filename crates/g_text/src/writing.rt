//! The writing of a lambda. Where memory is refused in the middle of a text, its beginning is
//! there.

ghost use Rattle.std.specs.Prelude.{◌≡◌, ◌++◌, OnOk, map, length, codes, decimal};
ghost use Rattle.std.specs.declared.option.Option.TheVariants.{Some};
ghost use Rattle.g_graph.specs.Plain.{id_of, op_of, inputs_in};
ghost use Rattle.g_graph.specs.Signatures.{output_kinds};
ghost use Rattle.g_text.specs.Texts.{
  kind_text,
  kinds_text,
  out_text,
  origin_text,
  origins_text,
  inputs_text,
  numbered,
  op_text,
  blanks,
  args_line,
  node_start,
  region_line,
  results_line,
  region_text,
  node_text,
  leaf_text,
  leaves_text,
  object_text,
  objects_text,
  head_text,
  lambda_text,
};

use crate::ops::{binary_name, unary_name};
use base::NoMemory;
use g_graph::{Kind, Lambda, Node, Object, Op, Origin, Region, op_outputs, output_kind, values};
use itoa::Buffer;
use val_core::Leaf;

fn push(out: &mut Vec<u8>, text: &str) -> Result<(), NoMemory>
    ensures { OnOk result (out.new.items ≡ out.old.items ++ text.now) }
{
    Ok(out.extend_from_slice(text.as_bytes())?)
}

fn push_number(out: &mut Vec<u8>, number: u64) -> Result<(), NoMemory>
    ensures { OnOk result (out.new.items ≡ out.old.items ++ decimal number) }
{
    let mut buffer = Buffer::new();
    push(out, buffer.format(number))
}

// A word, a blank and a number.
fn push_numbered(out: &mut Vec<u8>, word: &str, number: u64) -> Result<(), NoMemory>
    ensures { OnOk result (out.new.items ≡ out.old.items ++ numbered word.now number) }
{
    push(out, word)?;
    push(out, " ")?;
    push_number(out, number)
}

const fn letter(kind: Option<Kind>) -> &'static str
    ensures { result.now ≡ kind_text kind }
{
    match kind {
        Some(Kind::Value) => "v",
        Some(Kind::Memory) => "m",
        Some(Kind::Io) => "i",
        None => "?",
    }
}

fn push_args(out: &mut Vec<u8>, args: &[Kind]) -> Result<(), NoMemory>
    ensures { OnOk result (out.new.items ≡ out.old.items ++ kinds_text (map Some args.now)) }
{
    if args.is_empty() {
        return Ok(());
    }
    push(out, " ")?;
    for kind in args {
        push(out, letter(Some(*kind)))?;
    }
    Ok(())
}

// How many outputs a node has.
fn outputs(node: &Node) -> usize
    ensures { result ≡ length (output_kinds node.now) }
{
    match node.op {
        Op::Gamma => match node.regions.first() {
            Some(region) => region.results.len(),
            None => 0,
        },
        Op::Theta => match node.regions.first() {
            Some(region) => region.args.len(),
            None => 0,
        },
        op => op_outputs(op).len(),
    }
}

fn push_outputs(out: &mut Vec<u8>, node: &Node) -> Result<(), NoMemory>
    ensures { OnOk result (out.new.items ≡ out.old.items ++ kinds_text (output_kinds node.now)) }
{
    let count = outputs(node);
    if count == 0 {
        return Ok(());
    }
    push(out, " ")?;
    for port in 0..count {
        push(out, letter(output_kind(node, port)))?;
    }
    Ok(())
}

fn push_origin(out: &mut Vec<u8>, origin: Origin) -> Result<(), NoMemory>
    ensures { OnOk result (out.new.items ≡ out.old.items ++ origin_text origin) }
{
    match origin {
        Origin::Arg(index) => {
            push(out, "a")?;
            push_number(out, u64::from(index))
        }
        Origin::Out { node, port } => push_out(out, node, port),
    }
}

fn push_out(out: &mut Vec<u8>, node: u32, port: u32) -> Result<(), NoMemory>
    ensures { OnOk result (out.new.items ≡ out.old.items ++ out_text node port) }
{
    push(out, "n")?;
    push_number(out, u64::from(node))?;
    if port == 0 {
        return Ok(());
    }
    push(out, ".")?;
    push_number(out, u64::from(port))
}

// Each with a blank before it.
fn push_origins(out: &mut Vec<u8>, origins: &[Origin]) -> Result<(), NoMemory>
    ensures { OnOk result (out.new.items ≡ out.old.items ++ origins_text origins.now) }
{
    for origin in origins {
        push(out, " ")?;
        push_origin(out, *origin)?;
    }
    Ok(())
}

fn push_inputs(out: &mut Vec<u8>, origins: &[Origin]) -> Result<(), NoMemory>
    ensures { OnOk result (out.new.items ≡ out.old.items ++ inputs_text origins.now) }
{
    match origins.split_first() {
        Some((first, others)) => {
            push_origin(out, *first)?;
            push_origins(out, others)
        }
        None => Ok(()),
    }
}

/// Appends the name of an op and, where it has one, its number. `NoMemory` only where the allocator
/// has none; the name may then be there.
pub fn push_op(out: &mut Vec<u8>, op: Op) -> Result<(), NoMemory>
    ensures { OnOk result (out.new.items ≡ out.old.items ++ op_text op) }
{
    match op {
        Op::Const(word) => push_numbered(out, "Const", u64::from(word)),
        Op::Undef => push(out, "Undef"),
        Op::Local(index) => push_numbered(out, "Local", u64::from(index)),
        Op::Delta(place) => push_numbered(out, "Delta", u64::from(place)),
        Op::Bin(op) => push(out, binary_name(op)),
        Op::Un(op) => push(out, unary_name(op)),
        Op::Load(width) => push_numbered(out, "Load", u64::from(width)),
        Op::Store(width) => push_numbered(out, "Store", u64::from(width)),
        Op::Clear(index) => push_numbered(out, "Clear", u64::from(index)),
        Op::PtrEq => push(out, "PtrEq"),
        Op::Apply(function) => push_numbered(out, "Apply", u64::from(function)),
        Op::Put => push(out, "Put"),
        Op::Exit => push(out, "Exit"),
        Op::Get => push(out, "Get"),
        Op::Gamma => push(out, "Gamma"),
        Op::Theta => push(out, "Theta"),
    }
}

fn push_blanks(out: &mut Vec<u8>, depth: u64) -> Result<(), NoMemory>
    ensures { OnOk result (out.new.items ≡ out.old.items ++ blanks depth) }
{
    for _ in 0..depth {
        push(out, "  ")?;
    }
    Ok(())
}

fn push_args_line(out: &mut Vec<u8>, depth: u64, args: &[Kind]) -> Result<(), NoMemory>
    ensures { OnOk result (out.new.items ≡ out.old.items ++ args_line depth args.now) }
{
    push_blanks(out, depth)?;
    push(out, "args")?;
    push_args(out, args)?;
    push(out, "\n")
}

fn push_results_line(out: &mut Vec<u8>, depth: u64, results: &[Origin]) -> Result<(), NoMemory>
    ensures { OnOk result (out.new.items ≡ out.old.items ++ results_line depth results.now) }
{
    push_blanks(out, depth)?;
    push(out, "results")?;
    push_origins(out, results)?;
    push(out, "\n")
}

fn push_region_line(out: &mut Vec<u8>, depth: u64, index: usize) -> Result<(), NoMemory>
    ensures { OnOk result (out.new.items ≡ out.old.items ++ region_line depth index) }
{
    push_blanks(out, depth)?;
    push_numbered(out, "region", index as u64)?;
    push(out, "\n")
}

// The line up to the inputs.
fn push_node_start(
    out: &mut Vec<u8>,
    depth: u64,
    id: u32,
    op: Op,
    inputs: &[Origin],
) -> Result<(), NoMemory>
    ensures { OnOk result (out.new.items ≡ out.old.items ++ node_start depth id op inputs.now) }
{
    push_blanks(out, depth)?;
    push_number(out, u64::from(id))?;
    push(out, ": ")?;
    push_op(out, op)?;
    push(out, " (")?;
    push_inputs(out, inputs)?;
    push(out, ") ->")
}

fn push_node_line(out: &mut Vec<u8>, depth: u64, node: &Node) -> Result<(), NoMemory>
    ensures { OnOk result (out.new.items ≡ out.old.items ++
        node_start depth (id_of node.now) (op_of node.now) (inputs_in node.now) ++
        kinds_text (output_kinds node.now) ++ codes "\n") }
{
    push_node_start(out, depth, node.id, node.op, node.inputs.as_slice())?;
    push_outputs(out, node)?;
    push(out, "\n")
}

#[cycle(text)]
fn push_region(out: &mut Vec<u8>, depth: u64, region: &Region) -> Result<(), NoMemory>
    ensures { OnOk result (out.new.items ≡ out.old.items ++ region_text depth region.now) }
{
    push_args_line(out, depth, &region.args)?;
    for node in &region.nodes {
        push_node(out, depth, node)?;
    }
    push_results_line(out, depth, &region.results)
}

#[cycle(text)]
fn push_node(out: &mut Vec<u8>, depth: u64, node: &Node) -> Result<(), NoMemory>
    ensures { OnOk result (out.new.items ≡ out.old.items ++ node_text depth node.now) }
{
    push_node_line(out, depth, node)?;
    let inside = depth.saturating_add(1);
    for (index, region) in node.regions.iter().enumerate() {
        push_region_line(out, inside, index)?;
        push_region(out, inside.saturating_add(1), region)?;
    }
    Ok(())
}

fn push_leaf(out: &mut Vec<u8>, leaf: Leaf) -> Result<(), NoMemory>
    ensures { OnOk result (out.new.items ≡ out.old.items ++ leaf_text leaf) }
{
    push(out, " ")?;
    push_number(out, u64::from(leaf.offset))?;
    push(out, ":")?;
    push_number(out, u64::from(leaf.width))
}

fn push_leaves(out: &mut Vec<u8>, leaves: &[Leaf]) -> Result<(), NoMemory>
    ensures { OnOk result (out.new.items ≡ out.old.items ++ leaves_text leaves.now) }
{
    push(out, " leaves")?;
    for leaf in leaves {
        push_leaf(out, *leaf)?;
    }
    push(out, "\n")
}

fn push_object(out: &mut Vec<u8>, index: usize, object: &Object) -> Result<(), NoMemory>
    ensures { OnOk result (out.new.items ≡ out.old.items ++ object_text index object.now) }
{
    push_numbered(out, "  object", index as u64)?;
    push_numbered(out, " size", u64::from(object.size))?;
    push_leaves(out, &object.leaves)
}

fn push_objects(out: &mut Vec<u8>, objects: &[Object]) -> Result<(), NoMemory>
    ensures { OnOk result (out.new.items ≡ out.old.items ++ objects_text 0 objects.now) }
{
    for (index, object) in objects.iter().enumerate() {
        push_object(out, index, object)?;
    }
    Ok(())
}

fn push_head(out: &mut Vec<u8>, name: &[u8], lambda: &Lambda) -> Result<(), NoMemory>
    ensures { OnOk result (out.new.items ≡ out.old.items ++ head_text name.now lambda.now) }
{
    push_numbered(out, "function", u64::from(lambda.number))?;
    push(out, " ")?;
    out.extend_from_slice(name)?;
    push_numbered(out, " params", u64::from(lambda.params))?;
    push_numbered(out, " values", values(lambda))?;
    push_numbered(out, " next", u64::from(lambda.next))?;
    push(out, "\n")
}

/// Appends the text of the function of this name. `NoMemory` only where the allocator has none; a
/// beginning of the text may then be there. It takes time linear in the text and in the lambda, but
/// for the kinds of the outputs of a Gamma, each of which is looked for in its first region.
pub fn write_lambda(out: &mut Vec<u8>, name: &[u8], lambda: &Lambda) -> Result<(), NoMemory>
    ensures { OnOk result (out.new.items ≡ out.old.items ++ lambda_text name.now lambda.now) }
{
    push_head(out, name, lambda)?;
    push_objects(out, &lambda.objects)?;
    push_region(out, 1, &lambda.body)
}
