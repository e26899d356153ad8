//! Declarations: a value variable comes into scope with its value, and an object is written.

ghost use Rattle.std.specs.Prelude.{◌≡◌, ◌∷◌, [], true, false, OnOk};
ghost use Rattle.c_typed.specs.Typed.{no_elements, value_then, no_initial, initial_value, initial_elements};
ghost use Rattle.g_graph.specs.declared.op.Origin.TheVariants.{Arg};
ghost use Rattle.g_build_def.specs.Writer.{held, pushed};
ghost use Rattle.c_typed.specs.StmtViews.{elements_of, initial_of, declaration_of};
ghost use Rattle.g_build_def.specs.Statements.{object_stored, element_stored, characters_made, elements_made, value_begun, object_begun, variable_begun, declared_made};
ghost use Rattle.g_build_expression.specs.Work.{made, moved_to};

use crate::objects::Objects;
use base::NoMemory;
use c_typed::{Declaration, Element, Initial, TExpr};
use g_build_expression::{Builder, InScope, access_width};
use g_graph::Origin;

/// A value is written at the start of an object.
pub fn store_object(b: &mut Builder, number: u32, width: u8, value: Origin) -> Result<(), NoMemory>
    ensures { OnOk result
        (b.new ≡ made b.old (object_stored number width value b.old.point)) }
{
    let address = b.local(number)?;
    b.store(width, address, value)?;
    Ok(())
}

// A value is written some bytes into an object.
fn store_element(
    b: &mut Builder,
    number: u32,
    offset: u32,
    width: u8,
    value: Origin,
) -> Result<(), NoMemory>
    ensures { OnOk result
        (b.new ≡ made b.old (element_stored number offset width value b.old.point)) }
{
    let start = b.local(number)?;
    let address = b.at_offset(start, offset)?;
    b.store(width, address, value)?;
    Ok(())
}

fn store_character(b: &mut Builder, number: u32, offset: u32, c: u8) -> Result<(), NoMemory>
    ensures { OnOk result
        (b.new ≡ made b.old (characters_made number offset (c ∷ []) b.old.point)) }
{
    let value = b.constant(u32::from(c))?;
    store_element(b, number, offset, 1, value)
}

// Characters are written, one after the other.
fn store_characters(
    b: &mut Builder,
    number: u32,
    offset: u32,
    characters: &[u8],
) -> Result<(), NoMemory>
    ensures { OnOk result
        (b.new ≡ made b.old (characters_made number offset characters.now b.old.point)) }
{
    let mut at = offset;
    for c in characters {
        store_character(b, number, at, *c)?;
        if at == u32::MAX {
            return Err(NoMemory);
        }
        at += 1;
    }
    Ok(())
}

fn store_value(b: &mut Builder, number: u32, offset: u32, e: &TExpr) -> Result<(), NoMemory>
    ensures { OnOk result (b.new ≡ made b.old
        (elements_made number (value_then offset e.now no_elements) b.old.point)) }
{
    let value = b.expression(e)?;
    store_element(b, number, offset, access_width(&e.ty), value)
}

fn store_written(b: &mut Builder, number: u32, element: &Element) -> Result<(), NoMemory>
    ensures { OnOk result
        (b.new ≡ made b.old (elements_made number (elements_of (element.now ∷ [])) b.old.point)) }
{
    match element {
        Element::Value { offset, value } => store_value(b, number, *offset, value),
        Element::Characters { offset, characters } => store_characters(
            b,
            number,
            *offset,
            characters.as_slice(),
        ),
    }
}

// The written elements of an object.
fn store_elements(b: &mut Builder, number: u32, elements: &[Element]) -> Result<(), NoMemory>
    ensures { OnOk result
        (b.new ≡ made b.old (elements_made number (elements_of elements.now) b.old.point)) }
{
    for element in elements {
        store_written(b, number, element)?;
    }
    Ok(())
}

fn begin_undefined(b: &mut Builder) -> Result<(), NoMemory>
    ensures { OnOk result
        (b.new ≡ made b.old (value_begun false no_initial b.old.point)) }
{
    let value = b.undefined()?;
    b.push_variable(InScope::Held(value))
}

// A value variable that is named in its initialiser is in scope there.
fn begin_named(b: &mut Builder, e: &TExpr) -> Result<(), NoMemory>
    ensures { OnOk result
        (b.new ≡ made b.old (value_begun true (initial_value e.now) b.old.point)) }
{
    let undefined = b.undefined()?;
    b.push_variable(InScope::Held(undefined))?;
    let value = b.expression(e)?;
    b.pop_variable();
    b.push_variable(InScope::Held(value))
}

fn begin_with(b: &mut Builder, e: &TExpr) -> Result<(), NoMemory>
    ensures { OnOk result
        (b.new ≡ made b.old (value_begun false (initial_value e.now) b.old.point)) }
{
    let value = b.expression(e)?;
    b.push_variable(InScope::Held(value))
}

fn begin_value(b: &mut Builder, names_itself: bool, initial: &Initial) -> Result<(), NoMemory>
    ensures { OnOk result
        (b.new ≡ made b.old (value_begun names_itself (initial_of initial.now) b.old.point)) }
{
    match initial {
        Initial::Value(e) => {
            if names_itself {
                begin_named(b, e)
            } else {
                begin_with(b, e)
            }
        }
        Initial::Nothing => begin_undefined(b),
        Initial::Elements(_) => begin_undefined(b),
    }
}

fn store_initial(b: &mut Builder, number: u32, e: &TExpr) -> Result<(), NoMemory>
    ensures { OnOk result
        (b.new ≡ made b.old (object_begun number (initial_value e.now) b.old.point)) }
{
    let value = b.expression(e)?;
    store_object(b, number, access_width(&e.ty), value)
}

fn store_list(b: &mut Builder, number: u32, elements: &[Element]) -> Result<(), NoMemory>
    ensures { OnOk result (b.new ≡ made b.old
        (object_begun number (initial_elements (elements_of elements.now)) b.old.point)) }
{
    b.clear(number)?;
    store_elements(b, number, elements)
}

#[tactic(auto, using(g_build_expression::proofs::lemmas::Made::moved_made))]
fn begin_object(b: &mut Builder, number: u32, initial: &Initial) -> Result<(), NoMemory>
    ensures { OnOk result
        (b.new ≡ made b.old (object_begun number (initial_of initial.now) b.old.point)) }
{
    match initial {
        Initial::Nothing => Ok(()),
        Initial::Value(e) => store_initial(b, number, e),
        Initial::Elements(elements) => store_list(b, number, elements),
    }
}

fn declare_object(b: &mut Builder, number: u32, declaration: &Declaration) -> Result<(), NoMemory>
    ensures { OnOk result (b.new ≡
        made b.old (variable_begun true number (declaration_of declaration.now) b.old.point)) }
{
    b.push_variable(InScope::Object(number))?;
    begin_object(b, number, &declaration.initial)
}

fn declare_undeclared(b: &mut Builder) -> Result<(), NoMemory>
    ensures { OnOk result
        (b.new ≡ moved_to b.old (pushed (held (Arg 0)) b.old.point)) }
{
    b.push_variable(InScope::Held(Origin::Arg(0)))
}

/// A declaration brings its variable into scope.
#[tactic(auto, using(g_build_expression::proofs::lemmas::Made::moved_made))]
pub fn declare(
    b: &mut Builder,
    variables: &Objects,
    declaration: &Declaration,
) -> Result<(), NoMemory>
    ensures { OnOk result (b.new ≡
        made b.old (declared_made variables.now (declaration_of declaration.now) b.old.point)) }
{
    match variables.get(declaration.variable) {
        Some(declared) => {
            if declared.is_object {
                declare_object(b, declared.number, declaration)
            } else {
                begin_value(b, declaration.names_itself, &declaration.initial)
            }
        }
        None => declare_undeclared(b),
    }
}
