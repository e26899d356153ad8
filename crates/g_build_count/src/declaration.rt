//! How many values declarations and what they begin with have, and which variables are objects.

ghost use Rattle.std.specs.Prelude.{◌≡◌};
ghost use Rattle.c_typed.specs.StmtViews.{elements_of, initial_of, declaration_of};
ghost use Rattle.g_graph.specs.Count.{saturated};
ghost use Rattle.g_build_count.specs.Values.{elements_values, value_values, object_values, declared_object, declared_values};

use crate::expression::expr_values;
use crate::scope::Scope;
use c_typed::{Declaration, Element, Initial, Variable};

/// Whether a declared variable is an object.
pub fn declared_object(variables: &[Variable], declaration: &Declaration) -> bool
    ensures { result ≡ declared_object variables.now (declaration_of declaration.now) }
{
    match variables.get(declaration.variable as usize) {
        Some(variable) => variable.is_object,
        None => false,
    }
}

// Of the written elements of an initialiser.
fn elements_values(elements: &[Element], carried: u64, scope: &Scope) -> u64
    ensures { result ≡
        saturated (elements_values carried scope.now.objects (elements_of elements.now)) }
{
    let mut total: u64 = 0;
    for element in elements {
        let values = match element {
            Element::Value { value, .. } => expr_values(value, carried, scope).saturating_add(8),
            Element::Characters { characters, .. } => {
                (characters.as_slice().len() as u64).saturating_mul(10)
            }
        };
        total = total.saturating_add(values);
    }
    total
}

// Of the initialiser of a value variable.
fn value_values(initial: &Initial, names_itself: bool, carried: u64, scope: &Scope) -> u64
    ensures { result ≡
        saturated (value_values carried scope.now.objects names_itself (initial_of initial.now)) }
{
    match initial {
        Initial::Value(value) => {
            if names_itself {
                let within = Scope::with(scope, false);
                expr_values(value, carried.saturating_add(1), &within).saturating_add(2)
            } else {
                expr_values(value, carried, scope)
            }
        }
        _ => 2,
    }
}

// Of the initialiser of an object, which is in scope.
fn object_values(initial: &Initial, carried: u64, scope: &Scope) -> u64
    ensures { result ≡
        saturated (object_values carried scope.now.objects (initial_of initial.now)) }
{
    match initial {
        Initial::Nothing => 0,
        Initial::Value(value) => expr_values(value, carried, scope).saturating_add(4),
        Initial::Elements(elements) => elements_values(elements, carried, scope).saturating_add(2),
    }
}

/// Of a declaration.
pub fn declared_values(
    variables: &[Variable],
    declaration: &Declaration,
    carried: u64,
    scope: &Scope,
) -> u64
    ensures { result ≡
        saturated (declared_values variables.now carried scope.now.objects
        (declaration_of declaration.now)) }
{
    match variables.get(declaration.variable as usize) {
        Some(variable) => {
            if variable.is_object {
                let within = Scope::with(scope, true);
                object_values(&declaration.initial, carried, &within)
            } else {
                value_values(
                    &declaration.initial,
                    declaration.names_itself,
                    carried,
                    scope,
                )
            }
        }
        None => 0,
    }
}
