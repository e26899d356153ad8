//! The variables in scope while a graph is built: values by their origins, and objects by their
//! numbers.

ghost use Rattle.std.specs.Prelude.{◌≡◌, ◌+◌, ◌<◌, ◌≤◌, ◌^◌, [], ◌∷◌, ◌++◌, false, not, map, option_map, OnOk, IfOk, length};
ghost use Rattle.std.specs.declared.option.Option.TheVariants.{Some};
ghost use Rattle.g_build_def.specs.Writer.{variable_at, variable_set, newest, without_newest, slot_origin, value_origins, value_kinds, numbered};
ghost use Rattle.g_graph.specs.declared.op.Origin.TheVariants.{Arg, Out};
ghost use Rattle.g_build_expression.specs.SlotViews.{slot_of};
ghost use Rattle.g_build_expression.specs.Places.{is_hidden, slot_set, held_set};
ghost use Rattle.g_build_expression.specs.Numbers.{origin_from, slot_at, slot_values};

use base::NoMemory;
use g_graph::{Kind, Origin};
use std::alloc::Global;
use std::marker::Model;

const MOST: usize = 1 << 31;

/// A variable in scope: a value by its origin, an object of the function by its number, or a value
/// that has no name in the source, and no slot.
#[derive(Clone, Copy)]
pub enum InScope {
    Held(Origin),
    Object(u32),
    Hidden(Origin),
}

/// The variables in scope, the newest last. Contracts see the list.
#[derive(Drop)]
pub struct Variables {
    all: Vec<InScope>,
    // Where in the list the variable of each slot stands.
    places: Vec<u32>,
}

impl Model for Variables {
    ghost use Rattle.std.specs.Prelude.{List, map};
    ghost use Rattle.g_build_def.specs.Writer.{SlotOrigin};
    ghost use Rattle.g_build_expression.specs.SlotViews.{slot_of};
    ghost use Rattle.g_build_expression.specs.WorkCodes.{coded_slots};

    ghost Value = { List SlotOrigin };

    ghost coded = { coded_slots };

    ghost view = { λ v. map slot_of v.all.items };

    ghost use Rattle.std.specs.Prelude.{◌≡◌, ◌≤◌, ◌^◌, length};
    ghost use Rattle.g_build_expression.specs.Places.{slot_places};

    ghost invariant = { λ v. (length v.all.items ≤ 2 ^ 31)
        × (v.places.items ≡ slot_places 0 (map slot_of v.all.items)) };
}

impl Variables {
    /// No variables.
    pub fn new(alloc: Global) -> Variables
        ensures { result ≡ [] }
    {
        Variables {
            all: Vec::new(alloc),
            places: Vec::new(alloc),
        }
    }

    /// A variable comes into scope.
    pub fn push(&mut self, variable: InScope) -> Result<(), NoMemory>
        ensures { OnOk result (self.new ≡ self.old ++ slot_of variable ∷ []) }
    {
        if self.all.len() >= MOST {
            return Err(NoMemory);
        }
        if is_named(variable) {
            return self.push_named(variable);
        }
        self.all.push(variable)?;
        Ok(())
    }

    fn push_named(&mut self, variable: InScope) -> Result<(), NoMemory>
        requires room { length self.old < 2 ^ 31 }
        requires named { is_hidden (slot_of variable) ≡ false }
        ensures { OnOk result (self.new ≡ self.old ++ slot_of variable ∷ []) }
    {
        self.places.push(self.all.len() as u32)?;
        if self.all.push(variable).is_err() {
            let _ = self.places.pop();
            return Err(NoMemory);
        }
        Ok(())
    }

    /// The newest variable leaves the scope.
    pub fn pop(&mut self)
        ensures { self.new ≡ without_newest self.old }
    {
        let Some(variable) = self.all.pop() else {
            return;
        };
        if is_named(variable) {
            let _ = self.places.pop();
        }
    }

    /// The origin of the newest variable.
    pub fn newest(&self) -> Origin
        ensures { result ≡ slot_origin (newest self.now) }
    {
        match self.all.last() {
            Some(variable) => value_origin(*variable),
            None => Origin::Arg(0),
        }
    }

    /// What stands at a slot.
    pub fn at(&self, slot: u32) -> Option<InScope>
        ensures { option_map slot_of result ≡ variable_at self.now slot }
    {
        match self.places.get(slot as usize) {
            Some(place) => self.all.get(*place as usize).copied(),
            None => None,
        }
    }

    /// The value variable at the slot has another origin.
    pub fn set(&mut self, slot: u32, origin: Origin)
        ensures { self.new ≡ variable_set self.old slot origin }
    {
        match self.places.get(slot as usize) {
            Some(place) => set_held(&mut self.all, *place as usize, origin),
            None => (),
        }
    }

    /// The same variables, the values among them numbered from this output or argument on; the
    /// number after them.
    pub fn rename(&mut self, alloc: Global, node: Option<u32>, first: u32) -> Result<u32, NoMemory>
        requires { first ≤ 1 }
        ensures names { OnOk result (self.new ≡ numbered self.old (origin_from node first)) }
        ensures next { IfOk result (λ next. next ≡ first + length (value_origins self.old)) }
        ensures small { IfOk result (λ next. next ≤ 2 ^ 31 + 1) }
    {
        let mut all = Vec::with_capacity(alloc, self.all.len())?;
        let mut next = first;
        for variable in &self.all {
            all.push(renamed(*variable, origin_from(node, next)))?;
            next += values_of(*variable);
        }
        self.all = all;
        Ok(next)
    }

    /// The origins of the values, after others.
    pub fn push_origins(&self, origins: &mut Vec<Origin>) -> Result<(), NoMemory>
        ensures { OnOk result (origins.new.items ≡ origins.old.items ++ value_origins self.now) }
    {
        for variable in &self.all {
            push_origin(*variable, origins)?;
        }
        Ok(())
    }

    /// A kind for each value, after others.
    pub fn push_kinds(&self, kinds: &mut Vec<Kind>) -> Result<(), NoMemory>
        ensures { OnOk result (kinds.new.items ≡ kinds.old.items ++ value_kinds self.now) }
    {
        for variable in &self.all {
            push_kind(*variable, kinds)?;
        }
        Ok(())
    }
}

// A value variable that has a name gets another origin.
fn set_held(all: &mut Vec<InScope>, place: usize, origin: Origin)
    ensures { map slot_of all.new.items ≡ held_set (map slot_of all.old.items) place origin }
{
    if place < all.len() {
        let old = all[place];
        all[place] = with_origin(old, origin);
    }
}

fn is_named(variable: InScope) -> bool
    ensures { result ≡ not (is_hidden (slot_of variable)) }
{
    match variable {
        InScope::Hidden(_) => false,
        _ => true,
    }
}

/// The origin of a variable that has one.
pub fn value_origin(variable: InScope) -> Origin
    ensures { result ≡ slot_origin (Some (slot_of variable)) }
{
    match variable {
        InScope::Held(origin) | InScope::Hidden(origin) => origin,
        InScope::Object(_) => Origin::Arg(0),
    }
}

fn with_origin(variable: InScope, origin: Origin) -> InScope
    ensures { slot_of result ≡ slot_set (slot_of variable) origin }
{
    match variable {
        InScope::Held(_) => InScope::Held(origin),
        _ => variable,
    }
}

fn push_origin(variable: InScope, origins: &mut Vec<Origin>) -> Result<(), NoMemory>
    ensures { OnOk result
        (origins.new.items ≡ origins.old.items ++ value_origins (slot_of variable ∷ [])) }
{
    match variable {
        InScope::Held(origin) | InScope::Hidden(origin) => {
            origins.push(origin)?;
            Ok(())
        }
        InScope::Object(_) => Ok(()),
    }
}

fn push_kind(variable: InScope, kinds: &mut Vec<Kind>) -> Result<(), NoMemory>
    ensures { OnOk result
        (kinds.new.items ≡ kinds.old.items ++ value_kinds (slot_of variable ∷ [])) }
{
    match variable {
        InScope::Held(_) | InScope::Hidden(_) => {
            kinds.push(Kind::Value)?;
            Ok(())
        }
        InScope::Object(_) => Ok(()),
    }
}

fn renamed(variable: InScope, origin: Origin) -> InScope
    ensures { slot_of result ≡ slot_at (slot_of variable) origin }
{
    match variable {
        InScope::Held(_) => InScope::Held(origin),
        InScope::Object(number) => InScope::Object(number),
        InScope::Hidden(_) => InScope::Hidden(origin),
    }
}

fn values_of(variable: InScope) -> u32
    ensures { result ≡ slot_values (slot_of variable) }
{
    match variable {
        InScope::Held(_) | InScope::Hidden(_) => 1,
        InScope::Object(_) => 0,
    }
}

/// The argument of a region, or the output of a node.
pub fn origin_from(node: Option<u32>, number: u32) -> Origin
    ensures { result ≡ origin_from node number 0 }
{
    match node {
        None => Origin::Arg(number),
        Some(node) => Origin::Out { node, port: number },
    }
}
