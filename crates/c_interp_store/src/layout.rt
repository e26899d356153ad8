//! The shapes of the objects of each function, and the numbers of its variables among these.

ghost use Rattle.std.specs.Prelude.{◌≡◌, ◌<◌, ◌^◌, ◌∷◌, ◌++◌, [], ℕ, Some, IfOk, OnOk, length, map, slice_get};
ghost use Rattle.val_core.specs.Objects.{address_in};
ghost use Rattle.val_core.specs.declared.values.Value.TheVariants.{At};
ghost use Rattle.c_type.specs.Layout.{IsLaidOut, size};
ghost use Rattle.c_type.specs.WellDefined.{AreDefinitions};
ghost use Rattle.c_typed.specs.Typed.{GlobalTree};
ghost use Rattle.c_typed.specs.WellTyped.{VariablesFit, IsWellTyped};
ghost use Rattle.c_mean.specs.Run.{shape_of, objects_of};
ghost use Rattle.c_interp_store.specs.Blocks as store;
ghost use Rattle.c_interp_store.specs.Laid.{size_in, sizes_in, IsLayout, AreLayoutsTo, FunctionsFit, IsLaid};

use crate::Shape;
use base::NoMemory;
use c_type::laws::leaves_are_in_order;
use c_type::{Types, leaves, size_of};
use c_typed::{TFunction, TGlobal, Typed, Variable};
use std::alloc::Global;
use val_core::{BlockName, Value};

/// The shapes of the objects of a function, in order of declaration, and for each variable how many
/// objects are declared before it.
#[derive(Drop)]
pub struct Layout {
    pub shapes: Vec<Shape>,
    pub numbers: Vec<u32>,
}

/// The layouts of the functions, and the sizes of the globals in bytes.
#[derive(Drop)]
pub struct Layouts {
    pub functions: Vec<Layout>,
    pub globals: Vec<u32>,
}

impl Layouts {
    /// The address of a global; `Bad` where there is none of this number.
    pub fn global(&self, number: u32) -> Value
        ensures { result ≡ address_in 0 self.now.globals.items number }
    {
        match self.globals.get(number as usize) {
            Some(size) => address(u64::from(number), *size),
            None => Value::Bad,
        }
    }

    /// The address of an object of a call of this function, whose first block has this number;
    /// `Bad` where there is no such object.
    pub fn object(&self, function: u32, first: u64, number: u32) -> Value
        requires { first < 2 ^ 63 }
        ensures { result
            ≡ address_in first (sizes_in (slice_get self.now.functions.items function)) number }
    {
        match self.functions.get(function as usize) {
            Some(layout) => object_of(&layout.shapes, first, number),
            None => Value::Bad,
        }
    }
}

fn object_of(shapes: &[Shape], first: u64, number: u32) -> Value
    requires { first < 2 ^ 63 }
    ensures { result ≡ address_in first (map size_in shapes.now) number }
{
    match shapes.get(number as usize) {
        Some(shape) => address(first + u64::from(number), shape.size),
        None => Value::Bad,
    }
}

fn address(number: u64, size: u32) -> Value
    ensures { result ≡ At (record { number = number; size = size }) 0 }
{
    Value::At {
        block: BlockName { number, size },
        offset: 0,
    }
}

/// The layouts of a program.
pub fn lay_out(alloc: Global, typed: &Typed) -> Result<Layouts, NoMemory>
    requires { IsWellTyped typed.now }
    ensures { IfOk result (IsLaid typed.now) }
{
    let functions = function_layouts(alloc, &typed.structs, &typed.functions)?;
    let globals = sizes(alloc, &typed.structs, &typed.globals)?;
    Ok(Layouts { functions, globals })
}

fn function_layouts(
    alloc: Global,
    types: &Types,
    functions: &[TFunction],
) -> Result<Vec<Layout>, NoMemory>
    requires defined { AreDefinitions types.now }
    requires fit { FunctionsFit types.now functions.now }
    ensures { IfOk result (λ layouts. AreLayoutsTo types.now functions.now
        (length functions.now) layouts.items) }
{
    let mut layouts = Vec::new(alloc);
    for f in functions {
        layouts.push(function_layout(alloc, types, &f.variables)?)?;
    }
    Ok(layouts)
}

fn sizes(alloc: Global, types: &Types, globals: &[TGlobal]) -> Result<Vec<u32>, NoMemory>
    requires { (k : ℕ) (g : GlobalTree) → slice_get globals.now k ≡ Some g
        → IsLaidOut types.now g.type }
    ensures { IfOk result (λ sizes. sizes.items
        ≡ map (λ (g : GlobalTree). size types.now g.type) globals.now) }
{
    let mut sizes = Vec::new(alloc);
    for g in globals {
        sizes.push(size_of(types, &g.ty))?;
    }
    Ok(sizes)
}

fn function_layout(alloc: Global, types: &Types, variables: &[Variable]) -> Result<Layout, NoMemory>
    requires defined { AreDefinitions types.now }
    requires fit { VariablesFit types.now variables.now }
    requires few { length variables.now < 2 ^ 32 }
    ensures { IfOk result (IsLayout types.now variables.now) }
{
    let mut shapes = Vec::new(alloc);
    let mut numbers = Vec::new(alloc);
    for v in variables {
        numbers.push(shapes.len() as u32)?;
        add_object(alloc, types, v, &mut shapes)?;
    }
    Ok(Layout { shapes, numbers })
}

// One more shape, where the variable is an object.
fn add_object(
    alloc: Global,
    types: &Types,
    v: &Variable,
    shapes: &mut Vec<Shape>,
) -> Result<(), NoMemory>
    requires defined { AreDefinitions types.now }
    requires laid_out { IsLaidOut types.now v.now.type }
    ensures { OnOk result (store.shapes_of shapes.new.items
        ≡ store.shapes_of shapes.old.items ++ objects_of types.now (v.now ∷ [])) }
{
    if v.is_object {
        shapes.push(shape(alloc, types, v)?)?;
    }
    Ok(())
}

fn shape(alloc: Global, types: &Types, v: &Variable) -> Result<Shape, NoMemory>
    requires defined { AreDefinitions types.now }
    requires laid_out { IsLaidOut types.now v.now.type }
    ensures { IfOk result (λ s. store.shape_of s ≡ shape_of types.now v.now) }
{
    leaves_are_in_order();
    Ok(Shape {
        size: size_of(types, &v.ty),
        leaves: leaves(alloc, types, &v.ty)?,
    })
}
