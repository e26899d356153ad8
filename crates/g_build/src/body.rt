//! The body of a function.

ghost use Rattle.std.specs.Prelude.{◌≡◌, ◌++◌, ◌∷◌, ◌<◌, ◌-◌, ◌^◌, [], length, replicate, OnOk, IfOk};
ghost use Rattle.c_typed.specs.WellTyped.{params_of};
ghost use Rattle.g_graph.specs.declared.op.Kind.TheVariants.{Value, Memory, Io};
ghost use Rattle.g_build_def.specs.Functions.{start_of, jumps_begun, body_built, body_made, next_number};
ghost use Rattle.g_build_expression.specs.Work.{made};
ghost use Rattle.g_build.specs.Bodies.{jumping_from, straight_from};

use crate::params::{enter, store_params};
use crate::straight_body::{end_value, straight};
use crate::{Objects, list};
use base::NoMemory;
use c_typed::TFunction;
use g_build_count::{body_jumps, params_of};
use g_build_expression::{Body, Builder};
use g_graph::{Kind, Origin};
use std::alloc::Global;

// `go` and `ret` begin.
fn begin_jumps(b: &mut Builder, is_main: bool) -> Result<(), NoMemory>
    ensures { OnOk result (b.new ≡ made b.old (jumps_begun is_main b.old.point)) }
{
    let go = b.constant(0)?;
    let ret = end_value(b, is_main)?;
    b.set_jumps(true, go, ret);
    Ok(())
}

// The kinds of a body's arguments: so many values, and the states.
fn argument_kinds(alloc: Global, params: u32) -> Result<Vec<Kind>, NoMemory>
    ensures { IfOk result (λ kinds. kinds.items ≡ replicate params Value ++ Memory ∷ Io ∷ []) }
{
    let mut kinds = Vec::new(alloc);
    for i in 0..params {
        kinds.push(Kind::Value)?;
    }
    kinds.push(Kind::Memory)?;
    kinds.push(Kind::Io)?;
    Ok(kinds)
}

// A builder at the start of a function.
fn start(alloc: Global, f: &TFunction) -> Result<Builder, NoMemory>
    ensures work { IfOk result
        (λ b. b ≡ record { enclosing = []; nodes = []; point = start_of f.now }) }
    ensures few { OnOk result (length (params_of f.now) < 2 ^ 32 - 1) }
{
    let params = params_of(f);
    if f.params >= u32::MAX - 1 || params.len() >= u32::MAX as usize {
        return Err(NoMemory);
    }
    let mut b = Builder::new(alloc, Origin::Arg(f.params), Origin::Arg(f.params + 1));
    enter(&mut b, params)?;
    Ok(b)
}

// The body of a function with `go`, whose value is `ret`.
fn jumping(
    b: &mut Builder,
    is_main: bool,
    objects: &Objects,
    f: &TFunction,
) -> Result<Origin, NoMemory>
    requires few { length (params_of f.now) < 2 ^ 32 - 1 }
    requires objects { objects.now ≡ f.now.variables }
    ensures work { OnOk result
        (b.new ≡ made b.old (jumping_from is_main f.now b.old.point)) }
    ensures value { IfOk result (λ v. v ≡ (jumping_from is_main f.now b.old.point).value) }
{
    begin_jumps(b, is_main)?;
    store_params(b, params_of(f))?;
    list(b, objects, &f.body)?;
    Ok(b.ret())
}

fn without_jumps(
    b: &mut Builder,
    is_main: bool,
    objects: &Objects,
    f: &TFunction,
) -> Result<Origin, NoMemory>
    requires few { length (params_of f.now) < 2 ^ 32 - 1 }
    requires objects { objects.now ≡ f.now.variables }
    ensures work { OnOk result
        (b.new ≡ made b.old (straight_from is_main f.now b.old.point)) }
    ensures value { IfOk result (λ v. v ≡ (straight_from is_main f.now b.old.point).value) }
{
    store_params(b, params_of(f))?;
    straight(b, is_main, objects, &f.body)
}

fn body_value(
    b: &mut Builder,
    is_main: bool,
    objects: &Objects,
    f: &TFunction,
) -> Result<Origin, NoMemory>
    requires few { length (params_of f.now) < 2 ^ 32 - 1 }
    requires objects { objects.now ≡ f.now.variables }
    requires start { b.old.point ≡ start_of f.now }
    ensures work { OnOk result (b.new ≡ made b.old (body_built is_main f.now)) }
    ensures value { IfOk result (λ v. v ≡ (body_built is_main f.now).value) }
{
    if body_jumps(&f.body) {
        jumping(b, is_main, objects, f)
    } else {
        without_jumps(b, is_main, objects, f)
    }
}

/// The body of the lambda of a function, which is `main` or not, and the number after those of its
/// nodes. `NoMemory` where the allocator has none, or a number does not fit in 32 bits, which takes
/// more nodes, variables or parameters than the limits allow. It takes time linear in what is made
/// and in the function.
pub fn build_body(alloc: Global, is_main: bool, f: &TFunction) -> Result<Body, NoMemory>
    ensures region { IfOk result (λ body. body.region ≡ body_made is_main f.now) }
    ensures next { IfOk result (λ body. body.next ≡ next_number is_main f.now) }
{
    let objects = Objects::new(alloc, &f.variables)?;
    let mut b = start(alloc, f)?;
    let value = body_value(&mut b, is_main, &objects, f)?;
    let kinds = argument_kinds(alloc, f.params)?;
    b.finish(kinds, value)
}
