//! The quantities that programs have limits of, and the first that a program passes.

ghost use Rattle.std.specs.Prelude.{◌≡◌, ◌+◌, nat_lt, Some, None, map, if◌then◌else◌, IfOk};
ghost use Rattle.std.specs.Option.{option_or, option_map};
ghost use Rattle.std.specs.List.{sum};
ghost use Rattle.base.specs.Limits.{most_parameters, most_global_bytes, most_object_bytes, counted_bytes};
ghost use Rattle.c_type.specs.Layout.{size};
ghost use Rattle.c_check_def.specs.declared.refusal_kind.Quantity.TheVariants.{Parameters, ObjectBytes, GlobalBytes};
ghost use Rattle.c_check_def.specs.Refusals.{above_limit};
ghost use Rattle.c_check_def.specs.Limits.{above_limits, many_functions, first_above, bytes_of, object_bytes, global_bytes, many_global_bytes};
ghost use Rattle.c_check.specs.Faults.{maybe_refusal};

use base::{MOST_FUNCTIONS, MOST_GLOBAL_BYTES, MOST_OBJECT_BYTES, MOST_PARAMETERS, NoMemory};
use c_check_def::Quantity;
use c_type::{CType, Types, is_laid_out, size_of};
use c_typed::{TFunction, TGlobal, Typed, Variable};

/// A quantity above its limit, with its count, at the offset of what passes the limit.
#[derive(Clone, Copy)]
pub(crate) struct Passed {
    pub(crate) quantity: Quantity,
    pub(crate) at: u32,
    pub(crate) count: u64,
}

/// The first limit that a program passes (ISO/IEC 9899:2011, 5.2.4.1).
pub(crate) fn above_limits(typed: &Typed) -> Result<Option<Passed>, NoMemory>
    ensures { IfOk result (λ r. maybe_refusal r ≡ above_limits typed.now) }
{
    let functions = typed.functions.as_slice();
    if let Some(passed) = many_functions(functions) {
        return Ok(Some(passed));
    }
    if let Some(passed) = many_parameters(functions) {
        return Ok(Some(passed));
    }
    if let Some(passed) = many_object_bytes(&typed.structs, functions)? {
        return Ok(Some(passed));
    }
    many_global_bytes(&typed.structs, typed.globals.as_slice())
}

fn many_functions(fs: &[TFunction]) -> Option<Passed>
    ensures { maybe_refusal result ≡ many_functions fs.now }
{
    match fs.get(MOST_FUNCTIONS) {
        Some(f) => Some(Passed {
            quantity: Quantity::Functions,
            at: f.at,
            count: fs.len() as u64,
        }),
        None => None,
    }
}

// The first function with too many parameters.
fn many_parameters(fs: &[TFunction]) -> Option<Passed>
    ensures { maybe_refusal result ≡
        first_above Parameters most_parameters (λ f. f.params) fs.now }
{
    for f in fs {
        if f.params > MOST_PARAMETERS {
            return Some(Passed {
                quantity: Quantity::Parameters,
                at: f.at,
                count: u64::from(f.params),
            });
        }
    }
    None
}

// The first function with too many bytes of objects.
fn many_object_bytes(types: &Types, fs: &[TFunction]) -> Result<Option<Passed>, NoMemory>
    ensures { IfOk result (λ r. maybe_refusal r ≡
        first_above ObjectBytes most_object_bytes (object_bytes types.now) fs.now) }
{
    for f in fs {
        let count = object_bytes(types, f.variables.as_slice())?;
        if count > u64::from(MOST_OBJECT_BYTES) {
            return Ok(Some(Passed {
                quantity: Quantity::ObjectBytes,
                at: f.at,
                count,
            }));
        }
    }
    Ok(None)
}

fn object_bytes(types: &Types, variables: &[Variable]) -> Result<u64, NoMemory>
    ensures { IfOk result (λ r. r ≡ sum (map (bytes_of types.now) variables.now)) }
{
    let mut sum = 0;
    for v in variables {
        sum = added(sum, bytes_of(types, v)?)?;
    }
    Ok(sum)
}

fn bytes_of(types: &Types, v: &Variable) -> Result<u64, NoMemory>
    ensures { IfOk result (λ r. r ≡ bytes_of types.now v.now) }
{
    if v.is_object {
        counted(types, &v.ty)
    } else {
        Ok(0)
    }
}

// The bytes that an object of a type counts.
fn counted(types: &Types, t: &CType) -> Result<u64, NoMemory>
    ensures { IfOk result (λ r. r ≡ counted_bytes (size types.now t.now)) }
{
    // A type that has no size, or too large a one, has broken a rule before.
    if !is_laid_out(types, t) {
        return Err(NoMemory);
    }
    let size = u64::from(size_of(types, t));
    Ok((size + 3) / 4 * 4 + 4)
}

// The sum of two counts.
fn added(a: u64, b: u64) -> Result<u64, NoMemory>
    ensures { IfOk result (λ r. r ≡ a + b) }
{
    match a.checked_add(b) {
        Some(sum) => Ok(sum),
        None => Err(NoMemory),
    }
}

// The whole count of bytes of globals, at the first one that passes the limit.
fn many_global_bytes(types: &Types, gs: &[TGlobal]) -> Result<Option<Passed>, NoMemory>
    ensures { IfOk result (λ r. maybe_refusal r ≡ many_global_bytes types.now gs.now) }
{
    let mut sum = 0;
    let mut passed = None;
    for g in gs {
        sum = added(sum, global_bytes(types, g)?)?;
        passed = passing(passed, sum, g);
    }
    Ok(passed_globals(passed, sum))
}

fn global_bytes(types: &Types, g: &TGlobal) -> Result<u64, NoMemory>
    ensures { IfOk result (λ r. r ≡ global_bytes types.now g.now) }
{
    counted(types, &g.ty)
}

// The offset of the first global at which the sum so far passes the limit.
fn passing(before: Option<u32>, sum: u64, g: &TGlobal) -> Option<u32>
    ensures { result ≡
        option_or before (if nat_lt most_global_bytes sum then Some g.now.at else None) }
{
    match before {
        Some(at) => Some(at),
        None => {
            if sum > u64::from(MOST_GLOBAL_BYTES) {
                Some(g.at)
            } else {
                None
            }
        }
    }
}

fn passed_globals(passed: Option<u32>, count: u64) -> Option<Passed>
    ensures { maybe_refusal result ≡
        option_map (λ offset. above_limit GlobalBytes offset count) passed }
{
    match passed {
        Some(at) => Some(Passed {
            quantity: Quantity::GlobalBytes,
            at,
            count,
        }),
        None => None,
    }
}
