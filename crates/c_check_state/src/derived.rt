//! Pointers to a type, and arrays of it.

ghost use Rattle.std.specs.Prelude.{◌≡◌, Some, IfOk};
ghost use Rattle.c_check_def.specs.DeclaredTypes.{pointers_to, arrays_of, sizes_of, size_of_dimension};

use crate::MaybeType;
use base::NoMemory;
use c_check_def::Dimension;
use c_type::CType;
use std::alloc::Global;
use std::sync::Arc;

// A pointer to a pointer, and so on, to the type (ISO/IEC 9899:2011, 6.7.6.1).
pub(crate) fn pointers_to(
    alloc: Global,
    ty: &Arc<CType>,
    stars: usize,
) -> Result<Arc<CType>, NoMemory>
    ensures { IfOk result (λ r. r.value ≡ pointers_to ty.now.value stars) }
{
    let mut whole = ty.copy(alloc)?;
    for _star in 0..stars {
        whole = CType::pointer_to(alloc, whole)?;
    }
    Ok(Arc::new(alloc, whole)?)
}

// An array of arrays, and so on, of the type, the outermost first (6.7.6.2); none where a size
// breaks a rule.
pub(crate) fn arrays_of(
    alloc: Global,
    ty: &Arc<CType>,
    sizes: &[Option<u32>],
) -> Result<MaybeType, NoMemory>
    ensures { IfOk result (λ r. r ≡ arrays_of (Some ty.now.value) sizes.now) }
{
    if sizes.is_empty() {
        return Ok(MaybeType::shared(Arc::try_clone(ty)?));
    }
    let mut whole = ty.copy(alloc)?;
    let mut left = sizes.len();
    while left > 0 {
        left -= 1;
        match sizes[left] {
            Some(size) => whole = CType::array_of(alloc, whole, size)?,
            None => {
                drop(whole);
                return Ok(MaybeType::none());
            }
        }
    }
    MaybeType::of(alloc, whole)
}

// The sizes of dimensions: 0 where one is left empty.
#[tactic(auto, using(crate::proofs::TypeLemmas::sizes))]
pub(crate) fn sizes_of(
    alloc: Global,
    dimensions: &[Dimension],
) -> Result<Vec<Option<u32>>, NoMemory>
    ensures { IfOk result (λ r. r.items ≡ sizes_of dimensions.now) }
{
    let mut sizes = Vec::new(alloc);
    for d in dimensions {
        sizes.push(size_of_dimension(*d))?;
    }
    Ok(sizes)
}

pub(crate) fn size_of_dimension(d: Dimension) -> Option<u32>
    ensures { result ≡ size_of_dimension d }
{
    match d {
        Dimension::Empty => Some(0),
        Dimension::Sized(size) => size,
    }
}
