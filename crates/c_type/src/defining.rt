//! The offsets, size and alignment of a struct, and the index of its tag.

ghost use Rattle.std.specs.Prelude.{◌≡◌, ◌+◌, ◌<◌, max, length, IfOk, OnOk, IfErr};
ghost use Rattle.base.specs.Limits.{most_type_bytes};
ghost use Rattle.c_type.specs.WellDefined.{AreLaidOut};
ghost use Rattle.c_type.specs.LaidUpTo.{IsLaid, struct_bytes};
ghost use Rattle.c_type.specs.Structs.{Pads};
ghost use Rattle.c_type.specs.declared.define_fault.DefineFault.TheVariants.{TooLarge};

use crate::define_fault::DefineFault;
use crate::layout::{align_of, rounded_up, size_of};
use crate::structs::Types;
use crate::trees::CType;
use base::MOST_TYPE_BYTES;
use std::alloc::{AllocError, Global};

// What stands for the index of a tag that has none.
const ABSENT: u32 = u32::MAX;

// What a struct of some members occupies.
#[derive(Drop)]
pub(crate) struct Layout {
    pub(crate) offsets: Vec<u32>,
    pub(crate) size: u32,
    pub(crate) align: u32,
}

// Lays out the members of a struct, each at the next multiple of its alignment.
pub(crate) fn lay_out(
    alloc: Global,
    types: &Types,
    members: &[CType],
) -> Result<Layout, DefineFault>
    requires { AreLaidOut types.now members.now }
    ensures ok { IfOk result (λ l. IsLaid types.now members.now l.offsets.items l.size l.align) }
    ensures too_large { IfErr result (λ e.
        e ≡ TooLarge → most_type_bytes < struct_bytes types.now members.now) }
{
    let mut offsets = Vec::new(alloc);
    let mut end = 0;
    let mut align: u32 = 1;
    for t in members {
        let own = align_of(types, t);
        let offset = rounded_up(end, own);
        offsets.push(offset)?;
        end = offset + size_of(types, t);
        if end > MOST_TYPE_BYTES {
            return Err(DefineFault::TooLarge);
        }
        align = align.max(own);
    }
    let size = rounded_up(end, align);
    if size > MOST_TYPE_BYTES {
        return Err(DefineFault::TooLarge);
    }
    Ok(Layout {
        offsets,
        size,
        align,
    })
}

// Makes room for the index of a tag.
pub(crate) fn make_index(indices: &mut Vec<u32>, tag: u32) -> Result<(), AllocError>
    ensures pads { Pads indices.old.items indices.new.items }
    ensures room { OnOk result (tag < length indices.new.items) }
{
    for _i in indices.len()..=tag as usize {
        indices.push(ABSENT)?;
    }
    Ok(())
}
