//! The size of a struct, compared with its limit.

ghost use Rattle.std.specs.Prelude.{◌≡◌, ◌+◌, ◌<◌, ◌≤◌, ◌^◌, IfOk};
ghost use Rattle.c_type.specs.Layout.{rounded_up};
ghost use Rattle.c_type.specs.WellDefined.{AreLaidOut};
ghost use Rattle.c_check.specs.Structs.{are_large};

use base::{MOST_TYPE_BYTES, NoMemory};
use c_type::{CType, Types, align_of, size_of};

// Whether a struct of members of these types would have more than `MOST_TYPE_BYTES`.
pub(crate) fn are_large(types: &Types, members: &[CType]) -> Result<bool, NoMemory>
    requires { AreLaidOut types.now members.now }
    ensures { IfOk result (λ r. r ≡ are_large types.now members.now) }
{
    // Then no sum below passes 2^64.
    if members.len() >= u32::MAX as usize {
        return Err(NoMemory);
    }
    c_type::laws::alignment_is_width();
    let mut end: u64 = 0;
    let mut align: u32 = 1;
    for t in members {
        let own = align_of(types, t);
        let offset = rounded_up(end, own);
        end = offset + u64::from(size_of(types, t));
        align = align.max(own);
    }
    let size = rounded_up(end, align);
    Ok(size > u64::from(MOST_TYPE_BYTES))
}

// The least multiple of the alignment that is at least `n`.
fn rounded_up(n: u64, align: u32) -> u64
    requires positive { 0 < align }
    requires small { align ≤ 4 }
    requires room { n + 4 < 2 ^ 64 }
    ensures value { result ≡ rounded_up n align }
    ensures small { result ≤ n + 3 }
{
    let align = u64::from(align);
    (n + (align - 1)) / align * align
}
