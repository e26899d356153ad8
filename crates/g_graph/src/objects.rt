//! Whether the leaves of objects stand in order, apart and within the object.

ghost use Rattle.std.specs.Prelude.{◌≡◌, ◌+◌, ◌%◌, ◌==◌, nat_le, ◌&&◌};
ghost use Rattle.g_graph.specs.WellFormed.{is_width, leaves_fit, all_of};

use crate::Object;
use val_core::Leaf;

/// Whether the leaves of each object stand in order and apart within its bytes, each with a width
/// that divides its offset.
pub fn objects_fit(objects: &[Object]) -> bool
    ensures { result ≡ all_of (λ o. leaves_fit o.size 0 o.leaves) objects.now }
{
    for object in objects {
        if !leaves_fit(object.size, &object.leaves) {
            return false;
        }
    }
    true
}

/// Whether the leaves stand in order and apart within so many bytes.
pub fn leaves_fit(size: u32, leaves: &[Leaf]) -> bool
    ensures { result ≡ leaves_fit size 0 leaves.now }
{
    let mut from = 0;
    for leaf in leaves {
        if !leaf_fits(size, from, *leaf) {
            return false;
        }
        from = leaf.offset as u64 + leaf.width as u64;
    }
    true
}

fn leaf_fits(size: u32, from: u64, leaf: Leaf) -> bool
    ensures { result ≡ (nat_le from leaf.offset && nat_le (leaf.offset + leaf.width) size
        && is_width leaf.width && (leaf.offset % leaf.width == 0)) }
{
    let end = leaf.offset as u64 + leaf.width as u64;
    from <= leaf.offset as u64
        && end <= size as u64
        && is_width(leaf.width)
        && leaf.offset % leaf.width as u32 == 0
}

/// Whether a leaf may have so many bytes: 1, 2 or 4.
pub fn is_width(width: u8) -> bool
    ensures { result ≡ is_width width }
{
    width == 1 || width == 2 || width == 4
}
