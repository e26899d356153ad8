//! Laws of layouts, for the proofs of the crates above: each is the contract of a function that
//! does nothing.

ghost use Rattle.c_type.specs.LayoutLaws.{AlignmentIsWidth, SizeIsMultiple, MemberIsWithin, LeavesAreInOrder};

/// An alignment is 1, 2 or 4.
pub fn alignment_is_width()
    ensures { AlignmentIsWidth }
{}

/// The size of a complete type is a multiple of its alignment, and not 0.
pub fn size_is_multiple()
    ensures { SizeIsMultiple }
{}

/// A member stands within its struct, at a multiple of its alignment.
pub fn member_is_within()
    ensures { MemberIsWithin }
{}

/// The leaves of a type that begins at a multiple of its alignment are in order, do not overlap,
/// and lie within it, each at a multiple of its width.
pub fn leaves_are_in_order()
    ensures { LeavesAreInOrder }
{}
