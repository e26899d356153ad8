//! Laws of copies under new numbers.

ghost use Rattle.r_edit.specs.CopyLaws.{CopiesAreNumbered, CopiesFit, CopiesCountTheSame, CopiesCallTheSame, CopiesNameTheSame, NumberedCopiesMeanTheSame};

/// The numbers of a copy are those from the next one on, in pre-order of the copy, where the
/// numbers of the copied region are unique.
pub fn copies_are_numbered()
    ensures { CopiesAreNumbered }
{}

/// A copy takes and gives data of the same kinds, is well formed where the copied region is, and
/// has as many values.
pub fn copies_fit()
    ensures fits { CopiesFit }
    ensures count { CopiesCountTheSame }
{}

/// A copy calls functions of a list, and names globals of a program, where the copied region does.
pub fn copies_call_the_same()
    ensures functions { CopiesCallTheSame }
    ensures globals { CopiesNameTheSame }
{}

/// The copy of a closed region means what the region means.
pub fn numbered_copies_mean_the_same()
    ensures { NumberedCopiesMeanTheSame }
{}
