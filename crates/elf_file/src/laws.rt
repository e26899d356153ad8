//! Laws of the definitions, each the contract of a function that does nothing.

ghost use Rattle.elf_file.specs.Laws.{WrittenLoads, LoadedIsSound, OverlapHasAddress};

/// The file of an image loads as the image.
pub fn written_loads()
    ensures { WrittenLoads }
{}

/// The segments of every executable are contained in the address space, apart from one another, and
/// few.
pub fn loaded_is_sound()
    ensures { LoadedIsSound }
{}

/// Two segments that are not apart have an address in common.
pub fn overlap_has_address()
    ensures { OverlapHasAddress }
{}
