//! Laws of memory.

ghost use Rattle.val_core.specs.MemoryLaws.{LoadAfterStore, LoadElsewhere, StoreTwice, StoresCommute, StoreKeepsBlocks, DeadIsUndefined, FixedIsUndefined, LoadAfterClear, ClearElsewhere, ClearKeepsBlocks, NewBlocksKeepLoads, ClosedBlocksKeepLoads, ClosedIsDead, ClosedKeepsBlocks, LoadIsSound, StoreIsSound, ClearIsSound, ClosedIsSound, OpenedIsSound, AddressesAreSound};

/// A leaf holds what was stored there, as far as it keeps it.
pub fn load_after_store()
    ensures { LoadAfterStore }
{}

/// After a store every other leaf holds what it held.
pub fn load_elsewhere()
    ensures { LoadElsewhere }
{}

/// Of two stores at one leaf the later counts.
pub fn store_twice()
    ensures { StoreTwice }
{}

/// Stores at two leaves may be made in either order.
pub fn stores_commute()
    ensures { StoresCommute }
{}

/// A store changes no block's size, leaves or marks.
pub fn store_keeps_blocks()
    ensures { StoreKeepsBlocks }
{}

/// Neither a load nor a store is defined in a block whose lifetime has ended.
pub fn dead_is_undefined()
    ensures { DeadIsUndefined }
{}

/// No store is defined in a fixed block.
pub fn fixed_is_undefined()
    ensures { FixedIsUndefined }
{}

/// A leaf of a cleared block that lives is 0.
pub fn load_after_clear()
    ensures { LoadAfterClear }
{}

/// After a clear every leaf of another block holds what it held.
pub fn clear_elsewhere()
    ensures { ClearElsewhere }
{}

/// A clear changes no block's size, leaves or marks.
pub fn clear_keeps_blocks()
    ensures { ClearKeepsBlocks }
{}

/// New blocks after the others change no load from these.
pub fn new_blocks_keep_loads()
    ensures { NewBlocksKeepLoads }
{}

/// The end of some blocks' lifetimes changes no load from the others.
pub fn closed_blocks_keep_loads()
    ensures { ClosedBlocksKeepLoads }
{}

/// The blocks whose lifetimes were ended are dead.
pub fn closed_is_dead()
    ensures { ClosedIsDead }
{}

/// The end of lifetimes changes no block's size, leaves or fixed mark.
pub fn closed_keeps_blocks()
    ensures { ClosedKeepsBlocks }
{}

/// What a sound memory gives is sound.
pub fn load_is_sound()
    ensures { LoadIsSound }
{}

/// A memory stays sound where a sound value is stored.
pub fn store_is_sound()
    ensures { StoreIsSound }
{}

/// A memory stays sound where a block is cleared.
pub fn clear_is_sound()
    ensures { ClearIsSound }
{}

/// A memory stays sound where lifetimes end.
pub fn closed_is_sound()
    ensures { ClosedIsSound }
{}

/// A memory stays sound where the objects of a call get their blocks, and the addresses of these
/// are sound.
pub fn opened_is_sound()
    ensures memory { OpenedIsSound }
    ensures addresses { AddressesAreSound }
{}
