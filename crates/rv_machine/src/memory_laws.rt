//! Laws of memory: each is the contract of a function that does nothing.

ghost use Rattle.rv_machine.specs.MemoryLaws.{StoredIsLoaded, StoreLeavesOthers, LoadElsewhere, UnwritableStays, UnwritableLoadStays, FetchStays};

/// The bytes that were stored are loaded again.
pub fn stored_is_loaded()
    ensures { StoredIsLoaded }
{}

/// A store leaves the bytes elsewhere.
pub fn store_leaves_others()
    ensures { StoreLeavesOthers }
{}

/// A load elsewhere gives what it gave before the store.
pub fn load_elsewhere()
    ensures { LoadElsewhere }
{}

/// A run leaves memory that may not be written.
pub fn unwritable_stays()
    ensures { UnwritableStays }
{}

/// What is loaded from there stays.
pub fn unwritable_load_stays()
    ensures { UnwritableLoadStays }
{}

/// The word that is fetched from there stays.
pub fn fetch_stays()
    ensures { FetchStays }
{}
