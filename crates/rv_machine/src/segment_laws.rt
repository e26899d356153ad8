//! Laws of the memory that segments make: each is the contract of a function that does nothing.

ghost use Rattle.rv_machine.specs.SegmentLaws.{SegmentIsInMemory, BytesAreLoaded, WordBytesMakeWord, FlagsAllow, FlagIsMissing, TextIsFetched};

/// Memory has at each address of a segment the byte and the flags of the segment.
pub fn segment_is_in_memory()
    ensures { SegmentIsInMemory }
{}

/// Consecutive bytes are loaded as the number that they make.
pub fn bytes_are_loaded()
    ensures { BytesAreLoaded }
{}

/// The bytes of a word make the word.
pub fn word_bytes_make_word()
    ensures { WordBytesMakeWord }
{}

/// Where each byte has the flag, the access is allowed.
pub fn flags_allow()
    ensures { FlagsAllow }
{}

/// Where a byte has not the flag, it is not.
pub fn flag_is_missing()
    ensures { FlagIsMissing }
{}

/// The words of an unwritable segment are fetched throughout a run.
pub fn text_is_fetched()
    ensures { TextIsFetched }
{}
