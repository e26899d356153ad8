//! Laws of the definitions of encodings and of a word in two parts, each the contract of a function
//! that does nothing.

ghost use Rattle.rv_isa.specs.RoundTrip.{DecodedEncodes, EncodedDecodes, EncodedFitsWord, SomeIfMatched};
ghost use Rattle.rv_isa.specs.WordParts.{LowPartFits, PartsMakeWord, PartsMakeOffset};

/// The word of an instruction has 32 bits.
pub fn encoded_fits_word()
    ensures { EncodedFitsWord }
{}

/// Decoding the word of an instruction gives the instruction.
pub fn encoded_decodes()
    ensures { EncodedDecodes }
{}

/// Where decoding a word gives an instruction, the word is that instruction's.
pub fn decoded_encodes()
    ensures { DecodedEncodes }
{}

/// A word decodes to an instruction exactly where it matches an encoding.
pub fn some_if_matched()
    ensures { SomeIfMatched }
{}

/// The low part of a word fits the immediate of formats I and S.
pub fn low_part_fits()
    ensures { LowPartFits }
{}

/// lui and addi make a word of its two parts.
pub fn parts_make_word()
    ensures { PartsMakeWord }
{}

/// auipc and the low part make an offset of its two parts.
pub fn parts_make_offset()
    ensures { PartsMakeOffset }
{}
