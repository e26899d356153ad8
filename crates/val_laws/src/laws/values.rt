//! Laws of the operations on words and values.

ghost use Rattle.val_core.specs.ValueLaws.{GivesWord2, GivesWord1, KeepsLessDefined2, KeepsLessDefined1, KeepsSound2, KeepsSound1};

/// An operation on two words gives a word.
pub fn gives_word2()
    ensures { GivesWord2 }
{}

/// An operation on one word gives a word.
pub fn gives_word1()
    ensures { GivesWord1 }
{}

/// An operation on less defined values gives a less defined value.
pub fn keeps_less_defined2()
    ensures { KeepsLessDefined2 }
{}

/// An operation on a less defined value gives a less defined value.
pub fn keeps_less_defined1()
    ensures { KeepsLessDefined1 }
{}

/// An operation on two sound values gives a sound value.
pub fn keeps_sound2()
    ensures { KeepsSound2 }
{}

/// An operation on a sound value gives a sound value.
pub fn keeps_sound1()
    ensures { KeepsSound1 }
{}
