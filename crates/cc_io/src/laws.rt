//! Laws of what is read, written and filed, for the proofs of callers: each is the contract of a
//! function that does nothing.

ghost use Rattle.cc_io.specs.Laws.{PrependTwice, AppendTwice, PutThenAppend, PutTwice, PutHere, PutElsewhere, WrittenWhole};

/// Two reads, one after the other, take what one read of both pieces takes.
pub fn prepend_twice()
    ensures { PrependTwice }
{}

/// Two pieces appended, one after the other, are both joined.
pub fn append_twice()
    ensures { AppendTwice }
{}

/// A file that is appended to holds both pieces.
pub fn put_then_append()
    ensures { PutThenAppend }
{}

/// Of two contents the later counts.
pub fn put_twice()
    ensures { PutTwice }
{}

/// A file holds what was put there.
pub fn put_here()
    ensures { PutHere }
{}

/// Every other file holds what it held.
pub fn put_elsewhere()
    ensures { PutElsewhere }
{}

/// A file that was created and then appended to, while the other files stayed, holds these bytes:
/// what a caller of `Created` knows once the loan is over.
pub fn written_whole()
    ensures { WrittenWhole }
{}
