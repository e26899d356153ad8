//! Laws of the definition: each function has one as its contract, and does nothing.

ghost use Rattle.c_lex.specs.Faults.{FaultsAreFirst};
ghost use Rattle.c_lex.specs.Grammar.{TokensAreLongest};
ghost use Rattle.c_lex.specs.Written.{TokensAreReadAgain};

/// The tokens of a source are exactly those that stand in it so: each is the longest run from its
/// start that is a token, and only blanks, comments and include lines stand between them (ISO
/// 9899:2011, 6.4).
pub fn tokens_are_longest()
    ensures { TokensAreLongest }
{}

/// A source has a fault exactly where it is too long, or where up to an offset it is tokens with
/// such trivia, no include line covers the offset, and there the source is wrong in the way that
/// the fault names. So it has one fault at most, at one offset.
pub fn faults_are_first()
    ensures { FaultsAreFirst }
{}

/// The tokens of a source say all of it but what stands between them: written again, with a space
/// after each, they give the same tokens, where that text is not too long.
pub fn tokens_are_read_again()
    ensures { TokensAreReadAgain }
{}
