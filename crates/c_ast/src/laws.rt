//! Laws of the grammar: each function has one as its contract, and does nothing.

ghost use Rattle.c_ast.specs.Laws.{OneTree, OneTreeAtSpans, TreeOrWrong, OneToken, ReaderIsExact};

/// Two trees that follow the grammar and have one spelling differ at most in their spans.
pub fn a_spelling_has_one_tree()
    ensures { OneTree }
{}

/// Two trees that follow the grammar, of one spelling and with the same spans, are equal.
pub fn a_spelling_has_one_tree_at_its_spans()
    ensures { OneTreeAtSpans }
{}

/// Each list of tokens is what a tree that follows the grammar spells, or is wrong from some token
/// on: up to there it begins such a spelling, and with that token it does not, or there it ends too
/// early.
pub fn tokens_are_a_tree_or_wrong()
    ensures { TreeOrWrong }
{}

/// That token is determined.
pub fn tokens_are_wrong_from_one_token()
    ensures { OneToken }
{}

/// The reader over the table finds the one tree, or the token from which on the tokens are wrong.
pub fn reader_is_exact()
    ensures { ReaderIsExact }
{}
