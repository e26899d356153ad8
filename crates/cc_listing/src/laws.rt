//! Laws of listings: each is the contract of a function that does nothing.

ghost use Rattle.cc_listing.specs.Laws.{WordsAreOfTheirLines, WordsAreTheText};

/// Each line that is listed of an image has the words of its own items, at their addresses.
pub fn words_are_of_their_lines()
    ensures { WordsAreOfTheirLines }
{}

/// The words that are listed of an image are those of its text, each once, in order.
pub fn words_are_the_text()
    ensures { WordsAreTheText }
{}
