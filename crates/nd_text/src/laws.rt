//! A law of texts. Nothing here runs: the law is what the function's `ensures` clause says.

ghost use Rattle.nd_text.specs.JoinedLinesLaw.{LinesJoinAgain};

/// The lines of a text, joined again by line feeds, are the text.
pub fn lines_join_again()
    ensures { LinesJoinAgain }
{}
