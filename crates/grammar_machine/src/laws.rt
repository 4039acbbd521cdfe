//! The grammar has one answer: laws about its definitions in `basic_tree`. Each is the contract of
//! a function with an empty body.

ghost use Rattle.basic_tree.specs.AnswerLaws.{LevelsAreSettled, OneBytesAnswer, OneVerdict};
ghost use Rattle.basic_tree.specs.AnswerLaws.{OneExprAnswer, OneLineAnswer};
ghost use Rattle.basic_tree.specs.GrammarPlaces.{ExpressionsAreRead, OneTree, OneLine};
ghost use Rattle.basic_tree.specs.LineVerdicts.{LinesAreJudged};

/// States that no words are two expressions, whatever kinds are expected.
pub fn one_tree()
    ensures { OneTree }
{}

/// States that no words are two lines.
pub fn one_line()
    ensures { OneLine }
{}

/// States that every line has a tree, or is rejected for a cause: there is a judge that follows the
/// grammar.
pub fn lines_are_judged()
    ensures { LinesAreJudged }
{}

/// States that from each place on words are read as an expression of the expected kind, or
/// rejected.
pub fn expressions_are_read()
    ensures { ExpressionsAreRead }
{}

/// States that the nesting depth of a word depends on the words up to it, and on none after it.
pub fn levels_are_settled()
    ensures { LevelsAreSettled }
{}

/// States that from a place on words are read as one expression up to one place, or rejected at one
/// place for one cause.
pub fn expressions_have_one_answer()
    ensures { OneExprAnswer }
{}

/// Words are one line, or rejected at one place for one cause.
pub fn lines_have_one_answer()
    ensures { OneLineAnswer }
{}

/// Bytes spell one line, or are rejected at one place for one cause.
pub fn bytes_have_one_answer()
    ensures { OneBytesAnswer }
{}

/// States that every line has one verdict: all judges agree.
pub fn one_verdict()
    ensures { OneVerdict }
{}
