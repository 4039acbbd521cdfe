//! Laws about the definitions of this crate. Each is the contract of a function with an empty body.

ghost use Rattle.basic_tree.specs.ReadableWords.{TreesAreSpelled};
ghost use Rattle.basic_tree.specs.TokenLaws.{BlanksMoveTokens, BlanksSeparateTokens};
ghost use Rattle.basic_tree.specs.TokenLaws.{LongestIsTaken, TokensAreSlices};

/// States that the tokens of a line are slices of it, in order, and no two overlap.
pub fn tokens_are_slices()
    ensures { TokensAreSlices }
{}

/// States that a blank before a line moves its tokens, and changes nothing else of them.
pub fn blanks_move_tokens()
    ensures { BlanksMoveTokens }
{}

/// States that if the rest of a line begins with keywords, one of the longest is taken as the
/// token.
pub fn longest_is_taken()
    ensures { LongestIsTaken }
{}

/// States that a blank before a token changes no token's kind and bytes.
pub fn blanks_separate_tokens()
    ensures { BlanksSeparateTokens }
{}

/// States that every admissible line that is not nested too deep, and whose words bytes can spell,
/// is spelled by some bytes. The same is true of every expression.
pub fn trees_are_spelled()
    ensures { TreesAreSpelled }
{}
