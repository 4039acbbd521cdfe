//! The words of the language, as the bytes that spell them.

ghost use Rattle.std.specs.Prelude.{◌≡◌, ◌≤◌, length, max, if◌then◌else◌};
ghost use Rattle.basic_tree.specs.Tokens.{is_at_front, is_word, longest_length, spelled};
ghost use Rattle.basic_tree.specs.Tokens.{keyword_of, sign_of};
ghost use Rattle.basic_tree.specs.Words.{keywords, signs};
ghost use Rattle.basic_scanner.specs.Tables.{entries};

use basic_tree::{Keyword, Sign};

/// The keywords and the names of the functions.
static KEYWORDS: [(Keyword, &[u8]); 89] = [
    (Keyword::Abs, b"ABS%"),
    (Keyword::And, b"AND"),
    (Keyword::As, b"AS"),
    (Keyword::Ascii, b"ASCII"),
    (Keyword::Chain, b"CHAIN"),
    (Keyword::Chr, b"CHR$"),
    (Keyword::Close, b"CLOSE"),
    (Keyword::ClusterSize, b"CLUSTERSIZE"),
    (Keyword::Con, b"CON"),
    (Keyword::CvtToNumber, b"CVT$%"),
    (Keyword::CvtToText, b"CVT%$"),
    (Keyword::Data, b"DATA"),
    (Keyword::Def, b"DEF"),
    (Keyword::Dim, b"DIM"),
    (Keyword::Else, b"ELSE"),
    (Keyword::End, b"END"),
    (Keyword::Eqv, b"EQV"),
    (Keyword::Erl, b"ERL"),
    (Keyword::Err, b"ERR"),
    (Keyword::Error, b"ERROR"),
    (Keyword::Field, b"FIELD"),
    (Keyword::File, b"FILE"),
    (Keyword::FnEnd, b"FNEND"),
    (Keyword::For, b"FOR"),
    (Keyword::Get, b"GET"),
    (Keyword::Go, b"GO"),
    (Keyword::Gosub, b"GOSUB"),
    (Keyword::Goto, b"GOTO"),
    (Keyword::Idn, b"IDN"),
    (Keyword::If, b"IF"),
    (Keyword::Imp, b"IMP"),
    (Keyword::Input, b"INPUT"),
    (Keyword::Instr, b"INSTR"),
    (Keyword::Kill, b"KILL"),
    (Keyword::Left, b"LEFT"),
    (Keyword::Left, b"LEFT$"),
    (Keyword::Len, b"LEN"),
    (Keyword::Let, b"LET"),
    (Keyword::Line, b"LINE"),
    (Keyword::Lset, b"LSET"),
    (Keyword::Mat, b"MAT"),
    (Keyword::Mid, b"MID"),
    (Keyword::Mid, b"MID$"),
    (Keyword::Mode, b"MODE"),
    (Keyword::Name, b"NAME"),
    (Keyword::Next, b"NEXT"),
    (Keyword::Not, b"NOT"),
    (Keyword::Num, b"NUM$"),
    (Keyword::Num1, b"NUM1$"),
    (Keyword::On, b"ON"),
    (Keyword::Open, b"OPEN"),
    (Keyword::Or, b"OR"),
    (Keyword::Output, b"OUTPUT"),
    (Keyword::Pos, b"POS"),
    (Keyword::Print, b"PRINT"),
    (Keyword::Put, b"PUT"),
    (Keyword::Read, b"READ"),
    (Keyword::Record, b"RECORD"),
    (Keyword::RecordSize, b"RECORDSIZE"),
    (Keyword::Recount, b"RECOUNT"),
    (Keyword::Rem, b"REM"),
    (Keyword::Restore, b"RESTORE"),
    (Keyword::Resume, b"RESUME"),
    (Keyword::Return, b"RETURN"),
    (Keyword::Right, b"RIGHT"),
    (Keyword::Right, b"RIGHT$"),
    (Keyword::Rset, b"RSET"),
    (Keyword::Sgn, b"SGN"),
    (Keyword::Sleep, b"SLEEP"),
    (Keyword::Space, b"SPACE$"),
    (Keyword::Step, b"STEP"),
    (Keyword::Stop, b"STOP"),
    (Keyword::StringOf, b"STRING$"),
    (Keyword::Sub, b"SUB"),
    (Keyword::Swap, b"SWAP%"),
    (Keyword::Sys, b"SYS"),
    (Keyword::Tab, b"TAB"),
    (Keyword::Then, b"THEN"),
    (Keyword::To, b"TO"),
    (Keyword::Trn, b"TRN"),
    (Keyword::Unless, b"UNLESS"),
    (Keyword::Unlock, b"UNLOCK"),
    (Keyword::Until, b"UNTIL"),
    (Keyword::Using, b"USING"),
    (Keyword::Val, b"VAL"),
    (Keyword::While, b"WHILE"),
    (Keyword::Xlate, b"XLATE"),
    (Keyword::Xor, b"XOR"),
    (Keyword::Zer, b"ZER"),
];

/// The signs.
static SIGNS: [(Sign, &[u8]); 20] = [
    (Sign::Plus, b"+"),
    (Sign::Minus, b"-"),
    (Sign::Star, b"*"),
    (Sign::Slash, b"/"),
    (Sign::Caret, b"^"),
    (Sign::DoubleStar, b"**"),
    (Sign::Opening, b"("),
    (Sign::Closing, b")"),
    (Sign::Comma, b","),
    (Sign::Semicolon, b";"),
    (Sign::Colon, b":"),
    (Sign::Backslash, b"\\"),
    (Sign::Hash, b"#"),
    (Sign::Equal, b"="),
    (Sign::Same, b"=="),
    (Sign::Less, b"<"),
    (Sign::Greater, b">"),
    (Sign::LessOrEqual, b"<="),
    (Sign::GreaterOrEqual, b">="),
    (Sign::Different, b"<>"),
];

/// Returns whether the rest begins with the word, in letters of either case.
#[tactic(auto, using(crate::proofs::WordLemmas::stands_step))]
pub fn is_at_front(word: &[u8], rest: &[u8]) -> bool
    ensures { result ≡ is_at_front word.now rest.now }
{
    if rest.len() < word.len() {
        return false;
    }
    for place in 0..word.len() {
        if rest[place].to_ascii_uppercase() != word[place] {
            return false;
        }
    }
    true
}

/// Returns whether the bytes are this word, in letters of either case.
pub fn is_word(word: &[u8], bytes: &[u8]) -> bool
    ensures { result ≡ is_word word.now bytes.now }
{
    bytes.len() == word.len() && is_at_front(word, bytes)
}

/// Returns the length so far or that of the word, whichever is larger, if the rest begins with the
/// word.
#[tactic(auto, using(crate::proofs::WordLemmas::stands_within))]
fn longer(longest: usize, word: &[u8], rest: &[u8]) -> usize
    ensures value { let more = max longest (length word.now) in
        result ≡ (if is_at_front word.now rest.now then more else longest) }
    ensures within { longest ≤ length rest.now → result ≤ length rest.now }
{
    if is_at_front(word, rest) {
        longest.max(word.len())
    } else {
        longest
    }
}

/// Returns the length of the longest word of the table with which the rest begins.
fn longest_length<W>(table: &[(W, &[u8])], rest: &[u8]) -> usize
    ensures value { result ≡ longest_length (entries table.now) rest.now }
    ensures within { result ≤ length rest.now }
{
    let mut longest = 0;
    for entry in table {
        longest = longer(longest, entry.1, rest);
    }
    longest
}

/// Returns the keywords with their bytes.
// The proof of a function that names the table goes through all its entries, so only this one does.
#[tactic(auto, unfolding(basic_tree::specs::Words::keywords))]
fn keyword_table() -> &'static [(Keyword, &'static [u8])]
    ensures { entries result.now ≡ keywords }
{
    &KEYWORDS
}

/// Returns the length of the longest keyword with which the rest begins.
pub fn keyword_length(rest: &[u8]) -> usize
    ensures value { result ≡ longest_length keywords rest.now }
    ensures within { result ≤ length rest.now }
{
    longest_length(keyword_table(), rest)
}

/// Returns the length of the longest sign with which the rest begins.
#[tactic(auto, unfolding(basic_tree::specs::Words::signs))]
pub fn sign_length(rest: &[u8]) -> usize
    ensures { result ≡ longest_length signs rest.now }
{
    longest_length(&SIGNS, rest)
}

/// Returns the word of the table that the bytes spell.
fn spelled<W: Copy>(table: &[(W, &[u8])], bytes: &[u8]) -> Option<W>
    ensures { result ≡ spelled (entries table.now) bytes.now }
{
    for entry in table {
        if is_word(entry.1, bytes) {
            return Some(entry.0);
        }
    }
    None
}

/// Returns the keyword that the bytes spell, in letters of either case.
pub fn keyword_of(bytes: &[u8]) -> Option<Keyword>
    ensures { result ≡ keyword_of bytes.now }
{
    spelled(keyword_table(), bytes)
}

/// Returns the sign that the bytes spell.
#[tactic(auto, unfolding(basic_tree::specs::Words::signs))]
pub fn sign_of(bytes: &[u8]) -> Option<Sign>
    ensures { result ≡ sign_of bytes.now }
{
    spelled(&SIGNS, bytes)
}
