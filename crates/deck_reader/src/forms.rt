//! The forms of lines: their first words, and fields that are numbers and names.

ghost use Rattle.std.specs.Prelude.{◌≡◌};
ghost use Rattle.std.specs.List.{list_all};
ghost use Rattle.std.specs.Char.{is_ascii_digit};
ghost use Rattle.deck_model.specs.Hex.{is_hex_digit, is_hex, hex_bytes};
ghost use Rattle.deck_model.specs.Forms.{Heading, Disk, Account, File, Terminal, Block};
ghost use Rattle.deck_model.specs.Forms.{has_block_lines, is_numeral, is_numeral_or_none, is_name};
ghost use Rattle.deck_model.specs.Forms.{is_file_letter, is_file_word};
ghost use Rattle.deck_model.specs.Reading.{version_in, disk_in, limits_in, texts_in, account_in};
ghost use Rattle.deck_model.specs.Reading.{stem_before, extension_behind, file_texts_in};
ghost use Rattle.deck_model.specs.Reading.{are_file_texts, file_in, terminal_in, groups_in};
ghost use Rattle.deck_model.specs.Reading.{block_in, contents_in, session_in};
ghost use Rattle.basic_values.specs.Cuts.{Finds, cut};
ghost use Rattle.deck_reader.specs.Seen.{texts_seen, option_seen, file_texts_seen, group_seen};
ghost use Rattle.deck_reader.specs.Seen.{contents_seen, session_seen};

use basic_values::{behind, cut};
use deck_model::Version;

/// The texts of an account's fields; a quota if the line has one.
#[derive(Clone, Copy)]
pub(crate) struct AccountTexts<'a> {
    pub(crate) project: &'a [u8],
    pub(crate) programmer: &'a [u8],
    pub(crate) password: &'a [u8],
    pub(crate) limit: &'a [u8],
    pub(crate) quota: Option<&'a [u8]>,
}

/// The texts of a file's fields; an extension if the name has a point.
#[derive(Clone, Copy)]
pub(crate) struct FileTexts<'a> {
    pub(crate) project: &'a [u8],
    pub(crate) programmer: &'a [u8],
    pub(crate) stem: &'a [u8],
    pub(crate) extension: Option<&'a [u8]>,
    pub(crate) code: &'a [u8],
    pub(crate) blocks: &'a [u8],
}

/// The form of a line among those of accounts.
#[derive(Clone, Copy)]
pub(crate) enum GroupForm<'a> {
    Account(AccountTexts<'a>),
    File(FileTexts<'a>),
    Terminal(&'a [u8]),
    End,
}

/// The form of a line after a FILE line.
#[derive(Clone, Copy)]
pub(crate) enum ContentsForm<'a> {
    Text(&'a [u8]),
    /// The hexadecimal digits of a block.
    Block(&'a [u8]),
    File(FileTexts<'a>),
    Terminal(&'a [u8]),
    End,
}

/// The form of a line after a TERMINAL line.
#[derive(Clone, Copy)]
pub(crate) enum SessionForm<'a> {
    Keys(&'a [u8]),
    Terminal(&'a [u8]),
    End,
}

/// Returns the version that the first line gives.
#[tactic(auto, unfolding(deck_model::specs::Reading::version_in))]
pub(crate) fn version_of(line: &[u8]) -> Option<Version>
    ensures { Finds (λ version. Heading version) result (version_in line.now) }
{
    if line == b"RSTS-DECK 1".as_slice() {
        Some(Version::One)
    } else if line == b"RSTS-DECK 2".as_slice() {
        Some(Version::Two)
    } else if line == b"RSTS-DECK 3".as_slice() {
        Some(Version::Three)
    } else {
        None
    }
}

/// Returns the number of blocks of a DISK line.
#[tactic(auto, unfolding(deck_model::specs::Reading::disk_in))]
pub(crate) fn disk_blocks(line: &[u8]) -> Option<&[u8]>
    ensures { Finds (λ blocks. Disk blocks.now) result (disk_in line.now) }
{
    let blocks = behind(b"DISK ", line)?;
    if is_numeral(blocks) {
        Some(blocks)
    } else {
        None
    }
}

/// Returns the form of a line among the accounts.
#[tactic(auto, unfolding(deck_model::specs::Reading::groups_in, deck_model::specs::Reading::end_in))]
pub(crate) fn group_form(version: Version, line: &[u8]) -> Option<GroupForm<'_>>
    ensures { Finds group_seen result (groups_in version line.now) }
{
    if let Some(texts) = account_texts(version, line) {
        return Some(GroupForm::Account(texts));
    }
    if let Some(texts) = file_texts(version, line) {
        return Some(GroupForm::File(texts));
    }
    if let Some(name) = terminal_name(line) {
        return Some(GroupForm::Terminal(name));
    }
    if line == b"END".as_slice() {
        Some(GroupForm::End)
    } else {
        None
    }
}

/// Returns the form of a line after a FILE line.
#[tactic(auto, unfolding(deck_model::specs::Reading::contents_in, deck_model::specs::Reading::keys_in, deck_model::specs::Reading::end_in))]
pub(crate) fn contents_form(version: Version, line: &[u8]) -> Option<ContentsForm<'_>>
    ensures { Finds contents_seen result (contents_in version line.now) }
{
    if let Some(text) = behind(b">", line) {
        return Some(ContentsForm::Text(text));
    }
    if let Some(digits) = block_digits(version, line) {
        return Some(ContentsForm::Block(digits));
    }
    if let Some(texts) = file_texts(version, line) {
        return Some(ContentsForm::File(texts));
    }
    if let Some(name) = terminal_name(line) {
        return Some(ContentsForm::Terminal(name));
    }
    if line == b"END".as_slice() {
        Some(ContentsForm::End)
    } else {
        None
    }
}

/// Returns the form of a line after a TERMINAL line.
#[tactic(auto, unfolding(deck_model::specs::Reading::session_in, deck_model::specs::Reading::keys_in, deck_model::specs::Reading::end_in))]
pub(crate) fn session_form(line: &[u8]) -> Option<SessionForm<'_>>
    ensures { Finds session_seen result (session_in line.now) }
{
    if let Some(keys) = behind(b">", line) {
        return Some(SessionForm::Keys(keys));
    }
    if let Some(name) = terminal_name(line) {
        return Some(SessionForm::Terminal(name));
    }
    if line == b"END".as_slice() {
        Some(SessionForm::End)
    } else {
        None
    }
}

/// Returns the fields of an ACCOUNT line.
#[tactic(auto, unfolding(deck_model::specs::Reading::account_in))]
fn account_texts(version: Version, line: &[u8]) -> Option<AccountTexts<'_>>
    ensures { Finds (λ texts. Account (texts_seen texts)) result (account_in version line.now) }
{
    let texts = fields_of(version, line)?;
    let is_formed = is_numeral(texts.project)
        && is_numeral(texts.programmer)
        && is_name(texts.password)
        && is_numeral(texts.limit)
        && is_numeral_or_none(texts.quota);
    if is_formed { Some(texts) } else { None }
}

#[tactic(auto, unfolding(deck_model::specs::Reading::texts_in))]
fn fields_of(version: Version, line: &[u8]) -> Option<AccountTexts<'_>>
    ensures { Finds texts_seen result (texts_in version line.now) }
{
    let (project, rest) = cut(b',', behind(b"ACCOUNT ", line)?)?;
    let (programmer, rest) = cut(b' ', rest)?;
    let (password, rest) = cut(b' ', rest)?;
    let (limit, quota) = limits_of(version, rest)?;
    Some(AccountTexts {
        project,
        programmer,
        password,
        limit,
        quota,
    })
}

/// Returns the limit of calls, and the quota after it in versions 2 and 3.
fn limits_of(version: Version, text: &[u8]) -> Option<(&[u8], Option<&[u8]>)>
    ensures { Finds (λ limits. (limits.0.now, option_seen limits.1)) result
        (limits_in version text.now) }
{
    match version {
        Version::One => Some((text, None)),
        Version::Two | Version::Three => {
            let (limit, quota) = cut(b' ', text)?;
            Some((limit, Some(quota)))
        }
    }
}

/// Returns the fields of a FILE line.
#[tactic(auto, unfolding(deck_model::specs::Reading::file_in))]
fn file_texts(version: Version, line: &[u8]) -> Option<FileTexts<'_>>
    ensures { Finds (λ texts. File (file_texts_seen texts)) result (file_in version line.now) }
{
    let texts = file_fields(line)?;
    let is_formed = is_numeral(texts.project)
        && is_numeral(texts.programmer)
        && is_file_word(version, texts.stem)
        && is_file_word(version, texts.extension.unwrap_or(&[]))
        && is_numeral(texts.code)
        && is_numeral(texts.blocks);
    if is_formed { Some(texts) } else { None }
}

#[tactic(auto, unfolding(deck_model::specs::Reading::file_texts_in))]
fn file_fields(line: &[u8]) -> Option<FileTexts<'_>>
    ensures { Finds file_texts_seen result (file_texts_in line.now) }
{
    let (project, rest) = cut(b',', behind(b"FILE [", line)?)?;
    let (programmer, rest) = cut(b']', rest)?;
    let (name, rest) = cut(b'<', rest)?;
    let (code, rest) = cut(b'>', rest)?;
    let blocks = behind(b" ", rest)?;
    let (stem, extension) = name_parts(name);
    Some(FileTexts {
        project,
        programmer,
        stem,
        extension,
        code,
        blocks,
    })
}

/// Returns the stem of a name, and the extension after its first point.
fn name_parts(name: &[u8]) -> (&[u8], Option<&[u8]>)
    ensures stem { result.0.now ≡ stem_before name.now (cut 46 name.now) }
    ensures extension { option_seen result.1 ≡ extension_behind (cut 46 name.now) }
{
    match cut(b'.', name) {
        Some((stem, extension)) => (stem, Some(extension)),
        None => (name, None),
    }
}

/// Returns the digits of a line of a block.
#[tactic(auto, unfolding(deck_model::specs::Reading::block_in))]
fn block_digits(version: Version, line: &[u8]) -> Option<&[u8]>
    ensures { Finds (λ digits. Block (hex_bytes digits.now)) result (block_in version line.now) }
{
    let digits = behind(b"=", line)?;
    if has_block_lines(version) && is_hex(digits) {
        Some(digits)
    } else {
        None
    }
}

/// Returns whether a version has lines of blocks.
fn has_block_lines(version: Version) -> bool
    ensures { result ≡ has_block_lines version }
{
    match version {
        Version::One | Version::Two => false,
        Version::Three => true,
    }
}

/// Returns whether the text is hexadecimal digits of bytes, two for each.
#[tactic(auto, using(deck_model::proofs::HexLaws::even_hex, deck_model::proofs::HexLaws::odd_hex))]
fn is_hex(text: &[u8]) -> bool
    ensures { result ≡ is_hex text.now }
{
    if text.len() % 2 != 0 {
        return false;
    }
    are_hex_digits(text)
}

fn are_hex_digits(text: &[u8]) -> bool
    ensures { result ≡ list_all is_hex_digit text.now }
{
    text.iter().all(|digit| is_hex_digit(*digit))
}

fn is_hex_digit(digit: u8) -> bool
    ensures { result ≡ is_hex_digit digit }
{
    digit.is_ascii_digit() || (b'a' <= digit && digit <= b'f')
}

/// Returns the name in a TERMINAL line.
#[tactic(auto, unfolding(deck_model::specs::Reading::terminal_in))]
fn terminal_name(line: &[u8]) -> Option<&[u8]>
    ensures { Finds (λ name. Terminal name.now) result (terminal_in line.now) }
{
    let name = behind(b"TERMINAL ", line)?;
    if is_name(name) { Some(name) } else { None }
}

/// Returns whether the text is 0, or digits without a leading zero.
fn is_numeral(text: &[u8]) -> bool
    ensures { result ≡ is_numeral text.now }
{
    match text {
        [] => false,
        [first, rest @ ..] => is_digits(text) && (*first != b'0' || rest.is_empty()),
    }
}

fn is_numeral_or_none(text: Option<&[u8]>) -> bool
    ensures { result ≡ is_numeral_or_none (option_seen text.entry) }
{
    match text {
        None => true,
        Some(text) => is_numeral(text),
    }
}

fn is_digits(text: &[u8]) -> bool
    ensures { result ≡ list_all is_ascii_digit text.now }
{
    text.iter().all(|byte| byte.is_ascii_digit())
}

/// Returns whether the text is capital letters and digits, or empty.
fn is_name(text: &[u8]) -> bool
    ensures { result ≡ is_name text.now }
{
    text.iter()
        .all(|byte| byte.is_ascii_uppercase() || byte.is_ascii_digit())
}

/// Returns whether the text may be part of a file's name, or is empty.
fn is_file_word(version: Version, text: &[u8]) -> bool
    ensures { result ≡ is_file_word version text.now }
{
    text.iter().all(|byte| is_file_letter(version, *byte))
}

/// Returns whether a file's name may have this byte.
fn is_file_letter(version: Version, byte: u8) -> bool
    ensures { result ≡ is_file_letter version byte }
{
    match version {
        Version::One | Version::Two => byte.is_ascii_uppercase() || byte.is_ascii_digit(),
        Version::Three => byte.is_ascii_alphanumeric(),
    }
}
