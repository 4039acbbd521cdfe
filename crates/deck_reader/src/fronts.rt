//! The front of a deck: what its lines said so far, and what the next one adds.

ghost use Rattle.std.specs.Prelude.{◌≡◌, ◌+◌, ◌==◌, ◌&&◌, false, if◌then◌else◌, Some, None, length};
ghost use Rattle.std.specs.Prelude.{nat_le, nat_lt, bytes_eq, IfOk};
ghost use Rattle.basic_values.specs.declared.limits.TheConstants.{MOST_FILES};
ghost use Rattle.monitor_calls.specs.Volumes.{has_account, blocks_of, blocks_owned};
ghost use Rattle.deck_model.specs.Hex.{hex_bytes};
ghost use Rattle.deck_model.specs.Fronts as model;
ghost use Rattle.deck_model.specs.Fronts.{quota_from, entry_of};
ghost use Rattle.deck_model.specs.Refusals.{is_quota, is_in_range, passes_quota, first_cause};
ghost use Rattle.deck_model.specs.Refusals.{account_causes, filing_causes, file_causes};
ghost use Rattle.deck_model.specs.Refusals.{content_causes, block_causes, terminal_causes};
ghost use Rattle.deck_model.specs.Refusals.{keys_causes};
ghost use Rattle.deck_model.specs.Reading.{behind_line, unless_refused, at_end};
ghost use Rattle.deck_reader.specs.Seen.{Decides, Tells, option_seen, texts_seen, file_texts_seen};
ghost use Rattle.deck_reader.specs.Seen.{deck_of, open_of, terminal_of, front_of, is_over};
ghost use Rattle.deck_reader.specs.Seen.{is_named};

use crate::decks::{Deck, OpenFile, Terminal};
use crate::failures::ReadError;
use crate::files::{fit_in, has_file, is_same, new_file, owns_at_most};
use crate::forms::{
    AccountTexts, ContentsForm, FileTexts, GroupForm, SessionForm, contents_form, disk_blocks,
    group_form, session_form, version_of,
};
use basic_values::limits::{
    BLOCK_BYTES, MOST_ACCOUNTS, MOST_BLOCKS, MOST_CALLS, MOST_FILES, MOST_JOBS, MOST_QUOTA,
};
use basic_values::{KeyLine, LINE_LENGTH, NoMemory, Trouble, number_between};
use deck_model::{DeckCause, DeckFault, Version};
use monitor_calls::{Account, AccountEntry, FileEntry, Short, TerminalName, Volume};
use std::alloc::Global;

/// What the lines of a deck said so far. After the first line each keeps the version.
#[derive(Drop)]
pub(crate) enum Front {
    Nothing,
    Versioned(Version),
    /// The disk and the accounts.
    InAccounts(Version, Deck),
    /// A deck without terminals, and its last file, which may get more content.
    InFile(Version, Deck, OpenFile),
    /// A deck, and its last terminal, which may get more keys.
    InTerminal(Version, Deck, Terminal),
    /// A deck with its END.
    Whole(Version, Deck),
}

impl Front {
    /// Returns the front after one more line.
    pub(crate) fn behind(self, alloc: Global, line: &[u8]) -> Result<Front, ReadError>
        ensures { Decides front_of result (behind_line (front_of self) line.now) }
    {
        match self {
            Front::Nothing => behind_nothing(line),
            Front::Versioned(version) => behind_version(alloc, version, line),
            Front::InAccounts(version, deck) => behind_accounts(alloc, version, deck, line),
            Front::InFile(version, deck, file) => behind_file(alloc, version, deck, file, line),
            Front::InTerminal(version, deck, terminal) => {
                behind_terminal(alloc, version, deck, terminal, line)
            }
            Front::Whole(version, deck) => behind_end(version, deck, line),
        }
    }

    /// Returns the deck, if it is whole and no line is cut.
    pub(crate) fn at_end(self, number: u32, cut: &[u8]) -> Result<Deck, Trouble<DeckFault>>
        ensures { Tells result (at_end (front_of self) number cut.now) }
    {
        if let Front::Whole(_, deck) = self {
            if cut.is_empty() {
                return Ok(deck);
            }
        }
        Err(Trouble::Refused(DeckFault {
            line: number,
            cause: DeckCause::Cut,
        }))
    }
}

#[tactic(auto, unfolding(deck_model::specs::Reading::behind_line, deck_model::specs::Reading::behind_form, deck_model::specs::Reading::form_at))]
fn behind_nothing(line: &[u8]) -> Result<Front, ReadError>
    ensures { Decides front_of result (behind_line model.Nothing line.now) }
{
    match version_of(line) {
        Some(version) => Ok(Front::Versioned(version)),
        None => Err(ReadError::Refused(DeckCause::Version)),
    }
}

#[tactic(auto, unfolding(deck_model::specs::Reading::behind_line, deck_model::specs::Reading::behind_form, deck_model::specs::Reading::form_at))]
fn behind_version(alloc: Global, version: Version, line: &[u8]) -> Result<Front, ReadError>
    ensures { Decides front_of result (behind_line (model.Versioned version) line.now) }
{
    let text = disk_blocks(line).ok_or(DeckCause::Shape)?;
    let blocks = number_between(1, u32::from(MOST_BLOCKS), text).ok_or(DeckCause::Range)?;
    let volume = Volume {
        blocks: blocks as u16,
        accounts: Vec::new(alloc),
        files: Vec::new(alloc),
    };
    let terminals = Vec::new(alloc);
    Ok(Front::InAccounts(version, Deck { volume, terminals }))
}

#[tactic(auto, unfolding(deck_model::specs::Reading::behind_line, deck_model::specs::Reading::behind_form, deck_model::specs::Reading::form_at))]
fn behind_accounts(
    alloc: Global,
    version: Version,
    deck: Deck,
    line: &[u8],
) -> Result<Front, ReadError>
    ensures { Decides front_of result
        (behind_line (model.InAccounts version (deck_of deck)) line.now) }
{
    match group_form(version, line) {
        None => Err(ReadError::Refused(DeckCause::Shape)),
        Some(GroupForm::Account(texts)) => with_account(version, deck, &texts),
        Some(GroupForm::File(texts)) => with_file(alloc, version, deck, &texts),
        Some(GroupForm::Terminal(name)) => with_terminal(alloc, version, deck, name),
        Some(GroupForm::End) => Ok(Front::Whole(version, deck)),
    }
}

#[tactic(auto, unfolding(deck_model::specs::Reading::behind_line, deck_model::specs::Reading::behind_form, deck_model::specs::Reading::form_at))]
fn behind_file(
    alloc: Global,
    version: Version,
    deck: Deck,
    file: OpenFile,
    line: &[u8],
) -> Result<Front, ReadError>
    ensures { Decides front_of result
        (behind_line (model.InFile version (deck_of deck) (open_of file)) line.now) }
{
    match contents_form(version, line) {
        None => Err(ReadError::Refused(DeckCause::Shape)),
        Some(ContentsForm::Text(text)) => with_text(version, deck, file, text),
        Some(ContentsForm::Block(digits)) => with_block(version, deck, file, digits),
        Some(ContentsForm::File(texts)) => {
            let before = filed(alloc, deck, file)?;
            with_file(alloc, version, before, &texts)
        }
        Some(ContentsForm::Terminal(name)) => {
            let before = filed(alloc, deck, file)?;
            with_terminal(alloc, version, before, name)
        }
        Some(ContentsForm::End) => {
            let whole = filed(alloc, deck, file)?;
            Ok(Front::Whole(version, whole))
        }
    }
}

#[tactic(auto, unfolding(deck_model::specs::Reading::behind_line, deck_model::specs::Reading::behind_form, deck_model::specs::Reading::form_at))]
fn behind_terminal(
    alloc: Global,
    version: Version,
    deck: Deck,
    terminal: Terminal,
    line: &[u8],
) -> Result<Front, ReadError>
    ensures { Decides front_of result
        (behind_line (model.InTerminal version (deck_of deck) (terminal_of terminal)) line.now) }
{
    match session_form(line) {
        None => Err(ReadError::Refused(DeckCause::Shape)),
        Some(SessionForm::Keys(keys)) => with_keys(alloc, version, deck, terminal, keys),
        Some(SessionForm::Terminal(name)) => {
            let before = named(deck, terminal)?;
            with_terminal(alloc, version, before, name)
        }
        Some(SessionForm::End) => {
            let whole = named(deck, terminal)?;
            Ok(Front::Whole(version, whole))
        }
    }
}

/// Rejects a line after END.
#[tactic(auto, unfolding(deck_model::specs::Reading::behind_line, deck_model::specs::Reading::behind_form, deck_model::specs::Reading::form_at))]
fn behind_end(version: Version, deck: Deck, line: &[u8]) -> Result<Front, ReadError>
    ensures { Decides front_of result (behind_line (model.Whole version (deck_of deck)) line.now) }
{
    let _ = (version, deck, line);
    Err(ReadError::Refused(DeckCause::Shape))
}

/// Adds an account.
fn with_account(version: Version, deck: Deck, texts: &AccountTexts<'_>) -> Result<Front, ReadError>
    ensures { Decides front_of result (unless_refused
        (model.InAccounts version (model.with_account (deck_of deck)
        (entry_of deck.volume.blocks (texts_seen texts.now))))
        (first_cause (account_causes (deck_of deck) (texts_seen texts.now)))) }
{
    let mut deck = deck;
    let entry = match entry_of(deck.volume.blocks, texts) {
        Some(entry) => entry,
        None => return Err(ReadError::Refused(DeckCause::Range)),
    };
    if has_account(deck.volume.accounts.as_slice(), entry.account) {
        return Err(ReadError::Refused(DeckCause::Double));
    }
    if deck.volume.accounts.len() >= MOST_ACCOUNTS {
        return Err(ReadError::Refused(DeckCause::Space));
    }
    deck.volume.accounts.push(entry)?;
    Ok(Front::InAccounts(version, deck))
}

/// Adds a file, without its content.
fn with_file(
    alloc: Global,
    version: Version,
    deck: Deck,
    texts: &FileTexts<'_>,
) -> Result<Front, ReadError>
    ensures { Decides front_of result (unless_refused
        (model.InFile version (deck_of deck) (model.new_file (file_texts_seen texts.now)))
        (first_cause (file_causes version (deck_of deck) (file_texts_seen texts.now)))) }
{
    match new_file(alloc, version, texts) {
        None => Err(ReadError::Refused(DeckCause::Range)),
        Some(file) => with_new_file(version, deck, file),
    }
}

/// Adds a file whose numbers and name are in their ranges.
fn with_new_file(version: Version, deck: Deck, file: OpenFile) -> Result<Front, ReadError>
    ensures { Decides front_of result (unless_refused
        (model.InFile version (deck_of deck) (open_of file))
        (first_cause (filing_causes (deck_of deck) (open_of file)))) }
{
    match filing_cause(&deck, &file) {
        Some(cause) => Err(ReadError::Refused(cause)),
        None => Ok(Front::InFile(version, deck, file)),
    }
}

/// Returns why the deck can't have the file, whose numbers and name are in their ranges.
fn filing_cause(deck: &Deck, file: &OpenFile) -> Option<DeckCause>
    ensures { result ≡ first_cause (filing_causes (deck_of deck.now) (open_of file.now)) }
{
    if has_file(deck.volume.files.as_slice(), &file.name) {
        Some(DeckCause::Double)
    } else if !has_account(deck.volume.accounts.as_slice(), file.name.owner) {
        Some(DeckCause::Owner)
    } else if has_all_files(deck) || lacks_blocks(deck, file.blocks) || passes_quota(deck, file) {
        Some(DeckCause::Space)
    } else {
        None
    }
}

fn has_all_files(deck: &Deck) -> bool
    ensures { result ≡ nat_le MOST_FILES (length (deck_of deck.now).files) }
{
    deck.volume.files.len() >= MOST_FILES
}

/// Returns whether the disk has too few blocks for this many more.
fn lacks_blocks(deck: &Deck, blocks: u16) -> bool
    ensures { result ≡ nat_lt deck.now.volume.blocks (blocks_of (deck_of deck.now).files + blocks) }
{
    let disk = deck.volume.blocks as usize;
    let wanted = blocks as usize;
    if wanted > disk {
        return true;
    }
    !fit_in(disk - wanted, deck.volume.files.as_slice())
}

/// Returns whether with this file the files of its owner have more blocks than the owner's quota.
/// Only one account is the owner, so this looks at all files only once.
#[tactic(auto, unfolding(crate::specs::Seen::is_over))]
fn passes_quota(deck: &Deck, file: &OpenFile) -> bool
    ensures { result ≡ passes_quota (deck_of deck.now).accounts (deck_of deck.now).files
        (open_of file.now) }
{
    let accounts = deck.volume.accounts.as_slice();
    let files = deck.volume.files.as_slice();
    is_over(accounts, files, file.name.owner, file.blocks)
}

/// Returns whether the owner is one of the accounts, with too small a quota for this many blocks
/// more.
#[tactic(auto, unfolding(crate::specs::Seen::is_over))]
fn is_over(accounts: &[AccountEntry], files: &[FileEntry], owner: Account, blocks: u16) -> bool
    ensures { result ≡ is_over accounts.now files.now owner blocks }
{
    accounts.iter().any(|entry| is_same(entry.account, owner)
        && lacks(entry.quota, files, owner, blocks))
}

/// Returns whether a quota is too small for the owner's files and this many blocks more.
fn lacks(quota: u16, files: &[FileEntry], owner: Account, blocks: u16) -> bool
    ensures { result ≡ nat_lt quota (blocks_owned files.now owner + blocks) }
{
    let most = quota as usize;
    let wanted = blocks as usize;
    if wanted > most {
        return true;
    }
    !owns_at_most(most - wanted, owner, files)
}

/// Adds a line of text to the last file.
fn with_text(version: Version, deck: Deck, file: OpenFile, text: &[u8]) -> Result<Front, ReadError>
    ensures { Decides front_of result (unless_refused
        (model.InFile version (deck_of deck) (model.with_text (open_of file) text.now))
        (first_cause (content_causes (model.with_text (open_of file) text.now)))) }
{
    if file.lacks(text.len() + 2) {
        return Err(ReadError::Refused(DeckCause::Space));
    }
    let file = file.with_text(text)?;
    Ok(Front::InFile(version, deck, file))
}

/// Adds a block to the last file.
fn with_block(
    version: Version,
    deck: Deck,
    file: OpenFile,
    digits: &[u8],
) -> Result<Front, ReadError>
    ensures { Decides front_of result (unless_refused
        (model.InFile version (deck_of deck)
        (model.with_block (open_of file) (hex_bytes digits.now)))
        (first_cause (block_causes (open_of file) (hex_bytes digits.now)))) }
{
    if digits.len() / 2 > BLOCK_BYTES {
        return Err(ReadError::Refused(DeckCause::Range));
    }
    if file.lacks(BLOCK_BYTES) {
        return Err(ReadError::Refused(DeckCause::Space));
    }
    let file = file.with_block(digits)?;
    Ok(Front::InFile(version, deck, file))
}

/// Returns the deck with its last file, whose content is whole.
fn filed(alloc: Global, deck: Deck, file: OpenFile) -> Result<Deck, NoMemory>
    ensures { IfOk result (λ whole. deck_of whole ≡ model.with_file (deck_of deck) (open_of file)) }
{
    let mut deck = deck;
    let entry = file.into_entry(alloc)?;
    deck.volume.files.push(entry)?;
    Ok(deck)
}

/// Returns the deck with its last terminal, whose keys are whole.
fn named(deck: Deck, terminal: Terminal) -> Result<Deck, NoMemory>
    ensures { IfOk result (λ whole.
        deck_of whole ≡ model.with_terminal (deck_of deck) (terminal_of terminal)) }
{
    let mut deck = deck;
    deck.terminals.push(terminal)?;
    Ok(deck)
}

/// Adds a terminal.
#[tactic(auto, using(crate::proofs::NameLemmas::named_is))]
fn with_terminal(
    alloc: Global,
    version: Version,
    deck: Deck,
    name: &[u8],
) -> Result<Front, ReadError>
    ensures { Decides front_of result (unless_refused
        (model.InTerminal version (deck_of deck) (model.new_terminal name.now))
        (first_cause (terminal_causes (deck_of deck).terminals name.now))) }
{
    let terminal = TerminalName::of(name).ok_or(DeckCause::Range)?;
    if has_terminal(deck.terminals.as_slice(), name) {
        return Err(ReadError::Refused(DeckCause::Double));
    }
    if deck.terminals.len() >= MOST_JOBS {
        return Err(ReadError::Refused(DeckCause::Space));
    }
    let keys = Vec::new(alloc);
    Ok(Front::InTerminal(
        version,
        deck,
        Terminal {
            name: terminal,
            keys,
        },
    ))
}

/// Adds a key line to the last terminal.
fn with_keys(
    alloc: Global,
    version: Version,
    deck: Deck,
    terminal: Terminal,
    keys: &[u8],
) -> Result<Front, ReadError>
    ensures { Decides front_of result (unless_refused
        (model.InTerminal version (deck_of deck) (model.with_keys (terminal_of terminal) keys.now))
        (first_cause (keys_causes keys.now))) }
{
    let mut terminal = terminal;
    if keys.len() > LINE_LENGTH {
        return Err(ReadError::Refused(DeckCause::Range));
    }
    terminal.keys.push(KeyLine::of(alloc, keys)?)?;
    Ok(Front::InTerminal(version, deck, terminal))
}

/// Returns the account of these fields, on a disk of that many blocks, if its numbers and its
/// password are in their ranges.
fn entry_of(disk: u16, texts: &AccountTexts<'_>) -> Option<AccountEntry>
    ensures { result ≡ (if is_in_range (texts_seen texts.now)
        then Some (entry_of disk (texts_seen texts.now)) else None) }
{
    let project = number_between(1, 254, texts.project)?;
    let programmer = number_between(0, 254, texts.programmer)?;
    let password = Short::password(texts.password)?;
    let limit = number_between(1, u32::from(MOST_CALLS), texts.limit)?;
    let quota = quota_of(disk, texts.quota)?;
    Some(AccountEntry {
        account: Account {
            project: project as u8,
            programmer: programmer as u8,
        },
        password,
        limit: limit as u16,
        quota,
    })
}

/// Returns the quota of the line, if it is in its range, or the whole disk if the line has none.
fn quota_of(disk: u16, text: Option<&[u8]>) -> Option<u16>
    ensures { result ≡ (if is_quota (option_seen text.entry)
        then Some (quota_from disk (option_seen text.entry)) else None) }
{
    match text {
        None => Some(disk),
        Some(text) => {
            let quota = number_between(0, u32::from(MOST_QUOTA), text)?;
            Some(quota as u16)
        }
    }
}

fn has_account(entries: &[AccountEntry], account: Account) -> bool
    ensures { result ≡ has_account entries.now account }
{
    entries.iter().any(|entry| is_same(entry.account, account))
}

#[tactic(auto, unfolding(crate::specs::Seen::is_named))]
fn has_terminal(terminals: &[Terminal], name: &[u8]) -> bool
    ensures { result ≡ is_named terminals.now name.now }
{
    terminals
        .iter()
        .any(|terminal| terminal.name.as_bytes() == name)
}
