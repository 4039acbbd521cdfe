//! Which strings are names, and which volumes are good.

use crate::asks::{OWNER, short};
use crate::expects::expect_none;
use basic_values::Series;
use basic_values::limits::MOST_QUOTA;
use monitor_calls::{
    Account, AccountEntry, FileEntry, FileName, Page, Short, TerminalName, Volume,
};
use std::alloc::Global;
use std::test::Fail;

/// A string, and whether it is a short one, a password, and a terminal's name.
type TextRow = (&'static [u8], bool, bool, bool);

static TEXTS: [TextRow; 8] = [
    (b"", true, false, false),
    (b"DEMO7", true, true, true),
    (b"demo7", true, false, false),
    (b"ABCDEF", true, true, true),
    (b"ABCDEFG", false, false, true),
    (b"ABCDEFGH", false, false, true),
    (b"ABCDEFGHI", false, false, false),
    (b"A B", false, false, false),
];

/// Returns whether a string is what its row says.
fn is_taken(row: &TextRow) -> bool {
    let (text, is_short, is_password, is_name) = *row;
    Short::of(text).is_some() == is_short
        && Short::password(text).is_some() == is_password
        && TerminalName::of(text).is_some() == is_name
}

#[test]
fn texts_are_taken_in_their_ranges(rt: HostRuntime) -> Result<(), Fail> {
    expect_none(rt.alloc(), TEXTS.iter().position(|row| !is_taken(row)))
}

/// The blocks of a volume, the numbers, the password and the limit of its second account, and
/// whether it is good.
type AccountRow = (u16, u8, u8, &'static [u8], u16, bool);

/// The first account is [100,5].
static ACCOUNTS: [AccountRow; 13] = [
    (8, 100, 6, b"DEMO", 100, true),
    (8, 100, 5, b"OTHER", 7, false),
    (0, 1, 0, b"A", 1, false),
    (1, 1, 0, b"A", 1, true),
    (16384, 254, 254, b"ABCDE6", 16384, true),
    (16385, 1, 0, b"A", 1, false),
    (8, 0, 1, b"DEMO", 100, false),
    (8, 255, 1, b"DEMO", 100, false),
    (8, 1, 255, b"DEMO", 100, false),
    (8, 1, 1, b"", 100, false),
    (8, 1, 1, b"demo", 100, false),
    (8, 1, 1, b"DEMO", 0, false),
    (8, 1, 1, b"DEMO", 16385, false),
];

fn first_wrong_account(alloc: Global) -> Result<Option<usize>, Fail> {
    for (place, row) in ACCOUNTS.iter().enumerate() {
        if is_good_account(alloc, row)? != row.5 {
            return Ok(Some(place));
        }
    }
    Ok(None)
}

#[test]
fn accounts_of_a_volume_are_in_their_ranges(rt: HostRuntime) -> Result<(), Fail> {
    expect_none(rt.alloc(), first_wrong_account(rt.alloc())?)
}

fn is_good_account(alloc: Global, row: &AccountRow) -> Result<bool, Fail> {
    let account = Account {
        project: row.1,
        programmer: row.2,
    };
    let second = account_entry(account, row.3, row.4, MOST_QUOTA)?;
    let accounts = two_accounts(alloc, second)?;
    let volume = Volume {
        blocks: row.0,
        accounts,
        files: Vec::new(alloc),
    };
    Ok(volume.is_good())
}

fn account_entry(
    account: Account,
    password: &[u8],
    limit: u16,
    quota: u16,
) -> Result<AccountEntry, Fail> {
    let password = short(password)?;
    Ok(AccountEntry {
        account,
        password,
        limit,
        quota,
    })
}

/// Returns the account [100,5], and another.
fn two_accounts(alloc: Global, second: AccountEntry) -> Result<Vec<AccountEntry>, Fail> {
    let mut accounts = Vec::new(alloc);
    accounts.push(account_entry(OWNER, b"DEMO", 100, MOST_QUOTA)?)?;
    accounts.push(second)?;
    Ok(accounts)
}

/// The owner's programmer number, the stem, the extension, the code and the blocks of a second
/// file, and whether the volume is good.
type FileRow = (u8, &'static [u8], &'static [u8], u8, u8, bool);

/// The volume has eight blocks, and its first file is FIRST.DAT of two.
static FILES: [FileRow; 15] = [
    (5, b"SECOND", b"DAT", 60, 6, true),
    (5, b"SECOND", b"DAT", 60, 7, false),
    (6, b"SECOND", b"DAT", 60, 6, false),
    (5, b"FIRST", b"DAT", 60, 0, false),
    (5, b"FIRST", b"BAS", 60, 0, true),
    (5, b"FIRST", b"", 60, 0, true),
    (5, b"", b"DAT", 60, 0, true),
    (5, b"", b"", 60, 0, true),
    (5, b"second", b"DAT", 60, 0, true),
    (5, b"SECOND", b"dat", 60, 0, true),
    (5, b"SECOND", b"DATAon", 60, 0, true),
    (5, b"7", b"7", 0, 0, true),
    (5, b"SECOND", b"DAT", 63, 0, true),
    (5, b"SECOND", b"DAT", 64, 0, true),
    (5, b"SECOND", b"DAT", 255, 0, true),
];

fn first_wrong_file(alloc: Global) -> Result<Option<usize>, Fail> {
    for (place, row) in FILES.iter().enumerate() {
        if is_good_file(alloc, row)? != row.5 {
            return Ok(Some(place));
        }
    }
    Ok(None)
}

#[test]
fn files_of_a_volume_are_in_their_ranges(rt: HostRuntime) -> Result<(), Fail> {
    expect_none(rt.alloc(), first_wrong_file(rt.alloc())?)
}

fn is_good_file(alloc: Global, row: &FileRow) -> Result<bool, Fail> {
    let owner = Account {
        project: 100,
        programmer: row.0,
    };
    let name = file_name(owner, row.1, row.2)?;
    let second = file_entry(alloc, name, row.3, row.4)?;
    let volume = volume(alloc, second, MOST_QUOTA)?;
    Ok(volume.is_good())
}

fn file_name(owner: Account, stem: &[u8], extension: &[u8]) -> Result<FileName, Fail> {
    Ok(FileName {
        owner,
        stem: short(stem)?,
        extension: short(extension)?,
    })
}

/// A stem, an extension, and whether a deck of version 1 or 2 may have that name.
type NameRow = (&'static [u8], &'static [u8], bool);

static NAMES: [NameRow; 9] = [
    (b"FIRST", b"DAT", true),
    (b"A", b"", true),
    (b"ABCDE6", b"7", true),
    (b"", b"DAT", false),
    (b"", b"", false),
    (b"first", b"DAT", false),
    (b"FIRST", b"dat", false),
    (b"FIRST", b"DATA", false),
    (b"FIRSt", b"DAT", false),
];

fn first_wrong_name() -> Result<Option<usize>, Fail> {
    for (place, row) in NAMES.iter().enumerate() {
        if file_name(OWNER, row.0, row.1)?.is_deck_name() != row.2 {
            return Ok(Some(place));
        }
    }
    Ok(None)
}

#[test]
fn names_of_old_decks_are_in_their_ranges(rt: HostRuntime) -> Result<(), Fail> {
    expect_none(rt.alloc(), first_wrong_name()?)
}

/// Returns a volume with the account [100,5] in this quota, and two files.
fn volume(alloc: Global, second: FileEntry, quota: u16) -> Result<Volume, Fail> {
    let mut accounts = Vec::new(alloc);
    accounts.push(account_entry(OWNER, b"DEMO", 100, quota)?)?;
    let name = file_name(OWNER, b"FIRST", b"DAT")?;
    let mut files = Vec::new(alloc);
    files.push(file_entry(alloc, name, 60, 2)?)?;
    files.push(second)?;
    Ok(Volume {
        blocks: 8,
        accounts,
        files,
    })
}

/// The quota of the account, the blocks of a second file beside the first of two, and whether the
/// volume is good.
static QUOTAS: [(u16, u8, bool); 5] = [
    (16384, 6, true),
    (16385, 0, false),
    (2, 0, true),
    (3, 1, true),
    (3, 2, false),
];

fn first_wrong_quota(alloc: Global) -> Result<Option<usize>, Fail> {
    for (place, row) in QUOTAS.iter().enumerate() {
        if is_good_quota(alloc, row)? != row.2 {
            return Ok(Some(place));
        }
    }
    Ok(None)
}

#[test]
fn files_of_a_volume_are_in_their_quotas(rt: HostRuntime) -> Result<(), Fail> {
    expect_none(rt.alloc(), first_wrong_quota(rt.alloc())?)
}

fn is_good_quota(alloc: Global, row: &(u16, u8, bool)) -> Result<bool, Fail> {
    let name = FileName {
        owner: OWNER,
        stem: short(b"SECOND")?,
        extension: short(b"DAT")?,
    };
    let second = file_entry(alloc, name, 60, row.1)?;
    let volume = volume(alloc, second, row.0)?;
    Ok(volume.is_good())
}

/// Returns a file of this many pages of zeros.
pub(crate) fn file_entry(
    alloc: Global,
    name: FileName,
    code: u8,
    blocks: u8,
) -> Result<FileEntry, Fail> {
    let mut pages = Vec::new(alloc);
    for _ in 0..blocks {
        pages.push(Page::new(alloc)?)?;
    }
    Ok(FileEntry {
        name,
        code,
        pages: Series::from_vec(pages),
    })
}
