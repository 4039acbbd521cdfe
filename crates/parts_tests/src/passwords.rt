//! The table of accounts.

use crate::expects::{expect, expect_none};
use crate::names::{account, short};
use accounts::AccountTable;
use monitor_calls::{Account, AccountEntry};
use std::alloc::Global;
use std::test::Fail;

fn entry(account: Account, password: &[u8], limit: u16, quota: u16) -> Result<AccountEntry, Fail> {
    Ok(AccountEntry {
        account,
        password: short(password)?,
        limit,
        quota,
    })
}

/// Returns a table with [100,5], whose password is DEMO, and [1,2], whose password is SYSTEM.
fn table(alloc: Global) -> Result<AccountTable, Fail> {
    let entries = [
        entry(account(100, 5), b"DEMO", 16384, 16384)?,
        entry(account(1, 2), b"SYSTEM", 1, 8)?,
    ];
    Ok(AccountTable::new(alloc, &entries)?)
}

/// An account; a password, if it is to be checked; and the limit in the answer.
type Row = (u8, u8, Option<&'static [u8]>, Option<u16>);

static ROWS: [Row; 6] = [
    (100, 5, None, Some(16384)),
    (1, 2, None, Some(1)),
    (5, 100, None, None),
    (100, 5, Some(b"DEMO"), Some(16384)),
    (1, 2, Some(b"DEMO"), None),
    (2, 1, Some(b"DEMO"), None),
];

fn found(table: &AccountTable, row: &Row) -> Result<Option<u16>, Fail> {
    let account = account(row.0, row.1);
    match row.2 {
        Some(password) => Ok(table.check(account, &short(password)?)),
        None => Ok(table.find(account)),
    }
}

fn first_wrong(alloc: Global, rows: &[Row]) -> Result<Option<usize>, Fail> {
    let table = table(alloc)?;
    for (place, row) in rows.iter().enumerate() {
        if found(&table, row)? != row.3 {
            return Ok(Some(place));
        }
    }
    Ok(None)
}

#[test]
fn an_account_is_found_by_its_numbers_and_checked_by_its_password(
    rt: HostRuntime,
) -> Result<(), Fail> {
    expect_none(rt.alloc(), first_wrong(rt.alloc(), &ROWS)?)
}

#[test]
fn a_quota_is_that_of_the_account_if_there_is_one(rt: HostRuntime) -> Result<(), Fail> {
    let table = table(rt.alloc())?;
    let quotas = (table.quota(account(1, 2)), table.quota(account(5, 100)));
    expect(quotas == (Some(8), None), "another quota")
}

#[test]
fn the_accounts_are_moved_out_in_their_order(rt: HostRuntime) -> Result<(), Fail> {
    let entries = table(rt.alloc())?.into_entries();
    match entries.as_slice() {
        [first, second] => expect(
            first.account == account(100, 5)
                && second.account == account(1, 2)
                && second.password.as_bytes() == b"SYSTEM".as_slice()
                && second.limit == 1,
            "another account",
        ),
        _ => Err(Fail::new("another number of accounts")),
    }
}
