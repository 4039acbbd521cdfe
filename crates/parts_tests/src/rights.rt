//! Protection codes.

use crate::expects::{expect, expect_none};
use crate::names::account;
use monitor_calls::Account;
use monitor_model::Right;
use protection::allows;
use std::test::Fail;

/// A protection code, and what it allows a caller: reading and writing, in turn. The callers have
/// the owner's account [10,1], another account of its project, and one of another project.
type Row = (u8, [bool; 6]);

static ROWS: [Row; 11] = [
    (0, [true, true, true, true, true, true]),
    (1, [false, true, true, true, true, true]),
    (2, [true, false, true, true, true, true]),
    (4, [true, true, false, true, true, true]),
    (8, [true, true, true, false, true, true]),
    (16, [true, true, true, true, false, true]),
    (32, [true, true, true, true, true, false]),
    (40, [true, true, true, false, true, false]),
    (60, [true, true, false, false, false, false]),
    (63, [false, false, false, false, false, false]),
    (64, [true, true, true, true, true, true]),
];

/// Returns whether a caller may read and write a file of [10,1] with this code.
fn rights(caller: Account, code: u8) -> (bool, bool) {
    let owner = account(10, 1);
    let read = allows(caller, owner, code, Right::Read);
    (read, allows(caller, owner, code, Right::Write))
}

fn all_rights(code: u8) -> [bool; 6] {
    let own = rights(account(10, 1), code);
    let neighbour = rights(account(10, 2), code);
    let stranger = rights(account(20, 1), code);
    [
        own.0,
        own.1,
        neighbour.0,
        neighbour.1,
        stranger.0,
        stranger.1,
    ]
}

fn first_wrong(rows: &[Row]) -> Option<usize> {
    for (place, (code, rights)) in rows.iter().enumerate() {
        if all_rights(*code) != *rights {
            return Some(place);
        }
    }
    None
}

#[test]
fn each_bit_refuses_one_right_of_one_kind_of_caller(rt: HostRuntime) -> Result<(), Fail> {
    expect_none(rt.alloc(), first_wrong(&ROWS))
}

/// Returns whether project 1 may read and write another's file with this code, and write its own.
fn passes(code: u8) -> bool {
    let own = account(1, 2);
    rights(own, code) == (true, true) && allows(own, own, code, Right::Write)
}

#[test]
fn project_1_passes_every_code(rt: HostRuntime) -> Result<(), Fail> {
    let is_passed = passes(0) && passes(60) && passes(63);
    expect(is_passed, "a code that project 1 does not pass")
}
