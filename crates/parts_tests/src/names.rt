//! Names of files, and pages.

use crate::expects::{expect, expect_none};
use monitor_calls::{Account, FileName, Page, Short};
use std::alloc::Global;
use std::test::Fail;

pub(crate) fn account(project: u8, programmer: u8) -> Account {
    Account {
        project,
        programmer,
    }
}

pub(crate) fn short(text: &[u8]) -> Result<Short, Fail> {
    Ok(Short::of(text).ok_or("no short text")?)
}

/// Returns a file of account [10,1].
pub(crate) fn file(stem: &[u8]) -> Result<FileName, Fail> {
    named(1, stem, b"DAT")
}

/// Returns a file of an account of project 10.
fn named(programmer: u8, stem: &[u8], extension: &[u8]) -> Result<FileName, Fail> {
    Ok(FileName {
        owner: account(10, programmer),
        stem: short(stem)?,
        extension: short(extension)?,
    })
}

/// The programmer's number, the stem and the extension of a name, and whether it is MASTER.DAT of
/// account [10,1].
type Row = (u8, &'static [u8], &'static [u8], bool);

static NAMES: [Row; 4] = [
    (1, b"MASTER", b"DAT", true),
    (2, b"MASTER", b"DAT", false),
    (1, b"MASTE", b"DAT", false),
    (1, b"MASTER", b"", false),
];

fn first_wrong(rows: &[Row]) -> Result<Option<usize>, Fail> {
    let master = file(b"MASTER")?;
    for (place, (programmer, stem, extension, is_same)) in rows.iter().enumerate() {
        let name = named(*programmer, stem, extension)?;
        if master.is_same(&name) != *is_same {
            return Ok(Some(place));
        }
    }
    Ok(None)
}

#[test]
fn one_name_is_one_owner_stem_and_extension(rt: HostRuntime) -> Result<(), Fail> {
    expect_none(rt.alloc(), first_wrong(&NAMES)?)
}

/// Returns the byte that a page is full of.
fn full_of(page: &Page) -> Option<u8> {
    let first = page.as_bytes()[0];
    let is_full = page.as_bytes().iter().all(|byte| *byte == first);
    if is_full { Some(first) } else { None }
}

/// Returns what a page is full of when it is made, when it is filled with 7, and when it is
/// cleared. The last one is its copy from before it was cleared.
fn page_steps(alloc: Global) -> Result<[Option<u8>; 4], Fail> {
    let mut page = Page::new(alloc)?;
    let made = full_of(&page);
    page.fill(&[7u8; 512]);
    let filled = full_of(&page);
    let mut copy = Page::new(alloc)?;
    copy.copy_from(&page);
    page.clear();
    Ok([made, filled, full_of(&page), full_of(&copy)])
}

#[test]
fn a_page_has_512_bytes(rt: HostRuntime) -> Result<(), Fail> {
    let steps = page_steps(rt.alloc())?;
    expect(
        steps == [Some(0), Some(7), Some(0), Some(7)],
        "a page of other bytes",
    )?;
    let bytes = Page::new(rt.alloc())?.as_bytes().len();
    expect(bytes == 512, "a page of another length")
}
