//! Names of files, as they are typed and printed.

use crate::expects::expect_none;
use crate::names::{account, short};
use basic_values::Fault;
use file_names::{Spec, parse_spec, print};
use monitor_calls::{FileName, Short};
use std::test::Fail;

/// Returns the parts of a specification that is typed by [100,5], with the default extension BAS.
fn read(text: &[u8]) -> Result<Spec, Fault> {
    match Short::of(b"BAS") {
        Some(default) => parse_spec(text, account(100, 5), &default),
        None => Err(Fault::new(255)),
    }
}

/// Bytes, and the parts that they name: the owner, the stem, the extension and the code.
type Parts = (
    &'static [u8],
    (u8, u8),
    &'static [u8],
    &'static [u8],
    Option<u8>,
);

static READ: [Parts; 8] = [
    (b"DEMO", (100, 5), b"DEMO", b"BAS", None),
    (b" d e\tmo ", (100, 5), b"DEMO", b"BAS", None),
    (b"sy:[1,0]a.b<0>", (1, 0), b"A", b"B", Some(0)),
    (
        b"[254,254]123456.789<63>",
        (254, 254),
        b"123456",
        b"789",
        Some(63),
    ),
    (b"$TOOLS", (1, 2), b"TOOLS", b"BAS", None),
    (b"DEMO.", (100, 5), b"DEMO", b"", None),
    (b"DEMO<40>", (100, 5), b"DEMO", b"BAS", Some(40)),
    (b"SY:SY", (100, 5), b"SY", b"BAS", None),
];

fn has_parts(row: &Parts) -> bool {
    match read(row.0) {
        Ok(spec) => {
            let owner = spec.name.owner;
            (owner.project, owner.programmer) == row.1
                && spec.name.stem.as_bytes() == row.2
                && spec.name.extension.as_bytes() == row.3
                && spec.code == row.4
        }
        Err(_) => false,
    }
}

fn first_wrong_parts(rows: &[Parts]) -> Option<usize> {
    for (place, row) in rows.iter().enumerate() {
        if !has_parts(row) {
            return Some(place);
        }
    }
    None
}

#[test]
fn each_part_but_the_stem_may_be_left_out(rt: HostRuntime) -> Result<(), Fail> {
    expect_none(rt.alloc(), first_wrong_parts(&READ))
}

static REFUSED: [(&[u8], u8); 22] = [
    (b"", 2),
    (b"SEVENTH", 2),
    (b"DEMO.BASI", 2),
    (b"DEMO.B.A", 2),
    (b"DEMO<64>", 2),
    (b"DEMO<07>", 2),
    (b"DEMO<5", 2),
    (b"DEMO<5>X", 2),
    (b"DEMO<>", 2),
    (b"[0,1]DEMO", 2),
    (b"[255,1]DEMO", 2),
    (b"[1,255]DEMO", 2),
    (b"[01,1]DEMO", 2),
    (b"[1,1]", 2),
    (b"[1,1DEMO", 2),
    (b".BAS", 2),
    (b"SY:", 2),
    (b"SY:DK:DEMO", 2),
    (b":DEMO", 2),
    (b"KB:", 8),
    (b"d k 1 : DEMO", 8),
    (b"ALONGDEVICENAMEOFMORETHANTHIRTYTWOLETTERS:DEMO", 8),
];

/// Returns the number of the fault of these bytes; none if they are read.
fn fault_of(text: &[u8]) -> Option<u8> {
    match read(text) {
        Ok(_) => None,
        Err(fault) => Some(fault.number()),
    }
}

fn first_wrong_fault(rows: &[(&[u8], u8)]) -> Option<usize> {
    for (place, (text, fault)) in rows.iter().enumerate() {
        if fault_of(text) != Some(*fault) {
            return Some(place);
        }
    }
    None
}

#[test]
fn another_device_is_8_and_any_other_text_2(rt: HostRuntime) -> Result<(), Fail> {
    expect_none(rt.alloc(), first_wrong_fault(&REFUSED))
}

/// A stem, an extension, and how their name is printed for [100,5].
static PRINTED: [(&[u8], &[u8], &[u8]); 3] = [
    (b"DEMO", b"BAS", b"[100,5]DEMO.BAS"),
    (b"A", b"", b"[100,5]A"),
    (b"123456", b"7", b"[100,5]123456.7"),
];

fn name_of(stem: &[u8], extension: &[u8]) -> Result<FileName, Fail> {
    Ok(FileName {
        owner: account(100, 5),
        stem: short(stem)?,
        extension: short(extension)?,
    })
}

fn prints(name: &FileName, want: &[u8]) -> bool {
    print(name).as_slice() == want
}

/// Returns whether the bytes are read as this name, by another account and without an extension of
/// its own.
fn reads(text: &[u8], name: &FileName) -> Result<bool, Fail> {
    match parse_spec(text, account(1, 1), &short(b"")?) {
        Ok(spec) => Ok(spec.name.is_same(name)),
        Err(_) => Ok(false),
    }
}

fn first_wrong_print(rows: &[(&[u8], &[u8], &[u8])]) -> Result<Option<usize>, Fail> {
    for (place, (stem, extension, printed)) in rows.iter().enumerate() {
        let name = name_of(stem, extension)?;
        if !prints(&name, printed) || !reads(printed, &name)? {
            return Ok(Some(place));
        }
    }
    Ok(None)
}

#[test]
fn what_is_printed_is_read_again(rt: HostRuntime) -> Result<(), Fail> {
    expect_none(rt.alloc(), first_wrong_print(&PRINTED)?)
}
