//! How a test fails.

use std::test::Fail;

/// Fails with the table and the place of a table entry, if it has another result.
pub(crate) fn expect_row(table: &str, place: usize, is_so: bool) -> Result<(), Fail> {
    if is_so {
        return Ok(());
    }
    Err(Fail::new(format_args!("row {place} of {table} is answered otherwise")))
}

/// Fails with this message, unless the condition is true.
pub(crate) fn expect(is_so: bool, what: &str) -> Result<(), Fail> {
    if is_so { Ok(()) } else { Err(Fail::new(what)) }
}

/// Fails with the bytes that were found, unless they are these.
pub(crate) fn expect_bytes(found: &[u8], wanted: &[u8]) -> Result<(), Fail> {
    if found == wanted {
        return Ok(());
    }
    Err(Fail::new(format_args!("{found:?} are found")))
}
