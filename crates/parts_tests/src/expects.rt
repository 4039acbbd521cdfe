//! Functions that fail a test.

use std::alloc::Global;
use std::test::Fail;

/// Fails with the place of a table entry with another answer.
pub(crate) fn expect_none(alloc: Global, wrong: Option<usize>) -> Result<(), Fail> {
    match wrong {
        None => Ok(()),
        Some(place) => Err(Fail::new(format!(in alloc; "row {place} is answered otherwise")?)),
    }
}

/// Fails with what is wrong, unless the condition is true.
pub(crate) fn expect(is_so: bool, wrong: &'static str) -> Result<(), Fail> {
    if is_so { Ok(()) } else { Err(Fail::new(wrong)) }
}

/// Fails with bytes that are not the expected ones.
pub(crate) fn expect_bytes(alloc: Global, found: &[u8], wanted: &[u8]) -> Result<(), Fail> {
    if found == wanted {
        return Ok(());
    }
    Err(Fail::new(format!(in alloc; "{found:?} in place of {wanted:?}")?))
}
