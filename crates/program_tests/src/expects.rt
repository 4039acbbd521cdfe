//! Functions that fail a test.

use std::alloc::Global;
use std::test::Fail;

/// Fails with the place of a table entry with another answer.
pub(crate) fn expect_none(alloc: Global, wrong: Option<usize>) -> Result<(), Fail> {
    match wrong {
        None => Ok(()),
        Some(place) => Err(Fail::new(format!(in alloc; "row {place} is answered otherwise")?)),
    }
}

/// Does the same for a test of more than one table.
pub(crate) fn expect_none_of(alloc: Global, table: &str, wrong: Option<usize>) -> Result<(), Fail> {
    match wrong {
        None => Ok(()),
        Some(place) => Err(Fail::new(format!(in alloc;
            "row {place} of {table} is answered otherwise"
        )?)),
    }
}

/// Fails with what is wrong, unless the condition is true.
pub(crate) fn expect(is_so: bool, what: &'static str) -> Result<(), Fail> {
    if is_so { Ok(()) } else { Err(what)? }
}
