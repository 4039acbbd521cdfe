//! What fails a test.

use std::str;
use std::test::Fail;

/// Fails with what is otherwise, unless it is so.
pub(crate) fn expect(is_so: bool, what: &'static str) -> Result<(), Fail> {
    if is_so { Ok(()) } else { Err(what)? }
}

/// Fails with the text that is found, unless it is this.
pub(crate) fn expect_text(found: &[u8], wanted: &[u8]) -> Result<(), Fail> {
    if found == wanted {
        return Ok(());
    }
    Err(Fail::new(str::from_utf8(found)?))
}
