//! What fails a test.

use std::test::Fail;

/// Fails with what is wrong, unless it is so.
pub(crate) fn expect(is_so: bool, wrong: &'static str) -> Result<(), Fail> {
    if is_so { Ok(()) } else { Err(Fail::new(wrong)) }
}
