//! Whether two values of a call are the same.

ghost use Rattle.std.specs.Prelude.{◌≡◌, ◌↔◌, IsTrue};

use basic_values::identical;
use monitor_calls::{Account, FileName, OpenKind, Page, Short};

pub(crate) fn same_account(a: Account, b: Account) -> bool
    ensures { IsTrue result ↔ (a ≡ b) }
{
    a.project == b.project && a.programmer == b.programmer
}

pub(crate) fn same_short(a: &Short, b: &Short) -> bool
    ensures { IsTrue result ↔ (a.now ≡ b.now) }
{
    identical(a.as_bytes(), b.as_bytes())
}

pub(crate) fn same_file(a: &FileName, b: &FileName) -> bool
    ensures { IsTrue result ↔ (a.now ≡ b.now) }
{
    a.is_same(b)
}

pub(crate) fn same_code(a: Option<u8>, b: Option<u8>) -> bool
    ensures { IsTrue result ↔ (a ≡ b) }
{
    match (a, b) {
        (None, None) => true,
        (Some(a), Some(b)) => a == b,
        (None, Some(_)) | (Some(_), None) => false,
    }
}

pub(crate) fn same_blocks(a: Option<u16>, b: Option<u16>) -> bool
    ensures { IsTrue result ↔ (a ≡ b) }
{
    match (a, b) {
        (None, None) => true,
        (Some(a), Some(b)) => a == b,
        (None, Some(_)) | (Some(_), None) => false,
    }
}

pub(crate) fn same_kind(a: OpenKind, b: OpenKind) -> bool
    ensures { IsTrue result ↔ (a ≡ b) }
{
    match a {
        OpenKind::Input => matches!(b, OpenKind::Input),
        OpenKind::Output => matches!(b, OpenKind::Output),
        OpenKind::Either => matches!(b, OpenKind::Either),
        OpenKind::Fresh => matches!(b, OpenKind::Fresh),
    }
}

pub(crate) fn same_page(a: &Page, b: &Page) -> bool
    ensures { IsTrue result ↔ (a.now ≡ b.now) }
{
    identical(a.as_bytes(), b.as_bytes())
}

pub(crate) fn same_pages(a: &[Page], b: &[Page]) -> bool
    ensures { IsTrue result ↔ (a.now ≡ b.now) }
{
    if a.len() != b.len() {
        return false;
    }
    for place in 0..a.len() {
        if !same_page(&a[place], &b[place]) {
            return false;
        }
    }
    true
}
