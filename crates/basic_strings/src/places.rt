//! The place of a string in another. Places are numbered from 1.

ghost use Rattle.std.specs.Prelude.{◌≡◌, ◌≤◌, length};
ghost use Rattle.basic_strings.specs.Places.{place_of};

use crate::cuts::bytes_before;
use basic_values::{Int, MOST_BYTES};
use memchr::memmem;

/// Returns the least place from `n` on at which `b` is in `a`, or 0: the manual's INSTR. An empty
/// `b` is at each place, and also after the last byte. The search is linear in both strings.
pub fn instr(n: Int, a: &[u8], b: &[u8]) -> Int
    requires text { length a.now ≤ MOST_BYTES }
    requires sought { length b.now ≤ MOST_BYTES }
    ensures { result ≡ place_of n a.now b.now }
{
    let start = bytes_before(n);
    if start > a.len() {
        return Int::new(0);
    }
    match memmem::find(&a[start..], b) {
        Some(before) => Int::new((start + before) as i16 + 1),
        None => Int::new(0),
    }
}
