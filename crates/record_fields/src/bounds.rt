//! Arrays under their bounds, in memory or in a file: how many elements there are, and the place of
//! each.

ghost use Rattle.std.specs.Prelude.{◌≡◌, ◌≤◌, ◌<◌, ◌*◌, IfSome};
ghost use Rattle.record_fields.specs.Bounds.{count, within, place_under};

use crate::layouts::natural;
use basic_values::Int;

/// Returns the number of elements of an array with these bounds.
pub fn count(first: u16, second: Option<u16>) -> usize
    ensures count { result ≡ count first second }
    ensures small { result ≤ 65536 * 65536 }
{
    let rows = first as usize + 1;
    match second {
        Some(second) => rows * (second as usize + 1),
        None => rows,
    }
}

/// Returns the subscript, if it is from 0 to its bound.
fn within(bound: u16, subscript: Int) -> Option<u16>
    ensures value { result ≡ within bound subscript }
    ensures small { IfSome result (λ n. n ≤ bound) }
{
    match natural(subscript) {
        Some(number) => { if number <= bound { Some(number) } else { None } }
        None => None,
    }
}

/// Returns the place of an element, if there is a subscript for each bound and none is out of
/// range. The elements are in rows: the last subscript varies fastest.
#[tactic(auto, using(crate::proofs::PlaceLemmas::in_table))]
pub fn place_under(first: u16, second: Option<u16>, i: Int, j: Option<Int>) -> Option<usize>
    ensures value { result ≡ place_under first second i j }
    ensures inside { IfSome result (λ place. place < count first second) }
{
    match second {
        None => match j {
            None => match within(first, i) {
                Some(row) => Some(row as usize),
                None => None,
            },
            Some(_) => None,
        },
        Some(second) => match j {
            None => None,
            Some(j) => match within(first, i) {
                Some(row) => match within(second, j) {
                    Some(column) => { Some(row as usize * (second as usize + 1) + column as usize) }
                    None => None,
                },
                None => None,
            },
        },
    }
}
