//! The NEXT of each FOR and the FOR of each NEXT, by their numbers.

ghost use Rattle.std.specs.Prelude.{◌≡◌, ◌==◌, ℕ, map, find, option_map, slice_index_or};
ghost use Rattle.std.specs.Prelude.{if◌then◌else◌, Some, None, IfOk, OnOk};
ghost use Rattle.loop_pairs.specs.Pairs.{pair_seen};

use crate::pairs::Pair;
use basic_values::NoMemory;
use std::alloc::Global;

/// Returns the NEXT of each FOR, by the FOR's number.
pub fn nexts_in(alloc: Global, pairs: &[Pair]) -> Result<Vec<Option<usize>>, NoMemory>
    ensures { IfOk result (λ nexts. (m : ℕ) → slice_index_or nexts.items m None
        ≡ option_map (λ pair. pair.closing) (find (λ pair. pair.opening == m)
        (map pair_seen pairs.now))) }
{
    let mut nexts = Vec::new(alloc);
    for place in (0..pairs.len()).rev() {
        put(&mut nexts, pairs[place].opening, pairs[place].closing)?;
    }
    Ok(nexts)
}

/// Returns the FOR of each NEXT, by the NEXT's number.
pub fn fors_in(alloc: Global, pairs: &[Pair]) -> Result<Vec<Option<usize>>, NoMemory>
    ensures { IfOk result (λ fors. (m : ℕ) → slice_index_or fors.items m None
        ≡ option_map (λ pair. pair.opening) (find (λ pair. pair.closing == m)
        (map pair_seen pairs.now))) }
{
    let mut fors = Vec::new(alloc);
    for place in (0..pairs.len()).rev() {
        put(&mut fors, pairs[place].closing, pairs[place].opening)?;
    }
    Ok(fors)
}

/// Sets an entry of a table, which grows if necessary.
fn put(table: &mut Vec<Option<usize>>, place: usize, value: usize) -> Result<(), NoMemory>
    ensures { OnOk result ((m : ℕ) → slice_index_or table.new.items m None
        ≡ (if place == m then Some value else slice_index_or table.old.items m None)) }
{
    match place.checked_add(1) {
        None => Err(NoMemory),
        Some(count) => {
            if table.len() < count {
                table.resize(count, None)?;
            }
            table[place] = Some(value);
            Ok(())
        }
    }
}

/// Returns the entry of a table at a place, or `None` past its end.
pub fn entry_at(table: &[Option<usize>], place: usize) -> Option<usize>
    ensures { result ≡ slice_index_or table.now place None }
{
    if place < table.len() {
        table[place]
    } else {
        None
    }
}
