//! READ: the next item of DATA.

ghost use Rattle.std.specs.Prelude.{◌≡◌, slice_get};
ghost use Rattle.input_items.specs.Items.{Answers, data_item, next_place};

use crate::item_values::without_blanks;
use basic_values::errors::OUT_OF_DATA;
use basic_values::{Fault, NoMemory, Text, Trouble};
use job_storage::copied;
use std::alloc::Global;

/// Returns the item of DATA at a place, without the blanks around it, and moves the place to the
/// next one. Error 57: no item is left.
#[inline(always)]
pub fn next_item(alloc: Global, words: &[Text], place: &mut usize) -> Result<Text, Trouble<Fault>>
    ensures item { Answers (data_item (slice_get words.now place.old)) result }
    ensures place { place.new ≡ next_place result place.old }
{
    let Some(word) = words.get(*place) else {
        return Err(Trouble::Refused(Fault::new(OUT_OF_DATA)));
    };
    match copied(alloc, without_blanks(word.as_bytes())) {
        Ok(item) => {
            *place += 1;
            Ok(item)
        }
        Err(NoMemory) => Err(Trouble::NoMemory),
    }
}
