//! The instructions for array elements: in memory, or in a file if a DIM # of the program has the
//! name.

ghost use Rattle.std.specs.Prelude.{◌≡◌};
ghost use Rattle.polish_code.specs.Code.{load_item, store_item, places_of};

use crate::lookups::Lookups;
use basic_tree::Name;
use polish_code::Item;

/// Returns the instruction that loads an element, by this many subscripts.
pub fn load_item<L: Lookups>(tables: &L, name: Name, count: u32) -> Item
    ensures { result ≡ load_item ((places_of (L.program tables.now)).array name) name count }
{
    match tables.array(name) {
        None => Item::LoadElement { name, count },
        Some(array) => Item::LoadFileElement { array, count },
    }
}

/// Returns the instruction that stores to an element, by this many subscripts.
pub fn store_item<L: Lookups>(tables: &L, name: Name, count: u32) -> Item
    ensures { result ≡ store_item ((places_of (L.program tables.now)).array name) name count }
{
    match tables.array(name) {
        None => Item::StoreElement { name, count },
        Some(array) => Item::StoreFileElement { array, count },
    }
}
