//! The items of DATA.

ghost use Rattle.std.specs.Prelude.{◌≡◌, ℕ, ◌+◌, ◌<◌, ◌≤◌, [], ◌∷◌, length, IfOk};
ghost use Rattle.basic_expr.specs.Views.{most_words};
ghost use Rattle.statement_parts.specs.ParsedForms.{ItemAt, FlatParts};
ghost use Rattle.statement_parts.specs.Forms.{items_form};

use crate::read::Read;
use basic_expr::{Failure, Word, Words, text_of};
use basic_tree::Series;
use basic_values::{NoMemory, Text};
use std::alloc::Global;

/// Returns the item at a place, if there is one.
#[tactic(auto, using(crate::proofs::Parts::items))]
fn next_item(alloc: Global, words: &Words<'_>, from: usize) -> Result<Option<Text>, NoMemory>
    requires { from ≤ length words.now }
    ensures stands { IfOk result (λ item. ItemAt words.now from item) }
    ensures few { length words.now ≤ most_words }
{
    match words.peek(from) {
        None => Ok(None),
        Some(Word::Item(bytes)) => Ok(Some(text_of(alloc, bytes)?)),
        Some(Word::Key(_)) => Ok(None),
        Some(Word::Punctuation(_)) => Ok(None),
        Some(Word::Named(_)) => Ok(None),
        Some(Word::FnNamed(_)) => Ok(None),
        Some(Word::Number(_)) => Ok(None),
        Some(Word::Quotation(_)) => Ok(None),
    }
}

/// Reads one or more items, and returns them with the place after them.
#[tactic(auto, using(crate::proofs::ItemSteps::itemizing))]
pub fn all_items(
    alloc: Global,
    words: &Words<'_>,
    from: usize,
) -> Result<Read<Series<Text>>, Failure>
    requires { from ≤ length words.now }
    ensures { FlatParts words.now from items_form (λ x g. g x) result }
{
    let first = match next_item(alloc, words, from)? {
        None => return Err(Failure::Wrong { place: from }),
        Some(item) => item,
    };
    let mut items = Vec::new(alloc);
    items.push(first)?;
    let mut end = from + 1;
    'more: while let Some(item) = next_item(alloc, words, end)? {
        items.push(item)?;
        end += 1;
    }
    Ok(Read {
        value: Series::from_vec(items),
        end,
    })
}
