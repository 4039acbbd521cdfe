//! Lists that are separated by commas: one function for all kinds of elements.

ghost use Rattle.std.specs.Prelude.{◌≡◌, ℕ, ◌+◌, ◌<◌, ◌≤◌, List, [], ◌∷◌, length, map, MatchBool};
ghost use Rattle.basic_expr.specs.Views.{most_words};
ghost use Rattle.basic_tree.specs.declared.kinds.Want.{Want};
ghost use Rattle.grammar_machine.specs.MachineStack.{Item, MoreOf, Sequence};
ghost use Rattle.grammar_machine.specs.MachineForms.{has_room, item_form, list_form};
ghost use Rattle.statement_parts.specs.ParsedForms.{AddsNone, AddsOne, Parts, PartsFrom};

use basic_expr::{Failure, Words, next_is_sign};
use basic_tree::{Series, Sign, Want};
use statement_parts::Read;
use std::alloc::Global;

/// An element of a list. Only for targets and names does it matter which kind is expected.
pub trait Element: Sized + Drop {
    ghost sequence: { Want → Sequence };

    ghost item: { Self → Item };

    /// Returns whether one more may follow after this many.
    fn has_room(want: Want, count: usize) -> bool
        ensures { (items : List Item) → length items ≡ count → has_room (sequence want) items ≡
            result };

    /// Reads an element.
    fn parse(
        alloc: Global,
        words: &Words<'_>,
        from: usize,
        want: Want,
        levels: usize,
    ) -> Result<Read<Self>, Failure>
        requires { from ≤ length words.now }
        ensures { Parts levels words.now from (item_form (sequence want)) (λ x g. g (item x))
            result };
}

/// Returns whether a comma and one more element are at a place, if the list can take one more.
#[tactic(auto, using(crate::proofs::ListSteps::commas))]
fn adds_one(words: &Words<'_>, from: usize, room: bool) -> bool
    requires { from ≤ length words.now }
    ensures adds { MatchBool result (AddsOne words.now from room) (AddsNone words.now from room) }
    ensures few { length words.now ≤ most_words }
{
    let stands = next_is_sign(words, from, Sign::Comma);
    if room { stands } else { false }
}

/// Reads the elements that follow a first one, each after a comma, and returns all of them.
#[tactic(auto, using(crate::proofs::ListSteps::loops))]
pub fn more_elements<T: Element>(
    alloc: Global,
    words: &Words<'_>,
    from: usize,
    first: T,
    want: Want,
    levels: usize,
) -> Result<Read<Series<T>>, Failure>
    requires { from ≤ length words.now }
    ensures { PartsFrom levels words.now from (MoreOf (T.sequence want) (T.item first ∷ []))
        (λ x g. g (map T.item x)) result }
{
    let mut end = from;
    let mut items = Vec::new(alloc);
    items.push(first)?;
    'more: while adds_one(words, end, T::has_room(want, items.len())) {
        let Read {
            value: item,
            end: next,
        } = T::parse(alloc, words, end + 1, want, levels)?;
        items.push(item)?;
        end = next;
    }
    Ok(Read {
        value: Series::from_vec(items),
        end,
    })
}

/// Reads one or more elements, separated by commas.
#[tactic(auto)]
pub fn elements<T: Element>(
    alloc: Global,
    words: &Words<'_>,
    from: usize,
    want: Want,
    levels: usize,
) -> Result<Read<Series<T>>, Failure>
    requires { from ≤ length words.now }
    ensures { Parts levels words.now from (list_form (T.sequence want)) (λ x g. g (map T.item x))
        result }
{
    let Read {
        value: first,
        end: begun,
    } = T::parse(alloc, words, from, want, levels)?;
    let Read { value: items, end } = more_elements::<T>(alloc, words, begun, first, want, levels)?;
    Ok(Read { value: items, end })
}
