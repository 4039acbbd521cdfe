//! A deck read from its bytes, line by line.

ghost use Rattle.std.specs.Prelude.{◌≡◌, ◌≤◌, length, IfOk};
ghost use Rattle.deck_model.specs.Spelling.{Spelled};
ghost use Rattle.deck_model.specs.Refusals.{Refused};
ghost use Rattle.deck_model.specs.Reading.{verdict};
ghost use Rattle.deck_reader.specs.Seen.{deck_of, IfRefused, Tells};

use crate::decks::Deck;
use crate::fronts::Front;
use crate::lines::next_line;
use basic_values::Trouble;
use deck_model::DeckFault;
use std::alloc::Global;

/// Returns the deck that the bytes spell. Other bytes are rejected at the first line, counted from
/// 1, that no deck can have after the lines before it, for the first cause that applies to it.
pub fn read_deck(alloc: Global, bytes: &[u8]) -> Result<Deck, Trouble<DeckFault>>
    requires { length bytes.now ≤ 268435456 }
    ensures found { IfOk result (λ deck. Spelled bytes.now (deck_of deck)) }
    ensures refused { IfRefused result (λ fault. Refused bytes.now fault.line fault.cause) }
{
    judged(alloc, bytes)
}

fn judged(alloc: Global, bytes: &[u8]) -> Result<Deck, Trouble<DeckFault>>
    requires { length bytes.now ≤ 268435456 }
    ensures { Tells result (verdict bytes.now) }
{
    let mut front = Front::Nothing;
    let mut number: u32 = 1;
    let mut rest = bytes;
    while let Some((line, after)) = next_line(rest) {
        front = match front.behind(alloc, line) {
            Ok(next) => next,
            Err(error) => return Err(error.at(number)),
        };
        number += 1;
        rest = after;
    }
    front.at_end(number, rest)
}
