//! The channel of INPUT, or its prompt.

ghost use Rattle.std.specs.Prelude.{◌≤◌, length, option_map};
ghost use Rattle.statement_parts.specs.ParsedForms.{PartsFrom};
ghost use Rattle.statement_rows.specs.declared.piece.Piece.TheVariants as piece;
ghost use Rattle.statement_rows.specs.Slots.{part_of};
ghost use Rattle.statement_rows.specs.Pieces.{PieceRead, prompted_form};

use crate::part::{Part, Source};
use basic_expr::{Failure, Words};
use basic_tree::{Prompt, Separator, Sign, Want};
use basic_values::Text;
use statement_parts::{Read, expression, if_quoted, if_sign, take_sign};
use std::alloc::Global;

/// Reads the separator after a prompt.
#[tactic(auto)]
fn prompted(
    words: &Words<'_>,
    from: usize,
    text: Text,
    levels: usize,
) -> Result<Read<Option<Part>>, Failure>
    requires { from ≤ length words.now }
    ensures { PartsFrom levels words.now from (prompted_form text)
        (λ x g. g (option_map part_of x)) result }
{
    if if_sign(words, from, Sign::Semicolon) {
        let prompt = Some(Prompt {
            text,
            separator: Separator::Semicolon,
        });
        return Ok(Read {
            value: Some(Part::Source(Source {
                channel: None,
                prompt,
            })),
            end: from + 1,
        });
    }
    let end = take_sign(words, from, Sign::Comma)?;
    let prompt = Some(Prompt {
        text,
        separator: Separator::Comma,
    });
    Ok(Read {
        value: Some(Part::Source(Source {
            channel: None,
            prompt,
        })),
        end,
    })
}

/// Reads `#`, a channel and a comma, or a prompt, or nothing.
#[tactic(auto)]
pub fn source(
    alloc: Global,
    words: &Words<'_>,
    from: usize,
    levels: usize,
) -> Result<Read<Option<Part>>, Failure>
    requires { from ≤ length words.now }
    ensures { PieceRead levels words.now from piece.Source result }
{
    if if_sign(words, from, Sign::Hash) {
        return match expression(alloc, words, from + 1, Want::Number, levels) {
            Ok(channel) => match take_sign(words, channel.end, Sign::Comma) {
                Ok(end) => Ok(Read {
                    value: Some(Part::Source(Source {
                        channel: Some(channel.value),
                        prompt: None,
                    })),
                    end,
                }),
                Err(failure) => Err(failure),
            },
            Err(failure) => Err(failure),
        };
    }
    match if_quoted(alloc, words, from)? {
        Some(text) => prompted(words, from + 1, text, levels),
        None => Ok(Read {
            value: Some(Part::Source(Source {
                channel: None,
                prompt: None,
            })),
            end: from,
        }),
    }
}
