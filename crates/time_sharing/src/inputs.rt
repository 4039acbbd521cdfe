//! The input of a replay, cut after its deck.

ghost use Rattle.std.specs.Prelude.{◌≡◌, ◌≤◌, length, bytes_eq, codes};
ghost use Rattle.std.specs.Str.Lines.{strip_carriage_return};
ghost use Rattle.deck_model.specs.Lines.{whole_lines};
ghost use Rattle.time_sharing.specs.Inputs.{Divided};

use basic_values::cut;

/// The deck's part of an input, how many whole lines it has, and what comes after it.
#[derive(Clone, Copy)]
pub(crate) struct Cut<'a> {
    pub(crate) part: &'a [u8],
    pub(crate) lines: u32,
    pub(crate) text: &'a [u8],
}

/// Cuts an input after its first whole line that is `END`, or at its end if no line is.
pub(crate) fn divided(input: &[u8]) -> Cut<'_>
    requires { length input.now ≤ 268435456 }
    ensures divided { Divided input.now result.part.now result.text.now }
    ensures lines { result.lines ≡ length (whole_lines result.part.now) }
    ensures few { result.lines ≤ length input.now }
{
    let mut lines: u32 = 0;
    let mut rest = input;
    while let Some((line, behind)) = cut(b'\n', rest) {
        lines += 1;
        rest = behind;
        if is_end(line) {
            let part = &input[..input.len() - rest.len()];
            return Cut {
                part,
                lines,
                text: rest,
            };
        }
    }
    Cut {
        part: input,
        lines,
        text: &[],
    }
}

/// Returns whether a line is `END`.
fn is_end(line: &[u8]) -> bool
    ensures { result ≡ bytes_eq (strip_carriage_return line.now) (codes "END") }
{
    without_return(line) == b"END".as_slice()
}

/// Returns a line without one CR at its end.
fn without_return(line: &[u8]) -> &[u8]
    ensures { result.now ≡ strip_carriage_return line.now }
{
    match line {
        [front @ .., b'\r'] => front,
        _ => line,
    }
}
