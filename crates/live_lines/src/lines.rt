//! What a line says.

ghost use Rattle.std.specs.Prelude.{◌≡◌, Some, None};
ghost use Rattle.basic_values.specs.Cuts.{Finds};
ghost use Rattle.live_lines.specs.LiveLines.{place_of, typed_in, hung_in, live_line, line_seen};

use basic_values::{LINE_LENGTH, cut};
use monitor_calls::TerminalName;

/// Returns the place of the terminal that a line is about, and the line that is typed at it, or
/// none if it is hung up.
#[tactic(auto, unfolding(crate::specs::LiveLines::live_line))]
pub fn live_line<'a>(names: &[TerminalName], text: &'a [u8]) -> Option<(usize, Option<&'a [u8]>)>
    ensures { Finds line_seen result (live_line names.now text.now) }
{
    if let Some((place, keys)) = typed(names, text) {
        return Some((place, Some(keys)));
    }
    let place = hung_up(names, text)?;
    Some((place, None))
}

/// Returns the place of the terminal at which a line types, and what it types.
#[tactic(auto, unfolding(crate::specs::LiveLines::typed_in))]
fn typed<'a>(names: &[TerminalName], text: &'a [u8]) -> Option<(usize, &'a [u8])>
    ensures { Finds (λ line. (line.0, Some line.1.now)) result (typed_in names.now text.now) }
{
    let (name, keys) = cut(b'>', text)?;
    let place = place_of(names, name)?;
    if keys.len() <= LINE_LENGTH {
        Some((place, keys))
    } else {
        None
    }
}

/// Returns the place of the terminal that a line hangs up.
#[tactic(auto, unfolding(crate::specs::LiveLines::hung_in))]
fn hung_up(names: &[TerminalName], text: &[u8]) -> Option<usize>
    ensures { Finds (λ place. (place, None)) result (hung_in names.now text.now) }
{
    let (name, rest) = cut(b'.', text)?;
    let place = place_of(names, name)?;
    if rest == b"".as_slice() {
        Some(place)
    } else {
        None
    }
}

/// Returns the place of the terminal with this name.
fn place_of(names: &[TerminalName], name: &[u8]) -> Option<usize>
    ensures { result ≡ place_of names.now name.now }
{
    names.iter().position(|other| other.as_bytes() == name)
}
