//! Splitting a string at a byte, or after a prefix. `specs/Cuts` defines each split, and
//! `proofs/CutLaws` proves that what was concatenated is found again.

ghost use Rattle.std.specs.Prelude.{◌≡◌, ◌<◌, ◌==◌, length, position, IfSome};
ghost use Rattle.basic_values.specs.Cuts.{behind, cut, Finds};

/// Returns what follows the prefix, if the string begins with it.
pub fn behind<'a>(prefix: &[u8], text: &'a [u8]) -> Option<&'a [u8]>
    ensures { Finds (λ x. x.now) result (behind prefix.now text.now) }
{
    text.strip_prefix(prefix)
}

/// Returns what is before the first such byte and what is after it, if there is one.
pub fn cut(byte: u8, text: &[u8]) -> Option<(&[u8], &[u8])>
    ensures parts { Finds (λ x. (x.0.now, x.1.now)) result (cut byte text.now) }
    ensures shorter { IfSome result (λ x. length x.1.now < length text.now) }
{
    let at = place_of(byte, text)?;
    Some((&text[..at], &text[at + 1..]))
}

/// Returns the place of the first such byte, if there is one.
fn place_of(byte: u8, text: &[u8]) -> Option<usize>
    ensures place { result ≡ position (λ b. b == byte) text.now }
    ensures within { IfSome result (λ at. at < length text.now) }
{
    text.iter().position(|b| *b == byte)
}
