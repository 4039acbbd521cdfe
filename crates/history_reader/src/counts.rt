//! The count of a history's entries, which may be more than any machine counts, or a star.

ghost use Rattle.std.specs.Prelude.{◌≡◌, ◌||◌};
ghost use Rattle.std.specs.List.{list_all};
ghost use Rattle.std.specs.Char.{is_ascii_digit};
ghost use Rattle.history_reader.specs.Counts.{is_count, is_star};

/// Returns whether the text may be the count of a first line: a star or a number.
pub(crate) fn is_allowed(text: &[u8]) -> bool
    ensures { result ≡ (is_star text.now || is_count text.now) }
{
    is_star(text) || is_count(text)
}

/// Returns whether the text is that of a number of any size: digits without a leading zero.
fn is_count(text: &[u8]) -> bool
    ensures { result ≡ is_count text.now }
{
    match text {
        [] => false,
        [first, others @ ..] => is_digits(text) && (*first != b'0' || others.is_empty()),
    }
}

/// Returns whether the text is the star of a journal.
pub(crate) fn is_star(text: &[u8]) -> bool
    ensures { result ≡ is_star text.now }
{
    text == b"*".as_slice()
}

fn is_digits(text: &[u8]) -> bool
    ensures { result ≡ list_all is_ascii_digit text.now }
{
    text.iter().all(|byte| byte.is_ascii_digit())
}
