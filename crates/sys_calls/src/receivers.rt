//! The names of receivers, as they are written in a string of SYS.

ghost use Rattle.std.specs.Prelude.{◌≡◌, ◌≤◌, ◌==◌, length, map};
ghost use Rattle.std.specs.Char.{to_ascii_uppercase};
ghost use Rattle.std.specs.List.{list_all, prefix_len};
ghost use Rattle.monitor_calls.specs.Names.{is_capital_or_digit};
ghost use Rattle.sys_calls.specs.CallFronts.{receiver_in, receiver_before};

use monitor_calls::Short;

/// Returns the name that six bytes spell: 1 to 6 letters, which become capitals, or digits, and
/// then spaces.
pub(crate) fn receiver_in(six: &[u8]) -> Option<Short>
    requires { length six.now ≡ 6 }
    ensures { result ≡ receiver_in six.now }
{
    receiver_before(&raised(six))
}

/// Returns the bytes with letters as capitals.
fn raised(six: &[u8]) -> [u8; 6]
    requires { length six.now ≡ 6 }
    ensures { result ≡ map to_ascii_uppercase six.now }
{
    let mut bytes = [0u8; 6];
    bytes.copy_from_slice(six);
    bytes.make_ascii_uppercase();
    bytes
}

/// Returns the name before the spaces.
fn receiver_before(raised: &[u8]) -> Option<Short>
    ensures { result ≡ receiver_before raised.now }
{
    let count = capitals_and_digits_in_front(raised);
    if !are_spaces(&raised[count..]) {
        return None;
    }
    Short::password(&raised[..count])
}

/// Returns how many capital letters and digits the string begins with.
fn capitals_and_digits_in_front(text: &[u8]) -> usize
    ensures count { result ≡ prefix_len is_capital_or_digit text.now }
    ensures within { result ≤ length text.now }
{
    text.iter()
        .take_while(|byte| byte.is_ascii_uppercase() || byte.is_ascii_digit())
        .count()
}

fn are_spaces(text: &[u8]) -> bool
    ensures { result ≡ list_all (λ byte. byte == 32) text.now }
{
    text.iter().all(|byte| *byte == b' ')
}
