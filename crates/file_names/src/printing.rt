//! What is printed for a name.

ghost use Rattle.std.specs.Prelude.{◌≡◌};
ghost use Rattle.monitor_calls.specs.NameTexts.{name_text};

use arrayvec::ArrayVec;
use itoa::Buffer;
use monitor_calls::FileName;

/// Returns at most 22 bytes: the owner in brackets, the stem, and a point and the extension if
/// there is one.
pub fn print(name: &FileName) -> ArrayVec<u8, 22>
    ensures { result.items ≡ name_text name.now }
{
    let mut bytes = ArrayVec::new();
    let mut buffer = Buffer::new();
    bytes.push(b'[');
    let project = buffer.format(name.owner.project).as_bytes();
    bytes.try_extend_from_slice(project).unwrap();
    bytes.push(b',');
    let programmer = buffer.format(name.owner.programmer).as_bytes();
    bytes.try_extend_from_slice(programmer).unwrap();
    bytes.push(b']');
    bytes.try_extend_from_slice(name.stem.as_bytes()).unwrap();
    if !name.extension.as_bytes().is_empty() {
        bytes.push(b'.');
        bytes
            .try_extend_from_slice(name.extension.as_bytes())
            .unwrap();
    }
    bytes
}
