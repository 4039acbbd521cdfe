//! Specifications of files.

ghost use Rattle.std.specs.Prelude.{◌≡◌, if◌then◌else◌, Some, None, take, IfOk, IfErr};
ghost use Rattle.basic_values.specs.Cuts.{Finds};
ghost use Rattle.file_names.specs.Names.{IsSpecOf, squeezed, is_extension, has_device};
ghost use Rattle.file_names.specs.Names.{names_device, refusal_of};
ghost use Rattle.file_names.specs.SpecFronts.{without_device, bracketed_in, owner_in, closed_code};
ghost use Rattle.file_names.specs.SpecFronts.{code_in, stem_in, extension_in, spec_in, spec_said};
ghost use Rattle.file_names.specs.declared.spec.Spec.{Spec as TheSpec};

use arrayvec::ArrayVec;
use basic_values::errors::{ILLEGAL_FILE_NAME, NO_DEVICE};
use basic_values::limits::MOST_CODE;
use basic_values::{Fault, behind, cut, is_blank, number_between};
use monitor_calls::{Account, FileName, Short};

/// What a specification names: a file, and a protection code if it has one.
#[derive(Clone, Copy)]
pub struct Spec {
    pub name: FileName,
    pub code: Option<u8>,
}

/// The account that a dollar sign means.
const LIBRARY: Account = Account {
    project: 1,
    programmer: 2,
};

/// More bytes than a specification can have.
const FRONT: usize = 32;

/// Reads the text as the manual's file specification. The stem of 1 to 6 letters and digits is
/// required. Optional are `SY:`, an owner in brackets or `$`, a point and an extension of 0 to 3
/// letters and digits, and a protection code from 0 to 63 in angle brackets. Blanks are dropped,
/// and letters become capitals. Error 8: the text names another device. Error 2: any other text
/// that is no specification.
pub fn parse_spec(text: &[u8], own: Account, extension: &Short) -> Result<Spec, Fault>
    ensures said { result ≡ spec_said own extension.now text.now }
    ensures read { IfOk result (λ spec. IsSpecOf own extension.now text.now spec) }
    ensures refused { IfErr result (λ fault. (fault ≡ refusal_of text.now)
        × ((spec : TheSpec) → IsSpecOf own extension.now text.now spec → ⊥)) }
{
    let front = front_of(text);
    match spec_in(own, extension, front.as_slice()) {
        Some(spec) => Ok(spec),
        None => Err(refusal_of(text, front.as_slice())),
    }
}

/// Returns the first bytes of the text, without blanks and with letters as capitals.
fn front_of(text: &[u8]) -> ArrayVec<u8, FRONT>
    ensures { result.items ≡ take FRONT (squeezed text.now) }
{
    let mut bytes = ArrayVec::new();
    for byte in text {
        if !is_blank(*byte) && bytes.len() < FRONT {
            bytes.push(byte.to_ascii_uppercase());
        }
    }
    bytes
}

/// Returns the error of a text that is no specification.
fn refusal_of(text: &[u8], front: &[u8]) -> Fault
    requires { front.now ≡ take FRONT (squeezed text.now) }
    ensures { result ≡ refusal_of text.now }
{
    if names_device(text, front) {
        Fault::new(NO_DEVICE)
    } else {
        Fault::new(ILLEGAL_FILE_NAME)
    }
}

/// Returns whether it begins with the name of another device.
fn names_device(text: &[u8], front: &[u8]) -> bool
    requires { front.now ≡ take FRONT (squeezed text.now) }
    ensures { result ≡ names_device text.now }
{
    has_device(text) && behind(b"SY:", front).is_none()
}

/// Returns whether the text begins with letters or digits and a colon.
fn has_device(text: &[u8]) -> bool
    ensures { result ≡ has_device text.now }
{
    let mut has_letters = false;
    for byte in text {
        if byte.is_ascii_alphanumeric() {
            has_letters = true;
        } else if !is_blank(*byte) {
            return has_letters && *byte == b':';
        }
    }
    false
}

/// Returns the specification that such a prefix is, if it is one.
#[tactic(auto, unfolding(crate::specs::SpecFronts::spec_in))]
fn spec_in(own: Account, extension: &Short, text: &[u8]) -> Option<Spec>
    ensures { result ≡ spec_in own extension.now text.now }
{
    let rest = without_device(text);
    let (owner, rest) = owner_in(own, rest)?;
    let (front, code) = code_in(rest)?;
    let extension = extension_in(extension, front)?;
    let stem = Short::password(stem_in(front))?;
    let name = FileName {
        owner,
        stem,
        extension,
    };
    Some(Spec { name, code })
}

/// Returns the text after the system's own device, if that is named.
fn without_device(text: &[u8]) -> &[u8]
    ensures { result.now ≡ without_device text.now }
{
    behind(b"SY:", text).unwrap_or(text)
}

/// Returns the owner, and what follows it.
fn owner_in(own: Account, text: &[u8]) -> Option<(Account, &[u8])>
    ensures { Finds (λ x. (x.0, x.1.now)) result (owner_in own text.now) }
{
    if let Some(rest) = behind(b"$", text) {
        return Some((LIBRARY, rest));
    }
    match behind(b"[", text) {
        Some(inside) => bracketed_in(inside),
        None => Some((own, text)),
    }
}

/// Returns the account in brackets, whose first bracket was read, and what follows them.
#[tactic(auto, unfolding(crate::specs::SpecFronts::bracketed_in))]
fn bracketed_in(text: &[u8]) -> Option<(Account, &[u8])>
    ensures { Finds (λ x. (x.0, x.1.now)) result (bracketed_in text.now) }
{
    let (numbers, rest) = cut(b']', text)?;
    let (project, programmer) = cut(b',', numbers)?;
    let account = Account {
        project: number_between(1, 254, project)? as u8,
        programmer: number_between(0, 254, programmer)? as u8,
    };
    Some((account, rest))
}

/// Returns what is before the code, and the code, if there is one.
fn code_in(text: &[u8]) -> Option<(&[u8], Option<u8>)>
    ensures { Finds (λ x. (x.0.now, x.1)) result (code_in text.now) }
{
    match cut(b'<', text) {
        Some((front, code)) => Some((front, Some(closed_code(code)?))),
        None => Some((text, None)),
    }
}

/// Returns the code in brackets, whose first bracket was read, if nothing follows them.
#[tactic(auto, unfolding(crate::specs::SpecFronts::closed_code))]
fn closed_code(text: &[u8]) -> Option<u8>
    ensures { result ≡ closed_code text.now }
{
    let (digits, rest) = cut(b'>', text)?;
    let code = number_between(0, u32::from(MOST_CODE), digits)? as u8;
    if rest.is_empty() { Some(code) } else { None }
}

/// Returns the stem, which is before the point.
fn stem_in(text: &[u8]) -> &[u8]
    ensures { result.now ≡ stem_in text.now }
{
    match cut(b'.', text) {
        Some((stem, _)) => stem,
        None => text,
    }
}

/// Returns the extension after the point, or the default if there is no point.
fn extension_in(default: &Short, text: &[u8]) -> Option<Short>
    ensures { Finds (λ x. x) result (extension_in default.now text.now) }
{
    match cut(b'.', text) {
        Some((_, extension)) => short_extension(extension),
        None => Some(*default),
    }
}

/// Returns the text, if it is 0 to 3 capital letters and digits.
fn short_extension(text: &[u8]) -> Option<Short>
    ensures { Finds (λ x. x) result (if is_extension text.now then Some text.now else None) }
{
    if text.is_empty() {
        return Short::of(text);
    }
    if text.len() > 3 {
        None
    } else {
        Short::password(text)
    }
}
