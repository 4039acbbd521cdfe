//! Decodes a string of SYS: its codes are read one after another, and each function here reads what
//! follows its code.

ghost use Rattle.std.specs.Prelude.{◌≡◌, ◌≤◌, Some, Err, length, IfOk};
ghost use Rattle.basic_values.specs.declared.errors.TheConstants.{ILLEGAL_SYS};
ghost use Rattle.basic_values.specs.declared.failures.Trouble.TheVariants.{Refused};
ghost use Rattle.basic_values.specs.declared.limits.TheConstants.{LONGEST_MESSAGE};
ghost use Rattle.sys_calls.specs.Table.{DecodesText};
ghost use Rattle.sys_calls.specs.CallFronts.{ReadsCall, only_call, common_in, error_in, declare_in};
ghost use Rattle.sys_calls.specs.CallFronts.{sent_to, send_in, message_call_in, monitor_call_in};
ghost use Rattle.sys_calls.specs.CallFronts.{call_in};

use crate::calls::{MOST_COMMON, SysCall};
use crate::receivers::receiver_in;
use basic_values::errors::ILLEGAL_SYS;
use basic_values::limits::{LONGEST_MESSAGE, MOST_LETTERS};
use basic_values::{Fault, NoMemory, Text, Trouble};
use monitor_calls::{Request, Short};
use std::alloc::Global;

/// Bytes of a receiver's name.
const NAME_BYTES: usize = 6;

/// Returns the call of the string. A string that fits no entry of the table is error 18, the
/// manual's "Illegal SYS() usage".
pub fn decode(alloc: Global, text: &[u8]) -> Result<SysCall, Trouble<Fault>>
    ensures says { DecodesText text.now result }

    // The same as an equation, for a definition that continues with the call.
    ensures found { ReadsCall (call_in text.now) result }
{
    call_in(alloc, text)
}

/// Returns the call of a string, by its first code.
#[tactic(auto, unfolding(crate::specs::CallFronts::call_of))]
fn call_in(alloc: Global, text: &[u8]) -> Result<SysCall, Trouble<Fault>>
    ensures { ReadsCall (call_in text.now) result }
{
    if text.is_empty() {
        return illegal();
    }
    let rest = &text[1..];
    match text[0] {
        6 => monitor_call_in(alloc, rest),
        7 => only_call(SysCall::ReadCommon, rest),
        8 => common_in(alloc, rest),
        _ => illegal(),
    }
}

/// Returns error 18: the string fits no entry.
fn illegal() -> Result<SysCall, Trouble<Fault>>
    ensures { result ≡ Err (Refused ILLEGAL_SYS) }
{
    Err(Trouble::Refused(Fault::new(ILLEGAL_SYS)))
}

/// Returns the call, if nothing follows its codes.
fn only_call(call: SysCall, rest: &[u8]) -> Result<SysCall, Trouble<Fault>>
    ensures { ReadsCall (only_call call rest.now) result }
{
    if rest.is_empty() { Ok(call) } else { illegal() }
}

/// Returns the call that sets core common.
fn common_in(alloc: Global, rest: &[u8]) -> Result<SysCall, Trouble<Fault>>
    ensures { ReadsCall (common_in rest.now) result }
{
    if rest.len() > MOST_COMMON {
        return illegal();
    }
    Ok(SysCall::WriteCommon(copy_of(alloc, rest)?))
}

/// Returns a copy of bytes, at most as many as a message has.
fn copy_of(alloc: Global, bytes: &[u8]) -> Result<Text, NoMemory>
    requires { length bytes.now ≤ LONGEST_MESSAGE }
    ensures { IfOk result (λ text. text ≡ bytes.now) }
{
    match Text::of(alloc, bytes) {
        Ok(text) => Ok(text),
        Err(_) => Err(NoMemory),
    }
}

/// Returns the call after code 6, a call of the monitor or of error texts.
#[tactic(auto, unfolding(crate::specs::CallFronts::monitor_call_of))]
fn monitor_call_in(alloc: Global, text: &[u8]) -> Result<SysCall, Trouble<Fault>>
    ensures { ReadsCall (monitor_call_in text.now) result }
{
    if text.is_empty() {
        return illegal();
    }
    let rest = &text[1..];
    match text[0] {
        9 => error_in(rest),
        22 => message_call_in(alloc, rest),
        128 => only_call(SysCall::Ask(Request::Status), rest),
        _ => illegal(),
    }
}

/// Returns the call for the text of an error.
fn error_in(rest: &[u8]) -> Result<SysCall, Trouble<Fault>>
    ensures { ReadsCall (error_in rest.now) result }
{
    if rest.len() == 1 {
        Ok(SysCall::ErrorText(rest[0]))
    } else {
        illegal()
    }
}

/// Returns the call after codes 6 and 22, a call of messages.
#[tactic(auto, unfolding(crate::specs::CallFronts::message_call_of))]
fn message_call_in(alloc: Global, text: &[u8]) -> Result<SysCall, Trouble<Fault>>
    ensures { ReadsCall (message_call_in text.now) result }
{
    if text.is_empty() {
        return illegal();
    }
    let rest = &text[1..];
    match text[0] {
        0 => only_call(SysCall::Ask(Request::Remove), rest),
        1 => declare_in(rest),
        2 => only_call(SysCall::Ask(Request::Receive), rest),
        255 => send_in(alloc, rest),
        _ => illegal(),
    }
}

/// Returns the call that declares a receiver with this name, for this many messages.
fn declare_in(rest: &[u8]) -> Result<SysCall, Trouble<Fault>>
    ensures { ReadsCall (declare_in rest.now) result }
{
    if rest.len() != NAME_BYTES + 1 {
        return illegal();
    }
    let most = rest[NAME_BYTES];
    match receiver_in(&rest[..NAME_BYTES]) {
        Some(name) if 1 <= most && most <= MOST_LETTERS => {
            Ok(SysCall::Ask(Request::Declare { name, most }))
        }
        _ => illegal(),
    }
}

/// Returns the call that sends a message to the receiver with this name.
fn send_in(alloc: Global, rest: &[u8]) -> Result<SysCall, Trouble<Fault>>
    ensures { ReadsCall (send_in rest.now) result }
{
    if rest.len() < NAME_BYTES || rest.len() > NAME_BYTES + LONGEST_MESSAGE {
        return illegal();
    }
    match receiver_in(&rest[..NAME_BYTES]) {
        Some(name) => sent_to(alloc, name, &rest[NAME_BYTES..]),
        None => illegal(),
    }
}

/// Returns the call that sends this message to a receiver.
fn sent_to(alloc: Global, name: Short, message: &[u8]) -> Result<SysCall, Trouble<Fault>>
    requires { length message.now ≤ LONGEST_MESSAGE }
    ensures { ReadsCall (sent_to (Some name) message.now) result }
{
    let text = copy_of(alloc, message)?;
    Ok(SysCall::Ask(Request::Send { name, text }))
}
