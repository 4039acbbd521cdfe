//! SYS: what a string asks for, and the string that it returns.

ghost use Rattle.std.specs.Prelude.{◌≡◌, Some, IfSome, IsTrue, if◌then◌else◌};
ghost use Rattle.basic_values.specs.declared.failures.Stop.TheVariants as stop;
ghost use Rattle.job_model.specs.Asking.{answer_to, is_answer, counts_as, is_error};
ghost use Rattle.job_model.specs.Follow.{Follows, answered_by};
ghost use Rattle.job_model.specs.Play as play;
ghost use Rattle.job_model.specs.Replies.{asks_for};
ghost use Rattle.monitor_calls.specs.declared.calls.Request.{Request as Asked};
ghost use Rattle.program_model.specs.SysActs.{text_by, sys_does, sys_act};
ghost use Rattle.sys_calls.specs.declared.calls.SysCall.TheVariants as told;
ghost use Rattle.sys_calls.specs.Table.{IsToldBySys};
ghost use Rattle.job_storage.specs.SysAnswers.{IsAskedBySys, kind_answered};

use crate::storage::Storage;
use crate::values::copied;
use basic_values::limits::{LONGEST_MESSAGE, MOST_CALLS, MOST_JOBS};
use basic_values::{Fault, Stop, Text, Trouble};
use job_model::is_error;
use monitor_calls::{Port, Reply, Request};
use std::alloc::Global;
use sys_calls::{SysCall, decode, encode};

/// What answers a request of SYS, if it is not refused.
#[derive(Clone, Copy)]
pub(crate) enum SysAnswer {
    Done,
    Message,
    State,
}

impl Storage {
    /// Does what the string of SYS asks for, and returns a string. Error 18 of a string that asks
    /// for nothing, and those of the monitor.
    pub fn sys<P: Port>(&mut self, alloc: Global, port: &mut P, text: &[u8]) -> Result<Text, Stop>
        ensures { (clock : play.Clock) → Follows P.who P.log port.old port.new clock clock
            (sys_act text.now self.old) (answered_by result self.new) }
    {
        match decode(alloc, text) {
            Ok(call) => self.sys_call(alloc, port, call),
            Err(Trouble::Refused(fault)) => Err(Stop::Fault(fault)),
            Err(Trouble::NoMemory) => Err(Stop::NoMemory),
        }
    }

    fn sys_call<P: Port>(
        &mut self,
        alloc: Global,
        port: &mut P,
        call: SysCall,
    ) -> Result<Text, Stop>
        requires { (request : Asked) → call ≡ told.Ask request → IsAskedBySys request }
        ensures { (clock : play.Clock) → Follows P.who P.log port.old port.new clock clock
            (sys_does (Some call) self.old) (answered_by result self.new) }
    {
        match call {
            SysCall::ReadCommon => Ok(copied(alloc, self.common.as_bytes())?),
            SysCall::WriteCommon(common) => {
                self.common = common;
                Ok(Text::empty(alloc))
            }
            SysCall::ErrorText(number) => Ok(copied(alloc, Fault::new(number).text())?),
            SysCall::Ask(request) => ask_text(alloc, port, request),
        }
    }
}

/// Makes a request, and returns its answer as a string.
fn ask_text<P: Port>(alloc: Global, port: &mut P, request: Request) -> Result<Text, Stop>
    requires { IsAskedBySys request }
    ensures { (clock : play.Clock) → Follows P.who P.log port.old port.new clock clock
        (asks_for text_by request) (answered_by result tt) }
{
    let answer = answer_to(&request);
    let reply = port.ask(alloc, request)?;
    text_by(alloc, answer, &reply)
}

/// Returns what answers a request of SYS.
fn answer_to(request: &Request) -> SysAnswer
    requires { IsAskedBySys request.now }
    ensures { answer_to request.now ≡ kind_answered result }
{
    match request {
        Request::Receive => SysAnswer::Message,
        Request::Status => SysAnswer::State,
        _ => SysAnswer::Done,
    }
}

/// Returns the string of a reply. A refusal ends the statement, and a reply that does not fit the
/// request ends the job.
fn text_by(alloc: Global, answer: SysAnswer, reply: &Reply) -> Result<Text, Stop>
    ensures { (request : Asked) → IsAskedBySys request → answer_to request ≡ kind_answered answer
        → IfSome (answered_by result tt) (λ left. text_by (counts_as request reply.now) ≡ left) }
{
    if let Reply::Failed(fault) = reply {
        return Err(refused_by(*fault));
    }
    if is_told(answer, reply) {
        Ok(encode(alloc, reply)?)
    } else {
        Err(Stop::Expired)
    }
}

/// Returns what a refusal leads to. A number that no error has ends the job.
fn refused_by(fault: Fault) -> Stop
    ensures { result ≡ if is_error fault then stop.Fault fault else stop.Expired }
{
    if is_error(fault) {
        Stop::Fault(fault)
    } else {
        Stop::Expired
    }
}

/// Returns whether a reply is the answer.
fn is_told(answer: SysAnswer, reply: &Reply) -> bool
    ensures is { result ≡ is_answer (kind_answered answer) reply.now }
    ensures told { IsTrue result → IsToldBySys reply.now }
{
    match (answer, reply) {
        (SysAnswer::Done, Reply::Done) => true,
        (SysAnswer::Message, Reply::Message { job, text, .. }) => {
            (*job as usize) < MOST_JOBS && text.as_bytes().len() <= LONGEST_MESSAGE
        }
        (SysAnswer::State, Reply::State { job, calls, .. }) => {
            (*job as usize) < MOST_JOBS && *calls <= MOST_CALLS
        }
        _ => false,
    }
}
