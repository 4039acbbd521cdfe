//! Encodes the monitor's replies as the strings that SYS returns.

ghost use Rattle.std.specs.Prelude.{◌≡◌, ◌≤◌, ◌<◌, ◌+◌, [], ◌∷◌, ◌++◌, length, IfOk};
ghost use Rattle.basic_values.specs.declared.limits.TheConstants.{LONGEST_MESSAGE, MOST_JOBS};
ghost use Rattle.sys_calls.specs.Table.{GivesText, IsToldBySys, told_by_sys};

use basic_values::{NoMemory, Text, concat};
use monitor_calls::{Account, Reply};
use std::alloc::Global;

/// Returns the string for a reply: empty for Done; a message after the job and the account that
/// sent it; the number of a job's calls after the job and its account. Jobs count from 1.
pub fn encode(alloc: Global, reply: &Reply) -> Result<Text, NoMemory>
    requires { IsToldBySys reply.now }
    ensures gives { IfOk result (λ text. GivesText reply.now text) }

    // The same as an equation, for a definition that continues with the string.
    ensures told { IfOk result (λ text. text ≡ told_by_sys reply.now) }
{
    match reply {
        Reply::Message { job, account, text } => {
            joined(alloc, &whose(*job, account), text.as_bytes())
        }
        Reply::State {
            job,
            account,
            calls,
        } => joined(alloc, &whose(*job, account), &calls.to_be_bytes()),
        _ => Ok(Text::empty(alloc)),
    }
}

/// Returns a job, counted from 1, and its account.
fn whose(job: u32, account: &Account) -> [u8; 3]
    requires { job < MOST_JOBS }
    ensures { result ≡ (job + 1) ∷ account.now.project ∷ account.now.programmer ∷ [] }
{
    [job as u8 + 1, account.project, account.programmer]
}

/// Returns a short string, joined from two parts.
fn joined(alloc: Global, front: &[u8], behind: &[u8]) -> Result<Text, NoMemory>
    requires front { length front.now ≡ 3 }
    requires behind { length behind.now ≤ LONGEST_MESSAGE }
    ensures { IfOk result (λ text. text ≡ front.now ++ behind.now) }
{
    match concat(alloc, front, behind) {
        Ok(text) => Ok(text),
        Err(_) => Err(NoMemory),
    }
}
