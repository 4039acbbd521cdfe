//! The session of one terminal: its key lines, its requests, and its screen.
//!
//! It uses what a key line asks for (`commands`), the runs of programs (`programs`), and a port to
//! a monitor. Each method implements one tree of `session_model`'s `Talk`. The contract of a method
//! that runs no program is about the session with the places of the code. That of a method that
//! runs one is about the session that the code's represents. `serve` has the promise of all of it:
//! its requests and its screen are those of the session's behaviour.

ghost use Rattle.std.specs.Prelude.{◌≡◌, ◌≤◌, ℕ, List, length, IfOk, OnOk, OnErr};
ghost use Rattle.monitor_calls.specs.declared.events.Event.{Event};
ghost use Rattle.monitor_calls.specs.Pairs.{Grew};
ghost use Rattle.monitor_calls.specs.declared.calls.Request.TheVariants as request;
ghost use Rattle.basic_eval.specs.Acting as acting;
ghost use Rattle.grammar_machine.specs.MachineJudge.{judge_of};
ghost use Rattle.job_model.specs.Asking.{counts_as};
ghost use Rattle.job_model.specs.Play as play;
ghost use Rattle.job_model.specs.Follow.{Follows, unless_memory};
ghost use Rattle.program_model.specs.Program.{Position};
ghost use Rattle.program_model.specs.Reports.{Failure};
ghost use Rattle.session_model.specs.Talk as talk;
ghost use Rattle.session_model.specs.Talk.{acts_for, answered, entered, expired, hello, is_ready};
ghost use Rattle.session_model.specs.Talk.{log_out, new_job, rests, visitor_acts, user_acts};
ghost use Rattle.session_model.specs.Talk.{line_acts, leave, reports, turn, IsTalkOf, BeginsTalkOf};
ghost use Rattle.command_level.specs.Seen.{seen, login_seen, command_seen, IsShort};
ghost use Rattle.command_level.specs.Standing.{Serves, Stands};
ghost use Rattle.command_level.specs.AfterLines.{goes};
ghost use Rattle.std.specs.Option.{option_map};

use crate::commands::{Command, command_of};
use crate::logins::LoginForm;
use basic_interpreter::{Clock, Exit, Running, Stack, Stop, Storage, write_failure, write_used_up};
use basic_values::{KeyLine, LINE_LENGTH, NoMemory, Text, Trouble};
use error_trap::Trap;
use job_model::is_error;
use line_editor::ProgramText;
use monitor_calls::{Account, Port, Reply, Request, Short};
use program_model::{Destination, Home};
use record_fields::Buffers;
use std::alloc::Global;
use terminal_line::Screen;

/// The answer to a command with a wrong tail.
pub(crate) const ILLEGAL_COMMAND: &[u8] = b"?Illegal command\r\n";

/// The account of a job before a login.
const NO_ACCOUNT: Account = Account {
    project: 0,
    programmer: 0,
};

/// Whether the session continues after a line.
#[derive(Clone, Copy)]
pub(crate) enum AfterLine {
    Next,
    /// It has ended by BYE.
    Ended,
    /// The job's calls are used up.
    Expired,
}

/// The state from line to line: the account that the session acts for, if it is logged in, the
/// program in memory, the state of its programs, and the screen.
#[derive(Drop)]
pub(crate) struct Session {
    pub(crate) account: Option<Account>,
    /// The name that was given to the program in memory.
    pub(crate) name: Option<Short>,
    pub(crate) text: ProgramText,
    pub(crate) running: Running,
    /// The place at which CONT continues.
    pub(crate) stop: Option<Stop>,
}

/// Runs the session of a terminal and returns what it shows at its end. Key lines and replies come
/// through the port. After 2^64 - 1 key lines the session stops as if memory had run out.
pub fn serve<P: Port>(alloc: Global, port: &mut P) -> Result<Screen, NoMemory>
    // The requests and the screen are those of the session's behaviour, whose lines the grammar
    // judges.
    ensures talk { IfOk result (λ screen. (events : List Event)
        × Grew P.who P.log port.old port.new events
        × IsTalkOf events screen) }
    // The requests are the first ones of that behaviour.
    ensures memory { OnErr result ((events : List Event)
        × Grew P.who P.log port.old port.new events
        × BeginsTalkOf events) }
{
    let mut session = begin(alloc)?;
    let mut clock = Clock::new();
    for _ in 0..u64::MAX {
        match session.turn(alloc, &mut clock, port)? {
            AfterLine::Next => {}
            AfterLine::Ended => return Ok(session.into_screen()),
            AfterLine::Expired => {
                session.expire()?;
                return Ok(session.into_screen());
            }
        }
    }
    Err(NoMemory)
}

/// Returns a session without a login.
fn begin(alloc: Global) -> Result<Session, NoMemory>
    ensures { IfOk result (λ session. seen session ≡ talk.opening) }
{
    let running = at_rest(alloc)?;
    Ok(Session {
        account: None,
        name: None,
        text: ProgramText::new(alloc),
        running,
        stop: None,
    })
}

/// Returns a job that has run nothing.
fn at_rest(alloc: Global) -> Result<Running, NoMemory>
    ensures { IfOk result (λ running. acting.seen running ≡ new_job) }
{
    let buffers = Buffers::new(alloc)?;
    Ok(Running {
        alloc,
        storage: Storage::new(alloc, NO_ACCOUNT, buffers),
        screen: Screen::new(alloc),
        trap: Trap::new(),
        returns: Stack::new(alloc),
        limits: Vec::new(alloc),
        item: 0,
        line: 0,
        home: Home {
            start: 0,
            behind: 0,
            line: 0,
        },
        frames: Stack::new(alloc),
        destination: Destination {
            name: Text::empty(alloc),
            line: None,
        },
        exit: Trouble::Refused(Exit::Ended),
    })
}

impl Session {
    /// Shows the screen, waits for the next key line, and does what it asks for. At the end of the
    /// keys it leaves the session.
    fn turn<P: Port>(
        &mut self,
        alloc: Global,
        clock: &mut Clock,
        port: &mut P,
    ) -> Result<AfterLine, NoMemory>
        ensures { (s : talk.Session Position) → Stands self.old s
            → Serves P.who P.log port.old port.new clock.old clock.new
            (λ most. turn judge_of most s) self.new result }
    {
        port.show(self.running.screen.bytes());
        match port.type_line(alloc)? {
            Some(line) => self.take_line(alloc, &line, clock, port),
            None => {
                self.leave(alloc, port)?;
                Ok(AfterLine::Ended)
            }
        }
    }

    /// Takes one key line: writes its echo, and does what it asks for.
    fn take_line<P: Port>(
        &mut self,
        alloc: Global,
        line: &KeyLine,
        clock: &mut Clock,
        port: &mut P,
    ) -> Result<AfterLine, NoMemory>
        ensures { (s : talk.Session Position) → Stands self.old s
            → Serves P.who P.log port.old port.new clock.old clock.new
            (λ most. line_acts judge_of most line.now s) self.new result }
    {
        let bytes = line.as_bytes();
        self.running.screen.echo(bytes)?;
        let command = command_of(bytes);
        match self.account {
            None => self.visitor_acts(alloc, &command, port),
            Some(account) => self.user_acts(alloc, account, &command, clock, port),
        }
    }

    /// Does a command before the login.
    #[tactic(auto, using(crate::proofs::SessionLemmas::calls))]
    fn visitor_acts<P: Port>(
        &mut self,
        alloc: Global,
        command: &Command<'_>,
        port: &mut P,
    ) -> Result<AfterLine, NoMemory>
        ensures { (clock : play.Clock) → Follows P.who P.log port.old port.new clock clock
            (visitor_acts (command_seen command.now) (seen self.old))
            (unless_memory result (λ onward. goes onward (seen self.new))) }
    {
        match command {
            Command::Hello(form) => self.hello(alloc, *form, port),
            Command::Bye => Ok(AfterLine::Ended),
            Command::BadBye => self.answer(ILLEGAL_COMMAND),
            _ => {
                self.running.screen.write(b"Please say HELLO\r\n")?;
                Ok(AfterLine::Next)
            }
        }
    }

    /// Does a command after the login.
    fn user_acts<P: Port>(
        &mut self,
        alloc: Global,
        account: Account,
        command: &Command<'_>,
        clock: &mut Clock,
        port: &mut P,
    ) -> Result<AfterLine, NoMemory>
        requires { IsShort (command_seen command.now) }
        ensures { (s : talk.Session Position) → Stands self.old s
            → Serves P.who P.log port.old port.new clock.old clock.new
            (λ most. user_acts judge_of most account (command_seen command.now) s) self.new result }
    {
        match command {
            Command::Run { with_name } => self.run_program(alloc, *with_name, clock, port),
            Command::RunFile(tail) => self.run_file(alloc, account, tail, clock, port),
            Command::Continue => self.continue_program(alloc, clock, port),
            Command::Immediate(statement) => self.run_statement(alloc, statement, clock, port),
            _ => self.rest(alloc, account, command, port),
        }
    }

    /// Does a command that runs no program.
    #[tactic(auto, using(crate::proofs::SessionLemmas::calls))]
    fn rest<P: Port>(
        &mut self,
        alloc: Global,
        account: Account,
        command: &Command<'_>,
        port: &mut P,
    ) -> Result<AfterLine, NoMemory>
        requires { IsShort (command_seen command.now) }
        ensures { (clock : play.Clock) → Follows P.who P.log port.old port.new clock clock
            (rests judge_of account (command_seen command.now) (seen self.old))
            (unless_memory result (λ onward. goes onward (seen self.new))) }
    {
        match command {
            Command::Hello(_) => self.answer(b"?Already logged in\r\n"),
            Command::Bye => {
                self.log_out(alloc, port)?;
                Ok(AfterLine::Ended)
            }
            Command::BadBye => self.answer(ILLEGAL_COMMAND),
            Command::Idle => Ok(AfterLine::Next),
            Command::New(naming) => self.begin_new(alloc, *naming, port),
            Command::Rename(naming) => self.rename(*naming),
            Command::ListLines { with_name, range } => self.list(*with_name, *range),
            Command::Delete(range) => self.delete(*range),
            Command::WrongTail => self.answer(ILLEGAL_COMMAND),
            Command::Old(tail) => self.old(alloc, account, tail, port),
            Command::Save { kind, tail } => self.save(alloc, account, *kind, tail, port),
            Command::Unsave(tail) => self.unsave(alloc, account, tail, port),
            Command::Catalog(of) => self.catalog(alloc, account, *of, port),
            Command::Assign => self.assign(alloc, port),
            Command::Deassign => self.deassign(alloc, port),
            Command::Queue(tail) => self.queue(alloc, account, tail, port),
            Command::Numbered(line) => self.put_line(line),
            // These run a program, and do not come here.
            Command::Run { .. } => Ok(AfterLine::Next),
            Command::RunFile(_) => Ok(AfterLine::Next),
            Command::Continue => Ok(AfterLine::Next),
            Command::Immediate(_) => Ok(AfterLine::Next),
        }
    }

    /// Writes a command's message, and Ready at the start of a line.
    pub(crate) fn answer(&mut self, text: &[u8]) -> Result<AfterLine, NoMemory>
        ensures { IfOk result (λ onward.
            answered text.now (seen self.old)
            ≡ goes onward (seen self.new)) }
    {
        self.running.screen.write(text)?;
        self.be_ready()?;
        Ok(AfterLine::Next)
    }

    /// Reports an error, a halt or a rejected program, by its words and its line or 0, and writes
    /// Ready.
    pub(crate) fn report_failure(&mut self, words: &[u8], line: u16) -> Result<AfterLine, NoMemory>
        ensures { IfOk result (λ onward.
            reports (Failure words.now line) (seen self.old)
            ≡ goes onward (seen self.new)) }
    {
        write_failure(&mut self.running.screen, words, line)?;
        self.be_ready()?;
        Ok(AfterLine::Next)
    }

    /// Writes Ready at the start of a line.
    pub(crate) fn be_ready(&mut self) -> Result<(), NoMemory>
        ensures { OnOk result (seen self.new ≡ is_ready (seen self.old)) }
    {
        self.running.screen.begin_line(b"Ready\r\n")
    }

    /// Returns what the session shows.
    fn into_screen(self) -> Screen
        ensures { result ≡ (seen self).job.screen }
    {
        let running = self.running;
        running.screen
    }

    /// Reports that the job's calls are used up.
    fn expire(&mut self) -> Result<(), NoMemory>
        ensures { OnOk result (seen self.new ≡ expired (seen self.old)) }
    {
        write_used_up(&mut self.running.screen)
    }

    /// Logs in. The manual's HELLO. A wrong form and a wrong login have the same answer.
    #[tactic(auto, using(crate::proofs::SessionLemmas::calls))]
    fn hello<P: Port>(
        &mut self,
        alloc: Global,
        form: Option<LoginForm>,
        port: &mut P,
    ) -> Result<AfterLine, NoMemory>
        ensures { (clock : play.Clock) → Follows P.who P.log port.old port.new clock clock
            (hello (option_map login_seen form) (seen self.old))
            (unless_memory result (λ onward. goes onward (seen self.new))) }
    {
        match form {
            None => {
                self.running.screen.write(b"Invalid entry - try again\r\n")?;
                Ok(AfterLine::Next)
            }
            Some(form) => {
                let account = form.account;
                let request = Request::Login {
                    account,
                    password: form.password,
                };
                let reply = port.ask(alloc, request)?;
                self.enter(account, &reply)
            }
        }
    }

    /// Does what the reply to a login leads to. A reply that does not fit it counts as Expired.
    fn enter(&mut self, account: Account, reply: &Reply) -> Result<AfterLine, NoMemory>
        ensures { IfOk result (λ onward. (password : List ℕ) →
            entered account (counts_as (request.Login account password) reply.now) (seen self.old)
            ≡ goes onward (seen self.new)) }
    {
        match reply {
            Reply::Done => {
                self.account = Some(account);
                self.running.storage.act_for(account);
                self.be_ready()?;
                Ok(AfterLine::Next)
            }
            Reply::Failed(fault) if is_error(*fault) => {
                self.running.screen.write(b"Invalid entry - try again\r\n")?;
                Ok(AfterLine::Next)
            }
            _ => Ok(AfterLine::Expired),
        }
    }

    /// Logs out, at BYE or at the end of the keys. Whatever is replied to a logout counts as Done.
    #[tactic(auto, using(crate::proofs::SessionLemmas::calls))]
    fn log_out<P: Port>(&mut self, alloc: Global, port: &mut P) -> Result<(), NoMemory>
        ensures { (clock : play.Clock) → Follows P.who P.log port.old port.new clock clock
            (log_out (seen self.old))
            (unless_memory result (λ done. goes AfterLine.Ended (seen self.new))) }
    {
        port.ask(alloc, Request::Logout)?;
        self.running.screen.write(b"Bye\r\n")?;
        Ok(())
    }

    /// Leaves the session at the end of the keys.
    #[tactic(auto, using(crate::proofs::SessionLemmas::calls))]
    fn leave<P: Port>(&mut self, alloc: Global, port: &mut P) -> Result<(), NoMemory>
        ensures { (clock : play.Clock) → Follows P.who P.log port.old port.new clock clock
            (leave self.old.account (seen self.old))
            (unless_memory result (λ done. goes AfterLine.Ended (seen self.new))) }
    {
        match self.account {
            None => Ok(()),
            Some(_) => self.log_out(alloc, port),
        }
    }
}
