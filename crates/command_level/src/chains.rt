//! What is done at the end of a run: its report, and at a CHAIN the run of the next program.

ghost use Rattle.std.specs.Prelude.{◌≡◌, ℕ, suc, IfOk, OnErr, Some, Ok, Err};
ghost use Rattle.std.specs.Option.{option_map};
ghost use Rattle.basic_eval.specs.Acting as acting;
ghost use Rattle.basic_eval.specs.Acting.{break_of};
ghost use Rattle.basic_interpreter.specs.Meaning.{Means};
ghost use Rattle.basic_interpreter.specs.Stopping.{leaving_of};
ghost use Rattle.basic_values.specs.declared.failures.Trouble.TheVariants as trouble;
ghost use Rattle.grammar_machine.specs.MachineJudge.{judge_of};
ghost use Rattle.job_model.specs.Act.{Left};
ghost use Rattle.job_model.specs.Follow.{Follows, answered_by};
ghost use Rattle.job_model.specs.Play as play;
ghost use Rattle.polish_code.specs.Lowered.{lowered, low_leaving};
ghost use Rattle.program_model.specs.Control.{Doing};
ghost use Rattle.program_model.specs.Job as program;
ghost use Rattle.program_model.specs.Job.{Job};
ghost use Rattle.program_model.specs.Program.{Program, Position};
ghost use Rattle.program_model.specs.Running.{Coming, raises};
ghost use Rattle.session_model.specs.Talk as talk;
ghost use Rattle.session_model.specs.Talk.{Step, chains_to, ends_run, in_session, line_ended};
ghost use Rattle.session_model.specs.Talk.{outlived, reads_file, reads_program, reported};
ghost use Rattle.session_model.specs.Talk.{run_is_over, runs_chained, stop_by, with_job};
ghost use Rattle.command_level.specs.AfterLines.{goes};
ghost use Rattle.command_level.specs.Chaining.{IsOver, IsReached, LeftRun, RanIn, ServesRun, Spent};
ghost use Rattle.command_level.specs.Chaining.{is_chain, run_of};
ghost use Rattle.command_level.specs.Seen.{seen};
ghost use Rattle.command_level.specs.Standing.{Serves, StopFits, is_gone, line_ends, low_session};
ghost use Rattle.command_level.specs.Standing.{run_ends};

use crate::filing::{program_on, spec_read};
use crate::session::{AfterLine, Session};
use basic_eval::exit_at;
use basic_interpreter::{Clock, Exit, Stop, raise};
use basic_values::errors::DATA_FORMAT_ERROR;
use basic_values::{Fault, NoMemory, Stop as Broken, Trouble};
use file_names::Spec;
use line_editor::ProgramText;
use lowering::lower;
use monitor_calls::{Account, Port, Short};
use program_files::read_pages;
use std::alloc::Global;

/// What a call that runs programs has reached.
#[derive(Clone, Copy)]
pub(crate) enum Reached {
    /// The end of a program that ran.
    End(Exit),
    /// No program runs any more.
    Over(AfterLine),
}

impl Session {
    /// Does what follows the end of a run: after a CHAIN the next program runs.
    pub(crate) fn follow_chains<P: Port>(
        &mut self,
        alloc: Global,
        reached: Reached,
        clock: &mut Clock,
        port: &mut P,
    ) -> Result<AfterLine, NoMemory>
        ensures { (left : ℕ → Step Position)
            → LeftRun (λ most. most) self.old (Ok reached) (Some left)
            → Serves P.who P.log port.old port.new clock.old clock.new left self.new result }
    {
        let mut at = reached;
        while is_chain(&at) {
            at = self.follow_chain(alloc, clock, port)?;
        }
        match at {
            Reached::End(why) => self.end_run(why),
            Reached::Over(onward) => Ok(onward),
        }
    }

    /// Does one chain: reads and begins the program that is named, or continues the one that ran
    /// with an error.
    fn follow_chain<P: Port>(
        &mut self,
        alloc: Global,
        clock: &mut Clock,
        port: &mut P,
    ) -> Result<Reached, NoMemory>
        ensures path { (count : ℕ → ℕ) (p : Program) (s : talk.Session Position)
            (j : Job Position) → RanIn self.old p s j
            → ServesRun P.who P.log port.old port.new clock.old clock.new count
            (λ most. ends_run (suc (count most)) (run_of most p s) (Left program.Chained) j)
            self.new result }
        ensures units { IfOk result (Spent clock.old clock.new) }
    {
        let own = self.running.storage.account();
        match read_program(alloc, own, self.running.destination.name.as_bytes(), port) {
            Ok(read) => self.chain_to(alloc, read, clock, port),
            Err(stop) => match stop {
                Broken::Fault(fault) => self.raise_fault(alloc, fault, clock, port),
                _ => none_ran(self.end_run_at(exit_at(&stop))),
            },
        }
    }

    /// Puts the program that was read into memory, and begins it.
    fn chain_to<P: Port>(
        &mut self,
        alloc: Global,
        read: (Short, ProgramText),
        clock: &mut Clock,
        port: &mut P,
    ) -> Result<Reached, NoMemory>
        ensures path { (count : ℕ → ℕ) (p : Program) (s : talk.Session Position)
            → low_session p s ≡ seen self.old
            → ServesRun P.who P.log port.old port.new clock.old clock.new count
            (λ most. chains_to judge_of (runs_chained judge_of most (count most)) most read s)
            self.new result }
        ensures units { IfOk result (Spent clock.old clock.new) }
    {
        let line = self.running.destination.line;
        let (name, text) = read;
        self.load(alloc, name, text)?;
        self.start(alloc, line, clock, port)
    }

    /// Continues the program with an error of its CHAIN. It ran, so it is not rejected.
    fn raise_fault<P: Port>(
        &mut self,
        alloc: Global,
        fault: Fault,
        clock: &mut Clock,
        port: &mut P,
    ) -> Result<Reached, NoMemory>
        ensures path { (count : ℕ → ℕ) (p : Program) (s : talk.Session Position)
            (j : Job Position) → RanIn self.old p s j
            → ServesRun P.who P.log port.old port.new clock.old clock.new count
            (λ most. runs_chained judge_of most (count most) p s (raises p most fault j))
            self.new result }
        ensures units { IfOk result (Spent clock.old clock.new) }
    {
        match lower(alloc, self.text.program()) {
            Ok(code) => ran_to(raise(&code, fault, &mut self.running, clock, port)),
            Err(Trouble::Refused(refusal)) => none_ran(self.refuse(refusal)),
            Err(Trouble::NoMemory) => Err(NoMemory),
        }
    }

    /// Ends a run, unless memory ran out.
    fn end_run_at(&mut self, end: Trouble<Exit>) -> Result<AfterLine, NoMemory>
        ensures { IfOk result (λ onward.
            run_ends end (seen self.old) ≡ Some (goes onward (seen self.new))) }
    {
        match end {
            Trouble::Refused(why) => self.end_run(why),
            Trouble::NoMemory => Err(NoMemory),
        }
    }

    /// Writes its report, keeps the STOP for CONT, and writes Ready.
    #[tactic(auto, using(crate::proofs::Lows::outlived))]
    fn end_run(&mut self, why: Exit) -> Result<AfterLine, NoMemory>
        ensures { IfOk result (λ onward.
            outlived (run_is_over (seen self.old)) (seen self.old) (break_of why)
            (seen self.old).job
            ≡ goes onward (seen self.new)) }
    {
        if is_gone(&why) {
            return Ok(AfterLine::Expired);
        }
        let stop = stop_by(&why);
        self.report(why)?;
        self.stop = stop;
        Ok(AfterLine::Next)
    }

    /// Ends a line of immediate mode. If it chains, the next program begins.
    pub(crate) fn end_line<P: Port>(
        &mut self,
        alloc: Global,
        end: Result<(), Trouble<Exit>>,
        clock: &mut Clock,
        port: &mut P,
    ) -> Result<AfterLine, NoMemory>
        // Whatever had this end, it is now what the session does with it.
        ensures { (start : P) (before : play.Clock) (line p : Program)
            (s : talk.Session Position) (meaning : ℕ → Doing Coming)
            → seen self.old ≡ with_job (acting.seen self.old.running) (low_session p s)
            → StopFits p s
            → Means P.who P.log start port.old before clock.old (low_leaving line) (lowered p)
            meaning (acting.seen self.old.running) end
            → Serves P.who P.log start port.new before clock.new
            (λ most. in_session (line_ended judge_of most s) s (meaning most)) self.new result }
    {
        match end {
            Ok(()) => self.end_line_by(Exit::Ended),
            Err(Trouble::Refused(why)) => match why {
                Exit::Chained => self.chain_from_line(alloc, clock, port),
                _ => self.end_line_by(why),
            },
            Err(Trouble::NoMemory) => Err(NoMemory),
        }
    }

    /// Reads and begins the program that a line of immediate mode names, or reports an error.
    fn chain_from_line<P: Port>(
        &mut self,
        alloc: Global,
        clock: &mut Clock,
        port: &mut P,
    ) -> Result<AfterLine, NoMemory>
        ensures { (p : Program) (s : talk.Session Position) (j : Job Position)
            → low_session p (with_job j s) ≡ seen self.old → StopFits p s
            → Serves P.who P.log port.old port.new clock.old clock.new
            (λ most. line_ended judge_of most s (Left program.Chained) j) self.new result }
    {
        let own = self.running.storage.account();
        match read_program(alloc, own, self.running.destination.name.as_bytes(), port) {
            Ok(read) => {
                let reached = self.chain_to(alloc, read, clock, port)?;
                self.follow_chains(alloc, reached, clock, port)
            }
            Err(stop) => self.end_line_at(exit_at(&stop)),
        }
    }

    /// Ends a line of immediate mode that does not chain, unless memory ran out.
    fn end_line_at(&mut self, end: Trouble<Exit>) -> Result<AfterLine, NoMemory>
        ensures { IfOk result (λ onward.
            line_ends end (seen self.old) ≡ Some (goes onward (seen self.new))) }
    {
        match end {
            Trouble::Refused(why) => self.end_line_by(why),
            Trouble::NoMemory => Err(NoMemory),
        }
    }

    /// Writes its report, and Ready.
    #[tactic(auto, using(crate::proofs::Lows::outlived))]
    fn end_line_by(&mut self, why: Exit) -> Result<AfterLine, NoMemory>
        ensures { IfOk result (λ onward.
            outlived (reported (seen self.old)) (seen self.old) (break_of why) (seen self.old).job
            ≡ goes onward (seen self.new)) }
    {
        if is_gone(&why) {
            return Ok(AfterLine::Expired);
        }
        self.report(why)?;
        Ok(AfterLine::Next)
    }
}

/// Returns what a run has reached. A body that was left without a call counts as the end of the
/// program.
pub(crate) fn ran_to(end: Result<(), Trouble<Exit>>) -> Result<Reached, NoMemory>
    ensures ok { IfOk result (IsReached end) }
    ensures memory { OnErr result (end ≡ Err trouble.NoMemory) }
{
    match end {
        Ok(()) => Ok(Reached::End(Exit::Ended)),
        Err(Trouble::Refused(why)) => Ok(Reached::End(why)),
        Err(Trouble::NoMemory) => Err(NoMemory),
    }
}

/// Returns that no program ran.
pub(crate) fn none_ran(done: Result<AfterLine, NoMemory>) -> Result<Reached, NoMemory>
    ensures { IsOver done result }
{
    match done {
        Ok(onward) => Ok(Reached::Over(onward)),
        Err(NoMemory) => Err(NoMemory),
    }
}

/// Returns whether a run has reached a CHAIN.
fn is_chain(at: &Reached) -> bool
    ensures { result ≡ is_chain at.now }
{
    match at {
        Reached::End(Exit::Chained) => true,
        _ => false,
    }
}

/// Reads the program that the bytes name, and returns it with its name.
fn read_program<P: Port>(
    alloc: Global,
    own: Account,
    text: &[u8],
    port: &mut P,
) -> Result<(Short, ProgramText), Broken>
    ensures { (clock : play.Clock) → Follows P.who P.log port.old port.new clock clock
        (reads_program judge_of own text.now) (answered_by result tt) }
{
    match spec_read(own, text) {
        Ok(spec) => read_file(alloc, &spec, port),
        Err(fault) => Err(Broken::Fault(fault)),
    }
}

/// Reads the program in a file, and returns it with its name.
fn read_file<P: Port>(
    alloc: Global,
    spec: &Spec,
    port: &mut P,
) -> Result<(Short, ProgramText), Broken>
    ensures { (clock : play.Clock) → Follows P.who P.log port.old port.new clock clock
        (reads_file judge_of spec.now) (answered_by result tt) }
{
    let pages = read_pages(alloc, port, spec.name, spec.code)?;
    match program_on(alloc, pages.as_slice())? {
        Some(text) => Ok((spec.name.stem, text)),
        None => Err(Broken::Fault(Fault::new(DATA_FORMAT_ERROR))),
    }
}

/// Returns whether the job's calls are used up.
fn is_gone(why: &Exit) -> bool
    ensures { result ≡ is_gone why.now }
{
    match why {
        Exit::Gone => true,
        _ => false,
    }
}

/// Returns the place at which CONT continues: after a STOP, and after no other end.
fn stop_by(why: &Exit) -> Option<Stop>
    ensures { option_map leaving_of result ≡ stop_by (break_of why.now) }
{
    match why {
        Exit::Stopped(spot) => Some(Stop::At(*spot)),
        Exit::StoppedInside(home) => Some(Stop::Inside(*home)),
        _ => None,
    }
}
