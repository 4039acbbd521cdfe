//! RUN, CONT, and lines of immediate mode.

ghost use Rattle.std.specs.Prelude.{◌≡◌, ◌≤◌, ℕ, length, IfOk, OnOk, Some, None};
ghost use Rattle.grammar_machine.specs.MachineJudge.{judge_of};
ghost use Rattle.basic_tree.specs.StatementViews.{line_of};
ghost use Rattle.polish_code.specs.KeptCode.{code_kept};
ghost use Rattle.polish_code.specs.Lowered.{coded};
ghost use Rattle.program_model.specs.Program.{Program, Position};
ghost use Rattle.program_model.specs.Soundness.{can_begin, refusal_of};
ghost use Rattle.session_model.specs.Talk as talk;
ghost use Rattle.basic_eval.specs.Acting.{break_of};
ghost use Rattle.session_model.specs.Talk.{begun, does_line, goes_on, headed, immediate};
ghost use Rattle.session_model.specs.Talk.{no_line, program_by, reads_and_runs, reported, reports};
ghost use Rattle.session_model.specs.Talk.{runs, runs_all, runs_chained, runs_file, runs_loaded};
ghost use Rattle.session_model.specs.Talk.{runs_shut, runs_there};
ghost use Rattle.session_model.specs.ProgramFiles.{program_on};
ghost use Rattle.session_model.specs.Texts.{lowering_report};
ghost use Rattle.command_level.specs.AfterLines.{goes};
ghost use Rattle.command_level.specs.Chaining.{ServesRun, Spent};
ghost use Rattle.command_level.specs.Seen.{seen};
ghost use Rattle.command_level.specs.Standing.{Serves, Stands, low_session};

use crate::chains::{Reached, none_ran, ran_to};
use crate::filing::{is_blank_text, program_on, spec_read};
use crate::judging::{cause_text, refusal_text, tree_of};
use crate::session::{AfterLine, ILLEGAL_COMMAND, Session};
use basic_interpreter::{
    Clock, Exit, Stop, clear, continue_program, run_line, run_program, write_ending,
};
use basic_tree::Line;
use basic_values::errors::DATA_FORMAT_ERROR;
use basic_values::{Fault, LINE_LENGTH, NoMemory, Trouble};
use file_names::Spec;
use lowering::{loops_in_line, loops_in_program, lower, lower_now};
use monitor_calls::{Account, Page, Port, Short};
use polish_code::Code;
use program_files::read_pages;
use program_model::{LowerCause, LowerRefusal};
use program_soundness::can_begin;
use std::alloc::Global;

/// The answer to CONT if no STOP is kept.
const CANT_CONTINUE: &[u8] = b"?Can't continue\r\n";

impl Session {
    /// Runs the program in memory. The manual's RUN and RUNNH.
    pub(crate) fn run_program<P: Port>(
        &mut self,
        alloc: Global,
        with_name: bool,
        clock: &mut Clock,
        port: &mut P,
    ) -> Result<AfterLine, NoMemory>
        ensures { (s : talk.Session Position) → Stands self.old s
            → Serves P.who P.log port.old port.new clock.old clock.new
            (λ most. runs_all judge_of (program_by judge_of s.lines) most (headed with_name s))
            self.new result }
    {
        self.write_name(with_name)?;
        let reached = self.start(alloc, None, clock, port)?;
        self.follow_chains(alloc, reached, clock, port)
    }

    /// Closes all channels, and begins the program in memory, at the given line or at its first.
    pub(crate) fn start<P: Port>(
        &mut self,
        alloc: Global,
        line: Option<u16>,
        clock: &mut Clock,
        port: &mut P,
    ) -> Result<Reached, NoMemory>
        ensures path { (count : ℕ → ℕ) (s : talk.Session Position) → Stands self.old s
            → ServesRun P.who P.log port.old port.new clock.old clock.new count
            (λ most. runs (runs_chained judge_of most (count most))
            (program_by judge_of s.lines) most line s) self.new result }
        ensures units { IfOk result (Spent clock.old clock.new) }
    {
        match self.running.storage.shut_all(alloc, port) {
            Ok(()) => self.start_shut(alloc, line, clock, port),
            Err(stop) => none_ran(self.break_off(stop)),
        }
    }

    /// Does the same after the closing.
    fn start_shut<P: Port>(
        &mut self,
        alloc: Global,
        line: Option<u16>,
        clock: &mut Clock,
        port: &mut P,
    ) -> Result<Reached, NoMemory>
        ensures path { (count : ℕ → ℕ) (s : talk.Session Position) → Stands self.old s
            → ServesRun P.who P.log port.old port.new clock.old clock.new count
            (λ most. runs_shut (runs_chained judge_of most (count most))
            (program_by judge_of s.lines) most line s) self.new result }
        ensures units { IfOk result (Spent clock.old clock.new) }
    {
        self.begin_run(alloc)?;
        match lower(alloc, self.text.program()) {
            Ok(code) => self.start_code(alloc, &code, line, clock, port),
            Err(Trouble::Refused(refusal)) => none_ran(self.refuse(refusal)),
            Err(Trouble::NoMemory) => Err(NoMemory),
        }
    }

    /// Begins a program that is not rejected, if it can begin there.
    fn start_code<P: Port>(
        &mut self,
        alloc: Global,
        code: &Code,
        line: Option<u16>,
        clock: &mut Clock,
        port: &mut P,
    ) -> Result<Reached, NoMemory>
        ensures path { (count : ℕ → ℕ) (p : Program) (s : talk.Session Position)
            → low_session p s ≡ seen self.old → p ≡ program_by judge_of s.lines
            → refusal_of p ≡ None → s.stop ≡ None → code_kept code.now ≡ coded p
            → ServesRun P.who P.log port.old port.new clock.old clock.new count
            (λ most. runs_there (runs_chained judge_of most (count most)) p most line
            (can_begin p line) s) self.new result }
        ensures units { (p : Program) → code_kept code.now ≡ coded p
            → IfOk result (Spent clock.old clock.new) }
    {
        if !can_begin(alloc, self.text.program(), line)? {
            return none_ran(self.refuse(no_line(line)));
        }
        ran_to(run_program(
            self.text.program(),
            code,
            line,
            &mut self.running,
            clock,
            port,
        ))
    }

    /// Sets the state in which a program begins.
    fn begin_run(&mut self, alloc: Global) -> Result<(), NoMemory>
        ensures { (s : talk.Session Position) → Stands self.old s
            → OnOk result (low_session (program_by judge_of s.lines)
            (begun (program_by judge_of s.lines) s) ≡ seen self.new) }
    {
        self.stop = None;
        let loops = loops_in_program(alloc, self.text.program())?;
        clear(&mut self.running, loops)
    }

    /// Does RUN with a name.
    pub(crate) fn run_file<P: Port>(
        &mut self,
        alloc: Global,
        own: Account,
        tail: &[u8],
        clock: &mut Clock,
        port: &mut P,
    ) -> Result<AfterLine, NoMemory>
        ensures { (s : talk.Session Position) → Stands self.old s
            → Serves P.who P.log port.old port.new clock.old clock.new
            (λ most. runs_file judge_of most own tail.now s) self.new result }
    {
        if is_blank_text(tail) {
            return self.answer(ILLEGAL_COMMAND);
        }
        match spec_read(own, tail) {
            Ok(spec) => self.read_and_run(alloc, &spec, clock, port),
            Err(fault) => self.refuse_by(fault),
        }
    }

    /// Reads a program, and runs it.
    fn read_and_run<P: Port>(
        &mut self,
        alloc: Global,
        spec: &Spec,
        clock: &mut Clock,
        port: &mut P,
    ) -> Result<AfterLine, NoMemory>
        ensures { (s : talk.Session Position) → Stands self.old s
            → Serves P.who P.log port.old port.new clock.old clock.new
            (λ most. reads_and_runs judge_of most spec.now s) self.new result }
    {
        match read_pages(alloc, port, spec.name, spec.code) {
            Ok(pages) => { self.run_pages(alloc, spec.name.stem, pages.as_slice(), clock, port) }
            Err(stop) => self.break_off(stop),
        }
    }

    /// Puts the program on these pages into memory, and runs it.
    fn run_pages<P: Port>(
        &mut self,
        alloc: Global,
        name: Short,
        pages: &[Page],
        clock: &mut Clock,
        port: &mut P,
    ) -> Result<AfterLine, NoMemory>
        ensures { (s : talk.Session Position) → Stands self.old s
            → Serves P.who P.log port.old port.new clock.old clock.new
            (λ most. runs_loaded judge_of most name (program_on judge_of pages.now) s)
            self.new result }
    {
        let found = program_on(alloc, pages)?;
        match found {
            Some(text) => {
                self.load(alloc, name, text)?;
                self.run_program(alloc, false, clock, port)
            }
            None => self.refuse_by(Fault::new(DATA_FORMAT_ERROR)),
        }
    }

    /// Continues the program after a STOP. The manual's CONT.
    pub(crate) fn continue_program<P: Port>(
        &mut self,
        alloc: Global,
        clock: &mut Clock,
        port: &mut P,
    ) -> Result<AfterLine, NoMemory>
        ensures { (s : talk.Session Position) → Stands self.old s
            → Serves P.who P.log port.old port.new clock.old clock.new
            (λ most. goes_on judge_of (program_by judge_of s.lines) most s.stop s)
            self.new result }
    {
        match self.stop {
            None => self.answer(CANT_CONTINUE),
            Some(stop) => self.continue_behind(alloc, stop, clock, port),
        }
    }

    /// Continues the program after a STOP. It is the program that was stopped, so it is not
    /// rejected.
    fn continue_behind<P: Port>(
        &mut self,
        alloc: Global,
        stop: Stop,
        clock: &mut Clock,
        port: &mut P,
    ) -> Result<AfterLine, NoMemory>
        requires { self.old.stop ≡ Some stop }
        ensures { (s : talk.Session Position) → Stands self.old s
            → Serves P.who P.log port.old port.new clock.old clock.new
            (λ most. goes_on judge_of (program_by judge_of s.lines) most s.stop s)
            self.new result }
    {
        match lower(alloc, self.text.program()) {
            Ok(code) => {
                let end = continue_program(&code, stop, &mut self.running, clock, port);
                let reached = ran_to(end)?;
                self.follow_chains(alloc, reached, clock, port)
            }
            Err(Trouble::Refused(refusal)) => self.refuse(refusal),
            Err(Trouble::NoMemory) => Err(NoMemory),
        }
    }

    /// Does a line of immediate mode.
    pub(crate) fn run_statement<P: Port>(
        &mut self,
        alloc: Global,
        statement: &[u8],
        clock: &mut Clock,
        port: &mut P,
    ) -> Result<AfterLine, NoMemory>
        requires { length statement.now ≤ LINE_LENGTH }
        ensures { (s : talk.Session Position) → Stands self.old s
            → Serves P.who P.log port.old port.new clock.old clock.new
            (λ most. immediate judge_of (judge_of statement.now) most s) self.new result }
    {
        match tree_of(alloc, statement) {
            Ok(line) => self.do_line(alloc, &line, clock, port),
            Err(Trouble::Refused(cause)) => self.answer(refusal_text(cause)),
            Err(Trouble::NoMemory) => Err(NoMemory),
        }
    }

    /// Does a line that has a tree.
    fn do_line<P: Port>(
        &mut self,
        alloc: Global,
        line: &Line,
        clock: &mut Clock,
        port: &mut P,
    ) -> Result<AfterLine, NoMemory>
        ensures { (s : talk.Session Position) → Stands self.old s
            → Serves P.who P.log port.old port.new clock.old clock.new
            (λ most. does_line judge_of (line_of line.now) most s) self.new result }
    {
        let loops = loops_in_line(alloc, line)?;
        match lower_now(alloc, line) {
            Ok(code) => {
                let end = run_line(&code, loops, &mut self.running, clock, port);
                self.end_line(alloc, end, clock, port)
            }
            Err(Trouble::Refused(refusal)) => self.refuse(refusal),
            Err(Trouble::NoMemory) => Err(NoMemory),
        }
    }

    /// Writes the report of an end, and Ready.
    pub(crate) fn report(&mut self, why: Exit) -> Result<(), NoMemory>
        ensures { OnOk result (seen self.new
            ≡ reported (seen self.old) (break_of why) (seen self.old).job) }
    {
        write_ending(&mut self.running, why)?;
        self.be_ready()
    }

    /// Reports why a program or a line is rejected before it runs.
    pub(crate) fn refuse(&mut self, refusal: LowerRefusal) -> Result<AfterLine, NoMemory>
        ensures { IfOk result (λ onward.
            reports (lowering_report refusal) (seen self.old) ≡ goes onward (seen self.new)) }
    {
        self.report_failure(cause_text(refusal.cause), refusal.line)
    }
}

/// Returns the rejection for a line at which the program cannot begin.
fn no_line(line: Option<u16>) -> LowerRefusal
    ensures { result ≡ no_line line }
{
    LowerRefusal {
        line: line.unwrap_or(0),
        cause: LowerCause::NoLine,
    }
}
