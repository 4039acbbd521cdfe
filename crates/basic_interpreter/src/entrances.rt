//! RUN, CHAIN, CONT and immediate mode: each call is one run of code, after what is set for it.

ghost use Rattle.std.specs.Prelude.{◌≡◌, ℕ, List, OnErr, OnOk};
ghost use Rattle.basic_eval.specs.Acting.{seen};
ghost use Rattle.basic_interpreter.specs.Meaning.{Means};
ghost use Rattle.basic_interpreter.specs.Units.{SpendsAtChain};
ghost use Rattle.polish_code.specs.Code.{statement_place};
ghost use Rattle.basic_tree.specs.Trees.{StatementTree};
ghost use Rattle.basic_interpreter.specs.Stopping.{is_ended, leaving_of};
ghost use Rattle.program_model.specs.InMemory.{program_of};
ghost use Rattle.polish_code.specs.KeptCode.{code_kept};
ghost use Rattle.polish_code.specs.Lowered.{coded, lowered, low_leaving};
ghost use Rattle.program_model.specs.Job.{Job, Leaving};
ghost use Rattle.program_model.specs.Program as model;
ghost use Rattle.program_model.specs.Program.{Position, loops_of};
ghost use Rattle.program_model.specs.Running.{Coming, begins_with, cleared, continues};
ghost use Rattle.program_model.specs.Running.{continues_open};
ghost use Rattle.program_model.specs.Running.{ends_closed, line_alone, raises, raises_open};
ghost use Rattle.program_model.specs.Running.{runs_cleared, runs_line, runs_open};
ghost use Rattle.program_model.specs.Control.{Doing};
ghost use Rattle.job_model.specs.Play as play;

use crate::asides::Aside;
use crate::clock::Clock;
use crate::dimensions::dimension_program;
use crate::runs::run;
use crate::settings::{NO_HOME, fresh_limits};
use crate::stops::Stop;
use basic_eval::{Exit, Running, exit_at};
use basic_tree::Program;
use basic_values::{Fault, NoMemory, Trouble};
use error_trap::Trap;
use monitor_calls::Port;
use polish_code::Code;

/// Sets the state in which a program begins: no variables, no trap, no return places, fresh limits
/// for its FORs, and the first DATA item. If memory runs out, the state stays as it was.
pub fn clear(state: &mut Running, loops: usize) -> Result<(), NoMemory>
    ensures ok { (program : model.Program) → loops ≡ loops_of program
        → OnOk result (seen state.new ≡ cleared program (seen state.old)) }
    ensures memory { OnErr result (seen state.new ≡ seen state.old) }
{
    state.limits = fresh_limits(state.alloc, loops)?;
    state.storage.clear();
    state.trap = Trap::new();
    state.returns.clear();
    state.item = 0;
    state.line = 0;
    state.home = NO_HOME;
    state.frames.clear();
    Ok(())
}

/// Makes the arrays of the program's DIMs, and runs it from the given line, or from its first
/// statement. If it reaches its end, all channels are closed.
pub fn run_program<P: Port>(
    lines: &Program,
    code: &Code,
    line: Option<u16>,
    state: &mut Running,
    clock: &mut Clock,
    port: &mut P,
) -> Result<(), Trouble<Exit>>
    ensures meaning { (program : model.Program) (j : Job Position)
        → program ≡ program_of lines.now.lines.entries → code_kept code.now ≡ coded program
        → lowered program j ≡ seen state.old
        → Means P.who P.log port.old port.new clock.old clock.new
        (low_leaving program) (lowered program) (λ most. runs_cleared program most line j)
        (seen state.new) result }
    ensures units { (program : model.Program) → code_kept code.now ≡ coded program
        → SpendsAtChain clock.old clock.new result }
{
    let end = run_open(lines, code, line, state, clock, port);
    close_at_end(end, state, port)
}

/// Does the same without closing channels.
fn run_open<P: Port>(
    lines: &Program,
    code: &Code,
    line: Option<u16>,
    state: &mut Running,
    clock: &mut Clock,
    port: &mut P,
) -> Result<(), Trouble<Exit>>
    ensures meaning { (program : model.Program) (j : Job Position)
        → program ≡ program_of lines.now.lines.entries → code_kept code.now ≡ coded program
        → lowered program j ≡ seen state.old
        → Means P.who P.log port.old port.new clock.old clock.new
        (low_leaving program) (lowered program) (λ most. runs_open program most line j)
        (seen state.new) result }
    ensures units { (program : model.Program) → code_kept code.now ≡ coded program
        → SpendsAtChain clock.old clock.new result }
{
    match dimension_program(lines, state) {
        Ok(()) => run(code, begin_place(code, line), state, clock, port),
        Err(trouble) => Err(trouble),
    }
}

/// Returns the place in the code at which a program begins.
fn begin_place(code: &Code, line: Option<u16>) -> usize
    ensures { (program : model.Program) → code_kept code.now ≡ coded program
        → result ≡ statement_place program (begins_with program line) }
{
    match line {
        None => 0,
        Some(line) => code.place_of(line),
    }
}

/// Continues the program that ran last with an error of its last statement: at the line of its
/// handler, if it has one. If it has none, the error is why the program stopped. If it reaches its
/// end, all channels are closed.
pub fn raise<P: Port>(
    code: &Code,
    fault: Fault,
    state: &mut Running,
    clock: &mut Clock,
    port: &mut P,
) -> Result<(), Trouble<Exit>>
    ensures meaning { (program : model.Program) (j : Job Position)
        → code_kept code.now ≡ coded program → lowered program j ≡ seen state.old
        → Means P.who P.log port.old port.new clock.old clock.new
        (low_leaving program) (lowered program) (λ most. raises program most fault j)
        (seen state.new) result }
    ensures units { (program : model.Program) → code_kept code.now ≡ coded program
        → SpendsAtChain clock.old clock.new result }
{
    let end = raise_open(code, fault, state, clock, port);
    close_at_end(end, state, port)
}

/// Does the same without closing channels.
fn raise_open<P: Port>(
    code: &Code,
    fault: Fault,
    state: &mut Running,
    clock: &mut Clock,
    port: &mut P,
) -> Result<(), Trouble<Exit>>
    ensures meaning { (program : model.Program) (j : Job Position)
        → code_kept code.now ≡ coded program → lowered program j ≡ seen state.old
        → Means P.who P.log port.old port.new clock.old clock.new
        (low_leaving program) (lowered program) (λ most. raises_open program most fault j)
        (seen state.new) result }
    ensures units { (program : model.Program) → code_kept code.now ≡ coded program
        → SpendsAtChain clock.old clock.new result }
{
    match state.catch(Exit::Fault(fault)) {
        Ok(line) => run(code, code.place_of(line), state, clock, port),
        Err(why) => Err(Trouble::Refused(why)),
    }
}

/// Continues the program after its STOP. The manual's CONT. If it reaches its end, all channels are
/// closed.
pub fn continue_program<P: Port>(
    code: &Code,
    stop: Stop,
    state: &mut Running,
    clock: &mut Clock,
    port: &mut P,
) -> Result<(), Trouble<Exit>>
    ensures { (program : model.Program) (way : Leaving Position) (j : Job Position)
        → code_kept code.now ≡ coded program → low_leaving program way ≡ leaving_of stop
        → lowered program j ≡ seen state.old
        → Means P.who P.log port.old port.new clock.old clock.new
        (low_leaving program) (lowered program) (λ most. continues program most way j)
        (seen state.new) result }
{
    let end = continue_open(code, stop, state, clock, port);
    close_at_end(end, state, port)
}

/// Does the same without closing channels.
fn continue_open<P: Port>(
    code: &Code,
    stop: Stop,
    state: &mut Running,
    clock: &mut Clock,
    port: &mut P,
) -> Result<(), Trouble<Exit>>
    ensures { (program : model.Program) (way : Leaving Position) (j : Job Position)
        → code_kept code.now ≡ coded program → low_leaving program way ≡ leaving_of stop
        → lowered program j ≡ seen state.old
        → Means P.who P.log port.old port.new clock.old clock.new
        (low_leaving program) (lowered program) (λ most. continues_open program most way j)
        (seen state.new) result }
{
    match stop {
        Stop::At(spot) => {
            state.run_at(spot.home());
            run(code, spot.behind(), state, clock, port)
        }
        Stop::Inside(home) => run(code, home.behind as usize, state, clock, port),
    }
}

/// Closes all channels if a program reached its end; any other end stays.
fn close_at_end<P: Port>(
    end: Result<(), Trouble<Exit>>,
    state: &mut Running,
    port: &mut P,
) -> Result<(), Trouble<Exit>>
    // Whatever had this end, it is now the same with closed channels at its end.
    ensures meaning { (start : P) (before behind : play.Clock) (program : model.Program)
        (meaning : ℕ → Doing Coming)
        → Means P.who P.log start port.old before behind
        (low_leaving program) (lowered program) meaning (seen state.old) end
        → Means P.who P.log start port.new before behind
        (low_leaving program) (lowered program) (λ most. ends_closed (meaning most))
        (seen state.new) result }
    ensures units { (before behind : play.Clock)
        → SpendsAtChain before behind end → SpendsAtChain before behind result }
{
    if !is_ended(&end) {
        return end;
    }
    match state.storage.shut_all(state.alloc, port) {
        Ok(()) => Err(Trouble::Refused(Exit::Ended)),
        Err(stop) => Err(exit_at(&stop)),
    }
}

/// Returns whether a program reached its end.
fn is_ended(end: &Result<(), Trouble<Exit>>) -> bool
    ensures { result ≡ is_ended end.now }
{
    match end {
        Err(Trouble::Refused(Exit::Ended)) => true,
        _ => false,
    }
}

/// Runs a line of immediate mode, which has this many FORs, beside the program that ran last.
pub fn run_line<P: Port>(
    code: &Code,
    loops: usize,
    state: &mut Running,
    clock: &mut Clock,
    port: &mut P,
) -> Result<(), Trouble<Exit>>
    ensures { (statements : List StatementTree) (program : model.Program) (j : Job Position)
        → code_kept code.now ≡ coded (line_alone statements)
        → loops ≡ loops_of (line_alone statements)
        → lowered program j ≡ seen state.old
        → Means P.who P.log port.old port.new clock.old clock.new
        (low_leaving (line_alone statements)) (lowered program)
        (λ most. runs_line statements most j) (seen state.new) result }
{
    match Aside::set_apart(state, loops) {
        Ok(aside) => {
            let ended = run(code, 0, state, clock, port);
            aside.put_back(state);
            ended
        }
        Err(NoMemory) => Err(Trouble::NoMemory),
    }
}
