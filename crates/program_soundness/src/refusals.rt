//! Why a program is rejected: the least line with a cause, and the first cause there.

ghost use Rattle.std.specs.Prelude.{◌≡◌, ◌&&◌, not, is_some, map, take, None, IfOk};
ghost use Rattle.std.specs.List.{flat_map, list_any};
ghost use Rattle.basic_tree.specs.StatementViews.{statement_of};
ghost use Rattle.program_model.specs.Program.{body_at, statements_of};
ghost use Rattle.program_model.specs.Soundness.{can_begin, has_line, handles_errors, is_in_body};
ghost use Rattle.program_model.specs.Soundness.{goes_across, is_open_for, is_stray_next};
ghost use Rattle.program_model.specs.Soundness.{is_open_def, is_stray_fnend, is_second_def};
ghost use Rattle.program_model.specs.Soundness.{is_body_of, results_by, has_stray_result};
ghost use Rattle.program_model.specs.Soundness.{is_undefined, is_unfit, arrays_in, any_again};
ghost use Rattle.program_model.specs.Soundness.{is_file_array, stands, stands_in, first_cause};
ghost use Rattle.program_model.specs.Soundness.{refusal_of, is_refused_now};
ghost use Rattle.program_model.specs.MatrixStatements.{matrices_by};
ghost use Rattle.program_model.specs.Parts.{simple_in, lines_named_in, calls_made_in};
ghost use Rattle.program_soundness.specs.Listings.{text_of};
ghost use Rattle.program_soundness.specs.Parts.{call_seen, calls_seen};
ghost use Rattle.program_model.specs.InMemory.{program_of};

use crate::calls::{Called, calls_made};
use crate::dims::{add_arrays, any_again};
use crate::kinds::fits;
use crate::listing::Listing;
use crate::parts::{lines_named, matrices_in, results_in, sorts_of};
use crate::tables::Tables;
use crate::texts::{further, lines_in};
use basic_tree::{Name, Program, Statement};
use basic_values::NoMemory;
use loop_pairs::same_body;
use program_model::{LowerCause, LowerRefusal};
use std::alloc::Global;

/// The causes, in the order in which those of one line are reported.
const CAUSES: [LowerCause; 12] = [
    LowerCause::NoLine,
    LowerCause::OpenFor,
    LowerCause::StrayNext,
    LowerCause::OpenDef,
    LowerCause::StrayFnend,
    LowerCause::DoubleDef,
    LowerCause::AcrossBody,
    LowerCause::NoFunction,
    LowerCause::Arguments,
    LowerCause::DoubleDim,
    LowerCause::StrayResult,
    LowerCause::MatFile,
];

/// Returns the least line that is rejected, and its first cause.
pub fn refusal_of(
    alloc: Global,
    program: &Program,
    tables: &Tables<'_>,
) -> Result<Option<LowerRefusal>, NoMemory>
    requires { program_of program.now.lines.entries ≡ text_of tables.now }
    ensures { IfOk result (λ refusal. refusal ≡ refusal_of (text_of tables.now)) }
{
    let mut m = 0;
    for (number, line) in program.lines.iter() {
        if let Some(cause) = first_cause(alloc, program, tables, m, &line.statements)? {
            return Ok(Some(LowerRefusal {
                line: *number,
                cause,
            }));
        }
        m = further(m, line.statements.len())?;
    }
    Ok(None)
}

/// Returns the first cause that applies at one of these statements, the first of which is the m-th.
fn first_cause(
    alloc: Global,
    program: &Program,
    tables: &Tables<'_>,
    m: usize,
    statements: &[Statement],
) -> Result<Option<LowerCause>, NoMemory>
    requires { program_of program.now.lines.entries ≡ text_of tables.now }
    ensures { IfOk result (λ cause. cause ≡ first_cause (text_of tables.now) m
        (map statement_of statements.now)) }
{
    for cause in CAUSES.iter() {
        if stands_in(alloc, program, tables, *cause, m, statements)? {
            return Ok(Some(*cause));
        }
    }
    Ok(None)
}

fn stands_in(
    alloc: Global,
    program: &Program,
    tables: &Tables<'_>,
    cause: LowerCause,
    m: usize,
    statements: &[Statement],
) -> Result<bool, NoMemory>
    requires { program_of program.now.lines.entries ≡ text_of tables.now }
    ensures { IfOk result (λ answer. answer ≡ stands_in (text_of tables.now) cause m
        (map statement_of statements.now)) }
{
    let mut place = m;
    for statement in statements {
        if stands(alloc, program, tables, cause, place, statement)? {
            return Ok(true);
        }
        place = further(place, 1)?;
    }
    Ok(false)
}

/// Returns whether a cause applies at the m-th statement.
fn stands(
    alloc: Global,
    program: &Program,
    tables: &Tables<'_>,
    cause: LowerCause,
    m: usize,
    statement: &Statement,
) -> Result<bool, NoMemory>
    requires { program_of program.now.lines.entries ≡ text_of tables.now }
    ensures { IfOk result (λ answer. answer ≡ stands (text_of tables.now) cause m
        (statement_of statement.now)) }
{
    let listing = tables.listing();
    match cause {
        LowerCause::NoLine => lacks_line(alloc, program, statement),
        LowerCause::OpenFor => Ok(is_open_for(tables, m, statement)),
        LowerCause::StrayNext => Ok(is_stray_next(tables, m, statement)),
        LowerCause::OpenDef => Ok(is_open_def(listing, m, statement)),
        LowerCause::StrayFnend => Ok(is_stray_fnend(listing, m, statement)),
        LowerCause::DoubleDef => Ok(is_second_def(listing, m, statement)),
        LowerCause::AcrossBody => goes_across(alloc, listing, m, statement),
        LowerCause::NoFunction => calls_undefined(alloc, listing, statement),
        LowerCause::Arguments => calls_unfit(alloc, listing, statement),
        LowerCause::DoubleDim => dimensions_again(alloc, listing, m, statement),
        LowerCause::StrayResult => has_stray_result(alloc, listing, m, statement),
        LowerCause::MatFile => names_file_array(alloc, tables, statement),
        LowerCause::Immediate => Ok(false),
    }
}

// Lines

/// Returns whether a line is named that does not exist.
fn lacks_line(alloc: Global, program: &Program, statement: &Statement) -> Result<bool, NoMemory>
    ensures { IfOk result (λ answer. answer
        ≡ list_any (λ n. not (has_line (program_of program.now.lines.entries) n))
        (lines_named_in (statement_of statement.now))) }
{
    let lines = lines_named(alloc, statement)?;
    Ok(any_lacking(program, &lines))
}

fn any_lacking(program: &Program, lines: &[u16]) -> bool
    ensures { result
        ≡ list_any (λ n. not (has_line (program_of program.now.lines.entries) n)) lines.now }
{
    for line in lines {
        if !has_line(program, *line) {
            return true;
        }
    }
    false
}

fn has_line(program: &Program, number: u16) -> bool
    ensures { result ≡ has_line (program_of program.now.lines.entries) number }
{
    program.lines.contains_key(&number)
}

/// Returns whether a program can begin at this line, if one is given: the line exists, and begins
/// at top level.
pub fn can_begin(alloc: Global, program: &Program, line: Option<u16>) -> Result<bool, NoMemory>
    ensures { IfOk result (λ can. can
        ≡ can_begin (program_of program.now.lines.entries) line) }
{
    match line {
        None => Ok(true),
        Some(number) => {
            let outside = stands_outside(alloc, program, number)?;
            Ok(has_line(program, number) && outside)
        }
    }
}

/// Returns whether the statement at which a line begins is at top level.
fn stands_outside(alloc: Global, program: &Program, number: u16) -> Result<bool, NoMemory>
    ensures { IfOk result (λ outside. outside
        ≡ is_in_body (program_of program.now.lines.entries) None number) }
{
    let listing = listing_of(alloc, program)?;
    Ok(is_in_body(&listing, None, number))
}

/// Returns the listing of a program. A function of its own, since each `?` is slow to prove while a
/// listing is alive.
fn listing_of<'a>(alloc: Global, program: &'a Program) -> Result<Listing<'a>, NoMemory>
    ensures { IfOk result (λ listing. text_of listing
        ≡ program_of program.now.lines.entries) }
{
    Listing::new(alloc, lines_in(alloc, program)?)
}

// Bodies

/// Returns whether a line in another body is named, or errors are handled in a body.
fn goes_across(
    alloc: Global,
    listing: &Listing<'_>,
    m: usize,
    statement: &Statement,
) -> Result<bool, NoMemory>
    ensures { IfOk result (λ answer. answer
        ≡ goes_across (text_of listing.now) (body_at (text_of listing.now) m)
        (statement_of statement.now)) }
{
    let body = listing.body(m);
    let outside = names_outside(alloc, listing, body, statement)?;
    let handles = handles_within(body, statement);
    Ok(outside || handles)
}

fn names_outside(
    alloc: Global,
    listing: &Listing<'_>,
    body: Option<usize>,
    statement: &Statement,
) -> Result<bool, NoMemory>
    ensures { IfOk result (λ answer. answer
        ≡ list_any (λ n. not (is_in_body (text_of listing.now) body n)) (lines_named_in
        (statement_of statement.now))) }
{
    let lines = lines_named(alloc, statement)?;
    Ok(any_outside(listing, body, &lines))
}

fn handles_within(body: Option<usize>, statement: &Statement) -> bool
    ensures { result
        ≡ (is_some body && list_any handles_errors (simple_in (statement_of statement.now))) }
{
    body.is_some() && sorts_of(statement).handles
}

fn any_outside(listing: &Listing<'_>, body: Option<usize>, lines: &[u16]) -> bool
    ensures { result ≡ list_any (λ n. not (is_in_body (text_of listing.now) body n)) lines.now }
{
    for line in lines {
        if !is_in_body(listing, body, *line) {
            return true;
        }
    }
    false
}

fn is_in_body(listing: &Listing<'_>, body: Option<usize>, number: u16) -> bool
    ensures { result ≡ is_in_body (text_of listing.now) body number }
{
    same_body(listing.body(listing.start(number)), body)
}

// FOR and NEXT

fn is_open_for(tables: &Tables<'_>, m: usize, statement: &Statement) -> bool
    ensures { result ≡ is_open_for (text_of tables.now) m (statement_of statement.now) }
{
    match statement {
        Statement::For { .. } => tables.next_of(m).is_none(),
        _ => false,
    }
}

fn is_stray_next(tables: &Tables<'_>, m: usize, statement: &Statement) -> bool
    ensures { result ≡ is_stray_next (text_of tables.now) m (statement_of statement.now) }
{
    match statement {
        Statement::Next(_) => tables.for_of(m).is_none(),
        _ => false,
    }
}

// DEF and FNEND

fn is_open_def(listing: &Listing<'_>, m: usize, statement: &Statement) -> bool
    ensures { result
        ≡ is_open_def (text_of listing.now) (body_at (text_of listing.now) m) m
        (statement_of statement.now) }
{
    match statement {
        Statement::Def { value, .. } => {
            listing.body(m).is_some() || (value.is_none() && !listing.ends_behind(m))
        }
        _ => false,
    }
}

fn is_stray_fnend(listing: &Listing<'_>, m: usize, statement: &Statement) -> bool
    ensures { result ≡ is_stray_fnend (body_at (text_of listing.now) m)
        (statement_of statement.now) }
{
    match statement {
        Statement::FnEnd => listing.body(m).is_none(),
        _ => false,
    }
}

fn is_second_def(listing: &Listing<'_>, m: usize, statement: &Statement) -> bool
    ensures { result ≡ is_second_def (text_of listing.now) m (statement_of statement.now) }
{
    match statement {
        Statement::Def { function, .. } => !same_body(listing.def_of(*function), Some(m)),
        _ => false,
    }
}

/// Returns whether a result is set outside the body of its function.
fn has_stray_result(
    alloc: Global,
    listing: &Listing<'_>,
    m: usize,
    statement: &Statement,
) -> Result<bool, NoMemory>
    ensures { IfOk result (λ answer. answer
        ≡ has_stray_result (text_of listing.now) (body_at (text_of listing.now) m)
        (statement_of statement.now)) }
{
    let names = results_in(alloc, statement)?;
    Ok(any_stray(listing, listing.body(m), &names))
}

fn any_stray(listing: &Listing<'_>, body: Option<usize>, names: &[Name]) -> bool
    ensures { result ≡ list_any (λ f. not (is_body_of (text_of listing.now) f body)) names.now }
{
    for name in names {
        if is_stray(listing, body, *name) {
            return true;
        }
    }
    false
}

fn is_stray(listing: &Listing<'_>, body: Option<usize>, function: Name) -> bool
    ensures { result ≡ not (is_body_of (text_of listing.now) function body) }
{
    !listing.is_body_of(function, body)
}

// Calls

fn calls_undefined(
    alloc: Global,
    listing: &Listing<'_>,
    statement: &Statement,
) -> Result<bool, NoMemory>
    ensures { IfOk result (λ answer. answer
        ≡ list_any (is_undefined (text_of listing.now)) (calls_made_in
        (statement_of statement.now))) }
{
    let calls = calls_made(alloc, statement)?;
    Ok(any_undefined(listing, &calls))
}

fn any_undefined(listing: &Listing<'_>, calls: &[Called]) -> bool
    ensures { result ≡ list_any (is_undefined (text_of listing.now)) (calls_seen calls.now) }
{
    for call in calls {
        if is_undefined(listing, call) {
            return true;
        }
    }
    false
}

fn is_undefined(listing: &Listing<'_>, call: &Called) -> bool
    ensures { result ≡ is_undefined (text_of listing.now) (call_seen call.now) }
{
    listing.def_of(call.function).is_none()
}

fn calls_unfit(
    alloc: Global,
    listing: &Listing<'_>,
    statement: &Statement,
) -> Result<bool, NoMemory>
    ensures { IfOk result (λ answer. answer
        ≡ list_any (is_unfit (text_of listing.now)) (calls_made_in (statement_of statement.now))) }
{
    let calls = calls_made(alloc, statement)?;
    Ok(any_unfit(listing, &calls))
}

fn any_unfit(listing: &Listing<'_>, calls: &[Called]) -> bool
    ensures { result ≡ list_any (is_unfit (text_of listing.now)) (calls_seen calls.now) }
{
    for call in calls {
        if is_unfit(listing, call) {
            return true;
        }
    }
    false
}

fn is_unfit(listing: &Listing<'_>, call: &Called) -> bool
    ensures { result ≡ is_unfit (text_of listing.now) (call_seen call.now) }
{
    !is_undefined(listing, call) && !fits(listing.parameter_names(call.function), &call.kinds)
}

// DIM

/// Returns whether an array has a DIM before.
fn dimensions_again(
    alloc: Global,
    listing: &Listing<'_>,
    m: usize,
    statement: &Statement,
) -> Result<bool, NoMemory>
    ensures { IfOk result (λ answer. answer
        ≡ any_again (flat_map arrays_in (take m (statements_of (text_of listing.now))))
        (arrays_in (statement_of statement.now))) }
{
    let mut names = Vec::new(alloc);
    add_arrays(&mut names, statement)?;
    if names.is_empty() {
        return Ok(false);
    }
    let before = listing.arrays_before(alloc, m)?;
    Ok(any_again(&before, &names))
}

// MAT

/// Returns whether a statement of MAT names an array in a file.
fn names_file_array(
    alloc: Global,
    tables: &Tables<'_>,
    statement: &Statement,
) -> Result<bool, NoMemory>
    ensures { IfOk result (λ answer. answer
        ≡ list_any (is_file_array (text_of tables.now)) (flat_map matrices_by
        (simple_in (statement_of statement.now)))) }
{
    let names = matrices_in(alloc, statement)?;
    Ok(any_file_array(tables, &names))
}

fn any_file_array(tables: &Tables<'_>, names: &[Name]) -> bool
    ensures { result ≡ list_any (is_file_array (text_of tables.now)) names.now }
{
    names.iter().any(|name| is_file_array(tables, *name))
}

fn is_file_array(tables: &Tables<'_>, name: Name) -> bool
    ensures { result ≡ is_file_array (text_of tables.now) name }
{
    tables.array(name).is_some()
}

// Immediate mode

/// Returns whether one of these statements is not allowed in immediate mode.
pub fn any_refused_now(alloc: Global, statements: &[Statement]) -> Result<bool, NoMemory>
    ensures { IfOk result (λ answer. answer
        ≡ list_any is_refused_now (map statement_of statements.now)) }
{
    for statement in statements {
        if is_refused_now(alloc, statement)? {
            return Ok(true);
        }
    }
    Ok(false)
}

fn is_refused_now(alloc: Global, statement: &Statement) -> Result<bool, NoMemory>
    ensures { IfOk result (λ answer. answer ≡ is_refused_now (statement_of statement.now)) }
{
    let lines = lines_named(alloc, statement)?;
    let calls = calls_made(alloc, statement)?;
    Ok(sorts_of(statement).for_programs || !lines.is_empty() || !calls.is_empty())
}
