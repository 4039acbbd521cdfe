//! Where the instructions of each statement begin in the code of a program.
//!
//! A `Placement` is a program in its tables, with two lists of sums: the places of its statements,
//! and how many FORs are before each. The caller of `new` brings the sums. The contract of each
//! call is what the code of the definitions takes from the rest of the program, as `Lookups`
//! requires.

ghost use Rattle.std.specs.Prelude.{◌≡◌, ℕ, suc, length, slice_index, IfOk};
ghost use Rattle.program_model.specs.Program.{statements_of, statement_at, behind_body};
ghost use Rattle.program_model.specs.Program.{behind_statement, loops_in, loops_before};
ghost use Rattle.program_model.specs.Running.{body_of};
ghost use Rattle.program_soundness.specs.Listings.{text_of};
ghost use Rattle.polish_code.specs.Code.{statement_place, place_for, places_of};
ghost use Rattle.polish_code.specs.KeptCode.{place_in};
ghost use Rattle.code_places.specs.Sums.{size_whole, sums_from, line_places_from};

use crate::lookups::Lookups;
use crate::numbers::sum;
use basic_tree::{Name, Series, Statement};
use basic_values::NoMemory;
use polish_code::{Home, LinePlace};
use program_soundness::{LineText, Listing, Tables, further};
use std::alloc::Global;
use std::marker::Model;
use virtual_arrays::VirtualShape;

/// A program, and where each of its statements is in its code.
#[derive(Drop)]
pub struct Placement<'a> {
    tables: Tables<'a>,
    /// Where each statement begins in the code, and where the code ends.
    places: Vec<u32>,
    /// How many FORs are before each statement, and how many there are.
    loops: Vec<u32>,
}

impl<'a> Model for Placement<'a> {
    ghost use Rattle.std.specs.Prelude.{List};
    ghost use Rattle.std.specs.Coded.{codes};
    ghost use Rattle.basic_tree.specs.contracts.statements.Statement as statement;
    ghost use Rattle.program_soundness.specs.declared.texts.LineText.{LineText as Row};
    ghost use Rattle.code_places.specs.Placed.{IsPlaced};

    ghost Value = { List Row };

    ghost coded = { Prim.hlevel (codes, statement.the_row.coded) };

    ghost view = { λ p. p.tables };

    ghost invariant = { λ p. IsPlaced p };
}

impl<'a> Placement<'a> {
    /// Returns the program of these tables with its sums.
    pub fn new(tables: Tables<'a>, places: Vec<u32>, loops: Vec<u32>) -> Placement<'a>
        requires places { places.items ≡ sums_from size_whole 0 (statements_of (text_of tables)) }
        requires loops { loops.items ≡ sums_from loops_in 0 (statements_of (text_of tables)) }
        ensures { result ≡ tables.entry }
    {
        Placement {
            tables,
            places,
            loops,
        }
    }

    pub fn listing(&self) -> &Listing<'a>
        ensures { result.now ≡ self.entry.now }
    {
        self.tables.listing()
    }

    // Statements

    /// Returns the number of statements.
    fn count(&self) -> usize
        ensures { result ≡ length (statements_of (text_of self.now)) }
    {
        self.listing().count()
    }

    /// Returns where a statement begins; after the last one, the end.
    fn place(&self, m: usize) -> u32
        ensures { result ≡ statement_place (text_of self.now) m }
    {
        let count = self.count();
        if m < count {
            self.places[m]
        } else {
            self.places[count]
        }
    }

    /// Returns where the statement after another begins.
    fn place_behind(&self, m: usize) -> u32
        ensures { result ≡ statement_place (text_of self.now) (suc m) }
    {
        let count = self.count();
        if m < count {
            self.places[m + 1]
        } else {
            self.places[count]
        }
    }

    /// Returns where the statement after this one begins, or the end if there is none.
    fn place_past(&self, m: Option<usize>) -> u32
        ensures { result ≡ statement_place (text_of self.now) (behind_statement
            (text_of self.now) m) }
    {
        match m {
            Some(m) => self.place_behind(m),
            None => self.place(self.count()),
        }
    }

    /// Returns how many FORs are before a statement.
    fn loops_to(&self, m: usize) -> u32
        ensures { result ≡ loops_before (statements_of (text_of self.now)) m }
    {
        let count = self.count();
        if m < count {
            self.loops[m]
        } else {
            self.loops[count]
        }
    }

    /// Returns how many FORs are before each statement, and how many there are.
    pub fn loops(&self) -> &[u32]
        ensures { result.now ≡ sums_from loops_in 0 (statements_of (text_of self.entry.now)) }
    {
        &self.loops
    }

    // Lines

    /// Returns where each line begins, and then the end.
    pub fn line_places(&self, alloc: Global) -> Result<Vec<LinePlace>, NoMemory>
        ensures { IfOk result (λ lines. (number : ℕ)
            → place_in (statement_place (text_of self.now) (length (statements_of
            (text_of self.now)))) lines.items number
            ≡ (places_of (text_of self.now)).line number) }
    {
        line_places_in(alloc, self.listing().texts(), &self.places)
    }

    // Functions

    /// Returns where the body of a function begins, given its DEF.
    fn place_in_def(&self, m: usize) -> Result<Option<u32>, NoMemory>
        ensures { IfOk result (λ place. place
            ≡ place_for (text_of self.now) (body_of (statement_at (text_of self.now) m) m)) }
    {
        match self.listing().statement(m) {
            Some(statement) => match statement {
                Statement::Def { value, .. } => match value {
                    None => Ok(Some(self.place_behind(m))),
                    Some(_) => Ok(Some(sum(self.place(m), 2)?)),
                },
                _ => Ok(None),
            },
            None => Ok(None),
        }
    }
}

impl Lookups for Placement<'_> {
    ghost program = { λ placement. text_of placement };

    fn line_place(&self, number: u16) -> u32 {
        self.place(self.listing().start(number))
    }

    fn body_place(&self, function: Name) -> Result<Option<u32>, NoMemory> {
        match self.listing().def_of(function) {
            None => Ok(None),
            Some(m) => self.place_in_def(m),
        }
    }

    fn parameters(&self, alloc: Global, function: Name) -> Result<Series<Name>, NoMemory> {
        self.listing().parameters(alloc, function)
    }

    fn home(&self, m: usize) -> Home {
        Home {
            start: self.place(m),
            behind: self.place_behind(m),
            line: self.listing().line(m),
        }
    }

    fn past_body(&self, m: usize) -> u32 {
        if m < self.count() {
            self.place(self.listing().past_body(m))
        } else {
            self.place(m)
        }
    }

    fn past_next(&self, m: usize) -> u32 {
        self.place_past(self.tables.next_of(m))
    }

    fn past_for(&self, m: usize) -> u32 {
        self.place_past(self.tables.for_of(m))
    }

    fn loop_place(&self, m: usize) -> u32 {
        match self.tables.for_of(m) {
            Some(opening) => self.loops_to(opening),
            None => 0,
        }
    }

    fn array(&self, name: Name) -> Option<VirtualShape> {
        self.tables.array(name)
    }
}

/// Returns where each line begins, given where statements do.
fn line_places_in(
    alloc: Global,
    texts: &[LineText<'_>],
    places: &[u32],
) -> Result<Vec<LinePlace>, NoMemory>
    ensures { IfOk result (λ lines. lines.items ≡ line_places_from places.now 0 texts.now) }
{
    let mut lines = Vec::new(alloc);
    let mut first = 0;
    for text in texts {
        lines.push(LinePlace {
            number: text.number,
            place: value_at(places, first),
        })?;
        first = further(first, text.line.statements.len())?;
    }
    Ok(lines)
}

fn value_at(values: &[u32], place: usize) -> u32
    ensures { result ≡ slice_index values.now place }
{
    if place < values.len() {
        values[place]
    } else {
        0
    }
}
