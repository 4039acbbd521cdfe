//! The number of FORs in statements: FOR statements and FOR modifiers.

ghost use Rattle.std.specs.Prelude.{◌≡◌, ◌+◌, OnOk};
ghost use Rattle.basic_tree.specs.StatementViews.{statement_of, clause_of};
ghost use Rattle.program_model.specs.Program.{loops_in, loops_in_clause};
ghost use Rattle.statement_walk.specs.Walk.{loops_by, loops_alone};

use basic_tree::{Clause, Statement};
use basic_values::NoMemory;
use code_places::add;
use statement_walk::{Part, Simple, Visitor, visit_clause, visit_parts};
use std::marker::Model;

/// A visitor that counts FORs.
#[derive(Drop)]
struct Loops {
    count: u32,
}

impl Model for Loops {
    ghost use Rattle.std.specs.Prelude.{ℕ};

    ghost Value = { ℕ };

    ghost view = { λ l. l.count };
}

impl Visitor for Loops {
    type Stop = NoMemory;

    ghost after = { λ count part. count + loops_by part };

    fn visit(&mut self, part: Part<'_>) -> Result<(), NoMemory> {
        match part {
            Part::Simple(Simple::Statement(statement)) => {
                add(&mut self.count, loops_alone(statement))
            }
            Part::Simple(Simple::Line(_)) | Part::Expression(_) => Ok(()),
            Part::Loop => add(&mut self.count, 1),
        }
    }
}

/// Returns the number of FORs of a statement without others inside, 0 or 1.
fn loops_alone(statement: &Statement) -> u32
    ensures { result ≡ loops_alone (statement_of statement.now) }
{
    match statement {
        Statement::For { .. } => 1,
        _ => 0,
    }
}

/// Adds the number of FORs in a statement.
pub fn count_loops(total: &mut u32, statement: &Statement) -> Result<(), NoMemory>
    ensures { OnOk result (total.new ≡ total.old + loops_in (statement_of statement.now)) }
{
    let mut loops = Loops { count: *total };
    visit_parts(&mut loops, statement)?;
    *total = loops.count;
    Ok(())
}

/// Adds the number of FORs in a clause.
pub fn count_clause_loops(total: &mut u32, clause: &Clause) -> Result<(), NoMemory>
    ensures { OnOk result (total.new ≡ total.old + loops_in_clause (clause_of clause.now)) }
{
    let mut loops = Loops { count: *total };
    visit_clause(&mut loops, clause)?;
    *total = loops.count;
    Ok(())
}
