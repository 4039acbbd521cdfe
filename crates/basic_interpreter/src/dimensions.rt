//! The arrays of a program's DIMs.

ghost use Rattle.std.specs.Prelude.{◌≡◌, map};
ghost use Rattle.basic_eval.specs.Acting.{Acts, seen};
ghost use Rattle.basic_tree.specs.StatementViews.{statement_of};
ghost use Rattle.program_model.specs.InMemory.{program_of};
ghost use Rattle.program_model.specs.Program.{shapes_in};
ghost use Rattle.program_model.specs.Running.{dimension_all, dimension_in, dimension_program};
ghost use Rattle.program_model.specs.Variables.{dimensioned};

use basic_eval::{Exit, Running};
use basic_tree::{Program, Shape, Statement};
use basic_values::Trouble;

/// Makes the arrays of all DIMs in the order of the program, each in its line.
pub(crate) fn dimension_program(lines: &Program, state: &mut Running) -> Result<(), Trouble<Exit>>
    ensures { Acts
        (dimension_program (program_of lines.now.lines.entries) (seen state.old))
        (seen state.new) result }
{
    for (number, line) in lines.lines.iter() {
        state.line = *number;
        if let Err(trouble) = dimension_line(line.statements.as_slice(), state) {
            return Err(trouble);
        }
    }
    Ok(())
}

/// Makes the arrays of the DIMs in a line.
fn dimension_line(statements: &[Statement], state: &mut Running) -> Result<(), Trouble<Exit>>
    ensures { Acts
        (dimension_in (map statement_of statements.now) (seen state.old))
        (seen state.new) result }
{
    for statement in statements {
        if let Err(trouble) = dimension_all(shapes_in(statement), state) {
            return Err(trouble);
        }
    }
    Ok(())
}

/// Returns the arrays of a DIM; none for another statement.
fn shapes_in(statement: &Statement) -> &[Shape]
    ensures { result.now ≡ shapes_in (statement_of statement.entry.now) }
{
    match statement {
        Statement::Dim(shapes) => shapes.as_slice(),
        _ => &[],
    }
}

fn dimension_all(shapes: &[Shape], state: &mut Running) -> Result<(), Trouble<Exit>>
    ensures { Acts (dimension_all shapes.now (seen state.old)) (seen state.new) result }
{
    for shape in shapes {
        if let Err(trouble) = dimension(*shape, state) {
            return Err(trouble);
        }
    }
    Ok(())
}

/// Makes an array of zeros, or of empty strings.
fn dimension(shape: Shape, state: &mut Running) -> Result<(), Trouble<Exit>>
    ensures { Acts (dimensioned shape (seen state.old)) (seen state.new) result }
{
    match state.storage.dim(shape) {
        Ok(()) => Ok(()),
        Err(Trouble::Refused(halt)) => Err(Trouble::Refused(Exit::Halt(halt))),
        Err(Trouble::NoMemory) => Err(Trouble::NoMemory),
    }
}
