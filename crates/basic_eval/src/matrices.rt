//! MAT: the statements on whole arrays.

ghost use Rattle.std.specs.Prelude.{◌≡◌, drop, slice_get, false, IsSome, OnOk, IfOk};
ghost use Rattle.basic_matrix.specs.MatrixActs.{HasRow, row_numbers};
ghost use Rattle.basic_matrix.specs.MatrixShapes.{shape_of, matrix_rows};
ghost use Rattle.job_memory.specs.Matrices.{bounds};
ghost use Rattle.job_model.specs.Act.{Gives, ◌then◌};
ghost use Rattle.polish_code.specs.Walk.{matrix_count, passed, taken};
ghost use Rattle.program_model.specs.declared.values.Value.TheVariants as value;
ghost use Rattle.program_model.specs.DataItems.{item_taken};
ghost use Rattle.program_model.specs.Items.{item_value};
ghost use Rattle.program_model.specs.Job.{or_fault};
ghost use Rattle.program_model.specs.MatrixStatements.{matrices_in, matrices_of, matrix_act};
ghost use Rattle.program_model.specs.MatrixStatements.{touched, touch_all, acts_on_matrices};
ghost use Rattle.program_model.specs.MatrixStatements.{at_column, read_element, read_row};
ghost use Rattle.program_model.specs.MatrixStatements.{read_matrix, read_matrices, behind_number};
ghost use Rattle.program_model.specs.MatrixStatements.{row_written, numbers_written, row_ended};
ghost use Rattle.program_model.specs.MatrixStatements.{matrix_written, value_by, assigns_value};
ghost use Rattle.program_model.specs.Printing.{written};
ghost use Rattle.basic_values.specs.Numbers.{printed};
ghost use Rattle.basic_eval.specs.Acting.{Acts, given_or, seen, told};
ghost use Rattle.basic_eval.specs.Keeping.{stored_under};

use crate::exits::{Exit, Move};
use crate::stack::Stack;
use crate::state::Running;
use crate::values::wrapped;
use crate::variables::exit_at;
use basic_matrix::MatValue;
use basic_strings::item_number;
use basic_tree::{Name, Separator};
use basic_values::errors::OUT_OF_DATA;
use basic_values::{Fault, Int, NoMemory, Text, Trouble};
use input_items::without_blanks;
use job_storage::number_at;
use polish_code::{MatrixAct, MatrixForm};
use program_model::Value;

impl Running {
    /// Does a statement of MAT. The number that an array is multiplied with is taken off the stack.
    #[inline(never)]
    pub(crate) fn matrix(
        &mut self,
        words: &[Text],
        act: &MatrixAct,
        stack: &mut Stack<Value>,
    ) -> Move
        ensures { Acts
            (matrix_act words.now act.now (taken (matrix_count act.now) stack.old) (seen self.old)
            then passed (drop (matrix_count act.now) stack.old))
            (seen self.new) (told self.new.exit stack.new result) }
    {
        let count = matrix_count(act);
        let factor = number_at(0, stack.last(count));
        stack.drop_last(count);
        match self.act_on_matrices(words, act, factor) {
            Some(()) => Move::Pass(0),
            None => Move::Out,
        }
    }

    /// Makes the arrays that do not exist, and then reads, writes or stores.
    fn act_on_matrices(&mut self, words: &[Text], act: &MatrixAct, factor: Int) -> Option<()>
        ensures { Acts
            (touch_all (matrices_of act.now) (seen self.old)
            then λ _ j. acts_on_matrices words.now act.now factor j)
            (seen self.new) (given_or self.new.exit result) }
    {
        match act {
            MatrixAct::Read(names) => {
                self.touch_all(names.as_slice())?;
                self.read_matrices(words, names.as_slice())
            }
            MatrixAct::Print { matrix, separator } => {
                self.touch(*matrix)?;
                self.print_matrix(*matrix, *separator)
            }
            MatrixAct::Assign { target, form } => {
                self.touch(*target)?;
                self.touch_operands(*form)?;
                self.assign_matrix(*target, &value_by(factor, *form))
            }
        }
    }

    // Arrays that are made

    fn touch(&mut self, name: Name) -> Option<()>
        ensures { Acts (touched name (seen self.old)) (seen self.new)
            (given_or self.new.exit result) }
    {
        match self.storage.touch(name) {
            Ok(()) => Some(()),
            Err(Trouble::Refused(halt)) => self.fail(Trouble::Refused(Exit::Halt(halt))),
            Err(Trouble::NoMemory) => self.fail(Trouble::NoMemory),
        }
    }

    fn touch_all(&mut self, names: &[Name]) -> Option<()>
        ensures { Acts
            (touch_all names.now (seen self.old))
            (seen self.new) (given_or self.new.exit result) }
    {
        for name in names {
            self.touch(*name)?;
        }
        Some(())
    }

    fn touch_operands(&mut self, form: MatrixForm) -> Option<()>
        ensures { Acts
            (touch_all (matrices_in form) (seen self.old))
            (seen self.new) (given_or self.new.exit result) }
    {
        match form {
            MatrixForm::Zero | MatrixForm::One | MatrixForm::Identity => Some(()),
            MatrixForm::Copy(b) => self.touch_all(&[b]),
            MatrixForm::Sum(b, c) => self.touch_all(&[b, c]),
            MatrixForm::Difference(b, c) => self.touch_all(&[b, c]),
            MatrixForm::Product(b, c) => self.touch_all(&[b, c]),
            MatrixForm::Scaled(b) => self.touch_all(&[b]),
            MatrixForm::Transposed(b) => self.touch_all(&[b]),
        }
    }

    // MAT READ

    fn read_matrices(&mut self, words: &[Text], names: &[Name]) -> Option<()>
        ensures { Acts
            (read_matrices words.now names.now (seen self.old))
            (seen self.new) (given_or self.new.exit result) }
    {
        for name in names {
            self.read_matrix(words, *name)?;
        }
        Some(())
    }

    fn read_matrix(&mut self, words: &[Text], name: Name) -> Option<()>
        ensures { Acts
            (read_matrix words.now name (shape_of self.old.storage.memory name) (seen self.old))
            (seen self.new) (given_or self.new.exit result) }
    {
        let (rows, last) = self.storage.bounds(name).unwrap_or((0, None));
        for before in 0..rows {
            self.read_row(words, name, last, before + 1)?;
        }
        Some(())
    }

    /// Reads the elements of a row. An array of one subscript has one element in a row.
    fn read_row(&mut self, words: &[Text], name: Name, last: Option<u16>, row: u16) -> Option<()>
        ensures { Acts
            (read_row words.now name last row (seen self.old))
            (seen self.new) (given_or self.new.exit result) }
    {
        match last {
            None => self.read_element(words, name, wrapped(row), None),
            Some(last) => self.read_columns(words, name, last, row),
        }
    }

    fn read_columns(&mut self, words: &[Text], name: Name, last: u16, row: u16) -> Option<()>
        ensures { Acts
            (read_row words.now name (Some last) row (seen self.old))
            (seen self.new) (given_or self.new.exit result) }
    {
        for before in 0..last {
            self.read_column(words, name, row, before + 1)?;
        }
        Some(())
    }

    fn read_column(&mut self, words: &[Text], name: Name, row: u16, column: u16) -> Option<()>
        ensures { Acts
            (read_element words.now name (at_column row column) (seen self.old))
            (seen self.new) (given_or self.new.exit result) }
    {
        self.read_element(words, name, wrapped(row), Some(wrapped(column)))
    }

    /// Stores the next item of DATA to an element.
    fn read_element(
        &mut self,
        words: &[Text],
        name: Name,
        first: Int,
        second: Option<Int>,
    ) -> Option<()>
        ensures { Acts
            (item_taken (slice_get words.now self.old.item) (seen self.old)
            then λ item j. or_fault (item_value false item) j
            then λ v j. stored_under name first second v j)
            (seen self.new) (given_or self.new.exit result) }
    {
        let Some(word) = words.get(self.item) else {
            return self.fail(Trouble::Refused(Exit::Fault(Fault::new(OUT_OF_DATA))));
        };
        self.item += 1;
        match item_number(without_blanks(word.as_bytes())) {
            Ok(number) => self.keep_number_at(name, first, second, number),
            Err(fault) => self.fail(Trouble::Refused(Exit::Fault(fault))),
        }
    }

    // MAT PRINT

    fn print_matrix(&mut self, name: Name, separator: Option<Separator>) -> Option<()>
        ensures { Acts
            (Gives tt (matrix_written separator name (seen self.old)))
            (seen self.new) (given_or self.new.exit result) }
    {
        let (rows, _) = self.storage.bounds(name).unwrap_or((0, None));
        for before in 0..rows {
            self.print_row(name, before + 1, separator)?;
        }
        Some(())
    }

    fn print_row(&mut self, name: Name, row: u16, separator: Option<Separator>) -> Option<()>
        requires { HasRow self.old.storage.memory name row }
        ensures { Acts
            (Gives tt (row_written separator (row_numbers self.old.storage.memory name row)
            (seen self.old)))
            (seen self.new) (given_or self.new.exit result) }
    {
        let numbers = match self.storage.row(name, row) {
            Ok(numbers) => numbers,
            Err(NoMemory) => return self.fail(Trouble::NoMemory),
        };
        match self.write_row(&numbers, separator) {
            Ok(()) => Some(()),
            Err(NoMemory) => self.fail(Trouble::NoMemory),
        }
    }

    fn write_row(&mut self, numbers: &[Int], separator: Option<Separator>) -> Result<(), NoMemory>
        ensures { OnOk result (seen self.new ≡ row_written separator numbers.now (seen self.old)) }
    {
        self.write_numbers(numbers, separator)?;
        match separator {
            None => Ok(()),
            Some(_) => self.screen.write(b"\r\n"),
        }
    }

    fn write_numbers(
        &mut self,
        numbers: &[Int],
        separator: Option<Separator>,
    ) -> Result<(), NoMemory>
        ensures { OnOk result
            (seen self.new ≡ numbers_written separator numbers.now (seen self.old)) }
    {
        for place in 0..numbers.len() {
            self.screen.write(numbers[place].printed().as_slice())?;
            self.write_behind(separator, &numbers[place + 1..])?;
        }
        Ok(())
    }

    /// Writes what comes after a number that others of its row follow.
    fn write_behind(&mut self, separator: Option<Separator>, others: &[Int]) -> Result<(), NoMemory>
        ensures { OnOk result (seen self.new ≡ behind_number separator others.now (seen self.old)) }
    {
        match separator {
            None => self.screen.write(b"\r\n"),
            Some(Separator::Comma) if !others.is_empty() => self.screen.zone(),
            Some(_) => Ok(()),
        }
    }

    // MAT .. = ..

    fn assign_matrix(&mut self, target: Name, value: &MatValue) -> Option<()>
        ensures { Acts
            (assigns_value target value.now (seen self.old))
            (seen self.new) (given_or self.new.exit result) }
    {
        match self.storage.assign(target, value) {
            Ok(()) => Some(()),
            Err(stop) => self.fail(exit_at(&stop)),
        }
    }
}

/// Returns what MAT stores, if an array is multiplied with this number.
fn value_by(factor: Int, form: MatrixForm) -> MatValue
    ensures { result ≡ value_by factor form }
{
    match form {
        MatrixForm::Zero => MatValue::Zero,
        MatrixForm::One => MatValue::One,
        MatrixForm::Identity => MatValue::Identity,
        MatrixForm::Copy(b) => MatValue::Copy(b),
        MatrixForm::Sum(b, c) => MatValue::Sum(b, c),
        MatrixForm::Difference(b, c) => MatValue::Difference(b, c),
        MatrixForm::Product(b, c) => MatValue::Product(b, c),
        MatrixForm::Scaled(b) => MatValue::Scaled(factor, b),
        MatrixForm::Transposed(b) => MatValue::Transposed(b),
    }
}

/// Returns how many operands a statement of MAT has.
fn matrix_count(act: &MatrixAct) -> usize
    ensures { result ≡ matrix_count act.now }
{
    match act {
        MatrixAct::Assign {
            form: MatrixForm::Scaled(_),
            ..
        } => 1,
        MatrixAct::Read(_) | MatrixAct::Print { .. } | MatrixAct::Assign { .. } => 0,
    }
}
