//! Arrays as matrices, as MAT uses them.

ghost use Rattle.std.specs.Prelude.{◌≡◌, IfOk};
ghost use Rattle.basic_matrix.specs.MatrixActs.{assigned, row_numbers, HasRow, StoresValue};
ghost use Rattle.basic_matrix.specs.MatrixActs.{Touches};
ghost use Rattle.job_memory.specs.Matrices.{bounds};

use crate::storage::Storage;
use basic_matrix::{MatValue, assign, row, touch};
use basic_tree::Name;
use basic_values::{Halt, Int, NoMemory, Stop, Trouble};

impl Storage {
    /// Returns the largest subscripts of an array; None if it was not made.
    pub fn bounds(&self, name: Name) -> Option<(u16, Option<u16>)>
        ensures { result ≡ bounds name self.now.memory }
    {
        self.memory.bounds(name)
    }

    /// Makes an array with two subscripts to 10, if it was not made.
    pub fn touch(&mut self, name: Name) -> Result<(), Trouble<Halt>>
        ensures memory { Touches name self.old.memory self.new.memory result }
        ensures files { self.new.files ≡ self.old.files }
        ensures account { self.new.account ≡ self.old.account }
        ensures common { self.new.common ≡ self.old.common }
    {
        touch(&mut self.memory, name)
    }

    /// Stores a value to the elements of an array whose subscripts are all 1 or more. Error 55 if
    /// the bounds do not fit; then nothing is stored.
    pub fn assign(&mut self, target: Name, value: &MatValue) -> Result<(), Stop>
        ensures memory { StoresValue self.old.memory self.new.memory
            (assigned target value.now self.old.memory) result }
        ensures files { self.new.files ≡ self.old.files }
        ensures account { self.new.account ≡ self.old.account }
        ensures common { self.new.common ≡ self.old.common }
    {
        assign(&mut self.memory, target, value)
    }

    /// Returns the numbers of a row, from column 1 on.
    pub fn row(&self, name: Name, number: u16) -> Result<Vec<Int>, NoMemory>
        requires { HasRow self.now.memory name number }
        ensures { IfOk result (λ list. list.items ≡ row_numbers self.now.memory name number) }
    {
        row(&self.memory, name, number)
    }
}
