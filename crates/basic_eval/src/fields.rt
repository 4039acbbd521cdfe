//! LSET and RSET.

ghost use Rattle.std.specs.Prelude.{◌≡◌, List, IfSome, drop};
ghost use Rattle.job_model.specs.Act.{◌then◌};
ghost use Rattle.job_model.specs.Follow.{answered_by};
ghost use Rattle.job_storage.specs.Justifying.{justify_act};
ghost use Rattle.polish_code.specs.Walk.{passed, top};
ghost use Rattle.program_model.specs.declared.values.Value.{Value};
ghost use Rattle.program_model.specs.Job.{text};
ghost use Rattle.program_model.specs.Justified.{justifies};
ghost use Rattle.program_model.specs.Storage.{in_storage};
ghost use Rattle.program_model.specs.Variables.{held};
ghost use Rattle.basic_eval.specs.Acting.{Acts, seen, told};

use crate::exits::Move;
use crate::stack::Stack;
use crate::state::Running;
use crate::values::take_top;
use crate::variables::exit_at;
use basic_tree::Name;
use basic_values::Stop;
use job_storage::bytes;
use program_model::Value;
use record_fields::Side;

impl Running {
    /// Does LSET or RSET by the last value.
    #[inline(never)]
    pub(crate) fn justify(&mut self, side: Side, name: &Name, stack: &mut Stack<Value>) -> Move
        ensures { Acts
            (justifies side name.now (top stack.old) (seen self.old) then passed (drop 1 stack.old))
            (seen self.new) (told self.new.exit stack.new result) }
    {
        let value = take_top(stack);
        match self.storage.justify(self.alloc, side, *name, bytes(&value)) {
            Ok(()) => Move::Pass(0),
            Err(stop) => self.go_out(exit_at(&stop)),
        }
    }

    /// Does LSET or RSET by the content of another variable. A number has no bytes.
    #[inline(never)]
    pub(crate) fn justify_by(&mut self, side: Side, name: &Name, by: &Name) -> Move
        ensures { (stack : List Value) → Acts
            (justifies side name.now (held by.now (seen self.old)) (seen self.old)
            then passed stack)
            (seen self.new) (told self.new.exit stack result) }
    {
        match self.justified_by(side, *name, *by) {
            Ok(()) => Move::Pass(0),
            Err(stop) => self.go_out(exit_at(&stop)),
        }
    }

    fn justified_by(&mut self, side: Side, name: Name, by: Name) -> Result<(), Stop>
        ensures act { IfSome (answered_by result self.new.storage) (λ left.
            justify_act side name (text (held by (seen self.old))) self.old.storage ≡ left) }
        ensures rest { seen self.new ≡ in_storage.with_part (seen self.old) self.new.storage }
    {
        if by.text {
            self.storage.justify_by(self.alloc, side, name, by)
        } else {
            self.storage.justify(self.alloc, side, name, &[])
        }
    }
}
