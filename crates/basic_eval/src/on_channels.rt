//! PRINT # and PRINT USING, INPUT # and INPUT LINE #: channels by the numbers of programs; 0 is the
//! terminal.

ghost use Rattle.std.specs.Prelude.{◌≡◌, List, drop, replicate, IfOk};
ghost use Rattle.basic_values.specs.Texts.{space};
ghost use Rattle.channels.specs.Files.{shown_count};
ghost use Rattle.job_model.specs.Act.{◌then◌};
ghost use Rattle.job_model.specs.Follow.{Follows};
ghost use Rattle.job_model.specs.Play as play;
ghost use Rattle.polish_code.specs.Walk.{passed, pushed, taken, top};
ghost use Rattle.program_model.specs.declared.values.Value.{Value};
ghost use Rattle.program_model.specs.declared.values.Value.TheVariants as value;
ghost use Rattle.program_model.specs.Input.{line_on};
ghost use Rattle.program_model.specs.Job.{number, text};
ghost use Rattle.program_model.specs.OnChannels.{column_count, column_on, is_terminal};
ghost use Rattle.program_model.specs.Printing.{value_bytes};
ghost use Rattle.program_model.specs.PrintingOnChannels.{output_tested, tab_on, zone_on, writes_on};
ghost use Rattle.program_model.specs.PrintingOnChannels.{writes_used};
ghost use Rattle.terminal_line.specs.Columns.{tab_text, zone_text};
ghost use Rattle.basic_eval.specs.Acting.{Acts, left_by, seen, told};

use crate::exits::{Exit, Move};
use crate::stack::Stack;
use crate::state::Running;
use crate::using::used_bytes;
use crate::values::{number_below, take_number, take_top, text_below};
use crate::variables::exit_at;
use basic_values::{Fault, Int, NoMemory, Text, Trouble};
use job_storage::copied;
use monitor_calls::Port;
use program_model::Value;
use record_fields::natural;
use std::alloc::Global;
use terminal_line::{LAST_ZONE, MOST_COLUMN, ZONE_WIDTH};

impl Running {
    /// Tests whether the channel of the last value, which stays, can be written.
    #[inline(never)]
    pub(crate) fn test_output(&mut self, stack: &Stack<Value>) -> Move
        ensures { Acts
            (output_tested (number (top stack.now)) (seen self.old) then passed stack.now)
            (seen self.new) (told self.new.exit stack.now result) }
    {
        match self.column_on(number_below(0, stack)) {
            Ok(_) => Move::Pass(0),
            Err(fault) => self.go_out(Trouble::Refused(Exit::Fault(fault))),
        }
    }

    /// Puts on the stack the bytes that move to the column of the last value, on the channel below
    /// it, which stays.
    #[inline(never)]
    pub(crate) fn tab_text(&mut self, stack: &mut Stack<Value>) -> Move
        ensures { Acts
            (tab_on (number (top (drop 1 stack.old))) (number (top stack.old)) (seen self.old)
            then λ spaces j. pushed (drop 1 stack.old) (value.Text spaces) j)
            (seen self.new) (told self.new.exit stack.new result) }
    {
        let wanted = take_number(stack);
        match self.column_on(number_below(0, stack)) {
            Ok(column) => match tab_text(self.alloc, wanted, column_count(column)) {
                Ok(text) => self.push(Value::Text(text), stack),
                Err(NoMemory) => self.go_out(Trouble::NoMemory),
            },
            Err(fault) => self.go_out(Trouble::Refused(Exit::Fault(fault))),
        }
    }

    /// Puts on the stack the bytes that move to the next zone, on the channel of the last value,
    /// which stays.
    #[inline(never)]
    pub(crate) fn zone_text(&mut self, stack: &mut Stack<Value>) -> Move
        ensures { Acts
            (zone_on (number (top stack.old)) (seen self.old)
            then λ spaces j. pushed stack.old (value.Text spaces) j)
            (seen self.new) (told self.new.exit stack.new result) }
    {
        match self.column_on(number_below(0, stack)) {
            Ok(column) => match zone_text(self.alloc, column_count(column)) {
                Ok(text) => self.push(Value::Text(text), stack),
                Err(NoMemory) => self.go_out(Trouble::NoMemory),
            },
            Err(fault) => self.go_out(Trouble::Refused(Exit::Fault(fault))),
        }
    }

    /// Returns the column of the next byte on a channel, from 0 on. Error 46 outside 0 to 12, and 9
    /// if it is not open.
    pub(crate) fn column_on(&self, channel: Int) -> Result<Int, Fault>
        ensures { result ≡ column_on channel (seen self.now) }
    {
        if is_terminal(channel) {
            Ok(shown_count(self.screen.column()))
        } else {
            self.storage.column(channel)
        }
    }

    /// Writes the last value on the channel below it, which stays.
    #[inline(never)]
    pub(crate) fn write_last<P: Port>(&mut self, stack: &mut Stack<Value>, port: &mut P) -> Move
        ensures { (clock : play.Clock) → Follows P.who P.log port.old port.new clock clock
            (writes_on (number (top (drop 1 stack.old))) (value_bytes (top stack.old))
            (seen self.old) then passed (drop 1 stack.old))
            (left_by (told self.new.exit stack.new result) (seen self.new)) }
    {
        let value = take_top(stack);
        let channel = number_below(0, stack);
        match value {
            Value::Number(number) => self.write_on(channel, number.printed().as_slice(), port),
            Value::Text(text) => self.write_on(channel, text.as_bytes(), port),
        }
    }

    /// Writes bytes on a channel.
    fn write_on<P: Port>(&mut self, channel: Int, bytes: &[u8], port: &mut P) -> Move
        ensures { (stack : List Value) (clock : play.Clock)
            → Follows P.who P.log port.old port.new clock clock
            (writes_on channel bytes.now (seen self.old) then passed stack)
            (left_by (told self.new.exit stack result) (seen self.new)) }
    {
        if is_terminal(channel) {
            return self.print_bytes(bytes);
        }
        match self.storage.write_on(self.alloc, port, channel, bytes) {
            Ok(()) => Move::Pass(0),
            Err(stop) => self.go_out(exit_at(&stop)),
        }
    }

    /// Writes the last `count` values for PRINT USING, by the format below them, on the channel
    /// below that.
    #[inline(never)]
    pub(crate) fn write_using<P: Port>(
        &mut self,
        count: u32,
        ends_line: bool,
        stack: &mut Stack<Value>,
        port: &mut P,
    ) -> Move
        ensures { (clock : play.Clock) → Follows P.who P.log port.old port.new clock clock
            (writes_used ends_line (number (top (drop 1 (drop count stack.old))))
            (text (top (drop count stack.old))) (taken count stack.old) (seen self.old)
            then passed (drop 2 (drop count stack.old)))
            (left_by (told self.new.exit stack.new result) (seen self.new)) }
    {
        let count = count as usize;
        let channel = number_below(count + 1, stack);
        let format = text_below(count, stack);
        match used_bytes(self.alloc, ends_line, format, stack.last(count)) {
            Ok(bytes) => {
                stack.drop_last(count + 2);
                self.write_on(channel, bytes.as_slice(), port)
            }
            Err(Trouble::Refused(fault)) => self.go_out(Trouble::Refused(Exit::Fault(fault))),
            Err(Trouble::NoMemory) => self.go_out(Trouble::NoMemory),
        }
    }

    /// Replaces the last value, a channel, by the channel's next line.
    #[inline(never)]
    pub(crate) fn line_on<P: Port>(&mut self, stack: &mut Stack<Value>, port: &mut P) -> Move
        ensures { (clock : play.Clock) → Follows P.who P.log port.old port.new clock clock
            (line_on (number (top stack.old)) (seen self.old)
            then λ line j. pushed (drop 1 stack.old) (value.Text line) j)
            (left_by (told self.new.exit stack.new result) (seen self.new)) }
    {
        let channel = take_number(stack);
        if is_terminal(channel) {
            return self.push_key_line(stack, port);
        }
        match self.storage.read_line(self.alloc, port, channel) {
            Ok(line) => self.push(Value::Text(line), stack),
            Err(stop) => self.go_out(exit_at(&stop)),
        }
    }
}

/// Returns whether the number of a channel is the terminal's.
fn is_terminal(channel: Int) -> bool
    ensures { result ≡ is_terminal channel }
{
    channel.value() == 0
}

/// Returns a column as a program sees it.
fn shown_count(column: u32) -> Int
    ensures { result ≡ shown_count column }
{
    Int::new(column.min(MOST_COLUMN) as i16)
}

/// Returns a column as a count of bytes.
fn column_count(column: Int) -> u16
    ensures { result ≡ column_count column }
{
    natural(column).unwrap_or(0)
}

/// Returns spaces up to a column, if this one is less.
fn tab_text(alloc: Global, wanted: Int, column: u16) -> Result<Text, NoMemory>
    ensures { IfOk result (λ text. text ≡ tab_text wanted column) }
{
    match natural(wanted) {
        Some(wanted) => spaces(alloc, wanted.saturating_sub(column)),
        None => Ok(Text::empty(alloc)),
    }
}

/// Returns spaces up to the next zone, or CR and LF in the last one.
fn zone_text(alloc: Global, column: u16) -> Result<Text, NoMemory>
    ensures { IfOk result (λ text. text ≡ zone_text column) }
{
    let column = u32::from(column);
    if column >= LAST_ZONE {
        copied(alloc, b"\r\n")
    } else {
        spaces(alloc, (ZONE_WIDTH - column % ZONE_WIDTH) as u16)
    }
}

/// Returns this many spaces. Only memory may run out.
fn spaces(alloc: Global, count: u16) -> Result<Text, NoMemory>
    ensures { IfOk result (λ text. text ≡ replicate count space) }
{
    let spaces = vec![in alloc; b' '; count as usize]?;
    copied(alloc, spaces.as_slice())
}
