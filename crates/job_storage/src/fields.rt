//! FIELD, LSET and RSET.

ghost use Rattle.std.specs.Prelude.{◌≡◌, IfOk, IfSome, Some, length, map};
ghost use Rattle.job_memory.specs.declared.contents.Content.TheVariants as content;
ghost use Rattle.job_memory.specs.Contents.{text_in};
ghost use Rattle.job_memory.specs.Memory.{store, variable};
ghost use Rattle.job_model.specs.Follow.{answered_by};
ghost use Rattle.program_model.specs.FileActs.{is_tested, bound, binds, field_act, fields_laid};
ghost use Rattle.program_model.specs.Job.{number};
ghost use Rattle.program_model.specs.Storage as held;
ghost use Rattle.record_fields.specs.Buffers.{IsChannel, buffer_of};
ghost use Rattle.record_fields.specs.Layouts.{laid_out};
ghost use Rattle.record_fields.specs.Writing.{justified};
ghost use Rattle.job_storage.specs.Justifying.{justify_act};

use crate::storage::Storage;
use crate::values::{copied, numbers};
use basic_tree::Name;
use basic_values::{Int, NoMemory, Series, Stop, Text, Trouble};
use program_model::Value;
use record_fields::{Part, Side, layout, lset, rset};
use std::alloc::Global;

impl Storage {
    /// Binds each variable to the next part of the channel's buffer, by the widths in bytes. The
    /// manual's FIELD. Errors 46 and 9 of the channel. Error 63 of the widths binds nothing. If
    /// memory for a variable runs out, those before it stay bound.
    pub(crate) fn field(
        &mut self,
        alloc: Global,
        names: &[Name],
        channel: Int,
        widths: &[Value],
    ) -> Result<(), Stop>
        ensures { IfSome (answered_by result self.new) (λ left.
            field_act names.now channel (map number widths.now) self.old ≡ left) }
    {
        match self.channels.opened(channel) {
            Ok(channel) => self.field_on(alloc, names, channel, widths),
            Err(fault) => Err(Stop::Fault(fault)),
        }
    }

    fn field_on(
        &mut self,
        alloc: Global,
        names: &[Name],
        channel: u8,
        widths: &[Value],
    ) -> Result<(), Stop>
        requires { IsChannel channel }
        ensures { IfSome (answered_by result self.new) (λ left.
            fields_laid names.now (map number widths.now) channel self.old ≡ left) }
    {
        let parts = self.parts_for(alloc, channel, widths)?;
        self.bind_all(channel, names, parts.as_slice())
    }

    /// Returns the parts of the channel's buffer that have these widths.
    fn parts_for(&self, alloc: Global, channel: u8, widths: &[Value]) -> Result<Series<Part>, Stop>
        requires { IsChannel channel }
        ensures { (s : held.Storage) → IfSome (answered_by result s) (λ left.
            is_tested (laid_out (length (buffer_of channel self.now.files.buffers))
            (map number widths.now)) s ≡ left) }
    {
        let widths = numbers(alloc, widths)?;
        let bytes = self.buffers.buffer(channel).len() as u16;
        match layout(alloc, widths.as_slice(), bytes) {
            Ok(parts) => Ok(Series::from_vec(parts)),
            Err(Trouble::Refused(fault)) => Err(Stop::Fault(fault)),
            Err(Trouble::NoMemory) => Err(Stop::NoMemory),
        }
    }

    /// Binds the variables from left to right, each to its part.
    fn bind_all(&mut self, channel: u8, names: &[Name], parts: &[Part]) -> Result<(), Stop>
        ensures { IfSome (answered_by result self.new) (λ left.
            binds channel names.now parts.now self.old ≡ left) }
    {
        for (place, name) in names.iter().enumerate() {
            match parts.get(place) {
                Some(part) => self.bind(channel, *name, *part)?,
                None => return Ok(()),
            }
        }
        Ok(())
    }

    fn bind(&mut self, channel: u8, name: Name, part: Part) -> Result<(), Stop>
        ensures { IfSome (answered_by result self.new) (λ left.
            bound (store name (content.Fielded channel part) self.old.memory) self.old ≡ left) }
    {
        match self.memory.bind_part(name, channel, part) {
            Ok(()) => Ok(()),
            Err(Trouble::Refused(halt)) => Err(Stop::Halt(halt)),
            Err(Trouble::NoMemory) => Err(Stop::NoMemory),
        }
    }

    /// Justifies a string for LSET or RSET: a field changes in its buffer, and an own string keeps
    /// its length. If nothing is stored, nothing changes.
    pub fn justify(
        &mut self,
        alloc: Global,
        side: Side,
        name: Name,
        text: &[u8],
    ) -> Result<(), Stop>
        ensures { IfSome (answered_by result self.new) (λ left.
            justify_act side name text.now self.old ≡ left) }
    {
        if let Some((channel, part)) = self.memory.place_of(name) {
            self.buffers.set_part(channel, part, text, side);
            return Ok(());
        }
        match self.memory.own_length(name) {
            Some(length) => self.justify_own(alloc, side, name, length, text),
            None => Ok(()),
        }
    }

    /// Replaces an own string by another of this length.
    fn justify_own(
        &mut self,
        alloc: Global,
        side: Side,
        name: Name,
        length: usize,
        text: &[u8],
    ) -> Result<(), Stop>
        ensures { IfSome (answered_by result self.new) (λ left.
            bound (store name (content.Own (justified side length text.now)) self.old.memory)
            self.old ≡ left) }
    {
        let text = justified(alloc, side, length, text)?;
        match self.memory.set_text(name, text) {
            Ok(()) => Ok(()),
            Err(Trouble::Refused(halt)) => Err(Stop::Halt(halt)),
            Err(Trouble::NoMemory) => Err(Stop::NoMemory),
        }
    }

    /// Justifies the string of a variable for LSET or RSET. Between fields of one channel it takes
    /// no memory, and makes no copy.
    pub fn justify_by(
        &mut self,
        alloc: Global,
        side: Side,
        name: Name,
        by: Name,
    ) -> Result<(), Stop>
        ensures { IfSome (answered_by result self.new) (λ left.
            justify_act side name
            (text_in self.old.files.buffers (variable by self.old.memory)) self.old ≡ left) }
    {
        if let Some((channel, to, from)) = self.in_one_buffer(name, by) {
            self.buffers.shift(channel, from, to, side);
            return Ok(());
        }
        let text = copied(alloc, self.text(by))?;
        self.justify(alloc, side, name, text.as_bytes())
    }

    /// Returns the parts in which two variables are fielded, if both are in the buffer of one
    /// channel.
    fn in_one_buffer(&self, name: Name, by: Name) -> Option<(u8, Part, Part)>
        ensures { IfSome result (λ found.
            (variable name self.now.memory ≡ Some (content.Fielded found.0 found.1))
            × (variable by self.now.memory ≡ Some (content.Fielded found.0 found.2))) }
    {
        let (channel, to) = self.memory.place_of(name)?;
        let (other, from) = self.memory.place_of(by)?;
        if channel == other {
            Some((channel, to, from))
        } else {
            None
        }
    }
}

/// Returns a string of this length, justified. Only memory may run out.
fn justified(alloc: Global, side: Side, length: usize, text: &[u8]) -> Result<Text, NoMemory>
    ensures { IfOk result (λ made. made ≡ justified side length text.now) }
{
    let mut bytes = vec![in alloc; b' '; length]?;
    match side {
        Side::Left => lset(bytes.as_mut_slice(), text),
        Side::Right => rset(bytes.as_mut_slice(), text),
    }
    copied(alloc, bytes.as_slice())
}
