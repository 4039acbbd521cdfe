//! Variables.

ghost use Rattle.std.specs.Prelude.{◌≡◌};
ghost use Rattle.job_memory.specs.declared.contents.Content.TheVariants as content;
ghost use Rattle.job_memory.specs.Answers.{Stores, Overwrites, Renumbers};
ghost use Rattle.job_memory.specs.Contents.{size_in, number_in, text_in};
ghost use Rattle.job_memory.specs.Memory.{variable, store, room_of};
ghost use Rattle.job_memory.specs.Slots.{IsOrdered};

use crate::contents::{Content, MOST_ROOM, number_of, size, text_of};
use crate::memory::Memory;
use crate::slots::Slots;
use basic_tree::Name;
use basic_values::{Halt, Int, Text, Trouble};
use record_fields::{Buffers, Part};

impl Memory {
    /// Returns the number of a variable: 0 if nothing is stored.
    pub fn number(&self, name: Name) -> Int
        ensures { result ≡ number_in (variable name self.now) }
    {
        match self.variables.get(name) {
            Some(content) => number_of(content),
            None => Int::new(0),
        }
    }

    /// Returns the string of a variable, lent: its own, or its part of a channel's buffer. It is
    /// empty if nothing is stored.
    pub fn text<'a>(&'a self, name: Name, buffers: &'a Buffers) -> &'a [u8]
        ensures { result.now ≡ text_in buffers.entry.now (variable name self.entry.now) }
    {
        match self.variables.get(name) {
            Some(Content::Fielded { channel, part }) => buffers.part(*channel, *part),
            Some(content) => text_of(content),
            None => &[],
        }
    }

    /// Stores a number.
    pub fn set_number(&mut self, name: Name, value: Int) -> Result<(), Trouble<Halt>>
        ensures { Stores name (content.Number value) self.old self.new result }
    {
        if overwrite(&mut self.variables, name, value) {
            return Ok(());
        }
        self.put(name, Content::Number(value))
    }

    /// Stores a string of its own.
    pub fn set_text(&mut self, name: Name, value: Text) -> Result<(), Trouble<Halt>>
        ensures { Stores name (content.Own value) self.old self.new result }
    {
        self.put(name, Content::Own(value))
    }

    /// Makes a part of a channel's buffer the string of a variable.
    pub fn bind_part(&mut self, name: Name, channel: u8, part: Part) -> Result<(), Trouble<Halt>>
        ensures { Stores name (content.Fielded channel part) self.old self.new result }
    {
        self.put(name, Content::Fielded { channel, part })
    }

    /// Stores a content that does not replace a number. It stays out of line, so that a number that
    /// replaces another is stored without a call.
    #[inline(never)]
    fn put(&mut self, name: Name, content: Content) -> Result<(), Trouble<Halt>>
        ensures { Stores name content self.old self.new result }
    {
        let room = self.room_with(name, &content);
        if room > MOST_ROOM {
            return Err(Trouble::Refused(Halt::RoomFull));
        }
        self.variables.insert(name, content)?;
        self.room = room;
        Ok(())
    }

    /// Returns the total size as it would be with this content stored.
    fn room_with(&self, name: Name, content: &Content) -> usize
        ensures { result ≡ room_of (store name content.now self.now) }
    {
        self.room - self.size_at(name) + size(content)
    }

    /// Returns the size of a variable.
    fn size_at(&self, name: Name) -> usize
        ensures { result ≡ size_in (variable name self.now) }
    {
        match self.variables.get(name) {
            Some(content) => size(content),
            None => 0,
        }
    }
}

/// Replaces a number by another of the same size. Returns whether there was one; if not, nothing
/// changes.
fn overwrite(variables: &mut Slots<Content>, name: Name, value: Int) -> bool
    requires { IsOrdered variables.old }
    ensures overwrites { Overwrites name value variables.old variables.new result }
    ensures still_ordered { IsOrdered variables.new }
{
    match variables.get_mut(name) {
        Some(place) => renumber(place, value),
        None => false,
    }
}

/// Replaces a number by another. Returns whether the content was one.
fn renumber(place: &mut Content, value: Int) -> bool
    ensures { Renumbers value place.old place.new result }
{
    match place {
        Content::Number(number) => {
            *number = value;
            true
        }
        Content::Own(_) | Content::Fielded { .. } => false,
    }
}
