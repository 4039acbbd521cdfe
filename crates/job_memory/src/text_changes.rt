//! Strings that are changed in place. This needs an own string, because a part of a channel's
//! buffer is shared.

ghost use Rattle.std.specs.Prelude.{◌≡◌, ◌+◌, Ok, Some, IfOk, IfSome, if◌then◌else◌, length};
ghost use Rattle.std.specs.Option.{is_some};
ghost use Rattle.job_memory.specs.declared.contents.Content.TheVariants as content;
ghost use Rattle.job_memory.specs.Contents.{size};
ghost use Rattle.job_memory.specs.Memory.{variables_size};
ghost use Rattle.job_memory.specs.Slots.{IsOrdered};
ghost use Rattle.job_memory.specs.TextChanges.{Appends, ChangesOwn, Cuts, among_variables};
ghost use Rattle.job_memory.specs.TextChanges.{lengthened, one_variable, shortened};

use crate::contents::{Content, MOST_ROOM};
use crate::memory::Memory;
use crate::slots::Slots;
use basic_tree::Name;
use basic_values::{Halt, MOST_BYTES, Text, Trouble};

impl Memory {
    /// Puts bytes at the end of the own string of a variable, as a store of both would, and returns
    /// whether it has one. If not, nothing changes.
    pub fn append(&mut self, name: Name, more: &[u8]) -> Result<bool, Trouble<Halt>>
        ensures { Appends name more.now self.old self.new result }
    {
        match append_in(&mut self.variables, name, more, MOST_ROOM - self.room) {
            Ok(true) => {
                self.room += more.len();
                Ok(true)
            }
            Ok(false) => Ok(false),
            Err(why) => Err(why),
        }
    }

    /// Keeps `count` bytes of the own string of a variable, after the first `before`, or as many as
    /// there are. To the job that is a store of these. Returns whether it has such a string; if
    /// not, nothing changes. Takes no memory.
    pub fn cut(&mut self, name: Name, before: usize, count: usize) -> bool
        ensures { Cuts name before count self.old self.new result }
    {
        match cut_in(&mut self.variables, name, before, count) {
            Some(fewer) => {
                self.room -= fewer;
                true
            }
            None => false,
        }
    }
}

/// Puts bytes at the end of the own string of one of these variables, if they may take that many
/// bytes more.
fn append_in(
    variables: &mut Slots<Content>,
    name: Name,
    more: &[u8],
    spare: usize,
) -> Result<bool, Trouble<Halt>>
    requires { IsOrdered variables.old }
    ensures changes { ChangesOwn (among_variables name) (variables_size variables.old + spare)
        (lengthened more.now) variables.old variables.new result }
    ensures grows { IfOk result (λ done. variables_size variables.new
        ≡ variables_size variables.old + (if done then length more.now else 0)) }
    ensures still_ordered { IsOrdered variables.new }
{
    match variables.get_mut(name) {
        Some(place) => lengthen(place, more, spare),
        None => Ok(false),
    }
}

/// Keeps a part of the own string of one of these variables. Returns how many bytes fewer there
/// are; none if it has no such string.
fn cut_in(variables: &mut Slots<Content>, name: Name, before: usize, count: usize) -> Option<usize>
    requires { IsOrdered variables.old }
    ensures changes { ChangesOwn (among_variables name) (variables_size variables.old)
        (shortened before count) variables.old variables.new (Ok (is_some result)) }
    ensures shrinks { IfSome result (λ fewer.
        variables_size variables.new + fewer ≡ variables_size variables.old) }
    ensures still_ordered { IsOrdered variables.new }
{
    match variables.get_mut(name) {
        Some(place) => shorten(place, before, count),
        None => None,
    }
}

/// Puts bytes at the end of a string, if it may take that many bytes more, and returns whether
/// there was one.
fn lengthen(place: &mut Content, more: &[u8], spare: usize) -> Result<bool, Trouble<Halt>>
    ensures { ChangesOwn one_variable (size place.old + spare)
        (lengthened more.now) (Some place.old) (Some place.new) result }
{
    match place {
        Content::Own(text) => append_to(text, more, spare),
        Content::Number(_) | Content::Fielded { .. } => Ok(false),
    }
}

fn append_to(text: &mut Text, more: &[u8], spare: usize) -> Result<bool, Trouble<Halt>>
    ensures { ChangesOwn one_variable (size (content.Own text.old) + spare) (lengthened more.now)
        (Some (content.Own text.old)) (Some (content.Own text.new)) result }
{
    if more.len() > MOST_BYTES - text.as_bytes().len() {
        return Err(Trouble::Refused(Halt::TooLong));
    }
    if more.len() > spare {
        return Err(Trouble::Refused(Halt::RoomFull));
    }
    text.append(more)?;
    Ok(true)
}

/// Keeps a part of a string, and returns how many bytes fewer there are; none if there is no
/// string.
fn shorten(place: &mut Content, before: usize, count: usize) -> Option<usize>
    ensures changes { ChangesOwn one_variable (size place.old) (shortened before count)
        (Some place.old) (Some place.new) (Ok (is_some result)) }
    ensures shrinks { IfSome result (λ fewer. size place.new + fewer ≡ size place.old) }
{
    match place {
        Content::Own(text) => {
            let length = text.as_bytes().len();
            text.cut(before, count);
            Some(length - text.as_bytes().len())
        }
        Content::Number(_) | Content::Fielded { .. } => None,
    }
}
