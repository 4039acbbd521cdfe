//! The receivers.

ghost use Rattle.std.specs.Prelude.{◌≡◌, ◌≤◌, ◌<◌, ◌||◌, ◌==◌, ◌++◌, [], ◌∷◌, length, slice_get};
ghost use Rattle.std.specs.Prelude.{option_copied, Some, position, bytes_eq, not, false, true};
ghost use Rattle.std.specs.Prelude.{filter, IfOk, OnOk, OnErr};
ghost use Rattle.circular_buffer.specs.Buffer.{buffer};
ghost use Rattle.monitor_model.specs.Refusals.{RefusedBy, RefusedByOrNoMemory};
ghost use Rattle.monitor_model.specs.Queues.{is_receiver, has_receiver, is_full, letters_of};
ghost use Rattle.monitor_model.specs.Queues.{declare, drop_receiver, send, receive};
ghost use Rattle.message_queues.specs.Calls.{declare_refusals, send_refusals, receive_refusals};

use basic_values::errors::{NAME_EXISTS, NO_BUFFER_SPACE, NO_SUCH_FILE};
use basic_values::{Fault, NoMemory, Trouble};
use circular_buffer::HeapCircularBuffer;
use monitor_calls::Short;
use monitor_model::Letter;
use std::alloc::Global;
use std::marker::Model;

/// The name of a receiver, its job, and a ring buffer for as many letters as it takes.
#[derive(Drop)]
pub(crate) struct Queue {
    name: Short,
    job: u32,
    letters: HeapCircularBuffer<Letter>,
}

/// The receivers in the order of declaring.
#[derive(Drop)]
pub struct Queues {
    alloc: Global,
    queues: Vec<Queue>,
}

impl Model for Queues {
    ghost use Rattle.std.specs.Prelude.{List};
    ghost use Rattle.monitor_model.specs.Queues.{Receiver, AreQueues};
    ghost use Rattle.message_queues.specs.Kept.{shown_all};

    ghost Value = { List Receiver };

    ghost view = { λ q. shown_all q.queues.items };

    ghost invariant = { λ q. AreQueues (shown_all q.queues.items) };
}

impl Queues {
    /// Returns the state without receivers.
    pub fn new(alloc: Global) -> Queues
        ensures { result ≡ [] }
    {
        Queues {
            alloc,
            queues: Vec::new(alloc),
        }
    }

    /// Declares a receiver for a job, and takes the memory for this many letters.
    pub fn declare(&mut self, job: u32, name: Short, most: u8) -> Result<(), Trouble<Fault>>
        requires least { 1 ≤ most }
        requires most { most ≤ 32 }
        ensures refused { RefusedByOrNoMemory (declare_refusals self.old job name) result }
        ensures ok { OnOk result (self.new ≡ declare self.old job name most) }
        ensures err { OnErr result (self.new ≡ self.old) }
    {
        if self.is_receiver(&name) || self.has_receiver(job) {
            return Err(Trouble::Refused(Fault::new(NAME_EXISTS)));
        }
        self.add(job, name, most)?;
        Ok(())
    }

    /// Puts a letter after those that wait at a name. It takes no memory.
    pub fn send(&mut self, name: &Short, message: Letter) -> Result<(), Fault>
        ensures refused { RefusedBy (send_refusals self.old name.now) result }
        ensures ok { OnOk result (self.new ≡ send self.old name.now message) }
        ensures err { OnErr result (self.new ≡ self.old) }
    {
        if !self.is_receiver(name) {
            return Err(Fault::new(NO_SUCH_FILE));
        }
        if self.is_full(name) {
            return Err(Fault::new(NO_BUFFER_SPACE));
        }
        self.post(name, message);
        Ok(())
    }

    /// Returns the oldest letter that waits for a job.
    pub fn oldest(&self, job: u32) -> Option<&Letter>
        ensures { option_copied result ≡ slice_get (letters_of self.now job) 0 }
    {
        match place_of(self.queues.as_slice(), job) {
            Some(place) => {
                let queue = &self.queues[place];
                queue.letters.front()
            }
            None => None,
        }
    }

    /// Takes the oldest letter that waits for a job. It takes no memory.
    pub fn receive(&mut self, job: u32) -> Result<Letter, Fault>
        ensures refused { RefusedBy (receive_refusals self.old job) result }
        ensures letter { IfOk result (λ l. slice_get (letters_of self.old job) 0 ≡ Some l) }
        ensures ok { OnOk result (self.new ≡ receive self.old job) }
        ensures err { OnErr result (self.new ≡ self.old) }
    {
        match self.take(job) {
            Some(letter) => Ok(letter),
            None => Err(Fault::new(NO_SUCH_FILE)),
        }
    }

    /// Removes the receiver of a job, and the letters that wait there.
    pub fn remove(&mut self, job: u32)
        ensures { self.new ≡ drop_receiver self.old job }
    {
        drop_of(&mut self.queues, job);
    }

    fn is_receiver(&self, name: &Short) -> bool
        ensures { result ≡ is_receiver self.now name.now }
    {
        place_at(self.queues.as_slice(), name).is_some()
    }

    fn has_receiver(&self, job: u32) -> bool
        ensures { result ≡ has_receiver self.now job }
    {
        place_of(self.queues.as_slice(), job).is_some()
    }

    /// Returns whether as many letters wait at the name as it takes.
    fn is_full(&self, name: &Short) -> bool
        ensures { result ≡ is_full self.now name.now }
    {
        match place_at(self.queues.as_slice(), name) {
            Some(place) => {
                let queue = &self.queues[place];
                queue.letters.capacity() <= queue.letters.len()
            }
            None => true,
        }
    }

    fn add(&mut self, job: u32, name: Short, most: u8) -> Result<(), NoMemory>
        requires least { 1 ≤ most }
        requires most { most ≤ 32 }
        requires free { (is_receiver self.old name || has_receiver self.old job) ≡ false }
        ensures ok { OnOk result (self.new ≡ declare self.old job name most) }
        ensures err { OnErr result (self.new ≡ self.old) }
    {
        let letters = HeapCircularBuffer::with_capacity(self.alloc, most as usize)?;
        self.queues.push(Queue { name, job, letters })?;
        Ok(())
    }

    fn post(&mut self, name: &Short, message: Letter)
        requires there { is_receiver self.old name.now ≡ true }
        requires room { is_full self.old name.now ≡ false }
        ensures { self.new ≡ send self.old name.now message }
    {
        if let Some(place) = place_at(self.queues.as_slice(), name) {
            let queue = &mut self.queues[place];
            push(&mut queue.letters, message);
        }
    }

    fn take(&mut self, job: u32) -> Option<Letter>
        ensures letter { result ≡ slice_get (letters_of self.old job) 0 }
        ensures taken { self.new ≡ receive self.old job }
    {
        match place_of(self.queues.as_slice(), job) {
            Some(place) => {
                let queue = &mut self.queues[place];
                queue.letters.pop_front()
            }
            None => None,
        }
    }
}

/// Returns the place of the receiver of a name.
fn place_at(queues: &[Queue], name: &Short) -> Option<usize>
    ensures { result ≡ position (λ queue. bytes_eq queue.name name.now) queues.now }
{
    queues
        .iter()
        .position(|queue| queue.name.as_bytes() == name.as_bytes())
}

/// Returns the place of the receiver of a job.
fn place_of(queues: &[Queue], job: u32) -> Option<usize>
    ensures { result ≡ position (λ queue. queue.job == job) queues.now }
{
    queues.iter().position(|queue| queue.job == job)
}

/// Puts a letter after those of a ring that is not full.
fn push(letters: &mut HeapCircularBuffer<Letter>, message: Letter)
    requires { length letters.old.items < letters.old.capacity }
    ensures { letters.new ≡ buffer (letters.old.items ++ message ∷ []) letters.old.capacity }
{
    letters.push_back(message);
}

/// Removes the queue of a job. The others keep their order.
fn drop_of(queues: &mut Vec<Queue>, job: u32)
    ensures { queues.new.items ≡ filter (λ queue. not (queue.job == job)) queues.old.items }
{
    queues.retain(|queue| queue.job != job);
}
