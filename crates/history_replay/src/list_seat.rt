//! A seat that replies what the entries of a job say.

ghost use Rattle.std.specs.Prelude.{◌≡◌, ◌^◌, ◌<◌, ◌↔◌, IsTrue, IfOk, length};
ghost use Rattle.history_replay.specs.Disputes.{entry_position};
ghost use Rattle.history_replay.specs.Lists.{AreLater, IsNext, EndsSeat, lister, heard, unheard};

use crate::disputes::Dispute;
use crate::requests::same_request;
use basic_values::NoMemory;
use monitor_calls::{Entry, Reply, ReplyRoom, Request, RunRecord};
use monitor_core::Seat;
use std::alloc::Global;
use std::marker::Model;

/// A seat that gives the replies of a job's entries, one after another, as long as it is asked what
/// they ask. From then on it replies Expired, and keeps what it was asked.
#[derive(Drop)]
pub(crate) struct ListSeat<'a> {
    history: &'a [Entry],
    later: &'a [usize],
    job: u32,
    /// The place of the job's next entry.
    next: usize,
    /// How many of its entries were given.
    given: usize,
    others: Vec<(Request, Reply)>,
}

impl<'a> Model for ListSeat<'a> {
    ghost use Rattle.history_replay.specs.Lists.{Listed, IsAtNext};

    ghost Value = { Listed };

    ghost view = { λ s. record {
      history = s.history.now;
      job = s.job;
      given = s.given;
      others = s.others.items;
    } };

    ghost invariant = { λ s. IsAtNext (record {
      history = s.history.now;
      job = s.job;
      given = s.given;
      others = s.others.items;
    }) s.next s.later.now };
}

impl<'a> ListSeat<'a> {
    /// Returns a seat that has given none of the job's entries, of which the first is at this
    /// place. It takes no memory.
    pub(crate) fn new(
        alloc: Global,
        history: &'a [Entry],
        later: &'a [usize],
        job: u32,
        first: usize,
    ) -> ListSeat<'a>
        requires first { first ≡ entry_position job 0 history.now }
        requires small { length history.now < 2 ^ 63 }
        requires later { AreLater 0 history.now later.now }
        ensures { result ≡ unheard history.now job }
    {
        ListSeat {
            history,
            later,
            job,
            next: first,
            given: 0,
            others: Vec::new(alloc),
        }
    }

    /// Returns whether the job's next entry asks this, and it has asked nothing else before.
    fn is_next(&self, request: &Request) -> bool
        ensures { IsTrue result ↔ IsNext self.now request.now }
    {
        if !self.others.is_empty() {
            return false;
        }
        match self.history.get(self.next) {
            Some(entry) => same_request(&entry.request, request),
            None => false,
        }
    }

    /// Returns where the job departed from its entries, if it did.
    pub(crate) fn departure(&self) -> Option<Dispute>
        ensures { EndsSeat self.now result }
    {
        if self.others.is_empty() && self.next == self.history.len() {
            return None;
        }
        Some(Dispute::Meaning {
            job: self.job,
            place: self.given,
            entry: self.next,
        })
    }
}

impl<'a> Seat for ListSeat<'a> {
    type Who = (RunRecord, u32);

    ghost who = { lister };

    ghost pairs = { heard };

    fn ask(&mut self, alloc: Global, request: Request) -> Result<Reply, NoMemory> {
        if !self.is_next(&request) {
            self.others.push((request, Reply::Expired))?;
            return Ok(Reply::Expired);
        }
        let reply = copied(alloc, &self.history[self.next].reply)?;
        self.next = self.later[self.next];
        self.given += 1;
        Ok(reply)
    }
}

fn copied(alloc: Global, reply: &Reply) -> Result<Reply, NoMemory>
    ensures { IfOk result (λ copy. copy ≡ reply.now) }
{
    let room = ReplyRoom::of(alloc, reply)?;
    Ok(reply.again(room))
}
