//! The tally of a drill.

ghost use Rattle.std.specs.Prelude.{◌≡◌, ◌<◌, ◌^◌, length, IfOk, option_map};
ghost use Rattle.drill_deck.specs.Tallies.{page_put, counter, puts_in, sum_in, drill_line};

use basic_values::NoMemory;
use itoa::Buffer;
use monitor_calls::{Entry, Page, Reply, Request};
use std::alloc::Global;

/// How many Puts were done, and the number in the first two bytes of the last page that was put.
#[derive(Clone, Copy, Debug, PartialEq, Eq)]
pub struct Tally {
    pub puts: u64,
    pub sum: u32,
}

/// Returns the tally of a history.
pub fn tally_of(history: &[Entry]) -> Tally
    ensures puts { result.puts ≡ puts_in history.now }
    ensures sum { result.sum ≡ sum_in history.now }
{
    let mut puts = 0usize;
    let mut sum = 0;
    for entry in history {
        if let Some(page) = page_put(entry) {
            puts += 1;
            sum = counter(page);
        }
    }
    Tally {
        puts: puts as u64,
        sum,
    }
}

/// Returns the page of a Put that was done.
fn page_put(entry: &Entry) -> Option<&Page>
    ensures { option_map (λ page. page.now) result ≡ page_put entry.now }
{
    match (&entry.request, &entry.reply) {
        (Request::Put { page, .. }, Reply::Done) => Some(page),
        _ => None,
    }
}

/// Returns the number in the first two bytes of a page, high byte first.
fn counter(page: &Page) -> u32
    ensures count { result ≡ counter page.now }
    ensures bound { result < 2 ^ 16 }
{
    let bytes = page.as_bytes();
    u32::from(bytes[0]) * 256 + u32::from(bytes[1])
}

/// Returns the line that is written of a drill.
pub fn drill_line(alloc: Global, jobs: u32, told: Tally) -> Result<Vec<u8>, NoMemory>
    ensures { IfOk result (λ bytes. bytes.items ≡ drill_line jobs told.puts told.sum) }
{
    let mut out = Vec::new(alloc);
    let mut buffer = Buffer::new();
    out.extend_from_slice(b"DRILL ")?;
    out.extend_from_slice(buffer.format(jobs).as_bytes())?;
    out.extend_from_slice(b" JOBS ")?;
    out.extend_from_slice(buffer.format(told.puts).as_bytes())?;
    out.extend_from_slice(b" PUTS ")?;
    out.extend_from_slice(buffer.format(told.sum).as_bytes())?;
    out.extend_from_slice(b" SUM\n")?;
    Ok(out)
}
