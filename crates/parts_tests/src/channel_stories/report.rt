//! The result of a step, as text.

use basic_values::{Stop, Text};
use monitor_calls::{Event, OpenKind, Page, Request};
use report_texts::push_request;
use std::alloc::Global;

/// Text that grows piece by piece. If there is no memory for a piece, the text is wrong.
#[derive(Drop)]
pub(crate) struct Report {
    alloc: Global,
    text: String,
}

impl Report {
    pub(crate) fn new(alloc: Global) -> Report {
        Report {
            alloc,
            text: String::new(alloc),
        }
    }

    pub(crate) fn as_str(&self) -> &str {
        self.text.as_str()
    }

    pub(crate) fn into_text(self) -> String {
        self.text
    }

    pub(crate) fn push(&mut self, piece: &str) {
        let _ = self.text.push_str(piece);
    }

    pub(crate) fn number(&mut self, number: i32) {
        if let Ok(digits) = format!(in self.alloc; "{number}") {
            self.push(digits.as_str());
        }
    }

    /// Writes a word, and numbers after it.
    pub(crate) fn tell(&mut self, word: &str, numbers: &[i32]) {
        self.push(word);
        for number in numbers {
            self.push(" ");
            self.number(*number);
        }
    }

    pub(crate) fn stop(&mut self, stop: &Stop) {
        match stop {
            Stop::Fault(fault) => self.tell("fault", &[i32::from(fault.number())]),
            Stop::Expired => self.push("expired"),
            Stop::Halt(_) => self.push("halt"),
            Stop::NoMemory => self.push("no memory"),
        }
    }

    pub(crate) fn done(&mut self, outcome: Result<(), Stop>) {
        match outcome {
            Ok(()) => self.push("ok"),
            Err(stop) => self.stop(&stop),
        }
    }

    pub(crate) fn closed(&mut self, outcome: Result<Option<u8>, Stop>) {
        match outcome {
            Ok(Some(channel)) => self.tell("closed", &[i32::from(channel)]),
            Ok(None) => self.push("none"),
            Err(stop) => self.stop(&stop),
        }
    }

    /// Writes the bytes of a line, if they are few; else how many, the first and the last.
    pub(crate) fn line(&mut self, bytes: &[u8]) {
        match bytes {
            [first, .., last] if bytes.len() > 20 => self.tell(
                "line",
                &[size(bytes.len()), i32::from(*first), i32::from(*last)],
            ),
            _ => self.whole_line(bytes),
        }
    }

    // Writes a line. The string is borrowed here and not in its element.
    pub(crate) fn text(&mut self, text: Text) {
        self.whole_line(text.as_bytes())
    }

    fn whole_line(&mut self, bytes: &[u8]) {
        self.push("line '");
        for byte in bytes {
            let _ = self.text.push(char::from(*byte));
        }
        self.push("'");
    }

    /// Reports these events. Of more than 8 it reports the first, the last and how many there are.
    pub(crate) fn events(&mut self, events: &[Event]) {
        match events {
            [first, .., last] if events.len() > 8 => self.many(first, last, size(events.len())),
            _ => self.each(events),
        }
    }

    fn many(&mut self, first: &Event, last: &Event, count: i32) {
        self.event(first);
        self.push(" to ");
        self.event(last);
        self.tell(",", &[count]);
        self.push("; ");
    }

    fn each(&mut self, events: &[Event]) {
        for event in events {
            self.event(event);
            self.push("; ");
        }
    }

    fn event(&mut self, event: &Event) {
        match event {
            Event::Asked { request, .. } => self.request(request),
            Event::Typed { .. } => self.push("a key line"),
        }
    }

    fn request(&mut self, request: &Request) {
        match request {
            Request::OpenFile {
                channel,
                kind,
                update,
                code,
                ..
            } => self.opening(kind_word(*kind), *channel, *update, code.unwrap_or(99)),
            Request::CloseFile { channel } => self.tell("close", &[i32::from(*channel)]),
            Request::Unlock { channel } => self.tell("unlock", &[i32::from(*channel)]),
            _ => self.transfer(request),
        }
    }

    fn opening(&mut self, kind: &str, channel: u8, update: bool, code: u8) {
        self.tell(kind, &[i32::from(channel)]);
        let word = if update { " true" } else { " false" };
        self.tell(word, &[i32::from(code)]);
    }

    fn transfer(&mut self, request: &Request) {
        match request {
            Request::Get { channel, block } => self.block("get", *channel, *block),
            Request::GetRecord {
                channel,
                block,
                count,
            } => {
                self.block("get", *channel, *block);
                self.tell("", &[i32::from(*count)]);
            }
            Request::Put {
                channel,
                block,
                page,
            } => {
                self.block("put", *channel, *block);
                self.page(page);
            }
            Request::PutRecord {
                channel,
                block,
                pages,
            } => {
                self.block("put", *channel, *block);
                self.pages(pages.as_slice());
            }
            _ => self.history_text(request),
        }
    }

    /// Writes a request as it is in a history.
    fn history_text(&mut self, request: &Request) {
        let mut text = Vec::new(self.alloc);
        let _ = push_request(&mut text, request);
        for byte in &text {
            let _ = self.text.push(char::from(*byte));
        }
    }

    fn block(&mut self, word: &str, channel: u8, block: u16) {
        self.tell(word, &[i32::from(channel), i32::from(block)]);
    }

    fn pages(&mut self, pages: &[Page]) {
        for page in pages {
            self.page(page);
        }
    }

    /// Writes the first byte of a page, the place of its last byte that is not zero, and how many
    /// such it has.
    fn page(&mut self, page: &Page) {
        let (mut place, mut last, mut written) = (0i32, 0, 0i32);
        for byte in page.as_bytes() {
            place = place.wrapping_add(1);
            if *byte != 0 {
                last = place;
                written = written.wrapping_add(1);
            }
        }
        self.tell("", &[i32::from(page.as_bytes()[0]), last, written]);
    }
}

/// Returns how many, as a number to be written, or -1.
pub(crate) fn size(count: usize) -> i32 {
    i32::try_from(count).unwrap_or(-1)
}

fn kind_word(kind: OpenKind) -> &'static str {
    match kind {
        OpenKind::Input => "input",
        OpenKind::Output => "output",
        OpenKind::Either => "either",
        OpenKind::Fresh => "fresh",
    }
}
