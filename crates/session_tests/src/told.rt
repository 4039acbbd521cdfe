//! Text that is written piece by piece.

use basic_values::NoMemory;
use file_names::print;
use monitor_calls::{FileName, Reply, Request};
use report_texts::{push_reply, push_request};
use std::alloc::{AllocError, Global};
use std::test::Fail;

/// Text that grows until memory runs out, so that callers need not test each piece.
#[derive(Drop)]
pub(crate) struct Told {
    alloc: Global,
    text: String,
    is_cut: bool,
}

impl Told {
    pub(crate) fn new(alloc: Global) -> Told {
        Told {
            alloc,
            text: String::new(alloc),
            is_cut: false,
        }
    }

    pub(crate) fn put(&mut self, word: &str) {
        let done = self.text.push_str(word);
        self.note(done);
    }

    pub(crate) fn put_bytes(&mut self, bytes: &[u8]) {
        for byte in bytes {
            let done = self.text.push(*byte as char);
            self.note(done);
        }
    }

    /// Writes a word, and a number after it.
    pub(crate) fn count(&mut self, word: &str, number: u16) {
        self.put(word);
        let done = write!(self.text, "{number}");
        self.note(done);
    }

    fn note(&mut self, done: Result<(), AllocError>) {
        self.is_cut = self.is_cut || done.is_err();
    }

    /// Writes a word, the name of a file, and its code if it is given.
    pub(crate) fn file(&mut self, word: &str, name: &FileName, code: Option<u8>) {
        self.put(word);
        let printed = print(name);
        self.put_bytes(printed.as_slice());
        if let Some(code) = code {
            self.count("<", u16::from(code));
            self.put(">");
        }
    }

    /// Writes a request, as it is in a history.
    pub(crate) fn request(&mut self, request: &Request) {
        let mut text = Vec::new(self.alloc);
        let done = push_request(&mut text, request);
        self.history_text(text.as_slice(), done)
    }

    /// Writes a reply, as it is in a history.
    pub(crate) fn reply(&mut self, reply: &Reply) {
        let mut text = Vec::new(self.alloc);
        let done = push_reply(&mut text, reply);
        self.history_text(text.as_slice(), done)
    }

    fn history_text(&mut self, text: &[u8], done: Result<(), NoMemory>) {
        self.put_bytes(text);
        self.is_cut = self.is_cut || done.is_err();
    }

    /// Returns the text, if it is whole.
    pub(crate) fn whole(&self) -> Result<&str, Fail> {
        if self.is_cut {
            Err(Fail::from("no memory"))
        } else {
            Ok(self.text.as_str())
        }
    }

    /// Returns the text as far as it was written.
    pub(crate) fn text(&self) -> &str {
        self.text.as_str()
    }

    /// Fails with the text, unless it is whole and this one.
    pub(crate) fn expect(self, wanted: &str) -> Result<(), Fail> {
        if self.text.as_str() == wanted && !self.is_cut {
            Ok(())
        } else {
            Err(Fail::new(self.text))
        }
    }
}

/// Returns these pieces one after another.
pub(crate) fn joined(alloc: Global, pieces: &[&str]) -> Result<String, Fail> {
    let mut text = String::new(alloc);
    for piece in pieces {
        text.push_str(piece)?;
    }
    Ok(text)
}
