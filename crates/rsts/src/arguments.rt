//! The arguments after the program's name.

ghost use Rattle.std.specs.Io.{WritesAtMost};

use std::env::{self, FillError};
use std::io;
use std::rt::Env;

/// The arguments without the first, which is the program's name: that may be any bytes, and is not
/// read.
#[derive(Drop)]
struct AfterName<'a, R> {
    all: &'a R,
}

impl<R: Env> Env for AfterName<'_, R> {
    fn arg(&self, i: usize, buf: &mut [u8]) -> Result<usize, FillError> {
        match i.checked_add(1) {
            Some(i) => self.all.arg(i, buf),
            None => Err(FillError::NotPresent),
        }
    }

    fn var(&self, name: &str, buf: &mut [u8]) -> Result<usize, FillError> {
        self.all.var(name, buf)
    }

    fn var_at(&self, i: usize, buf: &mut [u8]) -> Result<usize, FillError> {
        self.all.var_at(i, buf)
    }
}

/// Returns the words after the program's name. A word that is not UTF-8 is an error.
pub(crate) fn words_of(rt: &(impl Env + AllocGlobal)) -> io::Result<Vec<String>> {
    let mut words = Vec::new(rt.alloc());
    for word in env::args(&(AfterName { all: rt }, rt.alloc()))? {
        words.push(word)?;
    }
    Ok(words)
}
