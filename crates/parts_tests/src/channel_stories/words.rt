//! The words of a step, with a space between.

/// What is left of a step's words. A word that has to be a number and is none is 0, and then the
/// step is not valid.
#[derive(Drop)]
pub(crate) struct Words {
    left: &'static str,
    is_good: bool,
}

impl Words {
    pub(crate) fn of(left: &'static str) -> Words {
        Words {
            left,
            is_good: true,
        }
    }

    pub(crate) fn is_good(&self) -> bool {
        self.is_good
    }

    pub(crate) fn is_empty(&self) -> bool {
        self.left.is_empty()
    }

    /// Returns the next word, which is empty after the last one.
    pub(crate) fn word(&mut self) -> &'static str {
        let (word, left) = match self.left.split_once(' ') {
            Some((word, left)) => (word, left),
            None => (self.left, ""),
        };
        self.left = left;
        word
    }

    pub(crate) fn number(&mut self) -> i16 {
        let word = self.word();
        self.read(word)
    }

    /// Returns a number, or none if the word is a dash.
    pub(crate) fn optional(&mut self) -> Option<i16> {
        match self.word() {
            "-" => None,
            word => Some(self.read(word)),
        }
    }

    fn read(&mut self, word: &str) -> i16 {
        match word.parse::<i16>() {
            Ok(number) => number,
            Err(_) => {
                self.is_good = false;
                0
            }
        }
    }

    pub(crate) fn count(&mut self) -> u16 {
        u16::try_from(self.number()).unwrap_or(u16::MAX)
    }

    pub(crate) fn byte(&mut self) -> u8 {
        u8::try_from(self.number()).unwrap_or(u8::MAX)
    }

    pub(crate) fn flag(&mut self) -> bool {
        self.word() == "true"
    }
}
