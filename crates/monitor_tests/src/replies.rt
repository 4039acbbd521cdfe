//! What a job is replied, in few words.

use crate::asks::{Label, OWNER};
use basic_values::Text;
use monitor_calls::{Account, FileName, Page, Reply};

/// The reply to a job. Of a block and of a message it has the one byte that fills it.
#[derive(Clone, Copy)]
pub(crate) enum Said {
    Done,
    /// The blocks, and whether the channel may read and write.
    Opened(u16, bool, bool),
    Block(u8),
    /// The byte of each page.
    Record(&'static [u8]),
    /// A file of the owner, its code, and its blocks if the reply has them.
    Name(Label, u8, Option<u16>),
    /// The job and the account that sent it, and its byte.
    Message(u32, Account, u8),
    /// The job, its account, and its calls.
    State(u32, Account, u16),
    Failed(u8),
    Expired,
}

impl Said {
    /// Returns whether the monitor replied so.
    pub(crate) fn is_reply(self, reply: &Reply) -> bool {
        match reply {
            Reply::Done => matches!(self, Said::Done),
            Reply::Opened {
                blocks,
                read,
                write,
            } => self.is_opened(*blocks, *read, *write),
            Reply::Block(page) => self.is_block(page),
            Reply::Record(pages) => self.is_record(pages.as_slice()),
            Reply::Name { name, code, blocks } => self.is_name(name, *code, *blocks),
            Reply::Message { job, account, text } => self.is_message(*job, *account, text),
            Reply::State {
                job,
                account,
                calls,
            } => self.is_state(*job, *account, *calls),
            Reply::Failed(fault) => self.is_failed(fault.number()),
            Reply::Expired => matches!(self, Said::Expired),
        }
    }

    fn is_opened(self, blocks: u16, read: bool, write: bool) -> bool {
        match self {
            Said::Opened(told, may_read, may_write) => {
                told == blocks && may_read == read && may_write == write
            }
            _ => false,
        }
    }

    fn is_block(self, page: &Page) -> bool {
        match self {
            Said::Block(byte) => is_full_of(page, byte),
            _ => false,
        }
    }

    fn is_record(self, pages: &[Page]) -> bool {
        match self {
            Said::Record(bytes) => {
                pages.len() == bytes.len()
                    && pages
                        .iter()
                        .zip(bytes.iter())
                        .all(|(page, byte)| is_full_of(page, *byte))
            }
            _ => false,
        }
    }

    fn is_name(self, name: &FileName, code: u8, blocks: Option<u16>) -> bool {
        match self {
            Said::Name(label, told, size) => {
                name.owner == OWNER
                    && name.stem.as_bytes() == label.text()
                    && told == code
                    && size == blocks
            }
            _ => false,
        }
    }

    fn is_message(self, job: u32, account: Account, text: &Text) -> bool {
        match self {
            Said::Message(from, sender, byte) => {
                from == job && sender == account && text.as_bytes() == [byte].as_slice()
            }
            _ => false,
        }
    }

    fn is_state(self, job: u32, account: Account, calls: u16) -> bool {
        match self {
            Said::State(number, acting, made) => {
                number == job && acting == account && made == calls
            }
            _ => false,
        }
    }

    fn is_failed(self, number: u8) -> bool {
        match self {
            Said::Failed(told) => told == number,
            _ => false,
        }
    }
}

fn is_full_of(page: &Page, byte: u8) -> bool {
    page.as_bytes().iter().all(|found| *found == byte)
}
