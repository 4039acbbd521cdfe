//! A job before its program runs.

use basic_interpreter::{Exit, Running, Stack, Storage};
use basic_values::{Text, Trouble};
use error_trap::Trap;
use monitor_calls::Account;
use program_model::{Destination, Home};
use record_fields::Buffers;
use std::alloc::Global;
use std::test::Fail;
use terminal_line::Screen;

/// The account whose files a job names if it names no account.
const ACCOUNT: Account = Account {
    project: 1,
    programmer: 2,
};

/// Returns the state of a job before its program runs.
pub(crate) fn at_rest(alloc: Global) -> Result<Running, Fail> {
    let buffers = Buffers::new(alloc)?;
    Ok(resting(alloc, buffers))
}

fn resting(alloc: Global, buffers: Buffers) -> Running {
    Running {
        alloc,
        storage: Storage::new(alloc, ACCOUNT, buffers),
        screen: Screen::new(alloc),
        trap: Trap::new(),
        returns: Stack::new(alloc),
        limits: Vec::new(alloc),
        item: 0,
        line: 0,
        home: home(0, 0, 0),
        frames: Stack::new(alloc),
        destination: Destination {
            name: Text::empty(alloc),
            line: None,
        },
        exit: Trouble::Refused(Exit::Ended),
    }
}

pub(crate) fn home(start: u32, behind: u32, line: u16) -> Home {
    Home {
        start,
        behind,
        line,
    }
}
