//! A job's variables and files.

ghost use Rattle.std.specs.Prelude.{◌≡◌, Ok, [], IfOk, IfErr, Err, replicate};
ghost use Rattle.basic_values.specs.declared.limits.TheConstants.{LAST_CHANNEL};
ghost use Rattle.channels.specs.Files.{closed_channel};
ghost use Rattle.job_memory.specs.declared.contents.Content.TheVariants as content;
ghost use Rattle.job_memory.specs.Answers.{Changes, Stores, StoresAt};
ghost use Rattle.job_memory.specs.Calls.{enter, leave};
ghost use Rattle.job_memory.specs.Contents.{number_in, text_in};
ghost use Rattle.job_memory.specs.Memory.{empty, variable, made, number_at, text_at};
ghost use Rattle.job_memory.specs.TextChanges.{Appends, Cuts};

use basic_strings::Cut;
use basic_tree::{Name, Shape};
use basic_values::{Fault, Halt, Int, Stop, Text, Trouble};
use channels::Channels;
use job_memory::Memory;
use monitor_calls::Account;
use record_fields::Buffers;
use std::alloc::Global;
use std::marker::Model;

/// The account that a job acts for, its variables, its channels and their buffers, which contain
/// the fielded strings, and core common.
#[derive(Drop)]
pub struct Storage {
    pub(crate) account: Account,
    pub(crate) memory: Memory,
    pub(crate) channels: Channels,
    pub(crate) buffers: Buffers,
    pub(crate) common: Text,
}

impl Model for Storage {
    ghost use Rattle.channels.specs.Seen.{files};
    ghost use Rattle.program_model.specs.Storage as held;

    ghost Value = { held.Storage };

    ghost view = { λ storage. record {
      account = storage.account;
      memory = storage.memory;
      files = files storage.channels storage.buffers;
      common = storage.common;
    } };
}

impl Storage {
    /// Returns a storage with no variables, no open channel, and an empty core common.
    pub fn new(alloc: Global, account: Account, buffers: Buffers) -> Storage
        ensures { result ≡ record {
          account = account;
          memory = empty;
          files = record {
            channels = replicate LAST_CHANNEL closed_channel;
            recount = 0;
            buffers = buffers;
          };
          common = [];
        } }
    {
        Storage {
            account,
            memory: Memory::new(alloc),
            channels: Channels::new(),
            buffers,
            common: Text::empty(alloc),
        }
    }

    /// Returns the account that the job acts for.
    pub fn account(&self) -> Account
        ensures { result ≡ self.now.account }
    {
        self.account
    }

    /// Makes the job act for this account.
    pub fn act_for(&mut self, account: Account)
        ensures { self.new ≡ record self.old { account = account } }
    {
        self.account = account;
    }

    /// Forgets all variables and arrays, also what is kept aside. It takes no memory.
    pub fn clear(&mut self)
        ensures { self.new ≡ record self.old { memory = empty } }
    {
        self.memory.clear();
    }

    /// Makes an array of zeros, or of empty strings, in the place of the one that is there.
    pub fn dim(&mut self, shape: Shape) -> Result<(), Trouble<Halt>>
        ensures memory { Changes
            self.old.memory self.new.memory (made shape self.old.memory) result }
        ensures files { self.new.files ≡ self.old.files }
        ensures account { self.new.account ≡ self.old.account }
        ensures common { self.new.common ≡ self.old.common }
    {
        self.memory.dim(shape)
    }

    /// Returns the number of a variable: 0 if nothing is stored.
    pub fn number(&self, name: Name) -> Int
        ensures { result ≡ number_in (variable name self.now.memory) }
    {
        self.memory.number(name)
    }

    /// Returns the string of a variable, lent. It is empty if nothing is stored.
    pub fn text(&self, name: Name) -> &[u8]
        ensures { result.now
            ≡ text_in self.entry.now.files.buffers (variable name self.entry.now.memory) }
    {
        self.memory.text(name, &self.buffers)
    }

    /// Stores a number.
    pub fn set_number(&mut self, name: Name, value: Int) -> Result<(), Trouble<Halt>>
        ensures memory { Stores name (content.Number value) self.old.memory self.new.memory result }
        ensures files { self.new.files ≡ self.old.files }
        ensures account { self.new.account ≡ self.old.account }
        ensures common { self.new.common ≡ self.old.common }
    {
        self.memory.set_number(name, value)
    }

    /// Stores a string.
    pub fn set_text(&mut self, name: Name, value: Text) -> Result<(), Trouble<Halt>>
        ensures memory { Stores name (content.Own value) self.old.memory self.new.memory result }
        ensures files { self.new.files ≡ self.old.files }
        ensures account { self.new.account ≡ self.old.account }
        ensures common { self.new.common ≡ self.old.common }
    {
        self.memory.set_text(name, value)
    }

    /// Puts bytes at the end of the own string of a variable, and returns whether it has one. If
    /// not, nothing changes.
    pub fn append(&mut self, name: Name, more: &[u8]) -> Result<bool, Trouble<Halt>>
        ensures memory { Appends name more.now self.old.memory self.new.memory result }
        ensures files { self.new.files ≡ self.old.files }
        ensures account { self.new.account ≡ self.old.account }
        ensures common { self.new.common ≡ self.old.common }
    {
        self.memory.append(name, more)
    }

    /// Keeps a part of the own string of a variable, and returns whether it has one. If not,
    /// nothing changes. Takes no memory.
    pub fn cut(&mut self, name: Name, part: Cut) -> bool
        ensures memory { Cuts name part.before part.count
            self.old.memory self.new.memory result }
        ensures files { self.new.files ≡ self.old.files }
        ensures account { self.new.account ≡ self.old.account }
        ensures common { self.new.common ≡ self.old.common }
    {
        self.memory.cut(name, part.before, part.count)
    }

    /// Returns the number of an element, or error 55.
    pub fn number_at(&self, name: Name, first: Int, second: Option<Int>) -> Result<Int, Fault>
        ensures { result ≡ number_at name first second self.now.memory }
    {
        self.memory.number_at(name, first, second)
    }

    /// Returns the string of an element, lent, or error 55.
    pub fn text_at(&self, name: Name, first: Int, second: Option<Int>) -> Result<&[u8], Fault>
        ensures text { IfOk result
            (λ t. text_at name first second self.entry.now.memory ≡ Ok t.now) }
        ensures refused { IfErr result
            (λ n. text_at name first second self.entry.now.memory ≡ Err n) }
    {
        self.memory.text_at(name, first, second)
    }

    /// Stores a number to an element, or error 55.
    pub fn set_number_at(
        &mut self,
        name: Name,
        first: Int,
        second: Option<Int>,
        value: Int,
    ) -> Result<(), Stop>
        ensures memory { StoresAt name first second (content.Number value)
            self.old.memory self.new.memory result }
        ensures files { self.new.files ≡ self.old.files }
        ensures account { self.new.account ≡ self.old.account }
        ensures common { self.new.common ≡ self.old.common }
    {
        self.memory.set_number_at(name, first, second, value)
    }

    /// Stores a string to an element, or error 55.
    pub fn set_text_at(
        &mut self,
        name: Name,
        first: Int,
        second: Option<Int>,
        value: Text,
    ) -> Result<(), Stop>
        ensures memory { StoresAt name first second (content.Own value)
            self.old.memory self.new.memory result }
        ensures files { self.new.files ≡ self.old.files }
        ensures account { self.new.account ≡ self.old.account }
        ensures common { self.new.common ≡ self.old.common }
    {
        self.memory.set_text_at(name, first, second, value)
    }

    /// Begins a call: keeps the variables of these names aside, and sets them to 0 or the empty
    /// string.
    pub fn enter(&mut self, names: &[Name]) -> Result<(), Trouble<Halt>>
        ensures memory { Changes
            self.old.memory self.new.memory (enter names.now self.old.memory) result }
        ensures files { self.new.files ≡ self.old.files }
        ensures account { self.new.account ≡ self.old.account }
        ensures common { self.new.common ≡ self.old.common }
    {
        self.memory.enter(names)
    }

    /// Ends the newest running call: its variables get back their contents from before it. Takes no
    /// memory.
    pub fn leave(&mut self)
        ensures { self.new ≡ record self.old { memory = leave self.old.memory } }
    {
        self.memory.leave();
    }
}
