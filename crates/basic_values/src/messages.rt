//! The messages of errors and halts, without the question mark of a report.

ghost use Rattle.std.specs.Prelude.{◌≡◌};
ghost use Rattle.basic_values.specs.Messages.{fault_text, halt_text};

use crate::failures::{Fault, Halt};

impl Fault {
    #[tactic(auto, unfolding(crate::specs::Messages::fault_text))]
    /// Returns the message in the manual's table of errors; empty if the number has none.
    pub fn text(&self) -> &'static [u8]
        ensures { result.now ≡ fault_text self.now }
    {
        let text = match self.number() {
            2 => "Illegal file name",
            3 => "Account or device in use",
            4 => "No room for user on device",
            5 => "Can't find file or account",
            7 => "I/O channel already open",
            8 => "Device not available",
            9 => "I/O channel not open",
            10 => "Protection violation",
            11 => "End of file on device",
            16 => "Name or account now exists",
            18 => "Illegal SYS() usage",
            19 => "Disk block is interlocked",
            31 => "Illegal byte count for I/O",
            32 => "No buffer space available",
            46 => "Illegal I/O channel",
            50 => "Data format error",
            51 => "Integer error",
            52 => "Illegal number",
            55 => "Subscript out of range",
            57 => "Out of data",
            58 => "ON statement out of range",
            59 => "Not enough data in record",
            61 => "Division by 0",
            63 => "FIELD overflows buffer",
            _ => "",
        };
        text.as_bytes()
    }
}

impl Halt {
    /// Returns the message of the halt in the manual.
    pub fn text(&self) -> &'static [u8]
        ensures { result.now ≡ halt_text self.now }
    {
        let text = match self {
            Halt::NoGosub => "RETURN without GOSUB",
            Halt::TooDeep => "Nested too deep",
            Halt::RoomFull => "Maximum memory exceeded",
            Halt::NoError => "RESUME and no error",
            Halt::TooLong => "String too long",
        };
        text.as_bytes()
    }
}
