//! Text on channels, and what is known of a channel without a request.

ghost use Rattle.std.specs.Prelude.{◌≡◌};
ghost use Rattle.channels.specs.Files.{channel_column, shown_count};
ghost use Rattle.job_model.specs.Follow.{Follows, answered_by};
ghost use Rattle.job_model.specs.Play as play;
ghost use Rattle.program_model.specs.Input.{line_act};
ghost use Rattle.program_model.specs.PrintingOnChannels.{text_act};

use crate::storage::Storage;
use basic_values::{Fault, Int, Stop, Text};
use monitor_calls::Port;
use std::alloc::Global;

impl Storage {
    /// Writes once for PRINT # or PRINT USING. Errors 46 and 9, and those of the monitor.
    pub fn write_on<P: Port>(
        &mut self,
        alloc: Global,
        port: &mut P,
        channel: Int,
        bytes: &[u8],
    ) -> Result<(), Stop>
        ensures { (clock : play.Clock) → Follows P.who P.log port.old port.new clock clock
            (text_act channel bytes.now self.old) (answered_by result self.new) }
    {
        self.channels
            .write_text(alloc, &mut self.buffers, port, channel, bytes)
    }

    /// Reads the next line for INPUT # or INPUT LINE #, without its end. Errors 46, 9, 50 if it is
    /// too long, and those of the monitor: 11 at the end of the file.
    pub fn read_line<P: Port>(
        &mut self,
        alloc: Global,
        port: &mut P,
        channel: Int,
    ) -> Result<Text, Stop>
        ensures { (clock : play.Clock) → Follows P.who P.log port.old port.new clock clock
            (line_act channel self.old) (answered_by result self.new) }
    {
        self.channels
            .read_line(alloc, &mut self.buffers, port, channel)
    }

    /// Returns the column of a channel, from 0 on. The manual's POS. Error 46 outside 1 to 12, 9 if
    /// it is not open.
    pub fn column(&self, channel: Int) -> Result<Int, Fault>
        ensures { result ≡ channel_column channel self.now.files.channels }
    {
        self.channels.column(channel)
    }

    /// Returns how many bytes the last GET read. The manual's RECOUNT.
    pub fn recount(&self) -> Int
        ensures { result ≡ shown_count self.now.files.recount }
    {
        self.channels.recount()
    }
}
