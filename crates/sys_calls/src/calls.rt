//! The calls that a string of SYS makes.

use basic_values::Text;
use monitor_calls::Request;

/// The most bytes of core common.
pub const MOST_COMMON: usize = 127;

/// The call that a string of SYS makes.
#[derive(Drop)]
pub enum SysCall {
    /// Returns core common.
    ReadCommon,
    /// Sets core common to this string, of at most 127 bytes.
    WriteCommon(Text),
    /// Returns the text of the error with this number.
    ErrorText(u8),
    /// Makes a request to the monitor.
    Ask(Request),
}
