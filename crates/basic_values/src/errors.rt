//! The numbers of the errors of the manual, named after their messages. Code and definitions use
//! these names; `Fault::text` returns the messages.

/// "Illegal file name".
pub const ILLEGAL_FILE_NAME: u8 = 2;

/// "Account or device in use".
pub const IN_USE: u8 = 3;

/// "No room for user on device".
pub const NO_ROOM: u8 = 4;

/// "Can't find file or account".
pub const NO_SUCH_FILE: u8 = 5;

/// "I/O channel already open".
pub const ALREADY_OPEN: u8 = 7;

/// "Device not available".
pub const NO_DEVICE: u8 = 8;

/// "I/O channel not open".
pub const NOT_OPEN: u8 = 9;

/// "Protection violation".
pub const PROTECTION_VIOLATION: u8 = 10;

/// "End of file on device".
pub const END_OF_FILE: u8 = 11;

/// "Name or account now exists".
pub const NAME_EXISTS: u8 = 16;

/// "Illegal SYS() usage".
pub const ILLEGAL_SYS: u8 = 18;

/// "Disk block is interlocked".
pub const INTERLOCKED: u8 = 19;

/// "Illegal byte count for I/O".
pub const ILLEGAL_BYTE_COUNT: u8 = 31;

/// "No buffer space available".
pub const NO_BUFFER_SPACE: u8 = 32;

/// "Illegal I/O channel".
pub const ILLEGAL_CHANNEL: u8 = 46;

/// "Data format error".
pub const DATA_FORMAT_ERROR: u8 = 50;

/// "Integer error".
pub const INTEGER_ERROR: u8 = 51;

/// "Illegal number".
pub const ILLEGAL_NUMBER: u8 = 52;

/// "Subscript out of range".
pub const SUBSCRIPT_OUT_OF_RANGE: u8 = 55;

/// "Out of data".
pub const OUT_OF_DATA: u8 = 57;

/// "ON statement out of range".
pub const ON_OUT_OF_RANGE: u8 = 58;

/// "Not enough data in record".
pub const NOT_ENOUGH_DATA: u8 = 59;

/// "Division by 0".
pub const DIVISION_BY_ZERO: u8 = 61;

/// "FIELD overflows buffer".
pub const FIELD_OVERFLOW: u8 = 63;
