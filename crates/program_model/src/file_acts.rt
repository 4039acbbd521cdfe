//! What the statements on files do.

use basic_tree::{Name, Series};
use monitor_calls::OpenKind;

/// What a statement on files does with the values of its operands. Each variant lists them in the
/// order of the source. A number that is left out is 0.
#[derive(Drop)]
pub enum FileAct {
    /// The file, the channel, RECORDSIZE, CLUSTERSIZE and MODE.
    Open(OpenKind),
    /// A channel, as with the others below.
    Close,
    /// The implicit close of all channels, which takes no operand.
    ShutAll,
    /// The channel and the block.
    Get,
    Put,
    Unlock,
    /// The channel and the width of each of these fields.
    Field(Series<Name>),
    /// The file.
    Kill,
    /// The file and its new name. The manual's NAME.
    Rename,
    /// Seconds.
    Sleep,
}
