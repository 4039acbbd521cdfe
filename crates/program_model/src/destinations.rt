//! The target of a CHAIN.

use basic_values::Text;

/// The name of the program to run, and the line at which it begins, if one is given.
#[derive(Drop)]
pub struct Destination {
    pub name: Text,
    pub line: Option<u16>,
}
