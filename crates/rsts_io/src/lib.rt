//! The ends of the program: sources of bytes, and sinks for bytes.
//!
//! A source and a sink report of themselves by their ghost `state`. `Source::take` and `Sink::give`
//! have the contracts: `IsTaken` and `Accepts` say what each answer changes of that state. Ends in
//! memory report their bytes. `MemorySource` and `MemorySink` fail at given calls, `PlainSource`
//! never fails, and `PlainSink` fails if it is full. `DribbleSource` and `DribbleSink` are the
//! same, with few bytes a call. `StdSource` and `StdSink`, over any reader and writer, do not
//! report their bytes. `read_all` reads a source to its end, and `give_all` gives a sink all bytes.
//! The crate depends on `basic_values`, for out of memory.
#![tactic(auto)]

mod copies;
mod dribbles;
mod memory;
mod plain;
mod sink;
mod source;
mod streams;
mod whole;

pub use copies::SINK_ROOM;
pub use dribbles::{DribbleSink, DribbleSource};
pub use memory::{MemorySink, MemorySource};
pub use plain::{PlainSink, PlainSource};
pub use sink::{Gave, Sink};
pub use source::{Source, Took};
pub use streams::{StdSink, StdSource};
pub use whole::{INPUT_LIMIT, REPLAY_LIMIT, ReadEnd, SinkFault, give_all, read_all};
