//! Channels and virtual arrays, over a port that plays a script: the requests of each call, how it
//! ends, and what it leaves. Each table entry is a story of one job, step by step.
//!
//! A step is a text of three parts, with ` | ` between: what is done, the replies to it, and the
//! result. The result is the requests, each with `; ` after it, and how the step ended. What is
//! done begins with a word, and its operands follow it:
//!
//! - `open` a channel, of a kind, for update or not, with a code or a dash, for records of this
//!   many blocks;
//! - `close`, `shut`, `unlock` and `read` have a channel, `close_all` none, `get` and `put` a block
//!   too;
//! - `text` has a channel and the bytes that are written, `write` a byte and how many of it;
//! - `window` has a channel, a block, and whether it is for writing;
//! - `set` has a channel, a place of its buffer, and the byte that is set there; `byte` reports
//!   that byte, and `tell` what is known of a channel;
//! - `fetch`, `store` and `store_text` have an array, its channel, two subscripts, of which the
//!   second may be a dash, and the value that is stored.
//!
//! These are the replies. `done`, `opened` and `expired` have no operand, and `failed` has a
//! number. `block` has the bytes that it begins with, and `blocks` a byte and how many blocks are
//! full of it. `ended` has a byte, how many of it, and the bytes after them. `record` has a byte
//! for each page.

mod closings;
mod elements;
mod jobs;
mod lines;
mod records;
mod report;
mod requests;
mod scripts;
mod text_out;
mod windows;
mod words;
