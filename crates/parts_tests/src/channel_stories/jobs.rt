//! A job's side of files over a script, and its story step by step.

use crate::channel_stories::elements::access;
use crate::channel_stories::report::{Report, size};
use crate::channel_stories::scripts::{parts_of, replies_of};
use crate::channel_stories::words::Words;
use basic_values::{Int, Stop};
use channels::Channels;
use monitor_calls::{Account, FileName, OpenKind, Reply, ScriptPort, Short};
use record_fields::{Buffers, RecordSize};
use std::alloc::Global;
use std::test::Fail;

/// A step in words: what is done, the replies to it, and the result, which is the requests and the
/// end.
pub(crate) type Step = &'static str;

/// Update, for records of one block, of a file that may exist.
pub(crate) const OPEN_1: Step = "open 1 either true - 1 | opened | either 1 true 99; ok";

#[derive(Drop)]
pub(crate) struct Job {
    pub(crate) alloc: Global,
    pub(crate) channels: Channels,
    pub(crate) buffers: Buffers,
    pub(crate) port: ScriptPort,
    name: FileName,
}

fn job_with(alloc: Global, name: FileName, replies: Vec<Reply>) -> Result<Job, Fail> {
    Ok(Job {
        alloc,
        channels: Channels::new(),
        buffers: Buffers::new(alloc)?,
        port: ScriptPort::new(alloc, replies),
        name,
    })
}

fn a_name() -> Result<FileName, Fail> {
    Ok(FileName {
        owner: Account {
            project: 100,
            programmer: 5,
        },
        stem: Short::of(b"DATA").ok_or("no stem")?,
        extension: Short::of(b"").ok_or("no extension")?,
    })
}

/// How a file is opened: its kind, whether for update, the code, and the size of its records.
#[derive(Clone, Copy)]
struct Opening {
    kind: OpenKind,
    update: bool,
    code: Option<u8>,
    size: RecordSize,
}

fn opening_of(words: &mut Words) -> Opening {
    Opening {
        kind: kind_of(words.word()),
        update: words.flag(),
        code: code_of(words),
        size: size_of(words.number()),
    }
}

fn kind_of(word: &str) -> OpenKind {
    match word {
        "input" => OpenKind::Input,
        "output" => OpenKind::Output,
        "either" => OpenKind::Either,
        _ => OpenKind::Fresh,
    }
}

fn code_of(words: &mut Words) -> Option<u8> {
    match words.optional() {
        Some(code) => u8::try_from(code).ok(),
        None => None,
    }
}

fn size_of(blocks: i16) -> RecordSize {
    match blocks {
        1 => RecordSize::One,
        2 => RecordSize::Two,
        _ => RecordSize::Three,
    }
}

/// Opens a channel, with the answer of `to_open` first.
fn open(job: &mut Job, words: &mut Words, end: &mut Report) {
    let number = Int::new(words.number());
    let opening = opening_of(words);
    match job.channels.to_open(number) {
        Ok(channel) => end.done(opened(job, channel, opening)),
        Err(fault) => end.stop(&Stop::Fault(fault)),
    }
}

fn opened(job: &mut Job, channel: u8, opening: Opening) -> Result<(), Stop> {
    if !(1..=12).contains(&channel) {
        return Err(Stop::Expired);
    }
    let (buffers, port) = (&mut job.buffers, &mut job.port);
    job.channels.open_file(
        job.alloc,
        buffers,
        port,
        channel,
        job.name,
        opening.kind,
        opening.update,
        opening.code,
        opening.size,
    )
}

/// Reports what is known of a channel: next, recount, unread bytes, RECOUNT, column, blocks, bytes
/// of the buffer.
fn tell(job: &Job, channel: u8, end: &mut Report) {
    if !(1..=12).contains(&channel) {
        return end.push("no channel");
    }
    let state = job.channels.state(channel);
    end.tell(
        "has",
        &[
            i32::from(state.next),
            i32::from(state.recount),
            i32::from(state.unread),
            i32::from(job.channels.recount().value()),
            column_of(job, channel),
            i32::from(job.channels.blocks(channel)),
            size(job.buffers.buffer(channel).len()),
        ],
    )
}

fn column_of(job: &Job, channel: u8) -> i32 {
    match job.channels.column(Int::new(i16::from(channel))) {
        Ok(column) => i32::from(column.value()),
        Err(_) => -1,
    }
}

/// Reports the byte at a place of a channel's buffer.
fn tell_byte(job: &Job, channel: u8, place: u16, end: &mut Report) {
    if !(1..=12).contains(&channel) {
        return end.push("no channel");
    }
    match job.buffers.buffer(channel).get(place as usize) {
        Some(byte) => end.tell("byte", &[i32::from(*byte)]),
        None => end.push("none"),
    }
}

fn set_byte(job: &mut Job, channel: u8, place: u16, byte: u8) {
    if (1..=12).contains(&channel) {
        job.buffers.write_from(channel, place, &[byte]);
    }
}

fn write(job: &mut Job, channel: i16, bytes: &[u8], end: &mut Report) {
    let (buffers, port) = (&mut job.buffers, &mut job.port);
    end.done(
        job.channels
            .write_text(job.alloc, buffers, port, Int::new(channel), bytes),
    )
}

/// Writes a byte many times.
fn write_run(job: &mut Job, words: &mut Words, end: &mut Report) {
    let (channel, byte, count) = (words.number(), words.byte(), words.count());
    match vec![in job.alloc; byte; count as usize] {
        Ok(bytes) => write(job, channel, &bytes, end),
        Err(_) => end.push("no memory"),
    }
}

fn frame(job: &mut Job, words: &mut Words, end: &mut Report) {
    let (channel, block, writing) = (words.byte(), words.count(), words.flag());
    if !(1..=12).contains(&channel) {
        return end.push("no channel");
    }
    let (buffers, port) = (&mut job.buffers, &mut job.port);
    end.done(
        job.channels
            .window(job.alloc, buffers, port, channel, block, writing),
    )
}

fn shut(job: &mut Job, channel: u8, end: &mut Report) {
    if !(1..=12).contains(&channel) {
        return end.push("no channel");
    }
    let (buffers, port) = (&mut job.buffers, &mut job.port);
    end.closed(job.channels.shut_file(job.alloc, buffers, port, channel))
}

fn read(job: &mut Job, channel: Int, end: &mut Report) {
    let (buffers, port) = (&mut job.buffers, &mut job.port);
    match job.channels.read_line(job.alloc, buffers, port, channel) {
        Ok(line) => end.line(line.as_bytes()),
        Err(stop) => end.stop(&stop),
    }
}

fn close(job: &mut Job, channel: Int, end: &mut Report) {
    let (buffers, port) = (&mut job.buffers, &mut job.port);
    end.closed(job.channels.close_file(job.alloc, buffers, port, channel))
}

fn close_all(job: &mut Job, end: &mut Report) {
    let (buffers, port) = (&mut job.buffers, &mut job.port);
    end.done(job.channels.close_all(job.alloc, buffers, port))
}

fn unlock(job: &mut Job, channel: Int, end: &mut Report) {
    let (buffers, port) = (&mut job.buffers, &mut job.port);
    end.done(job.channels.unlock(job.alloc, buffers, port, channel))
}

fn get(job: &mut Job, channel: Int, block: Int, end: &mut Report) {
    let (buffers, port) = (&mut job.buffers, &mut job.port);
    end.done(job.channels.get(job.alloc, buffers, port, channel, block))
}

fn put(job: &mut Job, channel: Int, block: Int, end: &mut Report) {
    let (buffers, port) = (&mut job.buffers, &mut job.port);
    end.done(job.channels.put(job.alloc, buffers, port, channel, block))
}

/// Does a step, and reports how it ended.
fn call(job: &mut Job, words: &mut Words, end: &mut Report) {
    match words.word() {
        "open" => open(job, words, end),
        "close_all" => close_all(job, end),
        "shut" => shut(job, words.byte(), end),
        "write" => write_run(job, words, end),
        "text" => write(job, words.number(), words.word().as_bytes(), end),
        "window" => frame(job, words, end),
        "tell" => tell(job, words.byte(), end),
        "byte" => tell_byte(job, words.byte(), words.count(), end),
        "set" => {
            set_byte(job, words.byte(), words.count(), words.byte());
            end.push("ok")
        }
        word => record(job, word, words, end),
    }
}

/// Does a step on records, or on an element.
fn record(job: &mut Job, word: &str, words: &mut Words, end: &mut Report) {
    match word {
        "get" => get(job, int(words), int(words), end),
        "put" => put(job, int(words), int(words), end),
        "unlock" => unlock(job, int(words), end),
        "read" => read(job, int(words), end),
        "close" => close(job, int(words), end),
        _ => access(job, word, words, end),
    }
}

fn int(words: &mut Words) -> Int {
    Int::new(words.number())
}

/// Returns how a step ended.
fn end_of(job: &mut Job, done: &'static str) -> Report {
    let mut end = Report::new(job.alloc);
    let mut words = Words::of(done);
    call(job, &mut words, &mut end);
    if !words.is_good() {
        end.push(" and no number");
    }
    end
}

/// Returns the result of a step: the requests, and the end.
fn told_of(job: &mut Job, done: &'static str) -> String {
    let before = job.port.log().len();
    let end = end_of(job, done);
    let mut told = Report::new(job.alloc);
    told.events(job.port.log().get(before..).unwrap_or(&[]));
    told.push(end.as_str());
    told.into_text()
}

/// Fails with the result of a step, if another one is expected.
fn expect_step(job: &mut Job, step: Step) -> Result<(), Fail> {
    let (done, _, wanted) = parts_of(step);
    let told = told_of(job, done);
    if told.as_str() == wanted {
        Ok(())
    } else {
        Err(Fail::new(told))
    }
}

fn expect_steps(job: &mut Job, steps: &[Step]) -> Result<(), Fail> {
    for step in steps {
        expect_step(job, step)?;
    }
    Ok(())
}

fn expect_story(alloc: Global, steps: &[Step]) -> Result<(), Fail> {
    let mut job = job_with(alloc, a_name()?, replies_of(alloc, steps)?)?;
    expect_steps(&mut job, steps)
}

/// Fails unless each step of each story has its result.
pub(crate) fn expect_stories(alloc: Global, stories: &[&[Step]]) -> Result<(), Fail> {
    for steps in stories {
        expect_story(alloc, steps)?;
    }
    Ok(())
}
