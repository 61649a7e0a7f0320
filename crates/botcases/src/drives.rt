// What a bot does with a server's stream.
ghost use Rattle.std.specs.Prelude.{◌<◌, IfOk};
ghost use Rattle.bytetext.specs.declared.moment.TheConstants.{MOMENTS_END};

use crate::bots::bot_of;
use crate::case_procs::store_of;
use botcore::Bot;
use bytetext::Text;
use caselines::{BAD_NUMBER, BAD_WORDS, CaseError, Sink, number};
use disks::MemDisk;
use ircline::LineReader;
use std::alloc::Global;
use std::io;
use std::io::{ErrorKind, Read, Write};
use streams::Duplex;
use turns::{DriveEnd, drive};

/// Answers `drive MOMENT MOST AFTER ROOM STREAM`: how driving the bot `egg` ends, what it wrote, and how many reads it
/// made. `words` are those after `drive`.
///
/// The bot reads STREAM, at most MOST bytes a read, and its clock shows MOMENT. AFTER says what follows the stream: its
/// `end`; `wait`, a read that would block; `fault`; or `again`, the same stream once more. The writer takes ROOM bytes
/// and no more.
pub fn drive_case(alloc: Global, words: &[Text], out: &mut Sink) -> Result<(), CaseError> {
    let [moment, most, after, room, stream] = words else {
        return Err(BAD_WORDS);
    };
    let mut reader = Source {
        stream: stream.as_bytes(),
        rest: stream.as_bytes(),
        most: number(most.as_bytes())?,
        after: after_of(after.as_bytes())?,
        reads: 0,
    };
    let mut writer = Target {
        room: number(room.as_bytes())?,
        written: Vec::new(alloc),
    };
    let moment = moment_of(moment.as_bytes())?;
    let end = driven(alloc, moment, &mut reader, &mut writer)?;
    out.put(end);
    out.quoted(&writer.written);
    out.put(b" ");
    out.number(reader.reads);
    Ok(())
}

// Drives a new bot, and returns the word for how that ends.
fn driven(
    alloc: Global,
    moment: u64,
    reader: &mut Source<'_>,
    writer: &mut Target,
) -> Result<&'static [u8], CaseError>
    requires { moment < MOMENTS_END }
{
    match bot_of(alloc, 0, b"all") {
        Ok(mut bot) => driven_bot(alloc, &mut bot, moment, reader, writer),
        Err(error) => Err(error),
    }
}

fn driven_bot(
    alloc: Global,
    bot: &mut Bot<MemDisk>,
    moment: u64,
    reader: &mut Source<'_>,
    writer: &mut Target,
) -> Result<&'static [u8], CaseError>
    requires { moment < MOMENTS_END }
{
    let store = store_of(alloc)?;
    let mut lines = LineReader::new(alloc);
    let mut stream = Duplex::new(reader, writer);
    let driven = drive(alloc, bot, &store, &mut lines, &mut stream, moment);
    end_word(driven.end)
}

fn end_word(end: DriveEnd) -> Result<&'static [u8], CaseError> {
    match end {
        DriveEnd::Done => Ok(b"done"),
        DriveEnd::Read => Ok(b"read"),
        DriveEnd::Write => Ok(b"write"),
        DriveEnd::NoMemory => Err(CaseError::NoMemory),
    }
}

// Reads a moment that a clock may show.
fn moment_of(word: &[u8]) -> Result<u64, CaseError>
    ensures { IfOk result (λ moment. moment < MOMENTS_END) }
{
    let moment = number(word)?;
    if moment >= bytetext::MOMENTS_END {
        return Err(BAD_NUMBER);
    }
    Ok(moment)
}

// What follows a stream.
#[derive(Clone, Copy)]
enum After {
    End,
    Wait,
    Fault,
    Again,
}

fn after_of(word: &[u8]) -> Result<After, CaseError> {
    match word {
        b"end" => Ok(After::End),
        b"wait" => Ok(After::Wait),
        b"fault" => Ok(After::Fault),
        b"again" => Ok(After::Again),
        _ => Err(BAD_WORDS),
    }
}

// A reader of a stream, with at most `most` bytes a read.
#[derive(Drop)]
struct Source<'a> {
    stream: &'a [u8],
    rest: &'a [u8],
    most: usize,
    after: After,
    reads: u64,
}

impl Read for Source<'_> {
    fn read(&mut self, buf: &mut [u8]) -> io::Result<usize> {
        self.reads = self.reads.saturating_add(1);
        if self.rest.is_empty() {
            match self.after {
                After::End => return Ok(0),
                After::Wait => return Err(io::Error::from(ErrorKind::WouldBlock)),
                After::Fault => return Err(io::Error::from(ErrorKind::ConnectionReset)),
                After::Again => self.rest = self.stream,
            }
        }
        let count = buf.len().min(self.most);
        self.rest.read(&mut buf[..count])
    }
}

// A writer that takes `room` bytes and no more.
#[derive(Drop)]
struct Target {
    room: usize,
    written: Vec<u8>,
}

impl Write for Target {
    fn write(&mut self, buf: &[u8]) -> io::Result<usize> {
        let count = buf.len().min(self.room);
        self.written.extend_from_slice(&buf[..count])?;
        self.room -= count;
        Ok(count)
    }

    fn flush(&mut self) -> io::Result<()> {
        Ok(())
    }
}
