// Reads a connection and makes the steps of its lines.
ghost use Rattle.std.specs.Prelude.{◌≡◌, IfOk, OnOk, OnErr, IfErr};
ghost use Rattle.turns.specs.Driving.{Hears, HearsFirst, HearsPiece, HearsNoPiece, HearsAll, HearsSome};
ghost use Rattle.turns.specs.Outboxes.{course_of};

use crate::driving::DriveEnd;
use crate::outbox::{Outbox, step_lines};
use botcore::Bot;
use bytetext::NoMemory;
use disks::Disk;
use ircline::LineReader;
use procs::{ProcStore, Promise, Run};
use std::alloc::Global;
use streams::{Given, Stream};

// The most reads of one drive.
const MAX_READS: usize = 1000;

// The most bytes of one read.
const PIECE: usize = 4096;

// Reads all that has arrived, or 1,000 pieces of it, and makes a step of each line that they complete.
pub(crate) fn hear_all<P: Promise, D: Disk, B: Run, S: Stream>(
    alloc: Global,
    bot: &mut Bot<D>,
    store: &ProcStore<P, B>,
    lines: &mut LineReader,
    stream: &mut S,
    outbox: &mut Outbox,
) -> Result<(), DriveEnd>
    ensures ok { OnOk result (HearsAll P.promised store.now
        (course_of bot.old outbox.old) lines.old (S.source stream.old)
        (course_of bot.new outbox.new) lines.new (S.source stream.new)) }
    ensures err { IfErr result (λ end. HearsSome end P.promised store.now
        (course_of bot.old outbox.old) lines.old (S.source stream.old)
        (course_of bot.new outbox.new) lines.new (S.source stream.new)) }
    ensures other { S.sink stream.new ≡ S.sink stream.old }
{
    for _read in 0..MAX_READS {
        match hear_piece(alloc, bot, store, lines, stream, outbox) {
            Ok(true) => {}
            Ok(false) => return Ok(()),
            Err(end) => return Err(end),
        }
    }
    Ok(())
}

// Reads a piece, and makes a step of each line that it completes. Returns whether there may be more.
fn hear_piece<P: Promise, D: Disk, B: Run, S: Stream>(
    alloc: Global,
    bot: &mut Bot<D>,
    store: &ProcStore<P, B>,
    lines: &mut LineReader,
    stream: &mut S,
    outbox: &mut Outbox,
) -> Result<bool, DriveEnd>
    ensures ok { IfOk result (λ more. HearsPiece P.promised store.now
        (course_of bot.old outbox.old) lines.old (S.source stream.old) more
        (course_of bot.new outbox.new) lines.new (S.source stream.new)) }
    ensures err { IfErr result (λ end. HearsNoPiece end P.promised store.now
        (course_of bot.old outbox.old) lines.old (S.source stream.old)
        (course_of bot.new outbox.new) lines.new (S.source stream.new)) }
    ensures other { S.sink stream.new ≡ S.sink stream.old }
{
    let mut buffer = [0; PIECE];
    match stream.give(&mut buffer) {
        Given::Bytes(count) => {
            match hear_bytes(alloc, bot, store, lines, &buffer[..count], outbox) {
                Ok(()) => Ok(true),
                Err(NoMemory) => Err(DriveEnd::NoMemory),
            }
        }
        Given::End | Given::Stall => Ok(false),
        Given::Fault => Err(DriveEnd::Read),
    }
}

// Makes a step of each line that these bytes complete.
fn hear_bytes<P: Promise, D: Disk, B: Run>(
    alloc: Global,
    bot: &mut Bot<D>,
    store: &ProcStore<P, B>,
    lines: &mut LineReader,
    bytes: &[u8],
    outbox: &mut Outbox,
) -> Result<(), NoMemory>
    ensures ok { OnOk result (Hears P.promised store.now (course_of bot.old outbox.old) lines.old bytes.now
        (course_of bot.new outbox.new) lines.new) }
    ensures err { OnErr result (HearsFirst P.promised store.now (course_of bot.old outbox.old) lines.old bytes.now
        (course_of bot.new outbox.new)) }
{
    let ended = lines.feed(alloc, bytes)?;
    step_lines(alloc, bot, store, ended.as_slice(), outbox)
}
