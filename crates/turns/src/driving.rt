// Drives a bot over a connection.
ghost use Rattle.std.specs.Prelude.{◌≡◌, ◌<◌, OnOk, IfErr};
ghost use Rattle.bytetext.specs.declared.moment.TheConstants.{MOMENTS_END};
ghost use Rattle.turns.specs.Driving.{Drives, DrivesTo, TakesAll, TakesSome, course_at};
ghost use Rattle.turns.specs.Outboxes.{course_of};
ghost use Rattle.sharelink.specs.Shapes.{AreGood};

use crate::hearing::hear_all;
use crate::outbox::{Outbox, step_clock};
use crate::outcome::DriveOutcomes;
use crate::output::write_out;
use botcore::Bot;
use bytetext::{NoMemory, Seq};
use disks::Disk;
use ircline::LineReader;
use procs::{ProcStore, Promise, Run};
use sharelink::Outgoings;
use std::alloc::Global;
use streams::{Stream, WriteFault};

/// How a drive ends.
#[derive(Clone, Copy, Debug, PartialEq, Eq)]
pub enum DriveEnd {
    /// Nothing more is to be read now, or enough was read, and everything that the bot says is written and flushed.
    Done,
    /// A read of the stream failed. The bot has handled the lines before it; the clock is not read, and nothing is
    /// written.
    Read,
    /// A write to the stream failed or took no bytes, or the flush failed. All steps are made, and a prefix of what
    /// the bot says is written: all of it if only the flush failed.
    Write,
    /// An allocation failed. The steps before it are kept, and nothing is written.
    NoMemory,
}

/// The report of a drive.
pub struct DriveReport {
    /// How it ended.
    pub end: DriveEnd,
    /// The packets of the steps that it made, in order, to send over the link: they are texts, so they contain no
    /// record.
    pub packets: Outgoings,
    /// The outcomes of the steps that it made, in order: one for each step with a note, a call or a fault.
    pub outcomes: DriveOutcomes,
}

// Written by hand, so that it is proved once and not in each function that drops one.
impl Drop for DriveReport {
    fn drop(self) {
        let DriveReport {
            end: _,
            packets: _,
            outcomes: _,
        } = self;
    }
}

/// Drives `bot` over a connection to a server, with the procs of `store`: handles what the server has sent, reads the
/// clock, and writes what the bot says.
///
/// The call reads `stream` until it is at its end or would block, at most 1,000 times for 4,096 bytes each. Each line
/// that these bytes complete, after the part of a line that `lines` holds, is one step of the bot, in order. The
/// reading `now` is the last step; it must be before [`MOMENTS_END`](bytetext::MOMENTS_END). Then the call writes the
/// lines of these steps, each with CR and LF, and flushes the stream, even if there are no lines. It writes a line's
/// bytes and its end separately: if that matters, put a `BufWriter` into a `streams::Duplex`.
///
/// After `Done` the next drive continues where this one ended. After every other end, connect again: with a new
/// [`LineReader`], and the bot by [`Event::Connect`](botcore::BotEvent::Connect).
///
/// ```text
/// let mut lines = LineReader::new(alloc);
/// let mut stream = Duplex::new(reader, writer);
/// let report = drive(alloc, &mut bot, &store, &mut lines, &mut stream, now);
/// for packet in report.packets.into_vec() { .. }             // to the other bots
/// ```
pub fn drive<P: Promise, D: Disk, B: Run, S: Stream>(
    alloc: Global,
    bot: &mut Bot<D>,
    store: &ProcStore<P, B>,
    lines: &mut LineReader,
    stream: &mut S,
    now: u64,
) -> DriveReport
    requires { now < MOMENTS_END }
    ensures drives { Drives P.promised store.now now
        (record { bot = bot.old; held = lines.old; source = S.source stream.old; sink = S.sink stream.old })
        result
        (record { bot = bot.new; held = lines.new; source = S.source stream.new; sink = S.sink stream.new }) }
    ensures good { AreGood result.packets }
{
    let mut outbox = Outbox::new(alloc);
    let end = drive_with(alloc, bot, store, lines, stream, now, &mut outbox);
    DriveReport {
        end,
        packets: Seq::new(outbox.packets),
        outcomes: Seq::new(outbox.outcomes),
    }
}

// Drives a bot with an empty outbox.
fn drive_with<P: Promise, D: Disk, B: Run, S: Stream>(
    alloc: Global,
    bot: &mut Bot<D>,
    store: &ProcStore<P, B>,
    lines: &mut LineReader,
    stream: &mut S,
    now: u64,
    outbox: &mut Outbox,
) -> DriveEnd
    requires { course_of bot.old outbox.old ≡ course_at bot.old }
    ensures { DrivesTo result P.promised store.now now
        (record { bot = bot.old; held = lines.old; source = S.source stream.old; sink = S.sink stream.old })
        outbox.new.packets.items outbox.new.outcomes.items
        (record { bot = bot.new; held = lines.new; source = S.source stream.new; sink = S.sink stream.new }) }
{
    match take_in(alloc, bot, store, lines, stream, now, outbox) {
        Ok(()) => match write_out(stream, outbox.lines.as_slice()) {
            Ok(()) => DriveEnd::Done,
            Err(WriteFault) => DriveEnd::Write,
        },
        Err(end) => end,
    }
}

// Handles what the server has sent, and reads the clock.
fn take_in<P: Promise, D: Disk, B: Run, S: Stream>(
    alloc: Global,
    bot: &mut Bot<D>,
    store: &ProcStore<P, B>,
    lines: &mut LineReader,
    stream: &mut S,
    now: u64,
    outbox: &mut Outbox,
) -> Result<(), DriveEnd>
    ensures ok { OnOk result (TakesAll P.promised store.now now
        (course_of bot.old outbox.old) lines.old (S.source stream.old)
        (course_of bot.new outbox.new) lines.new (S.source stream.new)) }
    ensures err { IfErr result (λ end. TakesSome end P.promised store.now now
        (course_of bot.old outbox.old) lines.old (S.source stream.old)
        (course_of bot.new outbox.new) lines.new (S.source stream.new)) }
    ensures other { S.sink stream.new ≡ S.sink stream.old }
{
    match hear_all(alloc, bot, store, lines, stream, outbox) {
        Ok(()) => match step_clock(alloc, bot, store, now, outbox) {
            Ok(()) => Ok(()),
            Err(NoMemory) => Err(DriveEnd::NoMemory),
        },
        Err(end) => Err(end),
    }
}
