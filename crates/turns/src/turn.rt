// One turn of a bot.
ghost use Rattle.std.specs.Prelude.{◌≡◌, ◌≢◌, ◌<◌, ◌++◌, ◌∷◌, [], OnOk, OnErr, vec_len, vec_capacity};
ghost use Rattle.std.specs.List.{AllByRecursion};
ghost use Rattle.sharelink.specs.Shapes.{HasGoodRecords};
ghost use Rattle.botcore.specs.declared.report.End.TheVariants.{NoMemory as ends_no_memory};
ghost use Rattle.turns.specs.Queues.{IsStepped, IsUnstepped, Queues};
ghost use Rattle.turns.specs.Turns.{Turns, IsTold, IsTurnEvent, Stops, AllGood};
ghost use Rattle.watching.specs.Acts.{IsHeard, MayStep, MayTake};
ghost use Rattle.watching.specs.Following.{Follows, IsWatched};

use crate::events::events_of;
use crate::watched::{watched_line, watched_step};
use botcore::{Bot, BotEvent, End, Report};
use bytetext::{NoMemory, Seq};
use disks::Disk;
use ircline::{Line, LineReader};
use procs::{ProcStore, Promise, Run};
use sharewire::Packet;
use std::alloc::Global;
use userfile::Change;
use watching::Watcher;

/// What a bot hears in one turn.
#[derive(Drop)]
pub struct Heard {
    /// Whether there is a new connection to the server. The bytes are then its first.
    pub connected: bool,
    /// What the server sent.
    pub bytes: Vec<u8>,
    /// The packets of the other bots, in the order in which the bot takes them, as
    /// [`watched_packets`](crate::watched_packets) returns them. The records of a part are well-formed, as those of a
    /// decoded packet are.
    pub packets: Vec<Packet>,
    /// The changes that commands ask for, in order. The report of each has its note.
    pub changes: Vec<Change>,
    /// The reading of the clock, in seconds since 1970-01-01 UTC.
    pub now: u64,
    /// Whether a pump is due.
    pub pump: bool,
    /// Whether a compaction is due.
    pub compact: bool,
}

/// How a turn ends.
#[derive(Clone, Copy, Debug, PartialEq, Eq)]
pub enum TurnEnd {
    /// All its steps are made.
    Done,
    /// An allocation failed. The steps before it are kept, and their reports are returned.
    NoMemory,
}

/// A line of the server whose step is made.
#[derive(Drop)]
pub struct HeardLine {
    /// The line.
    pub line: Line,
    /// Whether to log the line, as the report of its step says ([`Report::logged`]): false if a proc keeps it out of
    /// the log.
    pub logged: bool,
}

/// The result of a turn.
pub struct Told {
    /// How it ended.
    pub end: TurnEnd,
    /// The lines that the turn's bytes complete, in order. Out of memory, only those whose steps are made.
    pub lines: Seq<HeardLine>,
    /// The reports of its steps, in order.
    pub reports: Seq<Report>,
}

// Written by hand, so that it is proved once and not in each function that drops one.
impl Drop for Told {
    fn drop(self) {
        let Told {
            end: _,
            lines: _,
            reports: _,
        } = self;
    }
}

/// Makes the steps of what `bot` has `heard` in a turn, with the procs of `store`, in this order: a new connection,
/// each line that its bytes complete, the reading, each packet, each change, a pump and a compaction.
///
/// Nobody else needs to read the bytes: the call returns their lines, each with whether its step has it logged. The
/// report of a line is at the line's place in the reports, or one later after a new connection.
///
/// A new connection also starts a new line: the call discards the part of a line that `lines` held before. If the
/// reading is after the year 2999, its report has the refusal, as with every refusal, and the turn continues.
///
/// Out of memory, only the first of these steps are made, and the call returns their reports, and the lines among
/// them. The step at which memory ran out leaves the bot as it was, except for what happened to its disks. `lines` may
/// have taken the bytes in or not: connect again, or end the process.
///
/// The call tells `watcher` each step, before it and after it. The watcher must have the bot as it is, and have taken each
/// packet for the process. What the reports have for the other bots is to be queued now, in order, before the watcher
/// lets the process wait.
#[tactic(auto, using(watching::proofs::FollowingLemmas::follows_same))]
pub fn take_turn<P: Promise, D: Disk, B: Run, W: Watcher>(
    alloc: Global,
    bot: &mut Bot<D>,
    store: &ProcStore<P, B>,
    lines: &mut LineReader,
    heard: Heard,
    watcher: &mut W,
) -> Told
    requires good { AllByRecursion HasGoodRecords heard.packets.items }
    requires heard { AllByRecursion (IsHeard (W.past watcher.old)) heard.packets.items }
    requires watched { IsWatched P.promised store.now W.may (W.past watcher.old) bot.old }
    ensures turn { Turns P.promised store.now bot.old lines.old heard result bot.new lines.new }
    ensures good { AllGood result.reports }
    // Whatever becomes of the turn, the watcher was told of lawful steps alone, and has the bot as it is now.
    ensures follows { Follows (MayStep P.promised store.now) (W.past watcher.old) (W.past watcher.new) }
    ensures watched { IsWatched P.promised store.now W.may (W.past watcher.new) bot.new }
    ensures queues { Queues (W.past watcher.old) (W.past watcher.new) result }
{
    let mut stepped = Stepped::new(alloc);
    let events = match events_of(alloc, lines, heard) {
        Ok(events) => events,
        Err(NoMemory) => return stepped.into_told(TurnEnd::NoMemory),
    };
    for event in events {
        match step_one(alloc, bot, store, event, &mut stepped, watcher) {
            Ok(()) => {}
            Err(NoMemory) => return stepped.into_told(TurnEnd::NoMemory),
        }
    }
    stepped.into_told(TurnEnd::Done)
}

// The lines and the reports of the steps so far.
struct Stepped {
    lines: Vec<HeardLine>,
    reports: Vec<Report>,
}

// Written by hand, so that it is proved once and not in each function that drops one.
impl Drop for Stepped {
    fn drop(self) {
        let Stepped {
            lines: _,
            reports: _,
        } = self;
    }
}

impl Stepped {
    // No step is made yet. Does not allocate.
    fn new(alloc: Global) -> Stepped
        ensures lines { result.lines.items ≡ [] }
        ensures reports { result.reports.items ≡ [] }
    {
        Stepped {
            lines: Vec::new(alloc),
            reports: Vec::new(alloc),
        }
    }

    // The result of a turn of these steps.
    fn into_told(self, end: TurnEnd) -> Told
        ensures end { result.end ≡ end }
        ensures lines { result.lines ≡ self.lines.items }
        ensures reports { result.reports ≡ self.reports.items }
    {
        let Stepped { lines, reports } = self;
        Told {
            end,
            lines: Seq::new(lines),
            reports: Seq::new(reports),
        }
    }

    // Keeps the report of a step, unless the step ran out of memory. Does not allocate.
    fn put(&mut self, report: Report) -> Result<(), NoMemory>
        requires room { vec_len self.old.reports < vec_capacity self.old.reports }
        ensures made { OnOk result (report.end ≢ ends_no_memory) }
        ensures reports { OnOk result (self.new.reports.items ≡ self.old.reports.items ++ report ∷ []) }
        ensures not_made { OnErr result (report.end ≡ ends_no_memory) }
        ensures same { OnErr result (self.new.reports.items ≡ self.old.reports.items) }
        ensures lines { self.new.lines ≡ self.old.lines }
    {
        match report.end {
            End::NoMemory => Err(NoMemory),
            End::Done | End::Refused(_) => {
                self.reports.push_reserved(report);
                Ok(())
            }
        }
    }
}

// Makes a step, and keeps its report, and its line if it has one. Out of memory, it keeps nothing, and the bot is as
// it was, since no step is a restart.
#[tactic(auto, using(watching::proofs::FollowingLemmas::follows_same, crate::proofs::QueueLemmas::unstepped_same))]
fn step_one<P: Promise, D: Disk, B: Run, W: Watcher>(
    alloc: Global,
    bot: &mut Bot<D>,
    store: &ProcStore<P, B>,
    event: BotEvent,
    stepped: &mut Stepped,
    watcher: &mut W,
) -> Result<(), NoMemory>
    requires good { IsTurnEvent event }
    requires takes { MayTake (W.past watcher.old) event }
    requires watched { IsWatched P.promised store.now W.may (W.past watcher.old) bot.old }
    ensures ok { OnOk result (IsTold P.promised store.now bot.old event stepped.old.lines.items stepped.new.lines.items
        stepped.old.reports.items stepped.new.reports.items bot.new) }
    ensures stops { OnErr result (Stops P.promised store.now bot.old event bot.new) }
    ensures lines { OnErr result (stepped.new.lines.items ≡ stepped.old.lines.items) }
    ensures reports { OnErr result (stepped.new.reports.items ≡ stepped.old.reports.items) }
    ensures follows { Follows (MayStep P.promised store.now) (W.past watcher.old) (W.past watcher.new) }
    ensures watched { IsWatched P.promised store.now W.may (W.past watcher.new) bot.new }
    ensures acts { OnOk result (IsStepped (W.past watcher.old) (W.past watcher.new) event
        stepped.old.reports.items stepped.new.reports.items) }
    ensures unstepped { OnErr result (IsUnstepped (W.past watcher.old) (W.past watcher.new)) }
{
    stepped.reports.reserve(1)?;
    match event {
        // The bot borrows the line, which is kept with its report.
        BotEvent::Line(line) => {
            stepped.lines.reserve(1)?;
            let report = watched_line(alloc, bot, store, &line, watcher);
            let logged = report.logged;
            stepped.put(report)?;
            stepped.lines.push_reserved(HeardLine { line, logged });
            Ok(())
        }
        BotEvent::Connect
        | BotEvent::Ask(_)
        | BotEvent::Pump
        | BotEvent::Receive(_)
        | BotEvent::Clock(_)
        | BotEvent::Bind(_)
        | BotEvent::Unbind(_)
        | BotEvent::Compact
        | BotEvent::Restart => {
            let report = watched_step(alloc, bot, store, event, watcher);
            stepped.put(report)
        }
    }
}
