// The output of the steps of a drive, and the steps that add to it.
ghost use Rattle.std.specs.Prelude.{◌≡◌, ◌≢◌, ◌≤◌, ◌<◌, ◌+◌, ◌++◌, ◌∷◌, [], length, OnOk, OnErr, IfErr, vec_len, vec_capacity};
ghost use Rattle.std.specs.List.{flat_map};
ghost use Rattle.sharelink.specs.declared.TheConstants.{MAX_TEXTS as most_texts};
ghost use Rattle.botcore.specs.declared.event.BotEvent.TheVariants.{Line as line_event, Clock as clock_event};
ghost use Rattle.botcore.specs.declared.report.End.TheVariants.{NoMemory as ends_no_memory};
ghost use Rattle.turns.specs.Driving.{Makes, MakesFirst, line_events, outcome_of, text_of, unless_silent};
ghost use Rattle.turns.specs.Outboxes.{course_of};

use crate::outcome::DriveOutcome;
use botcore::{Bot, End, Report};
use bytetext::{NoMemory, Texts};
use disks::Disk;
use ircline::Line;
use procs::{ProcStore, Promise, Run};
use sharelink::{MAX_TEXTS, Outgoing, Outgoings};
use std::alloc::Global;

// The output of steps: packets for the link, the lines to the server of each step that has some, and the outcome of
// each step that has something to report.
#[derive(Drop)]
pub(crate) struct Outbox {
    pub(crate) packets: Vec<Outgoing>,
    pub(crate) lines: Vec<Texts>,
    pub(crate) outcomes: Vec<DriveOutcome>,
}

impl Outbox {
    // Creates an empty outbox. Does not allocate.
    pub(crate) fn new(alloc: Global) -> Outbox
        ensures packets { result.packets.items ≡ [] }
        ensures lines { result.lines.items ≡ [] }
        ensures outcomes { result.outcomes.items ≡ [] }
    {
        Outbox {
            packets: Vec::new(alloc),
            lines: Vec::new(alloc),
            outcomes: Vec::new(alloc),
        }
    }

    // Reserves room for the output of one step.
    fn make_room(&mut self) -> Result<(), NoMemory>
        ensures packets { self.new.packets.items ≡ self.old.packets.items }
        ensures lines { self.new.lines.items ≡ self.old.lines.items }
        ensures outcomes { self.new.outcomes.items ≡ self.old.outcomes.items }
        ensures packets_room { OnOk result (vec_len self.new.packets + most_texts ≤ vec_capacity self.new.packets) }
        ensures lines_room { OnOk result (vec_len self.new.lines < vec_capacity self.new.lines) }
        ensures outcomes_room { OnOk result (vec_len self.new.outcomes < vec_capacity self.new.outcomes) }
    {
        self.packets.reserve(MAX_TEXTS)?;
        self.lines.reserve(1)?;
        self.outcomes.reserve(1)?;
        Ok(())
    }

    // Adds the output of a step. Does not allocate.
    fn put(&mut self, packets: Outgoings, lines: Texts, outcome: DriveOutcome)
        requires few { length packets ≤ most_texts }
        requires packets_room { vec_len self.old.packets + most_texts ≤ vec_capacity self.old.packets }
        requires lines_room { vec_len self.old.lines < vec_capacity self.old.lines }
        requires outcomes_room { vec_len self.old.outcomes < vec_capacity self.old.outcomes }
        ensures packets { self.new.packets.items ≡ self.old.packets.items ++ packets }
        ensures text { flat_map text_of self.new.lines.items ≡ flat_map text_of self.old.lines.items ++ text_of lines }
        ensures outcomes { self.new.outcomes.items ≡ self.old.outcomes.items ++ unless_silent outcome }
    {
        let mut packets = packets.into_vec();
        let _ = self.packets.append(&mut packets);
        if !lines.is_empty() {
            self.lines.push_reserved(lines);
        }
        if !outcome.is_silent() {
            self.outcomes.push_reserved(outcome);
        }
    }

    // Adds the output of a step, unless the step ran out of memory. Does not allocate.
    fn put_report(&mut self, report: Report) -> Result<(), NoMemory>
        requires few { length report.packets ≤ most_texts }
        requires packets_room { vec_len self.old.packets + most_texts ≤ vec_capacity self.old.packets }
        requires lines_room { vec_len self.old.lines < vec_capacity self.old.lines }
        requires outcomes_room { vec_len self.old.outcomes < vec_capacity self.old.outcomes }
        ensures made { OnOk result (report.end ≢ ends_no_memory) }
        ensures packets { OnOk result (self.new.packets.items ≡ self.old.packets.items ++ report.packets) }
        ensures text { OnOk result
            (flat_map text_of self.new.lines.items ≡ flat_map text_of self.old.lines.items ++ text_of report.lines) }
        ensures outcomes { OnOk result
            (self.new.outcomes.items ≡ self.old.outcomes.items ++ unless_silent (outcome_of report)) }
        ensures not_made { OnErr result (report.end ≡ ends_no_memory) }
        ensures same { OnErr result (self.new ≡ self.old) }
    {
        match report.end {
            End::NoMemory => Err(NoMemory),
            End::Done | End::Refused(_) => {
                let (note, calls, packets, lines, faults) = report.into_parts();
                let outcome = DriveOutcome {
                    note,
                    calls,
                    faults,
                };
                self.put(packets, lines, outcome);
                Ok(())
            }
        }
    }
}

// Makes a step of a line. Out of memory, the bot is as it was.
fn step_line<P: Promise, D: Disk, B: Run>(
    alloc: Global,
    bot: &mut Bot<D>,
    store: &ProcStore<P, B>,
    line: &Line,
    outbox: &mut Outbox,
) -> Result<(), NoMemory>
    ensures ok { OnOk result (Makes P.promised store.now (course_of bot.old outbox.old) (line_event line.now ∷ [])
        (course_of bot.new outbox.new)) }
    ensures err { OnErr result (course_of bot.new outbox.new ≡ course_of bot.old outbox.old) }
{
    outbox.make_room()?;
    let report = bot.take_line(alloc, store, line);
    outbox.put_report(report)
}

// Makes a step of a reading of the clock. Out of memory, the bot is as it was.
pub(crate) fn step_clock<P: Promise, D: Disk, B: Run>(
    alloc: Global,
    bot: &mut Bot<D>,
    store: &ProcStore<P, B>,
    now: u64,
    outbox: &mut Outbox,
) -> Result<(), NoMemory>
    ensures ok { OnOk result (Makes P.promised store.now (course_of bot.old outbox.old) (clock_event now ∷ [])
        (course_of bot.new outbox.new)) }
    ensures err { OnErr result (course_of bot.new outbox.new ≡ course_of bot.old outbox.old) }
{
    outbox.make_room()?;
    let report = bot.read_clock(alloc, store, now);
    outbox.put_report(report)
}

// Makes a step of each line, in order. Out of memory, only the first of them are made.
pub(crate) fn step_lines<P: Promise, D: Disk, B: Run>(
    alloc: Global,
    bot: &mut Bot<D>,
    store: &ProcStore<P, B>,
    lines: &[Line],
    outbox: &mut Outbox,
) -> Result<(), NoMemory>
    ensures ok { OnOk result (Makes P.promised store.now (course_of bot.old outbox.old) (line_events lines.now)
        (course_of bot.new outbox.new)) }
    ensures err { OnErr result (MakesFirst P.promised store.now (course_of bot.old outbox.old)
        (line_events lines.now) (course_of bot.new outbox.new)) }
{
    for line in lines {
        step_line(alloc, bot, store, line, outbox)?;
    }
    Ok(())
}
