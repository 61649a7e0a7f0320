// The report of a step.
ghost use Rattle.std.specs.Prelude.{◌≡◌, IfOk};
ghost use Rattle.botcore.specs.Reports.{told, cut_short};
ghost use Rattle.botcore.specs.Reports.{plain, done, refused, out_of_memory};
ghost use Rattle.botcore.specs.Reports.{answer_report, bind_report, unbind_report};

use crate::fault::{Refusal, StepFault};
use bytetext::{Failure, NoMemory, Seq, Texts, TryCopy};
use procs::{BindError, BindFault, MadeCalls, is_logged};
use sharelink::{Answer, LinkError, Outgoings};
use std::alloc::Global;

/// How a step ends.
#[derive(Clone, Copy, Debug, PartialEq, Eq)]
pub enum End {
    /// The event is handled.
    Done,
    /// A rule forbids it.
    Refused(Refusal),
    /// An allocation failed, and the bot is as it was. If it was to restart, its end of the link is down.
    NoMemory,
}

/// What came of a step that is done. A connect, a message of the server and a reading of the clock have no note.
#[derive(Debug, Drop)]
pub enum Note {
    /// The result of a call of the link.
    Link(sharelink::LinkNote),
    /// The bind has this number.
    Bound(u32),
    /// The bind with this number is removed.
    Unbound(u32),
    /// The line is not a message, and the bot does nothing for it.
    Bad(ircline::LineFault),
}

impl TryCopy for Note {
    fn copy(&self, alloc: Global) -> Result<Note, NoMemory> {
        match self {
            Note::Link(note) => Ok(Note::Link(note.copy(alloc)?)),
            Note::Bound(number) => Ok(Note::Bound(*number)),
            Note::Unbound(number) => Ok(Note::Unbound(*number)),
            Note::Bad(fault) => Ok(Note::Bad(*fault)),
        }
    }
}

/// Faults in order.
pub type Faults = Seq<StepFault>;

/// The report of a step.
pub struct Report {
    /// How it ended.
    pub end: End,
    /// What came of the step.
    pub note: Option<Note>,
    /// The calls that were made, in order. Out of memory, they are the first of those that were due.
    pub calls: MadeCalls,
    /// The packets to send, in order.
    pub packets: Outgoings,
    /// The lines to send to the server, in order, each without its CR LF.
    pub lines: Texts,
    /// What was left out or refused: the binds and timers whose procs the store lacks, in the order in which they
    /// would be called; then the refused actions, in the order of the calls; then the refused lines of the bot's own.
    pub faults: Faults,
    /// Whether the line is logged: false if a raw, `msgm`, `pubm` or `notc` proc has answered 1, and true for any
    /// other event.
    pub logged: bool,
}

// Written by hand, so that it is proved once and not in each function that drops one.
impl Drop for Report {
    fn drop(self) {
        let Report {
            end: _,
            note: _,
            calls: _,
            packets: _,
            lines: _,
            faults: _,
            logged: _,
        } = self;
    }
}

impl Report {
    // Creates a report of an end and a note alone. Does not allocate.
    fn plain(alloc: Global, end: End, note: Option<Note>) -> Report
        ensures { result ≡ plain end note }
    {
        Report {
            end,
            note,
            calls: Seq::empty(alloc),
            packets: Seq::empty(alloc),
            lines: Seq::empty(alloc),
            faults: Seq::empty(alloc),
            logged: true,
        }
    }

    // Creates the report of an event that is handled. Does not allocate.
    pub(crate) fn done(alloc: Global, note: Option<Note>) -> Report
        ensures { result ≡ done note }
    {
        Report::plain(alloc, End::Done, note)
    }

    // Creates the report of an event that a rule forbids. Does not allocate.
    pub(crate) fn refused(alloc: Global, refusal: Refusal) -> Report
        ensures { result ≡ refused refusal }
    {
        Report::plain(alloc, End::Refused(refusal), None)
    }

    // Creates the report of a failed allocation. Does not allocate.
    pub(crate) fn out_of_memory(alloc: Global) -> Report
        ensures { result ≡ out_of_memory }
    {
        Report::plain(alloc, End::NoMemory, None)
    }

    // Turns the answer of a call of the link into a report. Does not allocate.
    pub(crate) fn of_answer(alloc: Global, answer: Result<Answer, LinkError>) -> Report
        ensures { result ≡ answer_report answer }
    {
        match answer {
            Ok(answer) => Report {
                end: End::Done,
                note: Some(Note::Link(answer.note)),
                calls: Seq::empty(alloc),
                packets: answer.packets,
                lines: Seq::empty(alloc),
                faults: Seq::empty(alloc),
                logged: true,
            },
            Err(Failure::Refused(fault)) => Report::refused(alloc, Refusal::Link(fault)),
            Err(Failure::NoMemory) => Report::out_of_memory(alloc),
        }
    }

    // Turns the answer of `bind` into a report. Does not allocate.
    pub(crate) fn of_bind(alloc: Global, answer: Result<u32, BindError>) -> Report
        ensures { result ≡ bind_report answer }
    {
        match answer {
            Ok(number) => Report::done(alloc, Some(Note::Bound(number))),
            Err(Failure::Refused(fault)) => Report::refused(alloc, Refusal::Bind(fault)),
            Err(Failure::NoMemory) => Report::out_of_memory(alloc),
        }
    }

    // Turns the answer of `unbind` into a report. Does not allocate.
    pub(crate) fn of_unbind(alloc: Global, answer: Result<u32, BindFault>) -> Report
        ensures { result ≡ unbind_report answer }
    {
        match answer {
            Ok(number) => Report::done(alloc, Some(Note::Unbound(number))),
            Err(fault) => Report::refused(alloc, Refusal::Bind(fault)),
        }
    }

    // Creates the report of these calls and of what came of them. Does not allocate.
    pub(crate) fn told(
        note: Option<Note>,
        calls: MadeCalls,
        packets: Outgoings,
        lines: Texts,
        faults: Faults,
    ) -> Report
        ensures { result ≡ told note calls packets lines faults }
    {
        let logged = is_logged(calls.as_slice());
        Report {
            end: End::Done,
            note,
            calls,
            packets,
            lines,
            faults,
            logged,
        }
    }

    // Creates the report of the calls that were made before memory ran out. Does not allocate.
    pub(crate) fn cut_short(alloc: Global, calls: MadeCalls) -> Report
        ensures { result ≡ cut_short calls }
    {
        let logged = is_logged(calls.as_slice());
        Report {
            end: End::NoMemory,
            note: None,
            calls,
            packets: Seq::empty(alloc),
            lines: Seq::empty(alloc),
            faults: Seq::empty(alloc),
            logged,
        }
    }
}

impl Report {
    /// Returns what the report says besides its end: the note, the calls, the packets, the lines and the faults. Does
    /// not allocate.
    pub fn into_parts(self) -> (Option<Note>, MadeCalls, Outgoings, Texts, Faults)
        ensures note { result.0 ≡ self.note }
        ensures calls { result.1 ≡ self.calls }
        ensures packets { result.2 ≡ self.packets }
        ensures lines { result.3 ≡ self.lines }
        ensures faults { result.4 ≡ self.faults }
    {
        let Report {
            end: _,
            note,
            calls,
            packets,
            lines,
            faults,
            logged: _,
        } = self;
        (note, calls, packets, lines, faults)
    }
}

impl TryCopy for Report {
    fn copy(&self, alloc: Global) -> Result<Report, NoMemory> {
        let note = copy_of_note(alloc, &self.note)?;
        let calls = self.calls.copy(alloc)?;
        let packets = self.packets.copy(alloc)?;
        let lines = self.lines.copy(alloc)?;
        let faults = self.faults.copy(alloc)?;
        Ok(Report {
            end: self.end,
            note,
            calls,
            packets,
            lines,
            faults,
            logged: self.logged,
        })
    }
}

fn copy_of_note(alloc: Global, note: &Option<Note>) -> Result<Option<Note>, NoMemory>
    ensures { IfOk result (λ twin. twin ≡ note.now) }
{
    match note {
        Some(note) => Ok(Some(note.copy(alloc)?)),
        None => Ok(None),
    }
}
