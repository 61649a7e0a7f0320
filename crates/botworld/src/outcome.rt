// The outcomes of steps.
ghost use Rattle.std.specs.Prelude.{◌≡◌, IfOk};
ghost use Rattle.std.specs.Option.{option_copied};
ghost use Rattle.botworld.specs.Codes.{outcome_code};

use botcore::{End, Faults, Note};
use bytetext::{NoMemory, Seq, Texts, TryCopy};
use procs::MadeCalls;
use std::alloc::Global;

/// A bot's part in a step: the bot's report, with the numbers of its packets.
#[derive(Drop)]
pub struct WorldReport {
    /// The bot's number.
    pub bot: u16,
    /// How its part ended.
    pub end: End,
    /// What came of the step.
    pub note: Option<Note>,
    /// The calls that were made, in order. Out of memory, they are the first of those that were due.
    pub calls: MadeCalls,
    /// The number of the first packet that the step sent, or would have sent.
    pub first: u64,
    /// The number of packets that the step sent.
    pub count: usize,
    /// The lines that the step sent to the server, in order, each without its CR LF.
    pub lines: Texts,
    /// The binds that were left out because the store lacks their procs, then the refused actions, and then the
    /// refused lines of the bot's own.
    pub faults: Faults,
    /// Whether the line is logged.
    pub logged: bool,
}

impl TryCopy for WorldReport {
    fn copy(&self, alloc: Global) -> Result<WorldReport, NoMemory> {
        let note = copy_of_note(alloc, &self.note)?;
        let calls = self.calls.copy(alloc)?;
        let lines = self.lines.copy(alloc)?;
        let faults = self.faults.copy(alloc)?;
        Ok(WorldReport {
            bot: self.bot,
            end: self.end,
            note,
            calls,
            first: self.first,
            count: self.count,
            lines,
            faults,
            logged: self.logged,
        })
    }
}

fn copy_of_note(alloc: Global, note: &Option<Note>) -> Result<Option<Note>, NoMemory>
    ensures { IfOk result (λ twin. twin ≡ note.now) }
{
    match note {
        Some(note) => Ok(Some(note.copy(alloc)?)),
        None => Ok(None),
    }
}

/// The outcome of a step.
#[derive(Drop)]
pub enum Outcome {
    /// A bot took part.
    Report(WorldReport),
    /// O2: no bot has this number; nothing changed.
    NoSuchBot,
    /// O3: no packet has this number, or the step gives a bot a packet without a delivery; nothing changed.
    NoSuchPacket,
}

impl Outcome {
    /// Returns the letter and number of an outcome in which no bot took part; none for a report.
    pub fn code(&self) -> Option<&'static str>
        ensures { option_copied result ≡ outcome_code self.now }
    {
        match self {
            Outcome::Report(_) => None,
            Outcome::NoSuchBot => Some("O2"),
            Outcome::NoSuchPacket => Some("O3"),
        }
    }
}

impl TryCopy for Outcome {
    fn copy(&self, alloc: Global) -> Result<Outcome, NoMemory> {
        match self {
            Outcome::Report(report) => Ok(Outcome::Report(report.copy(alloc)?)),
            Outcome::NoSuchBot => Ok(Outcome::NoSuchBot),
            Outcome::NoSuchPacket => Ok(Outcome::NoSuchPacket),
        }
    }
}

/// Outcomes in the order of their steps.
pub type Outcomes = Seq<Outcome>;

/// The outcomes of a list of steps.
pub struct Transcript {
    /// An outcome for each step that was made.
    pub outcomes: Outcomes,
    /// Whether the run stopped early because the allocation for the next step failed. The steps before it are kept.
    pub cut: bool,
}

// Written by hand, so that it is proved once and not in each function that drops one.
impl Drop for Transcript {
    fn drop(self) {
        let Transcript {
            outcomes: _,
            cut: _,
        } = self;
    }
}

impl TryCopy for Transcript {
    fn copy(&self, alloc: Global) -> Result<Transcript, NoMemory> {
        Ok(Transcript {
            outcomes: self.outcomes.copy(alloc)?,
            cut: self.cut,
        })
    }
}
