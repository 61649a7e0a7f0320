// What an end of the link keeps, as its journal sees it.
ghost use Rattle.std.specs.Prelude.{◌≡◌, ◌≢◌, ◌-◌, ◌^◌, ℕ, Option, Some, false, IfOk, OnOk, OnErr};
ghost use Rattle.std.specs.List.{AllByRecursion};
ghost use Rattle.botjournal.specs.declared.TheConstants.{LAYOUT};
ghost use Rattle.botjournal.specs.Bases.{IsGoodBase};
ghost use Rattle.botjournal.specs.Entries.{IsGoodEntry};
ghost use Rattle.botjournal.specs.Contents.{Contents, new_contents};
ghost use Rattle.botjournal.specs.Ledger.{Pending, written};
ghost use Rattle.sharelink.specs.States.{Reads, empty_base};
ghost use Rattle.sharelink.specs.Kept.{WritesAny, LeavesWritten};

use crate::state_fault::StateError;
use botjournal::{Base, Entry, Ledger, LedgerError};
use bytetext::{NoMemory, Seq};
use disks::Disk;
use std::alloc::Global;

/// What an end of the link keeps over a restart: how it is read from a journal, and what it writes there.
///
/// Each call names the end by `who`: for the hub the number of its leaves, for a leaf its own number.
pub trait EndState: Drop + Sized {
    /// What it journals, one record a call.
    type Record: Drop;

    /// Whether such an end exists.
    ghost is_end: { ℕ → Type 0 };

    /// Which bot the journal is of.
    ghost bot: { ℕ → ℕ };

    /// The state before the first change, when the last request had this number.
    ghost start: { ℕ → ℕ → Self };

    /// What always holds of the state.
    ghost is_state: { ℕ → Self → Type 0 };

    /// What the contents of a journal mean: nothing if they are not the end's.
    ghost meaning: { ℕ → Contents → Option Self };

    /// A record that may be journaled in this state.
    ghost may: { Self → Self.Record → Type 0 };

    /// What is written into the journal for a record.
    ghost pending: { ℕ → Self → Self.Record → Pending };

    /// The state once a record is kept.
    ghost folded: { Self → Self.Record → Self };

    /// The record that writes the state alone into the journal.
    ghost renewal: { Self.Record };

    /// Returns the bot that the journal of `who` belongs to.
    fn bot(who: u16) -> u16
        ensures { result ≡ bot who };

    /// Returns the state of `who` before the first change, in the first generation of its journal. A leaf's last
    /// request has the number `last`; the hub has no request.
    ///
    /// # Errors
    /// `NoMemory`.
    fn start(alloc: Global, who: u16, last: u32) -> Result<Self, NoMemory>
        requires end { is_end who }
        ensures start { IfOk result (λ kept. kept ≡ start who last) }
        // A newly created journal means it.
        ensures means { IfOk result (λ kept. meaning who (new_contents (empty_base (bot who) last)) ≡ Some kept) }
        ensures state { IfOk result (λ kept. is_state who kept) };

    /// Returns what a journal's `base` and `entries` mean to `who`, in this `generation`. They have spellings, as they
    /// all have when a journal was opened with them. It moves them into the state.
    ///
    /// # Errors
    /// `NotAJournal` if they mean nothing, or `NoMemory`.
    fn read(
        alloc: Global,
        who: u16,
        generation: u32,
        base: Base,
        entries: Seq<Entry>,
    ) -> Result<Self, StateError>
        requires end { is_end who }
        requires good { IsGoodBase base }
        requires spelled { AllByRecursion IsGoodEntry entries }
        // In any layout that they had.
        ensures reads { (layout : ℕ) → Reads (meaning who (record { layout = layout; generation = generation; base = base; entries = entries })) result }
        ensures state { IfOk result (λ kept. is_state who kept) };

    /// Journals the record `entry` of `who` in `ledger`, and then folds it into the state. It allocates everything
    /// before the first device call.
    ///
    /// # Errors
    /// Those of [`Ledger::append`]; each leaves the state as it was.
    fn write<D: Disk>(
        &mut self,
        alloc: Global,
        who: u16,
        ledger: &mut Ledger<D>,
        entry: Self::Record,
    ) -> Result<(), LedgerError>
        requires up { ledger.old.account.down ≡ false }
        requires current { ledger.old.account.contents.layout ≡ LAYOUT }
        requires end { is_end who }
        requires state { is_state who self.old }
        requires means { meaning who ledger.old.account.contents ≡ Some self.old }
        requires may { may self.old entry }
        ensures row { WritesAny ledger.old (pending who self.old entry) result ledger.new }
        ensures any_moment { LeavesWritten (pending who self.old entry) ledger.old ledger.new }
        ensures folds { OnOk result (self.new ≡ folded self.old entry) }
        ensures stays { OnErr result (self.new ≡ self.old) };

    /// Writes the state of `who` alone into its journal `ledger`, whichever layout that has, in the next generation and
    /// the present layout.
    ///
    /// # Errors
    /// `NoMemory`, when nothing was written, or `DiskFault`; each leaves the state as it was.
    fn renew<D: Disk>(
        &mut self,
        alloc: Global,
        who: u16,
        ledger: &mut Ledger<D>,
    ) -> Result<(), LedgerError>
        requires up { ledger.old.account.down ≡ false }
        requires end { is_end who }
        requires state { is_state who self.old }
        requires means { meaning who ledger.old.account.contents ≡ Some self.old }
        requires left { ledger.old.account.contents.generation ≢ 2 ^ 32 - 1 }
        ensures may { may self.old renewal }
        ensures row { WritesAny ledger.old (pending who self.old renewal) result ledger.new }
        ensures any_moment { LeavesWritten (pending who self.old renewal) ledger.old ledger.new }
        ensures folds { OnOk result (self.new ≡ folded self.old renewal) }
        ensures stays { OnErr result (self.new ≡ self.old) };

    // The contents with a record written mean the state with the record folded in, and that is again a state.
    ghost writes: { (who : ℕ) (contents : Contents) (kept : Self) (entry : Self.Record) → is_end who → is_state who kept
        → may kept entry → meaning who contents ≡ Some kept → meaning who (written (pending who kept entry) contents) ≡ Some (folded kept entry) };

    // What is written into the journal has the present layout.
    ghost renews_layout: { (who : ℕ) (contents : Contents) (kept : Self) → (written (pending who kept renewal) contents).layout ≡ LAYOUT };

    ghost stays_state: { (who : ℕ) (kept : Self) (entry : Self.Record) → is_state who kept → may kept entry
        → is_state who (folded kept entry) };
}
