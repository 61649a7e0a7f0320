// An end's state, and the journal that keeps it.
ghost use Rattle.std.specs.Prelude.{◌≡◌, None, Some, false, IfOk, IfErr};
ghost use Rattle.bytetext.specs.declared.failure.Failure.TheVariants.{NoMemory as no_memory};
ghost use Rattle.disks.specs.State.{IsSettled};
ghost use Rattle.bytejournal.specs.Opening.{HoldByte};
ghost use Rattle.botjournal.specs.Bases.{IsGoodBase};
ghost use Rattle.botjournal.specs.declared.TheConstants.{LAYOUT};
ghost use Rattle.botjournal.specs.Ledger.{IsGoodFound, AreStill, Reopens, settled};
ghost use Rattle.sharelink.specs.States.{Reads, contents_in, empty_base};
ghost use Rattle.sharelink.specs.Kept.{Journals, Restarts, Renews, LeavesOwn, MayLeave, LeavesCurrent};
ghost use Rattle.sharelink.specs.StateOpening.{Makes, Finds, FindsAtEachMoment, AreCurrent, KeepsGates, at_rest, device_after};
ghost use Rattle.sharelink.specs.Anew.{PutsAnew, PutsAnewAtEachMoment, journal_error};

use crate::end_state::EndState;
use crate::error::{LinkError, LinkFault};
use crate::state_fault::StateError;
use botjournal::{Base, Found, LAYOUT, Ledger, LedgerError};
use bytejournal::{Disks, JournalError, JournalFault, Returned};
use bytetext::{Failure, Seq};
use disks::Disk;
use std::alloc::Global;
use std::marker::Model;
use std::snapshot::Snapshot;

/// What an end keeps, and the journal that keeps it. After a disk fails the end is down: it shows what it showed
/// before, and takes nothing but a restart.
pub struct Kept<S: EndState, D: Disk> {
    who: u16,
    state: S,
    ledger: Ledger<D>,
    down: bool,
    /// The record that was being journaled when a disk failed, for contracts alone.
    doubt: Option<Snapshot<S::Record>>,
}

// By hand, so that this is proved once, and not in each crate in which it ends.
impl<S: EndState, D: Disk> Drop for Kept<S, D> {
    fn drop(self) {
        let Kept {
            who: _,
            state: _,
            ledger: _,
            down: _,
            doubt: _,
        } = self;
    }
}

impl<S: EndState, D: Disk> Model for Kept<S, D> {
    ghost use Rattle.sharelink.specs.Kept.{Kept};

    ghost Value = { Kept S S.Record };

    ghost use Rattle.std.specs.Prelude.{◌≡◌, option_map};
    ghost use Rattle.botjournal.specs.declared.TheConstants.{LAYOUT};
    ghost use Rattle.sharelink.specs.Kept.{Stands};

    ghost view = { λ k. record {
      who = k.who;
      state = k.state;
      down = k.down;
      doubt = option_map (λ d. d.value) k.doubt;
      device = k.ledger.device;
    } };

    // The journal has the present layout, so that a record may be added to it, and a restart finds no other layout.
    ghost invariant = { λ k. S.is_end k.who × S.is_state k.who k.state
        × Stands (S.meaning k.who) S.folded k.state k.down (option_map (λ d. d.value) k.doubt) k.ledger.account
        × (k.ledger.account.contents.layout ≡ LAYOUT) };
}

impl<S: EndState, D: Disk> Kept<S, D> {
    /// Creates the end `who` on the disks `first` and `second`, before the first change. What the disks held is lost. A
    /// leaf's last request has the number `last`; the hub has no request, so there it is 0.
    ///
    /// # Errors
    /// Each hands the disks back: `NoMemory`, when nothing was written, or `DiskFault`.
    pub fn create(
        alloc: Global,
        first: D,
        second: D,
        who: u16,
        last: u32,
    ) -> Result<Kept<S, D>, Returned<D>>
        requires first_settled { IsSettled (D.state first) }
        requires second_settled { IsSettled (D.state second) }
        requires end { S.is_end who }
        requires asked { S.bot who ≡ 0 → last ≡ 0 }
        ensures { Makes D.state first second (λ k. k.device) (at_rest who) (S.start who last) result }
    {
        let Ok(state) = S::start(alloc, who, last) else {
            return Err(Returned {
                error: Failure::NoMemory,
                disks: Disks { first, second },
            });
        };
        match Ledger::create(alloc, first, second, &empty_base(alloc, S::bot(who), last)) {
            Ok(ledger) => Ok(Kept {
                who,
                state,
                ledger,
                down: false,
                doubt: None,
            }),
            Err(returned) => Err(returned),
        }
    }

    /// Opens the end `who` whose journal the disks `first` and `second` hold. If the journal has the present layout,
    /// nothing is written. If it has an older one, the call first rewrites it with the state alone, in its next
    /// generation.
    ///
    /// # Errors
    /// Each hands the disks back. While reading: `DiskFault`; `NotAJournal` if they hold no journal, or another end's;
    /// `NoMemory`, but never if neither holds a byte. Then, only while rewriting an older journal: `GenerationsSpent`
    /// if it has no next generation, `NoMemory` or `DiskFault`.
    pub fn open(alloc: Global, first: D, second: D, who: u16) -> Result<Kept<S, D>, Returned<D>>
        requires first_settled { IsSettled (D.state first) }
        requires second_settled { IsSettled (D.state second) }
        requires end { S.is_end who }
        ensures row { Finds D.state first second (λ k. k.device) (at_rest who) (S.meaning who) (Renews S.may S.folded S.renewal) (λ k. k.state) result }
        // Nothing happened to disks that have the present layout.
        ensures still { AreCurrent D.state first second → IfOk result (λ k. AreStill (D.state first) (D.state second) k.device) }
        // At each moment of the call a crash leaves what the disks meant, or that rewritten.
        ensures any_moment { FindsAtEachMoment D.state first second (λ k. k.device) (S.meaning who) (Renews S.may S.folded S.renewal) result }
        ensures gates { KeepsGates D.state first second (device_after D.state (λ k. k.device) result) }
        ensures memory { IfErr result (λ returned. returned.error ≡ no_memory → HoldByte (D.state first) (D.state second)) }
    {
        let (ledger, found) = match Ledger::open(alloc, first, second) {
            Ok(opened) => opened,
            Err(returned) => return Err(returned),
        };
        match state_in(alloc, who, ledger.generation(), found) {
            Ok(state) => {
                if ledger.layout() == LAYOUT {
                    return Ok(Kept::up(who, state, ledger));
                }
                Kept::put_anew(alloc, who, state, ledger)
            }
            Err(Failure::Refused(_)) => Err(Returned {
                error: Failure::Refused(JournalFault::NotAJournal),
                disks: ledger.into_disks(),
            }),
            Err(Failure::NoMemory) => Err(Returned {
                error: Failure::NoMemory,
                disks: ledger.into_disks(),
            }),
        }
    }

    // Creates an end whose journal takes records and means its state.
    fn up(who: u16, state: S, ledger: Ledger<D>) -> Kept<S, D>
        requires end { S.is_end who }
        requires state { S.is_state who state }
        requires rests { ledger.account ≡ settled ledger.account.contents }
        requires means { S.meaning who ledger.account.contents ≡ Some state }
        requires current { ledger.account.contents.layout ≡ LAYOUT }
        ensures { result ≡ at_rest who state ledger.device }
    {
        Kept {
            who,
            state,
            ledger,
            down: false,
            doubt: None,
        }
    }

    // Creates an end on an older journal, which it rewrites with the state alone.
    fn put_anew(
        alloc: Global,
        who: u16,
        state: S,
        ledger: Ledger<D>,
    ) -> Result<Kept<S, D>, Returned<D>>
        requires end { S.is_end who }
        requires state { S.is_state who state }
        requires rests { ledger.account ≡ settled ledger.account.contents }
        requires means { S.meaning who ledger.account.contents ≡ Some state }
        ensures row { PutsAnew D.state (S.may state S.renewal) (at_rest who (S.folded state S.renewal)) (λ k. k.device) ledger result }
        ensures any_moment { PutsAnewAtEachMoment D.state (S.may state S.renewal) (S.pending who state S.renewal) (λ k. k.device) ledger result }
    {
        let mut state = state;
        let mut ledger = ledger;
        ledger.know_disks();
        if ledger.generations_spent() {
            return Err(Returned {
                error: Failure::Refused(JournalFault::GenerationsSpent),
                disks: ledger.into_disks(),
            });
        }
        match state.renew(alloc, who, &mut ledger) {
            Ok(()) => Ok(Kept::up(who, state, ledger)),
            Err(error) => Err(Returned {
                error: journal_error(error),
                disks: ledger.into_disks(),
            }),
        }
    }

    /// Returns whose state it is: for the hub the number of its leaves, for a leaf its own number.
    pub fn who(&self) -> u16
        ensures who { result ≡ self.now.who }
        ensures end { S.is_end result }
    {
        self.who
    }

    /// Returns the state that is kept.
    pub fn state(&self) -> &S
        ensures { result.now ≡ self.now.state }
    {
        &self.state
    }

    /// States what always holds of the state. It does nothing.
    pub fn know_state(&self)
        ensures { S.is_state self.now.who self.now.state }
    {
        let _who = &self.who;
    }

    /// Whether the end takes nothing but a restart.
    pub fn is_down(&self) -> bool
        ensures { result ≡ self.now.down }
    {
        self.down
    }

    /// Keeps the record `entry`, which the state may take.
    ///
    /// # Errors
    /// `NoMemory`, which leaves all as it was; `JournalFault` if a disk failed: the end then takes nothing but a
    /// restart, which shows whether the record counts.
    pub fn journal(&mut self, alloc: Global, entry: S::Record) -> Result<(), LinkError>
        requires up { self.old.down ≡ false }
        requires may { S.may self.old.state entry }
        ensures row { Journals S.folded entry self.old result self.new }
        // At each moment of the call a crash leaves what was kept, or that with the record.
        ensures any_moment { LeavesOwn (S.meaning self.old.who) S.folded self.old.state (Some entry) self.old.device self.new.device }
    {
        self.ledger.know_disks();
        let seen = Snapshot::of(&entry);
        match self.state.write(alloc, self.who, &mut self.ledger, entry) {
            Ok(()) => Ok(()),
            Err(Failure::NoMemory) => Err(Failure::NoMemory),
            Err(Failure::Refused(_)) => {
                self.doubt = Some(seen);
                self.down = true;
                Err(Failure::Refused(LinkFault::JournalFault))
            }
        }
    }

    /// Reopens the journal on what a crash leaves.
    ///
    /// # Errors
    /// `DiskFault` or `NoMemory`: the end takes nothing but a restart, and what was in doubt still is.
    pub fn restart(&mut self, alloc: Global) -> Result<(), LinkError>
        ensures row { Restarts S.folded self.old result self.new }
        // Both disks are reopened, whatever the result.
        ensures reopened { Reopens self.old.device self.new.device }
        // At each moment of the call a crash leaves what is kept, with the record in doubt or without it.
        ensures any_moment { LeavesOwn (S.meaning self.old.who) S.folded self.old.state self.old.doubt self.old.device self.new.device }
    {
        let found = match self.ledger.restart(alloc) {
            Ok(found) => found,
            Err(Failure::Refused(_)) => {
                self.down = true;
                return Err(Failure::Refused(LinkFault::DiskFault));
            }
            Err(Failure::NoMemory) => {
                self.down = true;
                return Err(Failure::NoMemory);
            }
        };
        match state_in(alloc, self.who, self.ledger.generation(), found) {
            Ok(state) => {
                self.state = state;
                self.doubt = None;
                self.down = false;
                Ok(())
            }
            Err(_) => {
                self.down = true;
                Err(Failure::NoMemory)
            }
        }
    }

    /// States what a crash leaves at this moment, between two calls. It does nothing.
    pub fn know_disks(&self)
        // What is the end's, with the record in doubt or without it.
        ensures left { MayLeave (S.meaning self.now.who) S.folded self.now.state self.now.doubt self.now.device.first self.now.device.second }
        ensures current { LeavesCurrent self.now.device.first self.now.device.second }
        // Nothing is in doubt for an end that takes records.
        ensures certain { self.now.down ≡ false → self.now.doubt ≡ None }
    {
        self.ledger.know_disks();
    }

    /// Returns the two disks, in the order in which they were given.
    pub fn into_disks(self) -> Disks<D>
        // Whatever a crash leaves on them is the end's, with the record in doubt or without it.
        ensures left { MayLeave (S.meaning self.who) S.folded self.state self.doubt (D.state result.first) (D.state result.second) }
        ensures current { LeavesCurrent (D.state result.first) (D.state result.second) }
    {
        let Kept {
            who: _,
            state: _,
            ledger,
            down: _,
            doubt: _,
        } = self;
        ledger.into_disks()
    }
}

// Creates the base of a bot before the first change, when its last request had the number `last`. The hub has none.
fn empty_base(alloc: Global, bot: u16, last: u32) -> Base
    requires asked { bot ≡ 0 → last ≡ 0 }
    ensures base { result ≡ empty_base bot last }
    ensures good { IsGoodBase result }
{
    Base {
        bot,
        version: 0,
        records: Seq::empty(alloc),
        replies: Seq::empty(alloc),
        last_request: last,
        out: Seq::empty(alloc),
    }
}

// Returns the state that a journal means. What was found in the journal is moved into it.
fn state_in<S: EndState>(
    alloc: Global,
    who: u16,
    generation: u32,
    found: Found,
) -> Result<S, StateError>
    requires end { S.is_end who }
    requires good { IsGoodFound found }
    ensures reads { (layout : _) → Reads (S.meaning who (contents_in layout generation found)) result }
    ensures state { IfOk result (λ kept. S.is_state who kept) }
{
    let Found { base, entries } = found;
    S::read(alloc, who, generation, base, entries)
}

// Converts the error of a journal that could not be rewritten.
fn journal_error(error: LedgerError) -> JournalError
    ensures { result ≡ journal_error error }
{
    match error {
        Failure::Refused(_) => Failure::Refused(JournalFault::DiskFault),
        Failure::NoMemory => Failure::NoMemory,
    }
}
