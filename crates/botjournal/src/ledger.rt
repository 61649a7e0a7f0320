// A bot's journal that survives a fault of its disks.
ghost use Rattle.std.specs.Prelude.{◌≡◌, ◌↔◌, ◌-◌, ◌^◌, IsTrue, IfOk, Some, false};
ghost use Rattle.disks.specs.State.{IsSettled};
ghost use Rattle.botjournal.specs.Bases.{IsGoodBase};
ghost use Rattle.botjournal.specs.Entries.{IsGoodEntry};
ghost use Rattle.botjournal.specs.declared.TheConstants.{LAYOUT};
ghost use Rattle.botjournal.specs.Ledger.{Adding, Rebasing, Creates, Opens, Appends, Rebases, Restarts, Reopens, AreStill, NoFewer, AtEachMoment, LeavesEither, Leaves, IsGoodFound, settled, counted, device_on};
ghost use Rattle.bytejournal.specs.Journal.{first_disk, second_disk};
ghost use Rattle.botjournal.specs.Journal.{IsEither, IsAtRest, IsGoodOpened, contents_of};
ghost use Rattle.botjournal.specs.Stores.{OpensAgain, read_error, shown};

use crate::base::Base;
use crate::entry::Entry;
use crate::found::{Found, LedgerError, RebaseError, RebaseFault};
use crate::journal::BotJournal;
use crate::opening::OpenedJournal;
use crate::store::{Doubt, Store};
use bytejournal::{Disks, JournalError, JournalFault, Returned};
use bytetext::Failure;
use disks::{Disk, DiskFault};
use std::alloc::Global;
use std::marker::Model;
use std::mem;
use std::snapshot::Snapshot;

/// A bot's base and the entries appended since, on two disks that may fail.
pub struct Ledger<D: Disk> {
    store: Store<D>,
    /// The journal as it last was at rest, for contracts alone.
    rested: Snapshot<BotJournal<D>>,
    doubt: Option<Doubt>,
    down: bool,
}

// By hand, so that this is proved once, and not in each crate in which a ledger ends.
impl<D: Disk> Drop for Ledger<D> {
    fn drop(self) {
        let Ledger {
            store: _,
            rested: _,
            doubt: _,
            down: _,
        } = self;
    }
}

impl<D: Disk> Model for Ledger<D> {
    ghost use Rattle.botjournal.specs.Ledger.{Ledger};

    ghost Value = { Ledger };

    ghost use Rattle.botjournal.specs.Stores.{Stands, account_of, device_of};

    ghost view = { λ l. record {
      account = account_of D.state l.rested.value l.doubt l.down;
      device = device_of D.state l.store;
    } };

    ghost invariant = { λ l. Stands D.state l.down l.store (account_of D.state l.rested.value l.doubt l.down) };
}

impl<D: Disk> Ledger<D> {
    /// Creates a ledger on the disks `first` and `second` with the base `base` and no entry, in generation 1 and the
    /// layout `LAYOUT`. What the disks held is lost.
    ///
    /// # Errors
    /// Each hands the disks back. `NoMemory` if it cannot allocate room: nothing was written. `DiskFault` if a disk
    /// failed: what the disks hold is then unknown.
    pub fn create(alloc: Global, first: D, second: D, base: &Base) -> Result<Ledger<D>, Returned<D>>
        requires first_settled { IsSettled (D.state first) }
        requires second_settled { IsSettled (D.state second) }
        requires good { IsGoodBase base.now }
        ensures row { Creates D.state first second base.now result }
    {
        match BotJournal::create(alloc, first, second, base) {
            Ok(journal) => Ok(Ledger::at_rest(journal)),
            Err(returned) => Err(returned),
        }
    }

    /// Opens the ledger on the disks `first` and `second`, each read by its own layout. Writes nothing: what it found
    /// in an older layout stays so until `rebase`.
    ///
    /// # Errors
    /// Each hands the disks back as they were. `DiskFault` if a read failed. `NotAJournal` if the disks don't hold a
    /// journal, or one of its gates is missing, which no disk lacks that `create` made. `NoMemory` if it cannot
    /// allocate room for what they hold; never if neither holds a byte.
    pub fn open(alloc: Global, first: D, second: D) -> Result<(Ledger<D>, Found), Returned<D>>
        requires first_settled { IsSettled (D.state first) }
        requires second_settled { IsSettled (D.state second) }
        ensures row { Opens D.state first second result }
        // Nothing happened to the disks.
        ensures still { IfOk result (λ opened. AreStill (D.state first) (D.state second) opened.0.device) }
        // Their earlier failures still count.
        ensures no_fewer { IfOk result (λ opened. NoFewer (D.state first) (D.state second) opened.0.device) }
        // What it holds may be written again, as entries and as a base.
        ensures good { IfOk result (λ opened. IsGoodFound opened.1) }
    {
        match BotJournal::open(alloc, first, second) {
            Ok(opened) => {
                if !opened.whole {
                    return Err(Returned {
                        error: Failure::Refused(JournalFault::NotAJournal),
                        disks: opened.journal.into_disks(),
                    });
                }
                let found = Found {
                    base: opened.base,
                    entries: opened.entries,
                };
                Ok((Ledger::at_rest(opened.journal), found))
            }
            Err(returned) => Err(returned),
        }
    }

    fn at_rest(journal: BotJournal<D>) -> Ledger<D>
        requires going { journal.spent ≡ false }
        requires rest { IsAtRest D.state journal }
        ensures shows { result.account ≡ settled (shown (contents_of D.state journal)) }
        ensures device { result.device ≡ device_on (D.state (first_disk journal)) (D.state (second_disk journal)) }
    {
        Ledger {
            rested: Snapshot::of(&journal),
            store: Store::Open(journal),
            doubt: None,
            down: false,
        }
    }

    /// Appends `entry` to a ledger of the layout `LAYOUT`. At `Ok` the entry is kept: from then on each crash leaves
    /// it.
    ///
    /// # Errors
    /// `NoMemory` if it cannot allocate room: nothing was written. `DiskFault` if a disk failed in this call: the
    /// ledger is down, and the entry is in doubt until a restart shows whether it counts.
    pub fn append(&mut self, alloc: Global, entry: &Entry) -> Result<(), LedgerError>
        requires up { self.old.account.down ≡ false }
        requires current { self.old.account.contents.layout ≡ LAYOUT }
        requires good { IsGoodEntry entry.now }
        ensures row { Appends self.old entry.now result self.new }
        // Whatever a crash at any moment of the call leaves means what was kept, or that with the entry.
        ensures any_moment { LeavesEither (Adding entry.now) self.old self.new }
    {
        let Store::Open(journal) = &mut self.store else {
            unreachable!();
        };
        match journal.append(alloc, entry) {
            Ok(()) => {
                self.rested = Snapshot::of(journal);
                Ok(())
            }
            Err(Failure::NoMemory) => Err(Failure::NoMemory),
            Err(Failure::Refused(_)) => {
                self.doubt = Some(Doubt::Adding(Snapshot::of(entry)));
                self.down = true;
                Err(Failure::Refused(DiskFault))
            }
        }
    }

    /// Replaces the base and its entries by `base`, in the layout `LAYOUT` and the next generation. At `Ok` the base is
    /// kept.
    ///
    /// # Errors
    /// `GenerationsSpent` if the generations are used up: nothing was written. `NoMemory` if it cannot allocate room:
    /// nothing was written. `DiskFault` if a disk failed in this call: the ledger is down, and the base is in doubt
    /// until a restart shows whether it counts.
    pub fn rebase(&mut self, alloc: Global, base: &Base) -> Result<(), RebaseError>
        requires up { self.old.account.down ≡ false }
        requires good { IsGoodBase base.now }
        ensures row { Rebases self.old base.now result self.new }
        // Whatever a crash at any moment of the call leaves means what was kept, or the base alone.
        ensures any_moment { LeavesEither (Rebasing base.now) self.old self.new }
    {
        let Store::Open(journal) = &mut self.store else {
            unreachable!();
        };
        if journal.generations_spent() {
            return Err(Failure::Refused(RebaseFault::GenerationsSpent));
        }
        match journal.rebase(alloc, base) {
            Ok(()) => {
                self.rested = Snapshot::of(journal);
                Ok(())
            }
            Err(Failure::NoMemory) => Err(Failure::NoMemory),
            Err(Failure::Refused(_)) => {
                self.doubt = Some(Doubt::Rebasing(Snapshot::of(base)));
                self.down = true;
                Err(Failure::Refused(RebaseFault::DiskFault))
            }
        }
    }

    /// Whether the generation is the last one, so that `rebase` would return `GenerationsSpent`. While the ledger is
    /// down the result says nothing.
    pub fn generations_spent(&self) -> bool
        ensures { self.now.account.down ≡ false → IsTrue result ↔ (self.now.account.contents.generation ≡ 2 ^ 32 - 1) }
    {
        match &self.store {
            Store::Open(journal) => journal.generations_spent(),
            Store::Shut(_) | Store::InHand => false,
        }
    }

    /// Returns the journal's generation: 1 at first, and one more with each `rebase`. While the ledger is down the
    /// result says nothing.
    pub fn generation(&self) -> u32
        ensures { self.now.account.down ≡ false → result ≡ self.now.account.contents.generation }
    {
        match &self.store {
            Store::Open(journal) => journal.generation(),
            Store::Shut(_) | Store::InHand => 0,
        }
    }

    /// Returns the journal's layout: `LAYOUT`, or an older one that was found and that no `rebase` has replaced yet.
    /// While the ledger is down the result says nothing.
    pub fn layout(&self) -> u8
        ensures { self.now.account.down ≡ false → result ≡ self.now.account.contents.layout }
    {
        match &self.store {
            Store::Open(journal) => journal.layout(),
            Store::Shut(_) | Store::InHand => 0,
        }
    }

    /// Crashes both disks, as if the program that used them had ended, and opens what the crash left. At `Ok` a ledger
    /// that was down is up again, and nothing is in doubt any more.
    ///
    /// # Errors
    /// `DiskFault` if a read failed, `NoMemory` if it cannot allocate room for what the disks hold. The ledger is down,
    /// and what was in doubt still is.
    pub fn restart(&mut self, alloc: Global) -> Result<Found, LedgerError>
        ensures row { Restarts self.old result self.new }
        // Both disks are reopened, whatever the result.
        ensures reopened { Reopens self.old.device self.new.device }
        // Whatever a crash at any moment of the call leaves means what is kept, or that with what is in doubt.
        ensures any_moment { AtEachMoment self.old.device self.new.device
            (IsEither (Some self.old.account.contents) (Some (counted self.old.account))) }
        // What it holds may be written again, as entries and as a base.
        ensures good { IfOk result IsGoodFound }
    {
        let disks = mem::replace(&mut self.store, Store::InHand).into_disks();
        match open_again(alloc, disks) {
            Ok(opened) => {
                self.rested = Snapshot::of(&opened.journal);
                self.store = Store::Open(opened.journal);
                self.doubt = None;
                self.down = false;
                Ok(Found {
                    base: opened.base,
                    entries: opened.entries,
                })
            }
            Err(returned) => {
                self.store = Store::Shut(returned.disks);
                self.down = true;
                Err(read_error(returned.error))
            }
        }
    }

    /// Returns the two disks, in the order in which they were given.
    pub fn into_disks(self) -> Disks<D>
        // A crash leaves on them what is kept, or that with what is in doubt.
        ensures left { Leaves (D.state result.first) (D.state result.second) self.account }
        // They are the ledger's, with all that happened to them.
        ensures device { device_on (D.state result.first) (D.state result.second) ≡ self.device }
    {
        let Ledger {
            store,
            rested: _,
            doubt: _,
            down: _,
        } = self;
        store.into_disks()
    }

    /// States what a crash leaves at this moment, between two calls. It does nothing.
    pub fn know_disks(&self)
        // What is kept, or that with what is in doubt.
        ensures left { Leaves self.now.device.first self.now.device.second self.now.account }
    {
        let _down = self.down;
    }

    /// Whether the ledger takes nothing but a restart.
    pub fn is_down(&self) -> bool
        ensures { result ≡ self.now.account.down }
    {
        self.down
    }
}

// Crashes both disks, and opens the journal on what the crash left.
fn open_again<D: Disk>(alloc: Global, disks: Disks<D>) -> Result<OpenedJournal<D>, Returned<D>>
    ensures row { OpensAgain D.state disks.first disks.second result }
    ensures good { IfOk result IsGoodOpened }
{
    let mut first = disks.first;
    let mut second = disks.second;
    first.reopen();
    second.reopen();
    BotJournal::open(alloc, first, second)
}

// Why the disks could not be read.
fn read_error(error: JournalError) -> LedgerError
    ensures { result ≡ read_error error }
{
    match error {
        Failure::Refused(_) => Failure::Refused(DiskFault),
        Failure::NoMemory => Failure::NoMemory,
    }
}
