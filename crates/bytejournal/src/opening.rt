// How a journal is created, opened and taken apart.
ghost use Rattle.std.specs.Prelude.{◌≡◌, ◌≤◌, ◌<◌, ◌+◌, ◌^◌, ◌⊎◌, ◌↔◌, IsTrue, OnOk, OnErr};
ghost use Rattle.std.specs.Prelude.{Bool, true, false, length, option_map};
ghost use Rattle.disks.specs.State.{IsSettled, Rose};
ghost use Rattle.bytejournal.specs.Gates.{with_gate, with_first};
ghost use Rattle.bytejournal.specs.Reading.{Reads};
ghost use Rattle.bytetext.specs.declared.failure.Failure.TheVariants.{Refused};
ghost use Rattle.bytejournal.specs.declared.fault.JournalFault.TheVariants.{NotAJournal as not_a_journal};
ghost use Rattle.bytejournal.specs.Journal.{first_disk, second_disk};
ghost use Rattle.bytejournal.specs.Opening.{Untouched, ReadsDisk, WritesNew, Creates, Chooses, Opens, Restarts, IsOpenedAs, older_of, returned_as};

use crate::fault::{JournalError, JournalFault};
use crate::gate::{write_after_gate, write_and_sync};
use crate::journal::Journal;
use crate::reading::{Found, Reading, START, read_disk};
use crate::spelling::base_text;
use crate::writing::end_after;
use bytetext::{Failure, Text, Texts};
use disks::{Disk, DiskFault};
use std::alloc::Global;

/// The two disks of a journal, in the order in which they were given.
#[derive(Drop)]
pub struct Disks<D: Disk> {
    pub first: D,
    pub second: D,
}

/// What the disk that doesn't count holds if its gate is open too: a base and entries of an earlier generation.
pub struct Older {
    /// The layout by which its base and entries are spelled.
    pub layout: u8,
    pub generation: u32,
    pub base: Text,
    pub entries: Texts,
}

// By hand, so that this is proved once, and not in each function in which one ends.
impl Drop for Older {
    fn drop(self) {
        let Older {
            layout: _,
            generation: _,
            base: _,
            entries: _,
        } = self;
    }
}

/// A journal that was opened, and what it holds.
#[derive(Drop)]
pub struct Opened<D: Disk> {
    pub journal: Journal<D>,
    pub base: Text,
    pub entries: Texts,
    /// What the other disk holds. It doesn't count; the layer that gives the texts a meaning can check whether it has
    /// one too.
    pub older: Option<Older>,
    /// Whether all gates exist, as on disks that `create` made and only this journal wrote. If one is missing, the
    /// journal can be read, but nothing can be appended safely, since a byte past a disk's end may come back as 1.
    pub whole: bool,
}

/// The disks of a journal that could not be created or opened, and the reason.
#[derive(Drop)]
pub struct Returned<D: Disk> {
    pub error: JournalError,
    pub disks: Disks<D>,
}

/// Reads what a disk holds. Reads nothing if the disk has no byte.
fn read_whole<D: Disk>(alloc: Global, disk: &mut D) -> Result<Reading, JournalError>
    requires { IsSettled (D.state disk.old) }
    ensures reads { ReadsDisk (D.state disk.old) result (D.state disk.new) }
    ensures untouched { Untouched (D.state disk.old) (D.state disk.new) }
{
    if disk.len() == 0 {
        return Ok(Reading::Shut);
    }
    if let Some(bytes) = disk.held() {
        return Ok(read_disk(alloc, bytes)?);
    }
    let mut bytes = vec![in alloc; 0; disk.len()]?;
    match disk.read(0, &mut bytes) {
        Ok(_) => {}
        Err(_) => return Err(Failure::Refused(JournalFault::DiskFault)),
    }
    Ok(read_disk(alloc, &bytes)?)
}

/// Makes the disk with the higher generation the active one.
fn choose<D: Disk>(first: D, second: D, a: Reading, b: Reading) -> Result<Opened<D>, Returned<D>>
    requires first_reads { Reads (D.state first).seen a }
    requires second_reads { Reads (D.state second).seen b }
    ensures { Chooses D.state first second result }
{
    match (a, b) {
        (Reading::Open(a), Reading::Shut) => {
            let whole = are_inside(&first, a.gate, &second, 0);
            Ok(open_found(first, second, false, whole, a, None))
        }
        (Reading::Shut, Reading::Open(b)) => {
            let whole = are_inside(&second, b.gate, &first, 0);
            Ok(open_found(second, first, true, whole, b, None))
        }
        (Reading::Open(a), Reading::Open(b)) => {
            if b.generation < a.generation {
                let whole = are_inside(&first, a.gate, &second, b.gate);
                Ok(open_found(first, second, false, whole, a, Some(b)))
            } else if a.generation < b.generation {
                let whole = are_inside(&second, b.gate, &first, a.gate);
                Ok(open_found(second, first, true, whole, b, Some(a)))
            } else {
                Err(no_journal(first, second))
            }
        }
        (Reading::Shut, Reading::Shut) | (Reading::Broken, _) | (_, Reading::Broken) => {
            Err(no_journal(first, second))
        }
    }
}

/// Whether both disks have a byte at the gate that ends what they hold.
fn are_inside<D: Disk>(active: &D, active_gate: usize, idle: &D, idle_gate: usize) -> bool
    ensures { IsTrue result ↔ ((active_gate < length (D.state active.now).seen) × (idle_gate < length (D.state idle.now).seen)) }
{
    active_gate < active.len() && idle_gate < idle.len()
}

/// Returns the journal that was found on the active disk, and what was found on the other one. Ends the reads of both
/// disks.
fn open_found<D: Disk>(
    active: D,
    idle: D,
    swapped: bool,
    whole: bool,
    found: Found,
    older: Option<Found>,
) -> Opened<D>
    ensures { IsOpenedAs D.state active idle swapped whole found older result }
{
    let mut active = active;
    let mut idle = idle;
    active.end_reads();
    idle.end_reads();
    let idle_open = older.is_some();
    Opened {
        journal: Journal {
            active,
            idle,
            swapped,
            idle_open,
            layout: found.layout,
            generation: found.generation,
            gate: found.gate,
            spent: false,
        },
        base: found.base,
        entries: found.entries,
        older: older_of(older),
        whole,
    }
}

/// Returns what was found on the disk that doesn't count.
fn older_of(found: Option<Found>) -> Option<Older>
    ensures { result ≡ option_map older_of found }
{
    match found {
        Some(found) => Some(Older {
            layout: found.layout,
            generation: found.generation,
            base: found.base,
            entries: found.entries,
        }),
        None => None,
    }
}

/// Hands back disks that hold no journal.
fn no_journal<D: Disk>(first: D, second: D) -> Returned<D>
    ensures { result ≡ returned_as (Refused not_a_journal) first second }
{
    Returned {
        error: Failure::Refused(JournalFault::NotAJournal),
        disks: Disks { first, second },
    }
}

/// Writes a closed gate on the second disk, and a journal without entries on the first.
fn write_new<D: Disk>(
    alloc: Global,
    first: &mut D,
    second: &mut D,
    layout: u8,
    base: &[u8],
) -> Result<(), JournalError>
    requires first_settled { IsSettled (D.state first.old) }
    requires second_settled { IsSettled (D.state second.old) }
    requires small { length base.now < 2 ^ 32 }
    ensures { WritesNew (D.state first.old) (D.state second.old) layout base.now result (D.state first.new) (D.state second.new) }
{
    let text = base_text(alloc, layout, 1, base)?;
    let Some(end) = end_after(0, &text) else {
        return Err(Failure::NoMemory);
    };
    first.reserve(end, 6)?;
    second.reserve(1, 2)?;
    match write_all(first, second, &text) {
        Ok(()) => Ok(()),
        Err(_) => Err(Failure::Refused(JournalFault::DiskFault)),
    }
}

/// Writes closed gates at the start of both disks, and `text` after the first disk's gate.
fn write_all<D: Disk>(first: &mut D, second: &mut D, text: &[u8]) -> Result<(), DiskFault>
    requires first_settled { IsSettled (D.state first.old) }
    requires second_settled { IsSettled (D.state second.old) }
    requires fits { 1 + length text.now < 2 ^ 64 }
    requires first_room { (1 + length text.now ≤ (D.state first.old).end) × (6 ≤ (D.state first.old).calls) }
    requires second_room { (1 ≤ (D.state second.old).end) × (2 ≤ (D.state second.old).calls) }
    ensures first { OnOk result ((D.state first.new).seen ≡ with_gate (with_first (D.state first.old).seen 0) 0 text.now 1) }
    ensures second { OnOk result ((D.state second.new).seen ≡ with_first (D.state second.old).seen 0) }
    ensures settled { OnOk result (IsSettled (D.state first.new) × IsSettled (D.state second.new)) }
    ensures cause { OnErr result (Rose (D.state first.old).failed (D.state first.new).failed ⊎ Rose (D.state second.old).failed (D.state second.new).failed) }
{
    write_and_sync(second, 0, &[0])?;
    write_and_sync(first, 0, &[0])?;
    write_after_gate(first, 0, text)
}

impl<D: Disk> Journal<D> {
    /// Creates a journal on the disks `first` and `second` with the base `base`, spelled by `layout`, and no entry, in
    /// generation 1. What the disks held is lost. A created journal never reads its disks, so it ends their reads.
    ///
    /// # Errors
    /// Each hands the disks back. `NoMemory` if it cannot allocate room: nothing was written. `DiskFault` if a disk
    /// failed: what the disks hold is then unknown.
    pub fn create(
        alloc: Global,
        first: D,
        second: D,
        layout: u8,
        base: &[u8],
    ) -> Result<Journal<D>, Returned<D>>
        requires first_settled { IsSettled (D.state first) }
        requires second_settled { IsSettled (D.state second) }
        requires small { length base.now < 2 ^ 32 }
        ensures { Creates D.state first second layout base.now result }
    {
        let mut first = first;
        let mut second = second;
        match write_new(alloc, &mut first, &mut second, layout, base) {
            Ok(()) => {
                first.end_reads();
                second.end_reads();
                Ok(Journal {
                    active: first,
                    idle: second,
                    swapped: false,
                    idle_open: false,
                    layout,
                    generation: 1,
                    gate: START + base.len(),
                    spent: false,
                })
            }
            Err(error) => Err(Returned {
                error,
                disks: Disks { first, second },
            }),
        }
    }

    /// Opens the journal on the disks `first` and `second`, each by its own layout. Writes nothing. An opened journal has
    /// read its disks, so it ends their reads.
    ///
    /// # Errors
    /// Each hands the disks back as they were. `DiskFault` if a read failed. `NotAJournal` if the disks don't hold a
    /// journal. `NoMemory` if it cannot allocate room for what they hold; never if neither holds a byte.
    #[tactic(auto, using(crate::proofs::Moments::untouched_still))]
    pub fn open(alloc: Global, first: D, second: D) -> Result<Opened<D>, Returned<D>>
        requires first_settled { IsSettled (D.state first) }
        requires second_settled { IsSettled (D.state second) }
        ensures { Opens D.state first second result }
    {
        let mut first = first;
        let mut second = second;
        let a = match read_whole(alloc, &mut first) {
            Ok(reading) => reading,
            Err(error) => {
                return Err(Returned {
                    error,
                    disks: Disks { first, second },
                });
            }
        };
        let b = match read_whole(alloc, &mut second) {
            Ok(reading) => reading,
            Err(error) => {
                return Err(Returned {
                    error,
                    disks: Disks { first, second },
                });
            }
        };
        choose(first, second, a, b)
    }

    /// Crashes both disks, as if the program that used them had ended, and opens the journal on what the crash left.
    ///
    /// # Errors
    /// As for `open`. Always `DiskFault` on a disk that fails each read after `end_reads`, as a `FileDisk` that holds a
    /// byte does: open the file again in its place.
    pub fn restart(self, alloc: Global) -> Result<Opened<D>, Returned<D>>
        ensures { Restarts D.state self result }
    {
        let disks = self.into_disks();
        let mut first = disks.first;
        let mut second = disks.second;
        first.reopen();
        second.reopen();
        Journal::open(alloc, first, second)
    }

    /// Returns the two disks, in the order in which they were given. Their reads have ended.
    pub fn into_disks(self) -> Disks<D>
        ensures first { result.first ≡ first_disk self }
        ensures second { result.second ≡ second_disk self }
    {
        if self.swapped {
            Disks {
                first: self.idle,
                second: self.active,
            }
        } else {
            Disks {
                first: self.active,
                second: self.idle,
            }
        }
    }
}
