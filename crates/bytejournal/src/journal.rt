// A journal on two disks.
ghost use Rattle.std.specs.Prelude.{◌≡◌, ◌<◌, ◌^◌, ◌-◌, ◌↔◌, ◌&&◌, not, IsTrue, OnOk, true, false, length, option_map};
ghost use Rattle.bytejournal.specs.Meaning.{added, held, rebased};
ghost use Rattle.bytejournal.specs.Meaning.Held.{Shut};
ghost use Rattle.bytejournal.specs.Journal.{IsSound, AnyMoment, IsEither, HoldsOne, Appends, Rebases, contents_of};

use crate::fault::{JournalError, JournalFault};
use crate::gate::write_and_close;
use crate::spelling::{base_text, entry_text};
use crate::writing::{end_after, replace};
use bytetext::Failure;
use disks::Disk;
use std::alloc::Global;
use std::mem;

/// A base and the entries appended since, on two disks, one of which is active.
#[derive(Drop)]
pub struct Journal<D: Disk> {
    pub(crate) active: D,
    pub(crate) idle: D,
    /// Whether the active disk is the second of the given two.
    pub(crate) swapped: bool,
    /// Whether the gate at the idle disk's start is open.
    pub(crate) idle_open: bool,
    /// The layout by which the active disk's base and entries are spelled.
    pub(crate) layout: u8,
    /// The active disk's generation.
    pub(crate) generation: u32,
    /// The offset of the closed gate that ends the active disk's entries.
    pub(crate) gate: usize,
    /// Whether a disk failed since the journal was opened.
    pub(crate) spent: bool,
}

impl<D: Disk> Journal<D> {
    /// Appends `entry`, which is spelled by the journal's layout. At `Ok` the entry is acknowledged: from then on each
    /// crash leaves it. Before that it closes the idle disk's first gate, if that is open and the disk is one that
    /// [shuts when it is idle](Disk::shuts_when_idle).
    ///
    /// # Errors
    /// `Spent` if a disk failed before. `NoMemory` if it cannot allocate room: nothing was written. `DiskFault` if a
    /// disk failed in this call: the entry may count or not, and the journal is spent.
    pub fn append(&mut self, alloc: Global, entry: &[u8]) -> Result<(), JournalError>
        requires sound { IsSound D.state self.old }
        requires small { length entry.now < 2 ^ 32 }
        ensures sound { IsSound D.state self.new }
        ensures row { Appends D.state self.old entry.now result self.new }
        // Of the other disk nothing is read, if it shuts when it is idle.
        ensures shut { OnOk result (D.shuts self.old.idle ≡ true → held (D.state self.new.idle).seen ≡ Shut) }
        ensures any_moment { self.old.spent ≡ false → AnyMoment D.state self.old self.new
            (IsEither (HoldsOne D.state self.old) (contents_of D.state self.old)
            (option_map (added entry.now) (contents_of D.state self.old))) }
    {
        if self.spent {
            return Err(Failure::Refused(JournalFault::Spent));
        }
        let text = entry_text(alloc, entry)?;
        // All room comes first.
        let Some(end) = end_after(self.gate, &text) else {
            return Err(Failure::NoMemory);
        };
        match self.active.reserve(end, 4) {
            Ok(()) => {}
            Err(_) => return Err(Failure::NoMemory),
        }
        let shuts = self.shuts_idle();
        match self.idle.reserve(1, 2 * shuts as usize) {
            Ok(()) => {}
            Err(_) => return Err(Failure::NoMemory),
        }
        match write_and_close(&mut self.active, self.gate, &text, &mut self.idle, shuts) {
            Ok(()) => {
                self.idle_open = is_still_open(self.idle_open, shuts);
                self.gate += text.len();
                Ok(())
            }
            Err(_) => {
                self.spent = true;
                Err(Failure::Refused(JournalFault::DiskFault))
            }
        }
    }

    // Whether the idle disk's first gate is open, and is to be closed.
    fn shuts_idle(&self) -> bool
        ensures { result ≡ self.now.idle_open && D.shuts self.now.idle }
    {
        self.idle_open && self.idle.shuts_when_idle()
    }

    /// Replaces the base and its entries by `base`, spelled by `layout`, in the next generation. At `Ok` the base is
    /// acknowledged.
    ///
    /// # Errors
    /// `Spent` if a disk failed before. `GenerationsSpent` if the generations are used up. `NoMemory` if it cannot
    /// allocate room: nothing was written. `DiskFault` if a disk failed in this call: either the old base and entries
    /// count, or the new base alone, and the journal is spent.
    pub fn rebase(&mut self, alloc: Global, layout: u8, base: &[u8]) -> Result<(), JournalError>
        requires sound { IsSound D.state self.old }
        requires small { length base.now < 2 ^ 32 }
        ensures sound { IsSound D.state self.new }
        ensures row { Rebases D.state self.old layout base.now result self.new }
        ensures any_moment { self.old.spent ≡ false → AnyMoment D.state self.old self.new
            (IsEither (HoldsOne D.state self.old) (contents_of D.state self.old)
            (option_map (rebased layout base.now) (contents_of D.state self.old))) }
    {
        if self.spent {
            return Err(Failure::Refused(JournalFault::Spent));
        }
        if self.generations_spent() {
            return Err(Failure::Refused(JournalFault::GenerationsSpent));
        }
        let text = base_text(alloc, layout, self.generation + 1, base)?;
        match replace(&mut self.idle, self.idle_open, &text) {
            Ok(()) => {
                mem::swap(&mut self.active, &mut self.idle);
                self.swapped = !self.swapped;
                self.idle_open = true;
                self.layout = layout;
                self.generation += 1;
                self.gate = text.len();
                Ok(())
            }
            Err(Failure::NoMemory) => Err(Failure::NoMemory),
            Err(Failure::Refused(fault)) => {
                self.spent = true;
                Err(Failure::Refused(fault))
            }
        }
    }

    /// Whether the active disk's generation is the last one, so that `rebase` would return `GenerationsSpent`. After a
    /// fault the result says nothing.
    pub fn generations_spent(&self) -> bool
        ensures { IsTrue result ↔ (self.now.generation ≡ 2 ^ 32 - 1) }
    {
        self.generation == u32::MAX
    }

    /// Returns the active disk's generation: 1 in a new journal, and one more with each `rebase`. After a fault the
    /// result says nothing.
    pub fn generation(&self) -> u32
        ensures { result ≡ self.now.generation }
    {
        self.generation
    }

    /// Returns the layout by which the active disk's base and entries are spelled: that of the last base that was
    /// written. After a fault the result says nothing.
    pub fn layout(&self) -> u8
        ensures { result ≡ self.now.layout }
    {
        self.layout
    }
}

// Whether a gate is open after it was closed, or not.
fn is_still_open(is_open: bool, closes: bool) -> bool
    ensures { result ≡ is_open && not closes }
{
    is_open && !closes
}
