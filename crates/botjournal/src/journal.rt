// The journal of a bot.
ghost use Rattle.std.specs.Prelude.{◌≡◌, ◌≢◌, ◌<◌, ◌-◌, ◌^◌, ◌+◌, ◌↔◌, ◌∷◌, [], IsTrue, Some, false, length, option_map};
ghost use Rattle.bytejournal.specs.Meaning.{rebased as rebased_text};
ghost use Rattle.bytejournal.specs.Journal.{AnyMoment, HoldsOne, contents_of as texts_of};
ghost use Rattle.bytejournal.specs.Journal.{IsSound as AreTextsSound, IsEither as IsEitherText};
ghost use Rattle.bytejournal.specs.Journal.{Rebases as RebasesText};
ghost use Rattle.botjournal.specs.Bases.{IsGoodBase};
ghost use Rattle.botjournal.specs.Entries.{IsGoodEntry};
ghost use Rattle.botjournal.specs.Sums.{start, through};
ghost use Rattle.botjournal.specs.Contents.{added, rebased};
ghost use Rattle.botjournal.specs.declared.TheConstants.{LAYOUT};
ghost use Rattle.botjournal.specs.Journal.{IsSound, IsEither, Appends, Rebases, contents_of};

use crate::LAYOUT;
use crate::base::Base;
use crate::entry::Entry;
use crate::sums::{Seal, sealed_base, sealed_entry};
use bytejournal::{JournalError, JournalFault};
use bytetext::Failure;
use disks::Disk;
use std::alloc::Global;
use std::marker::Model;

/// A bot's base and the entries appended since, on two disks. Contracts see the journal of texts that it stands on.
#[derive(Drop)]
pub struct BotJournal<D: Disk> {
    pub(crate) texts: bytejournal::Journal<D>,
    /// Whether a disk failed since the journal was opened.
    pub(crate) spent: bool,
    /// What the next entry's sum stands on.
    pub(crate) seal: Seal,
}

impl<D: Disk> Model for BotJournal<D> {
    ghost use Rattle.std.specs.Prelude.{◌≡◌};
    ghost use Rattle.bytejournal.specs.declared.journal.Journal.{Journal as Texts};

    ghost Value = { Texts D };

    ghost view = { λ j. j.texts };

    ghost use Rattle.botjournal.specs.Journal.{IsSealed};

    ghost invariant = { λ j. (j.spent ≡ j.texts.spent) × IsSealed D.state j.texts j.seal };
}

impl<D: Disk> BotJournal<D> {
    /// Appends `entry` to a journal of the layout `LAYOUT`. At `Ok` the entry is acknowledged: from then on each crash
    /// leaves it.
    ///
    /// # Errors
    /// `Spent` if a disk failed before. `NoMemory` if it cannot allocate room: nothing was written. `DiskFault` if a
    /// disk failed in this call: the entry may count or not, and the journal is spent.
    pub fn append(&mut self, alloc: Global, entry: &Entry) -> Result<(), JournalError>
        requires sound { IsSound D.state self.old }
        requires current { self.old.layout ≡ LAYOUT }
        requires good { IsGoodEntry entry.now }
        ensures sound { IsSound D.state self.new }
        ensures row { Appends D.state self.old entry.now result self.new }
        ensures any_moment { self.old.spent ≡ false → AnyMoment D.state self.old self.new
            (IsEither (contents_of D.state self.old) (option_map (added entry.now) (contents_of D.state self.old))) }
    {
        if self.spent {
            return Err(Failure::Refused(JournalFault::Spent));
        }
        let made = sealed_entry(alloc, self.seal, entry)?;
        match self.texts.append(alloc, &made.text) {
            Ok(()) => {
                self.seal = made.seal;
                Ok(())
            }
            Err(Failure::NoMemory) => Err(Failure::NoMemory),
            Err(Failure::Refused(fault)) => {
                self.spent = true;
                Err(Failure::Refused(fault))
            }
        }
    }

    /// Replaces the base and its entries by `base`, in the layout `LAYOUT` and the next generation. At `Ok` the base is
    /// acknowledged.
    ///
    /// # Errors
    /// `Spent` if a disk failed before. `GenerationsSpent` if the generations are used up. `NoMemory` if it cannot
    /// allocate room: nothing was written. `DiskFault` if a disk failed in this call: either the old base and entries
    /// count, or the new base alone, and the journal is spent.
    pub fn rebase(&mut self, alloc: Global, base: &Base) -> Result<(), JournalError>
        requires sound { IsSound D.state self.old }
        requires good { IsGoodBase base.now }
        ensures sound { IsSound D.state self.new }
        ensures row { Rebases D.state self.old base.now result self.new }
        ensures any_moment { self.old.spent ≡ false → AnyMoment D.state self.old self.new
            (IsEither (contents_of D.state self.old) (option_map (rebased base.now) (contents_of D.state self.old))) }
    {
        if self.spent {
            return Err(Failure::Refused(JournalFault::Spent));
        }
        if self.generations_spent() {
            return Err(Failure::Refused(JournalFault::GenerationsSpent));
        }
        let made = sealed_base(alloc, self.generation() + 1, base)?;
        self.rebase_text(alloc, &made.text, made.seal)
    }

    // Replaces the base by the one that `text` spells, after which the seal is `seal`.
    fn rebase_text(&mut self, alloc: Global, text: &[u8], seal: Seal) -> Result<(), JournalError>
        requires sound { AreTextsSound D.state self.old }
        requires sealed { through (start LAYOUT (self.old.generation + 1)) (text.now ∷ []) ≡ Some seal }
        requires left { self.old.generation ≢ 2 ^ 32 - 1 }
        requires small { length text.now < 2 ^ 32 }
        ensures sound { AreTextsSound D.state self.new }
        ensures row { RebasesText D.state self.old LAYOUT text.now result self.new }
        ensures any_moment { self.old.spent ≡ false → AnyMoment D.state self.old self.new
            (IsEitherText (HoldsOne D.state self.old) (texts_of D.state self.old)
            (option_map (rebased_text LAYOUT text.now) (texts_of D.state self.old))) }
    {
        match self.texts.rebase(alloc, LAYOUT, text) {
            Ok(()) => {
                self.seal = seal;
                Ok(())
            }
            Err(Failure::NoMemory) => Err(Failure::NoMemory),
            Err(Failure::Refused(fault)) => {
                self.spent = true;
                Err(Failure::Refused(fault))
            }
        }
    }

    /// Whether the active disk's generation is the last one, so that `rebase` would return `GenerationsSpent`. After a
    /// fault the result says nothing.
    pub fn generations_spent(&self) -> bool
        ensures { IsTrue result ↔ (self.now.generation ≡ 2 ^ 32 - 1) }
    {
        self.texts.generations_spent()
    }

    /// Returns the active disk's generation: 1 in a new journal, and one more with each `rebase`. After a fault the
    /// result says nothing.
    pub fn generation(&self) -> u32
        ensures { result ≡ self.now.generation }
    {
        self.texts.generation()
    }

    /// Returns the active disk's layout: `LAYOUT` in a new journal, and after the first `rebase`. After a fault the
    /// result says nothing.
    pub fn layout(&self) -> u8
        ensures { result ≡ self.now.layout }
    {
        self.texts.layout()
    }
}
