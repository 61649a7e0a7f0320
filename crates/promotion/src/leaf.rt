// What the journal of a stopped leaf holds.
ghost use Rattle.std.specs.Prelude.{◌≡◌, ◌<◌, ◌≤◌, IfErr, IfOk, length};
ghost use Rattle.botfolder.specs.Folders.{AreCopies};
ghost use Rattle.botjournal.specs.Bases.{IsGoodBase};
ghost use Rattle.botjournal.specs.Contents.{meaning};
ghost use Rattle.protocol.specs.Snapshots.{users_in, bans_in};
ghost use Rattle.sharelink.specs.Kept.{IsCurrent};
ghost use Rattle.sharelink.specs.declared.TheConstants.{MAX_LEAVES};
ghost use Rattle.promotion.specs.Leaves.{IsLeafOf, MeanAlike, IsAlone, standing_of};
ghost use Rattle.promotion.specs.Faults.{CannotRead, IsUnread};

use crate::fault::{PromotionError, PromotionFault, journal_error, link_error};
use crate::numbers::user_count;
use crate::reading::LeafStanding;
use botfolder::Stopped;
use botjournal::{Base, BotJournal, LAYOUT, Request};
use bytejournal::Disks;
use bytetext::Failure;
use disks::{Disk as _, MemDisk};
use handshake::DrawnNumber;
use sharelink::{BotLink, MAX_LEAVES};
use std::alloc::Global;
use std::marker::Model;
use std::snapshot::Snapshot;
use usercodec::Record;

/// What the journal of a stopped leaf holds: its version, the records at that version, and what it had asked and not
/// heard. Contracts also see the bytes of the journal's two disks.
pub struct Leaf {
    // The leaf's state, as a base alone.
    base: Base,
    // The disks, for contracts alone.
    first: Snapshot<MemDisk>,
    second: Snapshot<MemDisk>,
}

// By hand, so that this is proved once, and not in each function in which a leaf ends.
impl Drop for Leaf {
    fn drop(self) {
        let Leaf {
            base: _,
            first: _,
            second: _,
        } = self;
    }
}

impl Model for Leaf {
    ghost use Rattle.promotion.specs.Leaves.{LeafFound};

    ghost Value = { LeafFound };

    ghost view = { λ l. record { base = l.base; first = l.first.value.content; second = l.second.value.content } };

    ghost use Rattle.botjournal.specs.Bases.{IsGoodBase};
    ghost use Rattle.promotion.specs.Leaves.{IsLeafOf};

    ghost invariant = { λ l. IsLeafOf l.first.value.content l.second.value.content l.base × IsGoodBase l.base };
}

impl Leaf {
    /// Reads the leaf whose journal `copies` holds.
    ///
    /// # Errors
    /// `Unread` if they hold no journal of a bot; `IsHub`; `OlderLayout`; `GenerationsSpent` if the journal has the last
    /// generation; `NoMemory` if an allocation fails.
    pub fn read(alloc: Global, copies: Stopped) -> Result<Leaf, PromotionError>
        requires copies { AreCopies copies }
        ensures first { IfOk result (λ leaf. leaf.first ≡ copies.first.content) }
        ensures second { IfOk result (λ leaf. leaf.second ≡ copies.second.content) }
        // `IsHub` comes only of a hub's journal, and `OlderLayout` only of a leaf's in another layout.
        ensures fault { IfErr result (CannotRead copies.first.content copies.second.content) }
    {
        let first = Snapshot::of(&copies.first);
        let second = Snapshot::of(&copies.second);
        let base = base_of(alloc, copies)?;
        Ok(Leaf {
            base,
            first,
            second,
        })
    }

    /// States what always holds of the leaf. It does nothing.
    pub fn know(&self)
        // The journal means a leaf with this state.
        ensures leaf { IsLeafOf self.now.first self.now.second self.now.base }
        ensures good { IsGoodBase self.now.base }
    {
        let _base = &self.base;
    }

    /// Returns the leaf's number, from 1.
    pub fn number(&self) -> u16
        ensures { result ≡ self.now.base.bot }
    {
        self.base.bot
    }

    /// Returns the version of its records.
    pub fn version(&self) -> u32
        ensures { result ≡ self.now.base.version }
    {
        self.base.version
    }

    /// Returns where it stands, as a leaf of `net`.
    pub fn standing(&self, net: DrawnNumber) -> LeafStanding
        ensures { result ≡ standing_of self.now.base net }
    {
        LeafStanding {
            number: self.number(),
            net,
            version: self.version(),
        }
    }

    /// Returns its records, users first.
    pub fn records(&self) -> &[Record]
        ensures { result.now ≡ self.now.base.records }
    {
        self.base.records.as_slice()
    }

    /// Returns how many users it has.
    pub fn user_count(&self) -> usize
        ensures { result ≡ length (users_in self.now.base.records) }
    {
        user_count(self.base.records.as_slice())
    }

    /// Returns what it had asked the hub and not heard, the oldest first: at most eight requests. Each may count or not.
    pub fn asked(&self) -> &[Request]
        ensures { result.now ≡ self.now.base.out }
    {
        self.base.out.as_slice()
    }
}

// Returns the state of the leaf whose journal the copies hold, as a base alone.
#[tactic(auto, using(crate::proofs::Leaves::leaf_of_alone, crate::proofs::Faults::cannot_read))]
fn base_of(alloc: Global, copies: Stopped) -> Result<Base, PromotionError>
    requires copies { AreCopies copies }
    ensures leaf { IfOk result (λ base. IsLeafOf copies.first.content copies.second.content base) }
    ensures good { IfOk result IsGoodBase }
    ensures fault { IfErr result (CannotRead copies.first.content copies.second.content) }
{
    let Named { number, copies } = name(alloc, copies)?;
    let alone = write_alone(alloc, number, copies)?;
    read_alone(alloc, alone)
}

// Copies of a journal, and the number of the bot that wrote it.
#[derive(Drop)]
struct Named {
    number: u16,
    copies: Stopped,
}

// Finds whose journal it is. The copies stay as they were.
fn name(alloc: Global, copies: Stopped) -> Result<Named, PromotionError>
    requires copies { AreCopies copies }
    ensures copies { IfOk result (λ found. AreCopies found.copies) }
    ensures first { IfOk result (λ found. found.copies.first.content ≡ copies.first.content) }
    ensures second { IfOk result (λ found. found.copies.second.content ≡ copies.second.content) }
    ensures few { IfOk result (λ found. found.number ≤ MAX_LEAVES) }
    ensures leaf { IfOk result (λ found. 0 < found.number) }
    ensures current { IfOk result (λ _. IsCurrent (meaning copies.first.content copies.second.content)) }
    ensures fault { IfErr result (CannotRead copies.first.content copies.second.content) }
{
    let opened = match BotJournal::open(alloc, copies.first, copies.second) {
        Ok(opened) => opened,
        Err(returned) => return Err(journal_error(returned.error)),
    };
    let number = opened.base.bot;
    if number == 0 {
        return Err(Failure::Refused(PromotionFault::IsHub));
    }
    if opened.journal.layout() != LAYOUT {
        return Err(Failure::Refused(PromotionFault::OlderLayout));
    }
    if number > MAX_LEAVES {
        return Err(Failure::Refused(PromotionFault::Unread));
    }
    let Disks { first, second } = opened.journal.into_disks();
    Ok(Named {
        number,
        copies: Stopped { first, second },
    })
}

// Has the leaf of this number write its state alone into copies of its journal, and opens the disks again.
fn write_alone(alloc: Global, number: u16, copies: Stopped) -> Result<Stopped, PromotionError>
    requires copies { AreCopies copies }
    requires few { number ≤ MAX_LEAVES }
    requires leaf { 0 < number }
    requires current { IsCurrent (meaning copies.first.content copies.second.content) }
    ensures copies { IfOk result AreCopies }
    ensures alike { IfOk result (λ alone. MeanAlike number copies.first.content copies.second.content
        alone.first.content alone.second.content) }
    ensures fault { IfErr result IsUnread }
{
    let Stopped { first, second } = copies;
    let mut link = match BotLink::open(alloc, first, second, number, MAX_LEAVES) {
        Ok(link) => link,
        Err(returned) => return Err(journal_error(returned.error)),
    };
    if let Err(error) = link.compact(alloc) {
        return Err(link_error(error));
    }
    let disks = link.into_disks();
    let mut first = disks.first;
    let mut second = disks.second;
    first.reopen();
    second.reopen();
    Ok(Stopped { first, second })
}

// Returns the base of a journal that has no entries.
fn read_alone(alloc: Global, copies: Stopped) -> Result<Base, PromotionError>
    requires copies { AreCopies copies }
    ensures alone { IfOk result (λ base. IsAlone copies.first.content copies.second.content base) }
    ensures good { IfOk result IsGoodBase }
    ensures fault { IfErr result IsUnread }
{
    match BotJournal::open(alloc, copies.first, copies.second) {
        Ok(opened) if opened.entries.is_empty() => Ok(opened.base),
        Ok(_) => Err(Failure::Refused(PromotionFault::Unread)),
        Err(returned) => Err(journal_error(returned.error)),
    }
}
