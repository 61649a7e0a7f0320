// How a journal is created, opened and taken apart.
ghost use Rattle.std.specs.Prelude.{◌≡◌, IfOk, IfSome, Some, false};
ghost use Rattle.std.specs.List.{AllByRecursion};
ghost use Rattle.std.specs.Option.{is_some};
ghost use Rattle.disks.specs.State.{IsSettled};
ghost use Rattle.bytetext.specs.declared.failure.Failure.TheVariants.{Refused};
ghost use Rattle.bytejournal.specs.Journal.{first_disk, second_disk};
ghost use Rattle.botjournal.specs.Bases.{IsGoodBase};
ghost use Rattle.botjournal.specs.Entries.{IsGoodEntry};
ghost use Rattle.bytejournal.specs.Journal.{contents_of as texts_of};
ghost use Rattle.botjournal.specs.Contents.{Contents, meaning, entries_in, body_in, seal_from};
ghost use Rattle.botjournal.specs.Journal.{Creates, Opens, Restarts, IsNotRefused, IsGoodOpened, ReadsTexts, is_spelled, texts_found};

use crate::LAYOUT;
use crate::base::Base;
use crate::bases::{is_base_by, read_base_by};
use crate::entries::read_entry_by;
use crate::entry::Entry;
use crate::journal::BotJournal;
use crate::layouts::{Layout, layout_of};
use crate::sums::{SUM, Seal, sealed_base};
use bytejournal::{Disks, JournalFault, Older, Returned};
use bytetext::{Failure, NoMemory, Seq, Text};
use disks::Disk;
use std::alloc::Global;

/// A journal that was opened, and what it holds.
#[derive(Drop)]
pub struct OpenedJournal<D: Disk> {
    /// The journal to go on with.
    pub journal: BotJournal<D>,
    /// The base that counts.
    pub base: Base,
    /// The entries appended since, the oldest first.
    pub entries: Seq<Entry>,
    /// Whether all gates exist, as on disks that `create` made and only this journal wrote. If one is missing, the
    /// journal can be read, but nothing can be appended safely, since a byte past a disk's end may come back as 1.
    pub whole: bool,
}

impl<D: Disk> BotJournal<D> {
    /// Creates a journal on the disks `first` and `second` with the base `base` and no entry, in generation 1 and the
    /// layout `LAYOUT`. What the disks held is lost.
    ///
    /// # Errors
    /// Each hands the disks back. `NoMemory` if it cannot allocate room: nothing was written. `DiskFault` if a disk
    /// failed: what the disks hold is then unknown.
    pub fn create(
        alloc: Global,
        first: D,
        second: D,
        base: &Base,
    ) -> Result<BotJournal<D>, Returned<D>>
        requires first_settled { IsSettled (D.state first) }
        requires second_settled { IsSettled (D.state second) }
        requires good { IsGoodBase base.now }
        ensures { Creates D.state first second base.now result }
    {
        let made = match sealed_base(alloc, 1, base) {
            Ok(made) => made,
            Err(NoMemory) => {
                return Err(Returned {
                    error: Failure::NoMemory,
                    disks: Disks { first, second },
                });
            }
        };
        match bytejournal::Journal::create(alloc, first, second, LAYOUT, &made.text) {
            Ok(texts) => Ok(BotJournal {
                texts,
                spent: false,
                seal: made.seal,
            }),
            Err(returned) => Err(returned),
        }
    }

    /// Opens the journal on the disks `first` and `second`, each read by its own layout. Writes nothing.
    ///
    /// # Errors
    /// Each hands the disks back as they were. `DiskFault` if a read failed. `NotAJournal` if the disks don't hold a
    /// journal, or if what follows an open gate, on whichever disk, has a layout that isn't read, or a text that is no
    /// base or no entry. `NoMemory` if it cannot allocate room for what they hold; never if neither holds a byte.
    pub fn open(alloc: Global, first: D, second: D) -> Result<OpenedJournal<D>, Returned<D>>
        requires first_settled { IsSettled (D.state first) }
        requires second_settled { IsSettled (D.state second) }
        ensures row { Opens D.state first second result }
        // The result is never that disks hold no journal when they mean one.
        ensures never_refused { (contents : Contents)
            → meaning (D.state first).seen (D.state second).seen ≡ Some contents → IsNotRefused result }
        // What it holds may be written again, as entries and as a base.
        ensures good { IfOk result IsGoodOpened }
    {
        match bytejournal::Journal::open(alloc, first, second) {
            Ok(texts) => read_texts(alloc, texts),
            Err(returned) => Err(returned),
        }
    }

    /// Crashes both disks, as if the program that used them had ended, and opens the journal on what the crash left.
    ///
    /// # Errors
    /// As for `open`.
    pub fn restart(self, alloc: Global) -> Result<OpenedJournal<D>, Returned<D>>
        ensures row { Restarts D.state self result }
        ensures good { IfOk result IsGoodOpened }
    {
        match self.texts.restart(alloc) {
            Ok(texts) => read_texts(alloc, texts),
            Err(returned) => Err(returned),
        }
    }

    /// Returns the two disks, in the order in which they were given.
    pub fn into_disks(self) -> Disks<D>
        ensures first { result.first ≡ first_disk self }
        ensures second { result.second ≡ second_disk self }
    {
        self.texts.into_disks()
    }
}

// Reads the journal whose base and entries these texts spell.
fn read_texts<D: Disk>(
    alloc: Global,
    texts: bytejournal::Opened<D>,
) -> Result<OpenedJournal<D>, Returned<D>>
    requires going { texts.journal.spent ≡ false }
    requires found { texts_of D.state texts.journal ≡ Some (texts_found texts) }
    ensures row { ReadsTexts texts result }
    ensures good { IfOk result IsGoodOpened }
{
    match is_spelled(alloc, &texts.older) {
        Ok(true) => {}
        Ok(false) => return Err(not_a_journal(texts.journal)),
        Err(NoMemory) => return Err(no_memory(texts.journal)),
    }
    let Some(layout) = layout_of(texts.journal.layout()) else {
        return Err(not_a_journal(texts.journal));
    };
    let before = Seal::start(texts.journal.layout(), texts.journal.generation());
    let Some(seal) = seal_from(
        layout,
        before,
        texts.base.as_bytes(),
        texts.entries.as_slice(),
    ) else {
        return Err(not_a_journal(texts.journal));
    };
    let base = match read_base_by(alloc, layout, body_in(layout, texts.base.as_bytes())) {
        Ok(Some(base)) => base,
        Ok(None) => return Err(not_a_journal(texts.journal)),
        Err(NoMemory) => return Err(no_memory(texts.journal)),
    };
    let entries = match read_entries(alloc, layout, texts.entries.as_slice()) {
        Ok(Some(entries)) => entries,
        Ok(None) => return Err(not_a_journal(texts.journal)),
        Err(NoMemory) => return Err(no_memory(texts.journal)),
    };
    Ok(OpenedJournal {
        journal: BotJournal {
            texts: texts.journal,
            spent: false,
            seal,
        },
        base,
        entries,
        whole: texts.whole,
    })
}

// The seal after a base and entries, if each of them ends with its sum: the texts of older layouts have none.
fn seal_from(layout: Layout, before: Seal, base: &[u8], entries: &[Text]) -> Option<Seal>
    ensures { result ≡ seal_from layout before base.now entries.now }
{
    match layout {
        Layout::First | Layout::Second | Layout::Third => Some(before),
        Layout::Fourth => match before.step(base) {
            Some(seal) => seal.through(entries),
            None => None,
        },
    }
}

// What a text spells: what stands before its sum, if its layout has sums.
fn body_in(layout: Layout, text: &[u8]) -> &[u8]
    ensures { result.now ≡ body_in layout text.now }
{
    match layout {
        Layout::First | Layout::Second | Layout::Third => text,
        Layout::Fourth => &text[..text.len().saturating_sub(SUM)],
    }
}

// Whether the texts of the disk that doesn't count spell a base and entries, if its gate is open.
fn is_spelled(alloc: Global, older: &Option<Older>) -> Result<bool, NoMemory>
    ensures { IfOk result (λ spelled. spelled ≡ is_spelled older.now) }
{
    let Some(older) = older else {
        return Ok(true);
    };
    let Some(layout) = layout_of(older.layout) else {
        return Ok(false);
    };
    let before = Seal::start(older.layout, older.generation);
    let entries = older.entries.as_slice();
    match seal_from(layout, before, older.base.as_bytes(), entries) {
        Some(_) => {}
        None => return Ok(false),
    }
    if !is_base_by(alloc, layout, body_in(layout, older.base.as_bytes()))? {
        return Ok(false);
    }
    are_entries(alloc, layout, entries)
}

// Whether these texts spell entries in a layout. It keeps none of them.
fn are_entries(alloc: Global, layout: Layout, texts: &[Text]) -> Result<bool, NoMemory>
    ensures { IfOk result (λ are. are ≡ is_some (entries_in layout texts.now)) }
{
    for text in texts {
        match read_entry_by(alloc, layout, body_in(layout, text.as_bytes()))? {
            Some(_) => {}
            None => return Ok(false),
        }
    }
    Ok(true)
}

// Reads the entries that these texts spell in a layout.
fn read_entries(
    alloc: Global,
    layout: Layout,
    texts: &[Text],
) -> Result<Option<Seq<Entry>>, NoMemory>
    ensures exact { IfOk result (λ read. read ≡ entries_in layout texts.now) }
    ensures good { IfOk result (λ read. IfSome read (λ entries. AllByRecursion IsGoodEntry entries)) }
{
    let mut entries = Vec::with_capacity(alloc, texts.len())?;
    for text in texts {
        match read_entry_by(alloc, layout, body_in(layout, text.as_bytes()))? {
            Some(entry) => entries.push(entry)?,
            None => return Ok(None),
        }
    }
    Ok(Some(Seq::new(entries)))
}

ghost use Rattle.bytetext.specs.declared.failure.Failure.TheVariants.{NoMemory as want_of_memory};
ghost use Rattle.bytejournal.specs.declared.fault.JournalFault.TheVariants.{NotAJournal as no_journal};

// Hands back the disks of a journal whose texts are not a bot's.
fn not_a_journal<D: Disk>(texts: bytejournal::Journal<D>) -> Returned<D>
    ensures error { result.error ≡ Refused no_journal }
    ensures first { result.disks.first ≡ first_disk texts }
    ensures second { result.disks.second ≡ second_disk texts }
{
    Returned {
        error: Failure::Refused(JournalFault::NotAJournal),
        disks: texts.into_disks(),
    }
}

// Hands back the disks of a journal when its contents can't be allocated.
fn no_memory<D: Disk>(texts: bytejournal::Journal<D>) -> Returned<D>
    ensures error { result.error ≡ want_of_memory }
    ensures first { result.disks.first ≡ first_disk texts }
    ensures second { result.disks.second ≡ second_disk texts }
{
    Returned {
        error: Failure::NoMemory,
        disks: texts.into_disks(),
    }
}
