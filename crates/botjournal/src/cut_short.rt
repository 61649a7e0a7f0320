// Journals that a device cut short.
ghost use Rattle.std.specs.Prelude.{◌≡◌, ◌<◌, ◌+◌, true, IfErr, IfOk, length};
ghost use Rattle.disks.specs.State.{IsSettled};
ghost use Rattle.bytejournal.specs.Opening.{Untouched};
ghost use Rattle.botjournal.specs.CutShort.{ShowsUncut, TellsCut, carries_sums, is_cut, is_cut_short, is_more, would_count};

use crate::LAYOUT;
use crate::sums::Seal;
use bytejournal::{
    Counted, Ending, IfOpen, JournalError, ending_of, has_few_after, is_behind, read_ending,
};
use bytetext::{NoMemory, bytes_of};
use disks::Disk;
use std::alloc::Global;

/// Whether the device of `first` or `second` closed a gate of a journal, so that entries after it don't count. Writes
/// nothing. Ask this before [`BotJournal::open`](crate::BotJournal::open), which takes such disks: it returns the
/// journal of an earlier moment, and the next entry overwrites the lost ones. The answer is `true` in two cases:
///
/// - after the gate that ends a disk stand at least two entries more, and the base and all entries up to there carry
///   their sums. A crash leaves one at most, which is why one alone doesn't count;
/// - the first gate of a disk isn't open, after it stand a base and at least one entry that carry their sums, and their
///   generation is above that of the other disk, if that one holds a journal.
///
/// Texts of the layouts 1 to 3 carry no sums, so the answer for them is `false`.
///
/// That no crash leaves disks for which the answer is `true` is not proved. A crash may leave any bytes in the range
/// that was being written, and older bytes stand after that, so they would have to carry the 64-bit sums that fit the
/// texts before them. A [`create`](crate::BotJournal::create) on disks that held a journal is an exception: if it is
/// stopped after it closed their gates, the answer is `true`. Such disks hold no journal.
///
/// # Errors
/// `DiskFault` if a read failed. `NoMemory` if it cannot allocate room for what the disks hold; never if neither holds
/// a byte.
pub fn is_cut_short<D: Disk>(
    alloc: Global,
    first: &mut D,
    second: &mut D,
) -> Result<bool, JournalError>
    requires first_settled { IsSettled (D.state first.old) }
    requires second_settled { IsSettled (D.state second.old) }
    ensures row { TellsCut (D.state first.old) (D.state second.old) result (D.state first.new) (D.state second.new) }
    ensures first { Untouched (D.state first.old) (D.state first.new) }
    ensures second { Untouched (D.state second.old) (D.state second.new) }
{
    let a = read_ending(alloc, first)?;
    let b = read_ending(alloc, second)?;
    Ok(is_cut(b.counted, &a) || is_cut(a.counted, &b))
}

/// Whether [`is_cut_short`] is `true` of disks that hold the bytes `first` and `second`. For most journals it takes no
/// memory.
///
/// # Errors
/// `NoMemory` if it cannot allocate room for what the bytes hold; never if there is none.
#[tactic(auto, using(crate::proofs::CutLaws::uncut))]
pub fn are_cut_short(alloc: Global, first: &[u8], second: &[u8]) -> Result<bool, NoMemory>
    ensures cut { IfOk result (λ cut. cut ≡ is_cut_short first.now second.now) }
    ensures memory { IfErr result (λ _. 0 < length first.now + length second.now) }
{
    // Most journals show it at once.
    if shows_uncut(first, second) && shows_uncut(second, first) {
        return Ok(false);
    }
    let a = ending_of(alloc, bytes_of(alloc, first)?)?;
    let b = ending_of(alloc, bytes_of(alloc, second)?)?;
    Ok(is_cut(b.counted, &a) || is_cut(a.counted, &b))
}

// Whether the gates of a disk show that it wasn't cut short, beside another one.
fn shows_uncut(bytes: &[u8], other: &[u8]) -> bool
    ensures { result ≡ true → ShowsUncut bytes.now other.now }
{
    has_few_after(bytes) || is_behind(bytes, other)
}

// Whether the disk with this ending was cut short, beside another one.
fn is_cut(other: Option<Counted>, ending: &Ending) -> bool
    ensures { result ≡ is_cut other ending.now }
{
    match &ending.if_open {
        Some(texts) => is_more(other, ending.counted, texts) && carries_sums(texts),
        None => false,
    }
}

// Whether these are more texts than a crash leaves.
fn is_more(other: Option<Counted>, counted: Option<Counted>, texts: &IfOpen) -> bool
    ensures { result ≡ is_more other counted texts.now }
{
    match counted {
        Some(counted) => 2 <= texts.entries.len().saturating_sub(counted.entries),
        None => 0 < texts.entries.len() && would_count(other, texts),
    }
}

// Whether the texts of this generation would count beside the other disk.
fn would_count(other: Option<Counted>, texts: &IfOpen) -> bool
    ensures { result ≡ would_count other texts.now }
{
    match other {
        Some(other) => other.generation < texts.generation,
        None => true,
    }
}

// Whether the base and each entry end with their sums.
fn carries_sums(texts: &IfOpen) -> bool
    ensures { result ≡ carries_sums texts.now }
{
    if texts.layout != LAYOUT {
        return false;
    }
    match Seal::start(LAYOUT, texts.generation).step(texts.base.as_bytes()) {
        Some(seal) => seal.through(texts.entries.as_slice()).is_some(),
        None => false,
    }
}
