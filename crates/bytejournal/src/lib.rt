//! A journal of byte texts on two disks. After any crash it holds the entries from before a call, or those and the one
//! being written.
//!
//! A journal is a base and the entries appended since. It lies on two disks, and the active one is that with an open
//! gate at its start and the higher generation. A byte on each disk names the layout in which its texts are spelled;
//! the layers above say what a layout means. A gate is one byte, open when it is 1; what stands after a closed gate
//! doesn't count. An append writes the entry after the closed gate that ends the others, waits until it is kept, and
//! then opens the gate by a write of its own. A rebase does the same on the other disk, in the next generation, after
//! it closed that disk's first gate if that was open. The first append after a rebase shuts the disk that counts no
//! more, if it is one that [shuts when it is idle](disks::Disk::shuts_when_idle): it closes that disk's first gate, and
//! an opening reads the texts of one disk alone.
//!
//! - [`Journal`] is created on two disks or opened from them; [`Opened`] is what an opening finds. A failed call hands
//!   the [`Disks`] back in a [`Returned`].
//! - A [`JournalFault`] says why a call is rejected. After a disk's fault the journal is spent: what was being written
//!   may count or not, and opening the journal again shows which.
//! - [`read_ending`] says what would count if a closed gate were open. A device may close a gate; what a crash may leave
//!   after one, the layers above can tell from the texts. [`has_few_after`] and [`is_behind`] often tell it from the gates
//!   alone.
//! - [`laws_of_journals`]: through any number of calls and crashes, disks that `create` made and only this journal
//!   wrote never yield `NotAJournal`. At each moment of each call, every image that a crash may leave means the
//!   contents before the call or after it.
//! - [`was_never_made`] tells disks on which a `create` was stopped from a journal. `create` writes a closed gate on
//!   the second disk, then the text on the first, and opens the first gate last. A program that ends before that has
//!   reported nothing about a journal, so its next start creates it again. [`law_of_unmade_disks`] says that the
//!   function never mistakes a journal that was created for none, whatever crashes came, nor a text file: it leaves
//!   such disks to `open`, which rejects a text file.
//!
//! ```text
//! let mut journal = if was_never_made(&mut first, &mut second)? {
//!     Journal::create(alloc, first, second, layout, base)?
//! } else {
//!     Journal::open(alloc, first, second)?.journal
//! };
//! journal.append(alloc, entry)?;          // acknowledged: each crash from now on leaves it
//! journal.rebase(alloc, layout, other)?;  // the new base alone
//! let opened = journal.restart(alloc)?;   // what stands on the disks after a crash
//! if opened.whole { /* opened.base, opened.entries, and opened.journal to go on with */ }
//! ```
//!
//! The words of the contracts are defined in `specs/`:
//!
//! - `Meaning`: the format, and what the bytes of two disks mean. `Gates`: why a text is written after a closed gate.
//! - `Journal`, `Opening`, `Writing`: what a journal stands for, and what its calls return. `Faults`: the letter and
//!   number of each error.
//! - `Reading`: what is known of the bytes that were read. `Ending`: what stands after the gate that ends a disk.
//! - `Recovery`: a journal over many calls and crashes. `Unmade`: what a stopped `create` leaves.
#![tactic(auto)]

mod behind;
mod ending;
mod fault;
mod few_after;
mod gate;
mod journal;
mod opening;
mod reading;
mod recovery;
mod spelling;
mod unmade;
mod writing;

pub use crate::behind::is_behind;
pub use crate::ending::{Counted, Ending, IfOpen, ending_of, read_ending};
pub use crate::fault::{JournalError, JournalFault};
pub use crate::few_after::has_few_after;
pub use crate::journal::Journal;
pub use crate::opening::{Disks, Older, Opened, Returned};
pub use crate::recovery::laws_of_journals;
pub use crate::unmade::{law_of_unmade_disks, was_never_made};
