//! Disks as a journal uses them: what a read gives, what a crash may leave, and what a fault means; and disks in memory
//! and in files.
//!
//! A [`Disk`] is bytes that can be read, written and synced. After a crash between two syncs, each range that was
//! written and the part past the old end may hold any bytes; the rest stays. After a successful sync a crash leaves
//! what a read gives. The model is our own.
//!
//! - [`Disk`] is the trait, and [`DiskFault`] its only error beside out of memory.
//! - [`MemDisk`] is a disk in memory whose faults are planned. From a given write or sync on, all of these fail until
//!   the disk is reopened, and a [`Tear`] says what the crash then leaves of the ranges that were written and not kept.
//!   Or one read fails once. So a test can stop a program at each call of a disk.
//! - [`FileDisk`] keeps its bytes in a file, and a mirror of them in memory until its user ends the reads. A [`Pair`] is
//!   the two disks of a journal, and a [`FileFault`] says why a file cannot be a disk. [`make_folder`],
//!   [`rename_folder`] and [`sync_folder`] create two files that must appear together or not at all.
//! - [`History`] is for those who implement a disk. It holds nothing at run time. Contracts see in it each write, sync
//!   and opening that the disk noted, and the disk's `state` reports them.
//!
//! A user makes room first, then writes and syncs without allocating:
//!
//! ```text
//! let mut disk = MemDisk::new(alloc);
//! disk.plan(3, Tear::Fill(1));       // the third write or sync from now on fails, and so do all later ones
//! disk.reserve(end, 2)?;             // room for two calls, up to the byte `end`
//! disk.write_at(at, bytes)?;
//! disk.sync()?;
//! disk.write_at(at, bytes)?;         // a DiskFault
//! disk.reopen();                     // holds what the crash left
//! ```
//!
//! Two files are created in a folder that is then renamed, so that both have their names or neither has:
//!
//! ```text
//! make_folder(rt, "bot/new")?;
//! let pair = Pair::make(rt, "bot/new/first", "bot/new/second")?;
//! // .. a journal is created on the pair
//! rename_folder(rt, "bot/new", "bot/journal")?;
//! // at each later start
//! let pair = Pair::open(rt, "bot/journal/first", "bot/journal/second")?;
//! ```
//!
//! Contracts see a disk through one ghost member, its `state`: what a read gives, and the list of the disk's events.
//! The words are defined in `specs/`:
//!
//! - `Events`, `State`, `Laws`: what the list says a crash may leave now, what a crash at any moment since an earlier
//!   one might have left, and what follows from that.
//! - `Calls`: what each call of a disk does, by cases on its result.
//! - `Memory`, `Plans`: a disk in memory, and its planned faults.
//! - `Files`, `Told`, `Mirrors`: a disk in a file, what the system reported of that file, and its mirror in memory.
#![tactic(auto)]

mod bytes;
mod countdown;
mod disk;
mod file_disk;
mod file_fault;
mod folder;
mod history;
mod mem_disk;
mod mirror;
mod pair;
mod tear;
mod told_file;

pub use crate::disk::{Disk, DiskFault};
pub use crate::file_disk::FileDisk;
pub use crate::file_fault::{FileDiskError, FileFault};
pub use crate::folder::{make_folder, rename_folder, sync_folder};
pub use crate::history::History;
pub use crate::mem_disk::MemDisk;
pub use crate::pair::Pair;
pub use crate::tear::Tear;
