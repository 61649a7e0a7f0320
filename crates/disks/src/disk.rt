// A disk as a journal uses it.
ghost use Rattle.std.specs.Prelude.{◌≡◌, ◌<◌, ◌≤◌, ◌+◌, ◌++◌, Bool, List, ℕ, length, take, drop, IfOk, IfSome, OnOk};
ghost use Rattle.disks.specs.State.{State, IsSettled, may_leave};
ghost use Rattle.disks.specs.Calls.{Holds, Tears, Elapses, HasCause, Spends, SameBytes, read_count};
ghost use Rattle.disks.specs.Events.{openings};

use bytetext::NoMemory;
use thiserror::Error;

/// A disk failed a read, a write or a sync. What the disk now holds is what a crash may leave.
#[derive(Clone, Copy, Debug, PartialEq, Eq, Error)]
#[error("the disk failed: open its journal again, or replace it")]
pub struct DiskFault;

/// A disk of bytes.
///
/// `read`, `write_at` and `sync` fail only when the disk does, and `read` also after `end_reads`. `reserve` fails only
/// when it is out of memory. The other calls never fail.
pub trait Disk: Drop {
    /// What a read gives, what a crash may leave according to the disk's history, and how often the disk has failed.
    ghost state: { Self → State };

    /// Whether a journal shuts this disk once it is idle.
    ghost shuts: { Self → Bool };

    /// Returns the number of bytes.
    fn len(&self) -> usize
        ensures { result ≡ length (state self.now).seen };

    /// Returns how often the disk has failed. The count stops at its greatest value.
    fn failures(&self) -> u64
        ensures { result ≡ (state self.now).failed };

    /// Returns all bytes if the disk has them at hand, so that they need not be read: a read of the whole disk would give
    /// the same.
    fn held(&self) -> Option<&[u8]>
        ensures bytes { IfSome result (λ bytes. bytes.now ≡ (state self.now).seen) };

    /// Returns whether a journal shuts this disk, by one more write and sync, once the other disk counts in its place: an
    /// opening then reads none of its texts.
    fn shuts_when_idle(&self) -> bool
        ensures { result ≡ shuts self.now };

    /// Reads from the offset `at` into `buf`, and returns how many bytes it read: `buf` is filled, or read up to the
    /// disk's end.
    ///
    /// # Errors
    /// If the disk fails, or after `end_reads`. Its bytes are as they were.
    fn read(&mut self, at: usize, buf: &mut [u8]) -> Result<usize, DiskFault>
        ensures count { IfOk result (λ n. n ≡ read_count (state self.old).seen at (length buf.old)) }
        ensures bytes { IfOk result (λ n. buf.new ≡ take n (drop at (state self.old).seen) ++ drop n buf.old) }
        ensures events { (state self.new).events ≡ (state self.old).events }
        ensures same { SameBytes (state self.old) (state self.new) }
        ensures room { Spends 0 (state self.old) (state self.new) }
        ensures cause { HasCause (state self.old) (state self.new) result };

    /// Says that the caller reads no more. The disk may free what only reads need, so each later read may fail, even
    /// after `reopen`. Nothing else changes.
    fn end_reads(&mut self)
        ensures { state self.new ≡ state self.old };

    /// Makes room, so that the next `calls` writes and syncs, up to the offset `end`, allocate nothing.
    ///
    /// # Errors
    /// If it cannot allocate the room. The disk is then as it was.
    fn reserve(&mut self, end: usize, calls: usize) -> Result<(), NoMemory>
        ensures calls { OnOk result (calls ≤ (state self.new).calls) }
        ensures end { OnOk result (end ≤ (state self.new).end) }
        ensures events { (state self.new).events ≡ (state self.old).events }
        ensures same { SameBytes (state self.old) (state self.new) }
        ensures room { Spends 0 (state self.old) (state self.new) }
        ensures never_fails { (state self.new).failed ≡ (state self.old).failed };

    /// Writes `bytes` at the offset `at`, over the existing bytes and past the end. Until a sync, a crash may leave any
    /// bytes in the range.
    ///
    /// # Errors
    /// If the disk fails. The range may then hold any bytes.
    fn write_at(&mut self, at: usize, bytes: &[u8]) -> Result<(), DiskFault>
        requires inside { at ≤ length (state self.old).seen }
        requires room { at + length bytes.now ≤ (state self.old).end }
        requires call { 0 < (state self.old).calls }
        ensures written { OnOk result (Holds (state self.old).seen at bytes.now (state self.new).seen) }
        ensures tears { Tears at (length bytes.now) (state self.old) (state self.new) }
        ensures time { Elapses (state self.old) (state self.new) }
        ensures room { Spends 1 (state self.old) (state self.new) }
        ensures cause { HasCause (state self.old) (state self.new) result };

    /// Waits until the device has kept what was written. After that, a crash leaves what a read gives.
    ///
    /// # Errors
    /// If the disk fails. What was pending stays pending.
    fn sync(&mut self) -> Result<(), DiskFault>
        requires { 0 < (state self.old).calls }
        ensures settled { OnOk result (IsSettled (state self.new)) }
        ensures same { SameBytes (state self.old) (state self.new) }
        ensures room { Spends 1 (state self.old) (state self.new) }
        ensures cause { HasCause (state self.old) (state self.new) result };

    /// Crashes the disk and opens it again: it then holds what the crash left, and nothing is pending.
    fn reopen(&mut self)
        ensures left { may_leave (state self.old) (state self.new).seen }
        ensures settled { IsSettled (state self.new) }
        ensures time { Elapses (state self.old) (state self.new) }
        ensures opened { openings (state self.new).events ≡ openings (state self.old).events + 1 }
        ensures never_fails { (state self.new).failed ≡ (state self.old).failed };
}
