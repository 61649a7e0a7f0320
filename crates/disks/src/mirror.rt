// What a disk in a file holds, in memory. It is no `MemDisk`, which has a second copy of its bytes for a planned crash.
ghost use Rattle.std.specs.Prelude.{◌≡◌, ◌≤◌, ◌<◌, ◌+◌, ◌++◌, [], List, ℕ, length, take, drop, vec_len, max, IfSome, OnErr, OnOk};
ghost use Rattle.std.specs.Vec.{vec_capacity};
ghost use Rattle.disks.specs.Events.{openings};
ghost use Rattle.disks.specs.State.{IsSettled};
ghost use Rattle.disks.specs.Calls.{Holds, Tears, Elapses, SameBytes, read_count};
ghost use Rattle.disks.specs.Memory.{state_of, Fails};
ghost use Rattle.disks.specs.Mirrors.{IsHeld};
ghost use Rattle.disks.specs.Told.{with_text};
ghost use Rattle.disks.specs.Plans.{no_plan};

use crate::bytes::{make_room, put, read_from};
use crate::history::History;
use bytetext::NoMemory;
use std::marker::Model;
use std::snapshot::Snapshot;

/// The bytes that a file was told, and how often the file failed. As contracts see it, no fault of it is planned, and a
/// crash leaves what a read gives.
///
/// After `end_reads` the bytes are no longer in memory. Contracts still know them: what was found in the file, with what
/// was written since.
pub(crate) struct Mirror {
    /// The bytes, until `end_reads`.
    bytes: Option<Vec<u8>>,
    /// How many bytes there are.
    len: usize,
    /// Up to where there is room.
    room: usize,
    failures: u64,
    /// What was found in the file, for contracts alone.
    found: Snapshot<Vec<u8>>,
    /// Each write with what was written, and each sync and opening, for contracts alone.
    told: History,
}

// By hand, so that this is proved once, and not in each function in which one ends.
impl Drop for Mirror {
    fn drop(self) {
        let Mirror {
            bytes: _,
            len: _,
            room: _,
            failures: _,
            found: _,
            told: _,
        } = self;
    }
}

impl Model for Mirror {
    ghost use Rattle.disks.specs.Memory.{Memory};
    ghost use Rattle.disks.specs.Mirrors.{IsMirror, events_after};
    ghost use Rattle.disks.specs.Plans.{no_plan};
    ghost use Rattle.disks.specs.Told.{after_writes};

    ghost Value = { Memory };

    ghost view = { λ m. record {
      events = events_after m.found.value.items m.told.events;
      content = after_writes m.found.value.items m.told.events;
      left = after_writes m.found.value.items m.told.events;
      plan = no_plan;
      failures = m.failures;
      room = m.room;
    } };

    ghost invariant = { λ m. IsMirror m.bytes m.len m.room (after_writes m.found.value.items m.told.events) };
}

impl Mirror {
    /// Creates the mirror of a file that holds `content`. Does not allocate.
    pub(crate) fn holding(content: Vec<u8>) -> Mirror
        ensures events { result.events ≡ [] }
        ensures content { result.content ≡ content.items }
        ensures plan { result.plan ≡ no_plan }
    {
        let len = content.len();
        let found = Snapshot::of(&content);
        Mirror {
            bytes: Some(content),
            len,
            room: len,
            failures: 0,
            found,
            told: History::new(),
        }
    }

    /// Frees the bytes. From then on `read` returns `None`, and `reserve` allocates nothing.
    pub(crate) fn end_reads(&mut self)
        ensures { self.new ≡ self.old }
    {
        self.bytes = None;
    }

    /// Returns the bytes, or `None` after `end_reads`.
    pub(crate) fn held(&self) -> Option<&[u8]>
        ensures { IfSome result (λ held. held.now ≡ self.now.content) }
    {
        match &self.bytes {
            Some(bytes) => Some(bytes.as_slice()),
            None => None,
        }
    }

    /// Returns the number of bytes.
    pub(crate) fn len(&self) -> usize
        ensures { result ≡ length self.now.content }
    {
        self.len
    }

    /// Returns how often the file failed. The count stops at its greatest value.
    pub(crate) fn failures(&self) -> u64
        ensures { result ≡ self.now.failures }
    {
        self.failures
    }

    /// Notes a fault.
    pub(crate) fn fail(&mut self)
        ensures { Fails self.old self.new }
    {
        self.failures = self.failures.saturating_add(1);
    }

    /// Reads from the offset `at` into `buf`, and returns how many bytes it read. Returns `None` after `end_reads`.
    pub(crate) fn read(&self, at: usize, buf: &mut [u8]) -> Option<usize>
        ensures count { IfSome result (λ n. n ≡ read_count self.now.content at (length buf.old)) }
        ensures bytes { IfSome result (λ n. buf.new ≡ take n (drop at self.now.content) ++ drop n buf.old) }
    {
        match &self.bytes {
            Some(bytes) => Some(read_from(bytes, at, buf)),
            None => None,
        }
    }

    /// Makes room up to the offset `end`. Allocates nothing if there is room already, or after `end_reads`.
    ///
    /// # Errors
    /// `NoMemory` if it cannot allocate the room.
    pub(crate) fn reserve(&mut self, end: usize) -> Result<(), NoMemory>
        ensures end { OnOk result (end ≤ self.new.room) }
        ensures room { self.old.room ≤ self.new.room }
        ensures events { self.new.events ≡ self.old.events }
        ensures content { self.new.content ≡ self.old.content }
        ensures failures { self.new.failures ≡ self.old.failures }
        ensures plan { self.new.plan ≡ self.old.plan }
        ensures memory { OnErr result (self.old.room < end) }
    {
        match make_held_room(&mut self.bytes, end) {
            Ok(()) => {
                self.room = self.room.max(end);
                Ok(())
            }
            Err(error) => Err(error),
        }
    }

    /// Writes `bytes` at the offset `at`, in room that was made before.
    pub(crate) fn write_at(&mut self, at: usize, bytes: &[u8])
        requires inside { at ≤ length self.old.content }
        requires room { at + length bytes.now ≤ self.old.room }
        ensures written { Holds self.old.content at bytes.now self.new.content }
        ensures tears { Tears at (length bytes.now) (state_of self.old) (state_of self.new) }
        ensures time { Elapses (state_of self.old) (state_of self.new) }
        ensures room { self.new.room ≡ self.old.room }
        ensures failures { self.new.failures ≡ self.old.failures }
        ensures plan { self.new.plan ≡ self.old.plan }
    {
        self.told.note(&[1, at as u64, bytes.len() as u64], bytes);
        self.len = self.len.max(at + bytes.len());
        put_held(&mut self.bytes, at, bytes);
    }

    /// Notes that the device has kept what was written.
    pub(crate) fn sync(&mut self)
        ensures settled { IsSettled (state_of self.new) }
        ensures same { SameBytes (state_of self.old) (state_of self.new) }
        ensures content { self.new.content ≡ self.old.content }
        ensures room { self.new.room ≡ self.old.room }
        ensures failures { self.new.failures ≡ self.old.failures }
        ensures plan { self.new.plan ≡ self.old.plan }
    {
        self.told.note(&[0, 0, 0], &[]);
    }

    /// Notes that the file was opened again, and that nothing that was written is lost.
    pub(crate) fn reopen(&mut self)
        ensures settled { IsSettled (state_of self.new) }
        ensures same { SameBytes (state_of self.old) (state_of self.new) }
        ensures opened { openings self.new.events ≡ openings self.old.events + 1 }
        ensures content { self.new.content ≡ self.old.content }
        ensures room { self.new.room ≡ self.old.room }
        ensures failures { self.new.failures ≡ self.old.failures }
        ensures plan { self.new.plan ≡ self.old.plan }
    {
        self.told.note(&[2, 0, 0], &[]);
    }
}

/// Makes room up to the offset `end` in the bytes, if they are still in memory.
fn make_held_room(bytes: &mut Option<Vec<u8>>, end: usize) -> Result<(), NoMemory>
    ensures room { OnOk result ((content : List ℕ) (room : ℕ) → IsHeld bytes.old content room
        → IsHeld bytes.new content (max room end)) }
    ensures same { OnErr result ((content : List ℕ) (room : ℕ) → IsHeld bytes.old content room
        → IsHeld bytes.new content room) }
    ensures memory { OnErr result ((content : List ℕ) (room : ℕ) → IsHeld bytes.old content room → room < end) }
{
    match bytes {
        Some(bytes) => make_room(bytes, end),
        None => Ok(()),
    }
}

/// Writes `text` at the offset `at` into the bytes, if they are still in memory.
fn put_held(bytes: &mut Option<Vec<u8>>, at: usize, text: &[u8])
    requires inside { IfSome bytes.old (λ b. at ≤ vec_len b) }
    requires room { IfSome bytes.old (λ b. at + length text.now ≤ vec_capacity b) }
    ensures { (content : List ℕ) (room : ℕ) → IsHeld bytes.old content room
        → IsHeld bytes.new (with_text at text.now content) room }
{
    match bytes {
        Some(bytes) => put(bytes, at, text),
        None => {}
    }
}
