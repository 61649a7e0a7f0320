// A disk in memory, whose faults and crashes can be planned.
ghost use Rattle.std.specs.Prelude.{◌≡◌, ◌<◌, ◌≤◌, ◌+◌, ◌++◌, ◌↔◌, false, [], length, take, drop, vec_len, IfOk, IfErr, OnOk, OnErr, IsErr};
ghost use Rattle.disks.specs.Events.{openings};
ghost use Rattle.disks.specs.State.{IsSettled, may_leave};
ghost use Rattle.disks.specs.Calls.{Holds, Tears, Elapses, HasCause, Spends, SameBytes, read_count};
ghost use Rattle.disks.specs.Plans.{IsDue, Leaves, no_plan, with_crash, with_read, after_call, after_read, after_crash};
ghost use Rattle.disks.specs.Memory.{state_of, empty, with_plan};

use crate::bytes::{copy_rest, make_room, put, read_from};
use crate::countdown::{is_due, is_over};
use crate::disk::{Disk, DiskFault};
use crate::history::History;
use crate::tear::{Tear, tear_range};
use bytetext::NoMemory;
use std::alloc::Global;
use std::marker::Model;
use std::mem;

/// A disk in memory. It fails when a plan says so, and a crash leaves what the plan says of the writes that weren't
/// kept.
pub struct MemDisk {
    /// What a read gives.
    content: Vec<u8>,
    /// What a crash leaves.
    torn: Vec<u8>,
    /// How many first bytes are the same in both.
    same: usize,
    tear: Tear,
    /// How many more writes and syncs work, if a fault is planned.
    works: Option<u64>,
    /// How many more reads work, if a fault of one is planned.
    reads: Option<u64>,
    failures: u64,
    history: History,
}

// By hand, so that this is proved once, and not in each function in which one ends.
impl Drop for MemDisk {
    fn drop(self) {
        let MemDisk {
            content: _,
            torn: _,
            same: _,
            tear: _,
            works: _,
            reads: _,
            failures: _,
            history: _,
        } = self;
    }
}

impl Model for MemDisk {
    ghost use Rattle.std.specs.Prelude.{min};
    ghost use Rattle.std.specs.Vec.{vec_capacity};
    ghost use Rattle.disks.specs.Memory.{Memory, IsKept};

    ghost Value = { Memory };

    ghost view = { λ d. record {
      events = d.history.events;
      content = d.content.items;
      left = d.torn.items;
      plan = record { tear = d.tear; works = d.works; reads = d.reads };
      failures = d.failures;
      room = min (vec_capacity d.content) (vec_capacity d.torn);
    } };

    ghost invariant = { λ d. IsKept d.history.events d.content.items d.torn.items d.same (vec_capacity d.content) (vec_capacity d.torn) };
}

impl MemDisk {
    /// Creates an empty disk, which grows on `alloc`. Allocates nothing.
    pub fn new(alloc: Global) -> MemDisk
        ensures { result ≡ empty }
    {
        MemDisk {
            content: Vec::new(alloc),
            torn: Vec::new(alloc),
            same: 0,
            tear: Tear::Old,
            works: None,
            reads: None,
            failures: 0,
            history: History::new(),
        }
    }

    /// Creates a disk that holds `content`, with nothing pending.
    ///
    /// # Errors
    /// `NoMemory` if it cannot allocate room for a copy; never if `content` is empty.
    pub fn holding(alloc: Global, content: Vec<u8>) -> Result<MemDisk, NoMemory>
        ensures events { IfOk result (λ disk. disk.events ≡ []) }
        ensures content { IfOk result (λ disk. disk.content ≡ content.items) }
        ensures left { IfOk result (λ disk. disk.left ≡ content.items) }
        ensures plan { IfOk result (λ disk. disk.plan ≡ no_plan) }
        ensures memory { IfErr result (λ _. 0 < vec_len content) }
    {
        let mut torn = Vec::with_capacity(alloc, content.len())?;
        torn.extend_from_slice(&content)?;
        let same = content.len();
        Ok(MemDisk {
            content,
            torn,
            same,
            tear: Tear::Old,
            works: None,
            reads: None,
            failures: 0,
            history: History::new(),
        })
    }

    /// Plans a crash. The write or sync with the number `fail_at` (counted from 1, from now on) and all later ones fail
    /// until `reopen`, which then leaves `tear` in the ranges that were written and not kept, those of failed writes
    /// among them. Call it with nothing pending.
    pub fn plan(&mut self, fail_at: u64, tear: Tear)
        requires { 0 < fail_at }
        ensures { self.new ≡ with_plan (with_crash fail_at tear self.old.plan) self.old }
    {
        self.works = Some(fail_at - 1);
        self.tear = tear;
    }

    /// Plans that the read with the number `fail_at` (counted from 1, from now on) fails, once, even if `reopen` comes
    /// before it.
    pub fn plan_read(&mut self, fail_at: u64)
        requires { 0 < fail_at }
        ensures { self.new ≡ with_plan (with_read fail_at self.old.plan) self.old }
    {
        self.reads = Some(fail_at - 1);
    }
}

impl Disk for MemDisk {
    ghost state = { state_of };

    ghost shuts = { λ disk. false };

    fn len(&self) -> usize {
        self.content.len()
    }

    fn failures(&self) -> u64 {
        self.failures
    }

    // Always none: each read counts as a call, at which a fault may be planned.
    fn held(&self) -> Option<&[u8]> {
        None
    }

    // Never: each write and sync counts as a call, at which a fault may be planned.
    fn shuts_when_idle(&self) -> bool {
        false
    }

    /// A read fails exactly when that is planned.
    fn read(&mut self, at: usize, buf: &mut [u8]) -> Result<usize, DiskFault>
        ensures count { IfOk result (λ n. n ≡ read_count (state_of self.old).seen at (length buf.old)) }
        ensures bytes { IfOk result (λ n. buf.new ≡ take n (drop at (state_of self.old).seen) ++ drop n buf.old) }
        ensures events { (state_of self.new).events ≡ (state_of self.old).events }
        ensures same { SameBytes (state_of self.old) (state_of self.new) }
        ensures room { Spends 0 (state_of self.old) (state_of self.new) }
        ensures cause { HasCause (state_of self.old) (state_of self.new) result }

        ensures fails { IsErr result ↔ IsDue self.old.plan.reads }
        ensures plan { self.new.plan ≡ after_read self.old.plan }
        ensures left { self.new.left ≡ self.old.left }
    {
        if is_due(&mut self.reads) {
            self.failures = self.failures.saturating_add(1);
            return Err(DiskFault);
        }
        Ok(read_from(&self.content, at, buf))
    }

    /// Does nothing: each later read works as before.
    fn end_reads(&mut self)
        ensures same { self.new ≡ self.old }
        ensures state { state_of self.new ≡ state_of self.old }
    {}

    /// Allocates nothing if there is room up to `end` already.
    fn reserve(&mut self, end: usize, calls: usize) -> Result<(), NoMemory>
        ensures calls { OnOk result (calls ≤ (state_of self.new).calls) }
        ensures end { OnOk result (end ≤ (state_of self.new).end) }
        ensures events { (state_of self.new).events ≡ (state_of self.old).events }
        ensures same { SameBytes (state_of self.old) (state_of self.new) }
        ensures room { Spends 0 (state_of self.old) (state_of self.new) }
        ensures never_fails { (state_of self.new).failed ≡ (state_of self.old).failed }

        ensures plan { self.new.plan ≡ self.old.plan }
        ensures left { self.new.left ≡ self.old.left }
        ensures memory { OnErr result (self.old.room < end) }
    {
        make_room(&mut self.content, end)?;
        make_room(&mut self.torn, end)
    }

    /// A write fails exactly when that is planned. Until it is kept, a crash leaves the planned tear of it.
    fn write_at(&mut self, at: usize, bytes: &[u8]) -> Result<(), DiskFault>
        requires inside { at ≤ length (state_of self.old).seen }
        requires room { at + length bytes.now ≤ (state_of self.old).end }
        requires call { 0 < (state_of self.old).calls }
        ensures written { OnOk result (Holds (state_of self.old).seen at bytes.now (state_of self.new).seen) }
        ensures tears { Tears at (length bytes.now) (state_of self.old) (state_of self.new) }
        ensures time { Elapses (state_of self.old) (state_of self.new) }
        ensures room { Spends 1 (state_of self.old) (state_of self.new) }
        ensures cause { HasCause (state_of self.old) (state_of self.new) result }

        ensures fails { IsErr result ↔ IsDue self.old.plan.works }
        ensures plan { self.new.plan ≡ after_call self.old.plan }
        ensures left { Leaves self.old.plan.tear at bytes.now self.old.left self.new.left }
    {
        self.history
            .note(&[1, at as u64, bytes.len() as u64], &self.content);
        tear_range(&mut self.torn, self.tear, at, bytes);
        self.same = self.same.min(at);
        if is_over(&mut self.works) {
            self.failures = self.failures.saturating_add(1);
            return Err(DiskFault);
        }
        put(&mut self.content, at, bytes);
        Ok(())
    }

    /// A sync fails exactly when that is planned. After one that works, a crash leaves what a read gives.
    fn sync(&mut self) -> Result<(), DiskFault>
        requires { 0 < (state_of self.old).calls }
        ensures settled { OnOk result (IsSettled (state_of self.new)) }
        ensures same { SameBytes (state_of self.old) (state_of self.new) }
        ensures room { Spends 1 (state_of self.old) (state_of self.new) }
        ensures cause { HasCause (state_of self.old) (state_of self.new) result }

        ensures fails { IsErr result ↔ IsDue self.old.plan.works }
        ensures plan { self.new.plan ≡ after_call self.old.plan }
        ensures kept { OnOk result (self.new.left ≡ self.old.content) }
        ensures not_kept { OnErr result (self.new.left ≡ self.old.left) }
        ensures quiet { OnOk result (self.new.failures ≡ self.old.failures) }
    {
        if is_over(&mut self.works) {
            self.failures = self.failures.saturating_add(1);
            return Err(DiskFault);
        }
        self.history.note(&[0, 0, 0], &self.content);
        copy_rest(&mut self.torn, &self.content, self.same);
        self.same = self.content.len();
        Ok(())
    }

    /// Performs the planned crash. It ends the plan of a write or sync, but not that of a read.
    fn reopen(&mut self)
        ensures left { may_leave (state_of self.old) (state_of self.new).seen }
        ensures settled { IsSettled (state_of self.new) }
        ensures time { Elapses (state_of self.old) (state_of self.new) }
        ensures opened { openings (state_of self.new).events ≡ openings (state_of self.old).events + 1 }
        ensures never_fails { (state_of self.new).failed ≡ (state_of self.old).failed }

        ensures crashed { self.new.content ≡ self.old.left }
        ensures kept { self.new.left ≡ self.old.left }
        ensures plan { self.new.plan ≡ after_crash self.old.plan }
    {
        self.history.note(&[2, 0, 0], &self.content);
        mem::swap(&mut self.content, &mut self.torn);
        copy_rest(&mut self.torn, &self.content, self.same);
        self.same = self.content.len();
        self.works = None;
    }
}
