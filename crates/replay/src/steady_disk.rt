// A disk in memory that never fails.
ghost use Rattle.std.specs.Prelude.{◌≡◌, ◌<◌, ◌≤◌, ◌+◌, ◌++◌, false, length, take, drop, IfOk, OnOk};
ghost use Rattle.disks.specs.Events.{openings};
ghost use Rattle.disks.specs.State.{IsSettled, may_leave};
ghost use Rattle.disks.specs.Calls.{Holds, Tears, Elapses, HasCause, Spends, SameBytes, read_count};
ghost use Rattle.disks.specs.Memory.{empty};
ghost use Rattle.replay.specs.Steady.{steady_state};

use bytetext::NoMemory;
use disks::{Disk, DiskFault, MemDisk};
use std::alloc::Global;
use std::marker::Model;

/// A disk in memory for which no fault is planned, so it never fails.
///
/// ```text
/// let bot = Bot::create(alloc, config, SteadyDisk::new(alloc), SteadyDisk::new(alloc));   // no DiskFault
/// ```
#[derive(Drop)]
pub struct SteadyDisk {
    disk: MemDisk,
}

impl Model for SteadyDisk {
    ghost use Rattle.std.specs.Prelude.{◌≡◌, None};
    ghost use Rattle.disks.specs.Memory.{Memory};

    ghost Value = { Memory };

    ghost view = { λ d. d.disk };

    // No write, sync or read is planned to fail.
    ghost invariant = { λ d. (d.disk.plan.works ≡ None) × (d.disk.plan.reads ≡ None) };
}

impl SteadyDisk {
    /// Creates an empty disk that grows on `alloc`. Never allocates itself.
    pub fn new(alloc: Global) -> SteadyDisk
        ensures { result ≡ empty }
    {
        SteadyDisk {
            disk: MemDisk::new(alloc),
        }
    }
}

impl Disk for SteadyDisk {
    ghost state = { steady_state };

    ghost shuts = { λ disk. false };

    fn len(&self) -> usize {
        self.disk.len()
    }

    fn failures(&self) -> u64 {
        0
    }

    fn held(&self) -> Option<&[u8]> {
        None
    }

    fn shuts_when_idle(&self) -> bool {
        false
    }

    fn read(&mut self, at: usize, buf: &mut [u8]) -> Result<usize, DiskFault> {
        match self.disk.read(at, buf) {
            Ok(count) => Ok(count),
            Err(_) => unreachable!(),
        }
    }

    fn end_reads(&mut self) {
        self.disk.end_reads();
    }

    fn reserve(&mut self, end: usize, calls: usize) -> Result<(), NoMemory> {
        self.disk.reserve(end, calls)
    }

    fn write_at(&mut self, at: usize, bytes: &[u8]) -> Result<(), DiskFault> {
        match self.disk.write_at(at, bytes) {
            Ok(()) => Ok(()),
            Err(_) => unreachable!(),
        }
    }

    fn sync(&mut self) -> Result<(), DiskFault> {
        match self.disk.sync() {
            Ok(()) => Ok(()),
            Err(_) => unreachable!(),
        }
    }

    fn reopen(&mut self) {
        self.disk.reopen();
    }
}
