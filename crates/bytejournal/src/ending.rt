// What stands after the gate that ends a disk.
ghost use Rattle.std.specs.Prelude.{◌≡◌, ◌<◌, Some, IfErr, IfOk, length};
ghost use Rattle.disks.specs.State.{IsSettled};
ghost use Rattle.bytejournal.specs.Meaning.{held};
ghost use Rattle.bytejournal.specs.Opening.{Untouched};
ghost use Rattle.bytejournal.specs.Ending.{ReadsEnding, ending_of, if_open, with_open};

use crate::fault::{JournalError, JournalFault};
use crate::reading::{Reading, read_disk};
use bytetext::{Failure, NoMemory, Text, Texts};
use disks::Disk;
use std::alloc::Global;

/// What counts on a disk, beside another one.
#[derive(Clone, Copy)]
pub struct Counted {
    pub generation: u32,
    /// How many entries stand before the gate that ends them.
    pub entries: usize,
}

/// What a disk would hold if the gate that ends it were open.
pub struct IfOpen {
    /// The layout by which its base and entries are spelled.
    pub layout: u8,
    pub generation: u32,
    pub base: Text,
    /// The entries that count now, and those after the gate up to the next one that isn't open.
    pub entries: Texts,
}

// By hand, so that this is proved once, and not in each function in which one ends.
impl Drop for IfOpen {
    fn drop(self) {
        let IfOpen {
            layout: _,
            generation: _,
            base: _,
            entries: _,
        } = self;
    }
}

/// What stands on a disk before and after the gate that ends it.
#[derive(Drop)]
pub struct Ending {
    /// `None` if the disk's first gate isn't open, or what follows it isn't a journal's.
    pub counted: Option<Counted>,
    /// `None` if nothing can be read there: the gate is missing, or with it open the bytes aren't a journal's.
    pub if_open: Option<IfOpen>,
}

/// Reads what `disk` holds, and what it would hold if the gate that ends it were open: its first gate if that isn't
/// open, and else the one after its entries. Writes nothing. The layer that gives the texts a meaning can tell whether
/// a crash may have left this.
///
/// # Errors
/// `DiskFault` if the read failed. `NoMemory` if it cannot allocate room for what the disk holds; never if it holds no
/// byte.
pub fn read_ending<D: Disk>(alloc: Global, disk: &mut D) -> Result<Ending, JournalError>
    requires { IsSettled (D.state disk.old) }
    ensures row { ReadsEnding (D.state disk.old) result (D.state disk.new) }
    ensures untouched { Untouched (D.state disk.old) (D.state disk.new) }
{
    if disk.len() == 0 {
        return Ok(Ending {
            counted: None,
            if_open: None,
        });
    }
    let mut bytes = vec![in alloc; 0; disk.len()]?;
    match disk.read(0, &mut bytes) {
        Ok(_) => {}
        Err(_) => return Err(Failure::Refused(JournalFault::DiskFault)),
    }
    Ok(ending_of(alloc, bytes)?)
}

/// Returns what stands in the bytes of a disk before and after the gate that ends them, as [`read_ending`] reads it.
///
/// # Errors
/// `NoMemory` if it cannot allocate room for what the bytes hold; never if there is none.
#[tactic(auto, using(crate::proofs::Choosing::shut_held, crate::proofs::Choosing::found_held, crate::proofs::Endings::found_end))]
pub fn ending_of(alloc: Global, bytes: Vec<u8>) -> Result<Ending, NoMemory>
    ensures ending { IfOk result (λ ending. ending ≡ ending_of bytes.items) }
    ensures memory { IfErr result (λ _. 0 < length bytes.items) }
{
    if bytes.is_empty() {
        return Ok(Ending {
            counted: None,
            if_open: None,
        });
    }
    match read_disk(alloc, &bytes)? {
        Reading::Shut => Ok(Ending {
            counted: None,
            if_open: with_open(alloc, bytes, 0)?,
        }),
        Reading::Broken => Ok(Ending {
            counted: None,
            if_open: None,
        }),
        Reading::Open(found) => Ok(Ending {
            counted: Some(Counted {
                generation: found.generation,
                entries: found.entries.len(),
            }),
            if_open: with_open(alloc, bytes, found.gate)?,
        }),
    }
}

/// Returns what these bytes hold with the gate at the offset `gate` open.
fn with_open(alloc: Global, bytes: Vec<u8>, gate: usize) -> Result<Option<IfOpen>, NoMemory>
    ensures { IfOk result (λ found. found ≡ if_open (with_open bytes.items (Some gate))) }
{
    let mut bytes = bytes;
    if gate < bytes.len() {
        bytes[gate] = 1;
        read_open(alloc, &bytes)
    } else {
        Ok(None)
    }
}

/// Returns what these bytes hold.
#[tactic(auto, using(crate::proofs::Choosing::shut_held, crate::proofs::Choosing::found_held))]
fn read_open(alloc: Global, bytes: &[u8]) -> Result<Option<IfOpen>, NoMemory>
    ensures { IfOk result (λ found. found ≡ if_open (held bytes.now)) }
{
    match read_disk(alloc, bytes)? {
        Reading::Shut => Ok(None),
        Reading::Broken => Ok(None),
        Reading::Open(found) => Ok(Some(IfOpen {
            layout: found.layout,
            generation: found.generation,
            base: found.base,
            entries: found.entries,
        })),
    }
}
