// How a journal puts a text on a disk: it makes all room first.
ghost use Rattle.std.specs.Prelude.{◌≡◌, ◌<◌, ◌+◌, Ok, Err, IfSome, MatchResult, length};
ghost use Rattle.bytetext.specs.declared.failure.Failure.TheVariants.{Refused};
ghost use Rattle.bytejournal.specs.declared.fault.JournalFault.TheVariants.{DiskFault as disk_fault};
ghost use Rattle.disks.specs.State.{IsSettled, LeavesOnly};
ghost use Rattle.bytejournal.specs.Gates.{with_gate, closed_first, IsHalfReplaced};
ghost use Rattle.bytejournal.specs.Writing.{Puts};

use crate::fault::{JournalError, JournalFault};
use crate::gate::{close_first_gate, write_after_gate};
use bytetext::Failure;
use disks::{Disk, DiskFault};

/// Puts `text` after the gate at the disk's start, and opens the gate. An open gate is closed first: a byte that is
/// being rewritten may come back as 1, so nothing is written after the gate until it is kept closed. A closed gate
/// isn't written again.
pub(crate) fn replace<D: Disk>(disk: &mut D, is_open: bool, text: &[u8]) -> Result<(), JournalError>
    requires settled { IsSettled (D.state disk.old) }
    requires inside { 0 < length (D.state disk.old).seen }
    ensures puts { Puts (D.state disk.old) (with_gate (closed_first is_open (D.state disk.old).seen) 0 text.now 1) result (D.state disk.new) }
    ensures any_moment { LeavesOnly (D.state disk.old) (D.state disk.new) (IsHalfReplaced is_open (D.state disk.old).seen text.now) }
{
    let Some(end) = end_after(0, text) else {
        return Err(Failure::NoMemory);
    };
    match disk.reserve(end, 6) {
        Ok(()) => {}
        Err(_) => return Err(Failure::NoMemory),
    }
    if is_open {
        match close_first_gate(disk) {
            Ok(()) => {}
            Err(_) => return Err(Failure::Refused(JournalFault::DiskFault)),
        }
        return as_answer(write_after_gate(disk, 0, text));
    }
    as_answer(write_after_gate(disk, 0, text))
}

/// Converts a disk's result to a journal's.
fn as_answer(written: Result<(), DiskFault>) -> Result<(), JournalError>
    ensures { MatchResult written (λ _. result ≡ Ok tt) (λ _. result ≡ Err (Refused disk_fault)) }
{
    match written {
        Ok(()) => Ok(()),
        Err(_) => Err(Failure::Refused(JournalFault::DiskFault)),
    }
}

/// Returns the offset at which a text ends that is written after a gate; `None` if no memory could hold that many
/// bytes.
pub(crate) fn end_after(gate: usize, text: &[u8]) -> Option<usize>
    ensures { IfSome result (λ end. end ≡ gate + 1 + length text.now) }
{
    gate.checked_add(1)?.checked_add(text.len())
}
