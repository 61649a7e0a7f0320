// What is written after a gate, and the gate's own byte.
ghost use Rattle.std.specs.Prelude.{◌≡◌, ◌<◌, ◌≤◌, ◌+◌, ◌^◌, ◌⊎◌, ℕ, true, length, OnOk, OnErr};
ghost use Rattle.disks.specs.State.{IsSettled, LeavesOnly, Rose};
ghost use Rattle.disks.specs.Events.{Torn};
ghost use Rattle.disks.specs.Calls.{Holds, HasCause};
ghost use Rattle.bytejournal.specs.Gates.{with_gate, IsHalfWritten, IsHalfClosed, closed_first, with_first};

use disks::{Disk, DiskFault};

/// Writes `text` at the offset `at`, and waits until it is kept. Until then a crash may leave any bytes in the range.
pub(crate) fn write_and_sync<D: Disk>(disk: &mut D, at: usize, text: &[u8]) -> Result<(), DiskFault>
    requires settled { IsSettled (D.state disk.old) }
    requires inside { at ≤ length (D.state disk.old).seen }
    requires end { at + length text.now ≤ (D.state disk.old).end }
    requires calls { 2 ≤ (D.state disk.old).calls }
    ensures written { OnOk result (Holds (D.state disk.old).seen at text.now (D.state disk.new).seen) }
    ensures settled { OnOk result (IsSettled (D.state disk.new)) }
    ensures any_moment { LeavesOnly (D.state disk.old) (D.state disk.new) (Torn at (length text.now) (D.state disk.old).seen) }
    ensures calls { (D.state disk.old).calls ≤ (D.state disk.new).calls + 2 }
    ensures end { (D.state disk.old).end ≤ (D.state disk.new).end }
    ensures cause { HasCause (D.state disk.old) (D.state disk.new) result }
{
    disk.write_at(at, text)?;
    disk.sync()
}

/// Writes `text` after the closed gate at the offset `gate`, waits until it is kept, opens the gate, and waits for that
/// too.
pub(crate) fn write_after_gate<D: Disk>(
    disk: &mut D,
    gate: usize,
    text: &[u8],
) -> Result<(), DiskFault>
    requires settled { IsSettled (D.state disk.old) }
    requires inside { gate < length (D.state disk.old).seen }
    requires fits { gate + 1 + length text.now < 2 ^ 64 }
    requires end { gate + 1 + length text.now ≤ (D.state disk.old).end }
    requires calls { 4 ≤ (D.state disk.old).calls }
    ensures written { OnOk result ((D.state disk.new).seen ≡ with_gate (D.state disk.old).seen gate text.now 1) }
    ensures settled { OnOk result (IsSettled (D.state disk.new)) }
    ensures any_moment { LeavesOnly (D.state disk.old) (D.state disk.new) (IsHalfWritten (D.state disk.old).seen gate text.now) }
    ensures cause { HasCause (D.state disk.old) (D.state disk.new) result }
{
    write_and_sync(disk, gate + 1, text)?;
    write_and_sync(disk, gate, &[1])
}

/// Closes the gate at the disk's start, and waits until that is kept.
pub(crate) fn close_first_gate<D: Disk>(disk: &mut D) -> Result<(), DiskFault>
    requires settled { IsSettled (D.state disk.old) }
    requires inside { 0 < length (D.state disk.old).seen }
    requires end { 1 ≤ (D.state disk.old).end }
    requires calls { 2 ≤ (D.state disk.old).calls }
    ensures written { OnOk result ((D.state disk.new).seen ≡ with_first (D.state disk.old).seen 0) }
    ensures settled { OnOk result (IsSettled (D.state disk.new)) }
    ensures any_moment { LeavesOnly (D.state disk.old) (D.state disk.new) (λ image. (gate : ℕ) × (image ≡ with_first (D.state disk.old).seen gate)) }
    ensures calls { (D.state disk.old).calls ≤ (D.state disk.new).calls + 2 }
    ensures end { (D.state disk.old).end ≤ (D.state disk.new).end }
    ensures cause { HasCause (D.state disk.old) (D.state disk.new) result }
{
    write_and_sync(disk, 0, &[0])
}

/// Closes the gate at the disk's start if `closes`, and waits until that is kept.
fn close_if<D: Disk>(disk: &mut D, closes: bool) -> Result<(), DiskFault>
    requires settled { IsSettled (D.state disk.old) }
    requires inside { 0 < length (D.state disk.old).seen }
    requires end { 1 ≤ (D.state disk.old).end }
    requires calls { closes ≡ true → 2 ≤ (D.state disk.old).calls }
    ensures written { OnOk result ((D.state disk.new).seen ≡ closed_first closes (D.state disk.old).seen) }
    ensures settled { OnOk result (IsSettled (D.state disk.new)) }
    ensures any_moment { LeavesOnly (D.state disk.old) (D.state disk.new) (IsHalfClosed closes (D.state disk.old).seen) }
    ensures cause { HasCause (D.state disk.old) (D.state disk.new) result }
{
    if closes {
        return close_first_gate(disk);
    }
    Ok(())
}

/// Writes `text` after the closed gate at the offset `gate`, as [`write_after_gate`] does. Before that it closes the first
/// gate of the disk `beside`, if `closes`.
pub(crate) fn write_and_close<D: Disk>(
    disk: &mut D,
    gate: usize,
    text: &[u8],
    beside: &mut D,
    closes: bool,
) -> Result<(), DiskFault>
    requires settled { IsSettled (D.state disk.old) }
    requires inside { gate < length (D.state disk.old).seen }
    requires fits { gate + 1 + length text.now < 2 ^ 64 }
    requires end { gate + 1 + length text.now ≤ (D.state disk.old).end }
    requires calls { 4 ≤ (D.state disk.old).calls }
    requires beside_settled { IsSettled (D.state beside.old) }
    requires beside_inside { 0 < length (D.state beside.old).seen }
    requires beside_end { 1 ≤ (D.state beside.old).end }
    requires beside_calls { closes ≡ true → 2 ≤ (D.state beside.old).calls }
    ensures written { OnOk result ((D.state disk.new).seen ≡ with_gate (D.state disk.old).seen gate text.now 1) }
    ensures settled { OnOk result (IsSettled (D.state disk.new)) }
    ensures any_moment { LeavesOnly (D.state disk.old) (D.state disk.new) (IsHalfWritten (D.state disk.old).seen gate text.now) }
    ensures closed { OnOk result ((D.state beside.new).seen ≡ closed_first closes (D.state beside.old).seen) }
    ensures beside_settled { OnOk result (IsSettled (D.state beside.new)) }
    ensures beside_any_moment { LeavesOnly (D.state beside.old) (D.state beside.new) (IsHalfClosed closes (D.state beside.old).seen) }
    ensures cause { OnErr result (Rose (D.state disk.old).failed (D.state disk.new).failed ⊎ Rose (D.state beside.old).failed (D.state beside.new).failed) }
{
    close_if(beside, closes)?;
    write_after_gate(disk, gate, text)
}
