// Disks on which no journal was ever created.
ghost use Rattle.std.specs.Prelude.{◌≡◌, List, ℕ, false, IfOk};
ghost use Rattle.disks.specs.State.{IsSettled};
ghost use Rattle.disks.specs.Calls.{SameBytes, HasCause};
ghost use Rattle.bytejournal.specs.Recovery.{IsJournal};
ghost use Rattle.bytejournal.specs.Unmade.{is_unmade, is_unmade_front};

use disks::{Disk, DiskFault};

/// The letters that stand after a disk's first gate.
const LETTERS: [u8; 4] = [b'E', b'G', b'G', b'J'];

/// How many first bytes of the first disk decide.
const FRONT: usize = 5;

/// Whether no journal was ever created on the disks `first` and `second`: they are empty, or hold what is left of a
/// `create` on empty disks that was stopped. That is at most one byte on `second`; and on `first` at most one byte, or
/// a closed gate that is 0 or stands before a journal's letters, whatever the layout. Allocates nothing.
///
/// # Errors
/// If the first disk fails.
pub fn was_never_made<D: Disk>(first: &mut D, second: &mut D) -> Result<bool, DiskFault>
    requires { IsSettled (D.state first.old) }
    ensures unmade { IfOk result (λ unmade. unmade ≡ is_unmade (D.state first.old).seen (D.state second.old).seen) }
    ensures first { SameBytes (D.state first.old) (D.state first.new) }
    ensures settled { IsSettled (D.state first.new) }
    ensures second { second.new ≡ second.old }
    ensures cause { HasCause (D.state first.old) (D.state first.new) result }
{
    let begins = begins_unmade(first)?;
    Ok(second.len() <= 1 && begins)
}

/// Whether a stopped `create` leaves a first disk that begins as this one does.
#[tactic(auto, using(crate::proofs::UnmadeLemmas::read_front, crate::proofs::UnmadeLemmas::front_tells))]
fn begins_unmade<D: Disk>(disk: &mut D) -> Result<bool, DiskFault>
    requires { IsSettled (D.state disk.old) }
    ensures unmade { IfOk result (λ unmade. unmade ≡ is_unmade_front (D.state disk.old).seen) }
    ensures same { SameBytes (D.state disk.old) (D.state disk.new) }
    ensures settled { IsSettled (D.state disk.new) }
    ensures cause { HasCause (D.state disk.old) (D.state disk.new) result }
{
    let mut front = [0; FRONT];
    let count = disk.read(0, &mut front)?;
    Ok(is_unmade_front(&front[..count]))
}

/// Whether a stopped `create` leaves these first bytes.
fn is_unmade_front(front: &[u8]) -> bool
    ensures { result ≡ is_unmade_front front.now }
{
    match front {
        [] | [_] => true,
        [1, ..] => false,
        [0, ..] => true,
        [_, rest @ ..] => rest.starts_with(&LETTERS),
    }
}

/// The law of such disks. The function does nothing: its clause holds for any bytes.
pub fn law_of_unmade_disks()
    // What a crash leaves of a journal that was created is never taken for disks without one.
    ensures made { (first second : List ℕ) → IsJournal first second → is_unmade first second ≡ false }
{}
