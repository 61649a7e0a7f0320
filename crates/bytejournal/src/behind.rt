// Whether a disk would not count beside another one, as far as its gates tell.
ghost use Rattle.std.specs.Prelude.{◌≡◌, true, IfSome};
ghost use Rattle.bytejournal.specs.Ending.{CountsAt, IsBehind, IsShutAt};

use crate::reading::{end_of_entries, front_of};

/// Whether the gates of these bytes of a disk show that its entries wouldn't count if its first gate were open: that gate isn't
/// open, and the bytes `other` of the other disk hold a journal whose generation isn't lower. It takes no memory. An
/// append leaves the disk that doesn't count so.
pub fn is_behind(bytes: &[u8], other: &[u8]) -> bool
    ensures { result ≡ true → IsBehind bytes.now other.now }
{
    match (shut_generation(bytes), counted_generation(other)) {
        (Some(shut), Some(counted)) => shut <= counted,
        _ => false,
    }
}

// The generation after a first gate that isn't open.
fn shut_generation(bytes: &[u8]) -> Option<u32>
    ensures { IfSome result (IsShutAt bytes.now) }
{
    let (gate, rest) = bytes.split_first()?;
    if *gate == 1 {
        return None;
    }
    let front = front_of(rest)?;
    Some(front.generation)
}

// The generation of a journal that counts, unless another disk's is higher.
fn counted_generation(bytes: &[u8]) -> Option<u32>
    ensures { IfSome result (CountsAt bytes.now) }
{
    let (gate, rest) = bytes.split_first()?;
    if *gate != 1 {
        return None;
    }
    let front = front_of(rest)?;
    let _gate = end_of_entries(front.rest)?;
    Some(front.generation)
}
