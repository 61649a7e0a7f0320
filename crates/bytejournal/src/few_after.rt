// Whether a crash may have left what stands after the gate that ends a disk, as far as its gates tell.
ghost use Rattle.std.specs.Prelude.{◌≡◌, true};
ghost use Rattle.bytejournal.specs.Ending.{HasFewAfter, HasFewMore, is_open};

use crate::reading::{end_of_entries, front_of, text_front};

/// Whether the gates of these bytes of a disk show that a crash may have left them: after the gate that ends the disk stands
/// at most one entry, or no entry if its first gate isn't open. It takes no memory. If the answer is `false`, a crash may
/// still have left them, since a second entry may be cut short: ask [`ending_of`](crate::ending_of).
pub fn has_few_after(bytes: &[u8]) -> bool
    ensures { result ≡ true → HasFewAfter bytes.now }
{
    let Some((gate, rest)) = bytes.split_first() else {
        return true;
    };
    let Some(front) = front_of(rest) else {
        return true;
    };
    if *gate == 1 {
        have_few_after(front.rest)
    } else {
        !begins_open(front.rest)
    }
}

// Whether at most one entry stands after the gate that ends these entries.
fn have_few_after(bytes: &[u8]) -> bool
    ensures { result ≡ true → HasFewMore bytes.now }
{
    let Some(gate) = end_of_entries(bytes) else {
        return true;
    };
    if gate >= bytes.len() {
        return true;
    }
    match text_front(&bytes[gate + 1..]) {
        Some((_, rest)) => !begins_open(rest),
        None => true,
    }
}

// Whether the first byte is an open gate.
fn begins_open(bytes: &[u8]) -> bool
    ensures { result ≡ is_open bytes.now }
{
    bytes.first() == Some(&1)
}
