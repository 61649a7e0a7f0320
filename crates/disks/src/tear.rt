// What a planned crash leaves of a write that wasn't kept.
ghost use Rattle.std.specs.Prelude.{◌≡◌, ◌≤◌, ◌+◌, length, vec_len};
ghost use Rattle.std.specs.Vec.{vec_capacity};
ghost use Rattle.disks.specs.Events.{Torn};
ghost use Rattle.disks.specs.Plans.{Leaves};

use crate::bytes::{fill, put};

/// What a crash leaves in the ranges that were written and not kept.
#[derive(Clone, Copy, Debug, PartialEq, Eq)]
pub enum Tear {
    /// What was there before the writes: none of them counts.
    Old,
    /// What was written.
    New,
    /// This byte in the whole range.
    Fill(u8),
}

/// Changes `image` to what a crash leaves of it after a write of `text` at the offset `at`.
pub(crate) fn tear_range(image: &mut Vec<u8>, tear: Tear, at: usize, text: &[u8])
    requires { at + length text.now ≤ vec_capacity image.old }
    ensures torn { Torn at (length text.now) image.old.items image.new.items }
    ensures leaves { Leaves tear at text.now image.old.items image.new.items }
    ensures capacity { vec_capacity image.new ≡ vec_capacity image.old }
{
    if at > image.len() {
        return;
    }
    match tear {
        Tear::Old => {}
        Tear::New => put(image, at, text),
        Tear::Fill(byte) => {
            put(image, at, text);
            fill(image, at, text.len(), byte);
        }
    }
}
