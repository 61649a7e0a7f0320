// The channel that a line tells of.
ghost use Rattle.std.specs.Prelude.{◌≡◌, ◌≤◌, [], length, take};
ghost use Rattle.std.specs.List.{prefix_len, take_while};
ghost use Rattle.floods.specs.Acts.{is_not_comma, place_of};

use arrayvec::ArrayVec;
use std::marker::Model;

/// The most bytes of a place. Of a longer one the first bytes count. Servers allow some 50 bytes of a channel's name.
pub(crate) const MAX_PLACE: usize = 64;

/// The channel that a line tells of, as the line spells it, and of that at most 64 bytes. It is empty for a line of no
/// channel.
#[derive(Drop)]
pub struct FloodPlace {
    bytes: ArrayVec<u8, MAX_PLACE>,
}

impl Model for FloodPlace {
    ghost use Rattle.std.specs.Prelude.{List, ℕ};

    ghost Value = { List ℕ };

    ghost view = { λ p. p.bytes.items };
}

impl FloodPlace {
    // No channel.
    pub(crate) fn none() -> FloodPlace
        ensures { result ≡ [] }
    {
        FloodPlace {
            bytes: ArrayVec::new(),
        }
    }

    // The channel that `target` begins with, which ends before a comma.
    pub(crate) fn new(target: &[u8]) -> FloodPlace
        ensures { result ≡ place_of target.now }
    {
        let mut place = FloodPlace::none();
        place.bytes.try_extend_from_slice(kept(target)).unwrap();
        place
    }

    /// Returns the bytes.
    pub fn as_bytes(&self) -> &[u8]
        ensures { result.now ≡ self.now }
    {
        self.bytes.as_slice()
    }
}

// The channel that `target` begins with, and of that at most 64 bytes.
fn kept(target: &[u8]) -> &[u8]
    ensures value { result.now ≡ place_of target.now }
    ensures within { length result.now ≤ MAX_PLACE }
{
    first_bytes(before_comma(target), MAX_PLACE)
}

// The first `most` bytes, or all if there are fewer.
fn first_bytes(bytes: &[u8], most: usize) -> &[u8]
    ensures bytes { result.now ≡ take most bytes.now }
    ensures few { length result.now ≤ most }
{
    if bytes.len() <= most {
        bytes
    } else {
        &bytes[..most]
    }
}

fn before_comma(target: &[u8]) -> &[u8]
    ensures { result.now ≡ take_while is_not_comma target.now }
{
    let (before, _) = target.split_at(channel_len(target));
    before
}

// How many bytes stand before the first comma.
fn channel_len(target: &[u8]) -> usize
    ensures value { result ≡ prefix_len is_not_comma target.now }
    ensures within { result ≤ length target.now }
{
    target.iter().take_while(|byte| **byte != b',').count()
}
