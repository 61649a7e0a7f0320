// What a process knows of its own bot.
ghost use Rattle.std.specs.Prelude.{◌≡◌};
ghost use Rattle.handshake.specs.Owns.{holds, last_of, progress_for};

use crate::progress::Progress;

/// What a process knows of its own bot, for one turn.
#[derive(Drop)]
pub struct Own {
    /// The version of the bot's records.
    pub version: u32,
    /// The sum of its records at that version, as 16 hexadecimal digits.
    pub sum: [u8; 16],
    /// At a hub, the number of the last request of each leaf that the hub replied to, by the leaf's number; 0 if there
    /// is none. At a leaf, the number of its last request, as the only item.
    pub lasts: Vec<u32>,
    /// The parts of a snapshot that a leaf holds. A hub holds none.
    pub held: HeldParts,
}

impl Own {
    /// Returns how far the bot has come, as it tells the leaf with the number `leaf`, or a leaf its hub, which counts as number
    /// 0.
    pub fn progress_for(&self, leaf: u16) -> Progress
        ensures { result ≡ progress_for self.now leaf }
    {
        Progress {
            version: self.version,
            sum: self.sum,
            last: self.last(leaf),
        }
    }

    /// Returns the number of the last request between the bot and the leaf with the number `leaf`, or 0.
    pub fn last(&self, leaf: u16) -> u32
        ensures { result ≡ last_of self.now leaf }
    {
        match self.lasts.get(usize::from(leaf)) {
            Some(last) => *last,
            None => 0,
        }
    }
}

/// The parts of a snapshot that a leaf holds.
#[derive(Clone, Copy)]
pub struct HeldParts {
    /// The snapshot's version; 0 if the leaf holds no part.
    pub version: u32,
    /// The parts: part p, from 1, is the bit (p - 1) % 8 of byte (p - 1) / 8, counted from the lowest.
    pub bits: [u8; 11],
}

impl HeldParts {
    /// No part is held.
    pub fn nothing() -> HeldParts {
        HeldParts {
            version: 0,
            bits: [0; 11],
        }
    }

    /// Whether `part` of the snapshot of `version` is held.
    pub fn has(&self, version: u32, part: u8) -> bool
        ensures { result ≡ holds self.now version part }
    {
        if version != self.version || part == 0 {
            return false;
        }
        let place = part - 1;
        match self.bits.get(usize::from(place / 8)) {
            Some(byte) => (*byte >> (place % 8)) % 2 == 1,
            None => false,
        }
    }
}
