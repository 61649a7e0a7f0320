// What a bot tells the other end of its link from time to time.
ghost use Rattle.std.specs.Prelude.{◌≡◌, ◌≤◌, ◌+◌, ◌++◌, ◌↔◌, length, IsSome, IfSome};
ghost use Rattle.std.specs.Int.{w32, to_be_bytes};
ghost use Rattle.sealing.specs.declared.limits.TheConstants.{BEAT_LEN};
ghost use Rattle.peers.specs.Beats.{IsLast, beat_content};

use arrayvec::ArrayVec;
use handshake::{HeldParts, Own};
use hex::decode_to_slice;
use sealing::BEAT_LEN;

// What a bot says of itself in a beat.
#[derive(Clone, Copy)]
pub(crate) struct Beat {
    // The version of its records.
    pub(crate) version: u32,
    // The sum of its records at that version: the bytes of which `Own` has the digits.
    pub(crate) sum: [u8; 8],
    // The parts of a snapshot that it holds.
    pub(crate) held: HeldParts,
}

impl Beat {
    // What a process says of its bot.
    pub(crate) fn of(own: &Own) -> Beat {
        Beat {
            version: own.version,
            sum: sum_of(&own.sum),
            held: own.held,
        }
    }

    // The content of the beat's record.
    pub(crate) fn content(&self) -> ArrayVec<u8, BEAT_LEN>
        ensures content { result.items ≡ beat_content self.now }
        ensures len { length result.items ≡ BEAT_LEN }
    {
        let mut content = ArrayVec::new();
        put(&mut content, self.version, &self.sum);
        put(&mut content, self.held.version, &self.held.bits);
        content
    }

    // Parses the content of a beat's record: `None` if it has another length.
    #[tactic(auto, using(crate::proofs::BeatLemmas::joined))]
    pub(crate) fn read(content: &[u8]) -> Option<Beat>
        ensures len { IsSome result ↔ (length content.now ≡ BEAT_LEN) }
        ensures content { IfSome result (λ beat. beat_content beat ≡ content.now) }
    {
        if content.len() != BEAT_LEN {
            return None;
        }
        let (first, held) = content.split_at(12);
        let (version, sum) = first.split_at(4);
        Some(Beat {
            version: number_in(version),
            sum: sum_in(sum),
            held: held_in(held),
        })
    }
}

// Appends the bytes of `version`, and then `bytes`.
fn put(content: &mut ArrayVec<u8, BEAT_LEN>, version: u32, bytes: &[u8])
    requires { length content.old.items + 4 + length bytes.now ≤ BEAT_LEN }
    ensures all { content.new.items ≡ content.old.items ++ (to_be_bytes w32 version ++ bytes.now) }
    ensures len { length content.new.items ≡ length content.old.items + 4 + length bytes.now }
{
    content
        .try_extend_from_slice(&version.to_be_bytes())
        .unwrap();
    content.try_extend_from_slice(bytes).unwrap();
}

// The number that four bytes are, the most significant first.
fn number_in(bytes: &[u8]) -> u32
    requires { length bytes.now ≡ 4 }
    ensures { to_be_bytes w32 result ≡ bytes.now }
{
    let mut four = [0; 4];
    four.copy_from_slice(bytes);
    u32::from_be_bytes(four)
}

// The sum that eight bytes are.
fn sum_in(bytes: &[u8]) -> [u8; 8]
    requires { length bytes.now ≡ 8 }
    ensures { result ≡ bytes.now }
{
    let mut sum = [0; 8];
    sum.copy_from_slice(bytes);
    sum
}

// The parts of a snapshot that are held: the snapshot's version, and a bit for each part.
fn held_in(bytes: &[u8]) -> HeldParts
    requires { length bytes.now ≡ 15 }
    ensures { to_be_bytes w32 result.version ++ result.bits ≡ bytes.now }
{
    let (version, parts) = bytes.split_at(4);
    let mut bits = [0; 11];
    bits.copy_from_slice(parts);
    HeldParts {
        version: number_in(version),
        bits,
    }
}

// The bytes of which these are the digits; zeros if they are no digits.
fn sum_of(digits: &[u8; 16]) -> [u8; 8] {
    let mut sum = [0; 8];
    let _read = decode_to_slice(digits, &mut sum);
    sum
}

// The beats of a piece.
#[derive(Clone, Copy)]
pub(crate) enum Beats {
    // None came.
    Nothing,
    // The last of them.
    Last(Beat),
    // One of them has a wrong length.
    Bad,
}

// The last of the beats with these contents, which follow one another.
pub(crate) fn last_of(contents: &[u8]) -> Beats
    ensures { IsLast contents.now result }
{
    if contents.is_empty() {
        return Beats::Nothing;
    }
    if contents.len() < BEAT_LEN || contents.len() % BEAT_LEN != 0 {
        return Beats::Bad;
    }
    match Beat::read(&contents[contents.len() - BEAT_LEN..]) {
        Some(beat) => Beats::Last(beat),
        None => Beats::Bad,
    }
}
