// A stream of records to what they carry, in whatever pieces it comes.
ghost use Rattle.std.specs.Prelude.{◌≡◌, ◌≤◌, ◌+◌, ◌-◌, ◌++◌, ◌<◌, [], drop, length, IfOk, OnOk, OnErr};
ghost use Rattle.sealing.specs.Records.{content};
ghost use Rattle.sealing.specs.Steps.{IsFound, IsTaken};
ghost use Rattle.sealing.specs.Streams.{ended};

use crate::fault::SealFault;
use crate::key::Key;
use crate::kind::{Kind, byte_of};
use crate::limits::{MAX_BODY, TAG};
use crate::record::{Next, record_at};
use bytetext::NoMemory;
use std::alloc::Global;
use std::marker::Model;

/// What the records that end in a piece of a stream carry.
#[derive(Drop)]
pub struct OpenedPiece {
    /// The frames' bytes.
    pub frames: Vec<u8>,
    /// The contents of the beats, one after the other.
    pub beats: Vec<u8>,
    /// The fault after these records, if there is one.
    pub fault: Option<SealFault>,
}

// What the records at the front of some bytes carry, the bytes after them, the count of the next record, and the fault
// there.
#[derive(Drop)]
pub(crate) struct Found<'a> {
    pub(crate) frames: Vec<u8>,
    pub(crate) beats: Vec<u8>,
    pub(crate) rest: &'a [u8],
    pub(crate) count: u64,
    pub(crate) fault: Option<SealFault>,
}

// The same where the records were removed.
#[derive(Drop)]
pub(crate) struct Taken {
    pub(crate) frames: Vec<u8>,
    pub(crate) beats: Vec<u8>,
    pub(crate) count: u64,
    pub(crate) fault: Option<SealFault>,
}

/// Opens the records of one direction of a connection, from its first byte on, whatever the pieces in which it comes.
///
/// Contracts see its key, the count of the next record, and how the stream ends so far: in the beginning of a record,
/// whose bytes the opener keeps, or at a fault. The opener keeps no more than one incomplete record, in room that the
/// next piece uses again.
///
/// ```text
/// let mut opener = Opener::new(alloc, key);
/// let opened = opener.feed(alloc, &piece)?;        // opened.frames and opened.beats: of the records that end in it
/// ```
pub struct Opener {
    key: Key,
    count: u64,
    held: Vec<u8>,
    fault: Option<SealFault>,
}

// Written by hand, so that the drop is proved once.
impl Drop for Opener {
    fn drop(self) {
        let Opener {
            key: _,
            count: _,
            held: _,
            fault: _,
        } = self;
    }
}

impl Model for Opener {
    ghost use Rattle.std.specs.Prelude.{length, ◌<◌, ◌+◌};
    ghost use Rattle.sealing.specs.declared.limits.TheConstants.{MAX_BODY, TAG};
    ghost use Rattle.sealing.specs.Streams.{Opening, ended};

    ghost Value = { Opening };

    ghost view = { λ o. record { key = o.key; count = o.count; ending = ended o.held.items o.fault } };

    ghost invariant = { λ o. length o.held.items < 2 + MAX_BODY + TAG };
}

impl Opener {
    ghost use Rattle.std.specs.Prelude.{◌≡◌, ◌<◌, ◌+◌, [], length, Ok, IfOk, IsErr, IsOk, OnErr};
    ghost use Rattle.sealing.specs.Streams.{Opens, OpensOn, fault_told};

    /// Creates an opener for a direction from which no byte was read yet. Allocates nothing.
    pub fn new(alloc: Global, key: Key) -> Opener
        ensures empty { result ≡ record { key = key; count = 0; ending = Ok [] } }
        ensures opens { Opens key [] [] result }
    {
        Opener {
            key,
            count: 0,
            held: Vec::new(alloc),
            fault: None,
        }
    }

    /// Reads `piece`, the next piece of the stream. Returns what the records that end in it carry, and the fault after
    /// them if there is one. After a fault each further piece yields only [`SealFault::Failed`], and allocates nothing.
    ///
    /// # Errors
    /// `NoMemory` if an allocation fails: never if `piece` is empty, nor after a fault. The opener is then as before,
    /// and the piece can be fed again.
    pub fn feed(&mut self, alloc: Global, piece: &[u8]) -> Result<OpenedPiece, NoMemory>
        // For any stream that opened with some bodies so far, those of the result come next.
        ensures opens { OpensOn piece.now self.old self.new result }
        ensures fault { IfOk result (λ opened. opened.fault ≡ fault_told self.old.ending self.new.ending) }
        ensures key { self.new.key ≡ self.old.key }
        ensures few { IfOk self.new.ending (λ begun. length begun < 2 + MAX_BODY + TAG) }
        // An opener that has failed allocates nothing, and stays so.
        ensures failed { IsErr self.old.ending → IsOk result }
        ensures stays { IsErr self.old.ending → self.new ≡ self.old }
        ensures unchanged { OnErr result (self.new ≡ self.old) }
        ensures memory { OnErr result (0 < length piece.now) }
    {
        if self.fault.is_some() {
            return Ok(nothing(alloc, Some(SealFault::Failed)));
        }
        if piece.is_empty() {
            return Ok(nothing(alloc, None));
        }
        let begun = self.held.len();
        self.held.extend_from_slice(piece)?;
        match take_records(alloc, &self.key, self.count, &mut self.held) {
            Ok(
                Taken {
                    frames,
                    beats,
                    count,
                    fault,
                },
            ) => {
                self.count = count;
                self.fault = fault;
                Ok(OpenedPiece {
                    frames,
                    beats,
                    fault,
                })
            }
            Err(NoMemory) => {
                self.held.truncate(begun);
                Err(NoMemory)
            }
        }
    }
}

// Returns what no record carries.
fn nothing(alloc: Global, fault: Option<SealFault>) -> OpenedPiece
    ensures frames { result.frames.items ≡ [] }
    ensures beats { result.beats.items ≡ [] }
    ensures fault { result.fault ≡ fault }
{
    OpenedPiece {
        frames: Vec::new(alloc),
        beats: Vec::new(alloc),
        fault,
    }
}

// Takes the whole records off the bytes that are held, from the count `first` on. Leaves the beginning of a record, or
// nothing after a fault.
fn take_records(alloc: Global, key: &Key, first: u64, held: &mut Vec<u8>) -> Result<Taken, NoMemory>
    ensures taken { IfOk result (λ taken. IsTaken key.now first held.old.items taken (ended held.new.items taken.fault)) }
    ensures few { IfOk result (λ _. length held.new.items < 2 + MAX_BODY + TAG) }
    ensures unchanged { OnErr result (held.new.items ≡ held.old.items) }
{
    let Found {
        frames,
        beats,
        rest,
        count,
        fault,
    } = found_in(alloc, key, first, held.as_slice())?;
    let left = if fault.is_some() { 0 } else { rest.len() };
    if left == 0 {
        // A connection at rest keeps no room.
        *held = Vec::new(alloc);
    } else {
        keep_last(held, left);
    }
    Ok(Taken {
        frames,
        beats,
        count,
        fault,
    })
}

// Reads the records at the front of `bytes`, from the count `first` on.
fn found_in<'a>(
    alloc: Global,
    key: &Key,
    first: u64,
    bytes: &'a [u8],
) -> Result<Found<'a>, NoMemory>
    ensures { IfOk result (λ found. IsFound key.now first bytes.now found) }
{
    let mut frames = Vec::new(alloc);
    let mut beats = Vec::new(alloc);
    let mut rest = bytes;
    let mut count = first;
    loop {
        match record_at(key, count, rest) {
            Next::Whole { body, rest: behind } => {
                put_content(&mut frames, Kind::Frames, body)?;
                put_content(&mut beats, Kind::Beat, body)?;
                rest = behind;
                count += 1;
            }
            Next::End { fault } => {
                return Ok(Found {
                    frames,
                    beats,
                    rest,
                    count,
                    fault,
                });
            }
        }
    }
}

// Appends what `body` carries of `kind`.
fn put_content(told: &mut Vec<u8>, kind: Kind, body: &[u8]) -> Result<(), NoMemory>
    ensures { OnOk result (told.new.items ≡ told.old.items ++ content kind body.now) }
{
    match body {
        [first, rest @ ..] if *first == byte_of(kind) => told.extend_from_slice(rest)?,
        _ => {}
    }
    Ok(())
}

// Keeps the last `count` bytes, in the room that they have.
fn keep_last(held: &mut Vec<u8>, count: usize)
    requires { count ≤ length held.old.items }
    ensures { held.new.items ≡ drop (length held.old.items - count) held.old.items }
{
    let gone = held.len() - count;
    if gone > 0 {
        held.copy_within(gone.., 0);
        held.truncate(count);
    }
}
