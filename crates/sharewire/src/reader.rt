// A stream of bytes to packets, in whatever pieces it comes.
ghost use Rattle.std.specs.Prelude.{◌≡◌, ◌<◌, ◌≤◌, ◌+◌, ◌-◌, List, ℕ, [], ◌++◌, drop, length};
ghost use Rattle.std.specs.Prelude.{IfOk, OnErr, IsErr, IsOk};
ghost use Rattle.sharewire.specs.declared.packet.Packet.{Packet};
ghost use Rattle.sharewire.specs.declared.limits.TheConstants.{MAX_LENGTH};
ghost use Rattle.sharewire.specs.Streams.{Tells, ended, fault_told};

use crate::fault::WireFault;
use crate::feed::Feed;
use crate::frames::{Frames, read_frames};
use bytetext::{NoMemory, Seq, TryCopy};
use std::alloc::Global;
use std::marker::Model;

/// Reads the packets of a stream that comes in pieces, cut anywhere.
///
/// Contracts see how the stream ends so far: in the beginning of a frame, whose bytes the reader keeps, or at a fault.
/// The reader keeps no more than one incomplete frame, in room that the next piece uses again.
///
/// ```text
/// let mut reader = WireReader::new(alloc);
/// reader.feed(alloc, b"\x00\x07\x01\x00\x01\x00\x00")?    // no packet yet
/// reader.feed(alloc, b"\x00\x02")?                        // Hello of leaf 1 at version 2
/// reader.feed(alloc, b"\x00\x00")?                        // BadLength
/// reader.feed(alloc, b"\x00\x07")?                        // Failed
/// ```
#[derive(Debug, Drop)]
pub struct WireReader {
    held: Vec<u8>,
    fault: Option<WireFault>,
}

impl Model for WireReader {
    ghost use Rattle.std.specs.Prelude.{length, ◌≤◌, ◌+◌};
    ghost use Rattle.sharewire.specs.Streams.{Ending, ended};
    ghost use Rattle.sharewire.specs.declared.limits.TheConstants.{MAX_LENGTH};

    ghost Value = { Ending };

    ghost view = { λ r. ended r.held.items r.fault };

    ghost invariant = { λ r. length r.held.items ≤ MAX_LENGTH + 1 };
}

impl WireReader {
    /// Creates a reader at the beginning of a stream. Allocates nothing.
    pub fn new(alloc: Global) -> WireReader
        ensures empty { result ≡ Ok [] }
        ensures told { Tells [] [] result }
    {
        WireReader {
            held: Vec::new(alloc),
            fault: None,
        }
    }

    /// Returns the packets whose frames end in `piece`, the next piece of the stream, and the fault after them if there
    /// is one. After a fault each further piece yields only [`WireFault::Failed`], and allocates nothing.
    ///
    /// # Errors
    /// `NoMemory` if it cannot allocate room for the piece or a packet; never if no bytes come. The reader is as
    /// before, and the piece can be fed again.
    pub fn feed(&mut self, alloc: Global, piece: &[u8]) -> Result<Feed, NoMemory>
        // For any stream that has given these packets so far, the result's packets come next.
        ensures told { (stream : List ℕ) (packets : List Packet) → Tells stream packets self.old
            → IfOk result (λ feed. Tells (stream ++ piece.now) (packets ++ feed.packets) self.new) }
        ensures fault { IfOk result (λ feed. feed.fault ≡ fault_told self.old self.new) }
        ensures few { IfOk self.new (λ begun. length begun ≤ MAX_LENGTH + 1) }
        // A reader that has failed allocates nothing, and stays so.
        ensures failed { IsErr self.old → IsOk result }
        ensures stays { IsErr self.old → self.new ≡ self.old }
        ensures unchanged { OnErr result (self.new ≡ self.old) }
        ensures memory { OnErr result (0 < length piece.now) }
    {
        if self.fault.is_some() {
            return Ok(Feed {
                packets: Seq::empty(alloc),
                fault: Some(WireFault::Failed),
            });
        }
        if piece.is_empty() {
            return Ok(Feed {
                packets: Seq::empty(alloc),
                fault: None,
            });
        }
        let begun = self.held.len();
        self.held.extend_from_slice(piece)?;
        match take_frames(alloc, &mut self.held) {
            Ok(feed) => {
                self.fault = feed.fault;
                Ok(feed)
            }
            Err(NoMemory) => {
                self.held.truncate(begun);
                Err(NoMemory)
            }
        }
    }
}

impl TryCopy for WireReader {
    fn copy(&self, alloc: Global) -> Result<WireReader, NoMemory> {
        let held = Vec::from_slice(alloc, self.held.as_slice())?;
        Ok(WireReader {
            held,
            fault: self.fault,
        })
    }
}

// Takes the whole frames off the bytes that are held. Leaves the beginning of a frame, or nothing after a fault.
fn take_frames(alloc: Global, held: &mut Vec<u8>) -> Result<Feed, NoMemory>
    ensures told { IfOk result (λ feed. Tells held.old.items feed.packets (ended held.new.items feed.fault)) }
    ensures few { IfOk result (λ _. length held.new.items ≤ MAX_LENGTH + 1) }
    ensures unchanged { OnErr result (held.new.items ≡ held.old.items) }
{
    let Frames {
        packets,
        rest,
        fault,
    } = read_frames(alloc, held.as_slice())?;
    let left = if fault.is_some() { 0 } else { rest.len() };
    keep_last(held, left);
    Ok(Feed {
        packets: Seq::new(packets),
        fault,
    })
}

// Keeps the last `count` bytes, in the room that they have.
fn keep_last(held: &mut Vec<u8>, count: usize)
    requires { count ≤ length held.old.items }
    ensures { held.new.items ≡ drop (length held.old.items - count) held.old.items }
{
    let gone = held.len() - count;
    if gone > 0 {
        held.copy_within(gone.., 0);
        held.truncate(count);
    }
}
