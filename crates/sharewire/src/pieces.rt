// A whole stream, from the pieces that it came in.
ghost use Rattle.std.specs.Prelude.{◌<◌, List, ℕ, length, IfOk, IfErr};
ghost use Rattle.std.specs.List.{flat_map};
ghost use Rattle.sharewire.specs.Streams.{Tells, ended};

use crate::feed::Feed;
use crate::reader::WireReader;
use bytetext::{NoMemory, Seq, Text};
use std::alloc::Global;

/// Reads the packets of a stream that came in the pieces `pieces`, in order, and its fault if it has one. They are the
/// same however the stream was cut.
///
/// # Errors
/// `NoMemory` if it cannot allocate room for a piece or a packet; never if there are no pieces.
pub fn read_pieces(alloc: Global, pieces: &[Text]) -> Result<Feed, NoMemory>
    ensures told { IfOk result (λ told. (begun : List ℕ)
        × Tells (flat_map (λ (piece : List ℕ). piece) pieces.now) told.packets (ended begun told.fault)) }
    ensures memory { IfErr result (λ _. 0 < length pieces.now) }
{
    let mut reader = WireReader::new(alloc);
    let mut packets = Vec::new(alloc);
    let mut fault = None;
    for piece in pieces {
        let feed = reader.feed(alloc, piece.as_bytes())?;
        packets.append(&mut feed.packets.into_vec())?;
        if fault.is_none() {
            fault = feed.fault;
        }
    }
    Ok(Feed {
        packets: Seq::new(packets),
        fault,
    })
}
