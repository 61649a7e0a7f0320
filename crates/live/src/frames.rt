// Packets over a connection.
use crate::peer::Peer;
use bytetext::NoMemory;
use peers::{FrameReader, frame_of};
use sharewire::Packet;
use std::alloc::Global;

/// A connection that carries packets as frames.
#[derive(Drop)]
pub struct FramePeer {
    pub peer: Peer,
    reader: FrameReader,
}

impl FramePeer {
    ghost use Rattle.std.specs.Prelude.{◌<◌, IfOk, IfErr, OnErr, vec_len};
    ghost use Rattle.std.specs.List.{AllByRecursion};
    ghost use Rattle.sharewire.specs.Frames.{CanBeWritten};
    ghost use Rattle.sharelink.specs.Shapes.{HasGoodRecords};

    /// Creates a connection that carries packets over `peer`, from which nothing has been read. Never allocates.
    pub fn new(alloc: Global, peer: Peer) -> FramePeer {
        FramePeer {
            peer,
            reader: FrameReader::new(alloc),
        }
    }

    /// Returns the packets whose frames have arrived whole since the last call, in order. Bytes that are no frame mark
    /// the connection to be closed.
    ///
    /// # Errors
    /// `NoMemory` if memory cannot be allocated; never if nothing was read.
    pub fn take_packets(&mut self, alloc: Global) -> Result<Vec<Packet>, NoMemory>
        ensures good { IfOk result (λ packets. AllByRecursion HasGoodRecords packets.items) }
        ensures memory { IfErr result (λ _. 0 < vec_len self.old.peer.connection.heard) }
    {
        let heard = self.peer.connection.take_heard(alloc);
        if heard.is_empty() {
            return Ok(Vec::new(alloc));
        }
        let feed = self.reader.feed(alloc, heard.as_slice())?;
        if feed.fault.is_some() {
            self.peer.connection.is_over = true;
        }
        Ok(feed.packets.into_vec())
    }

    /// Queues `packet`. A packet that has no frame is dropped.
    ///
    /// # Errors
    /// `NoMemory` if memory cannot be allocated; never if the packet has no frame.
    pub fn tell(&mut self, alloc: Global, packet: &Packet) -> Result<(), NoMemory>
        requires good { HasGoodRecords packet.now }
        ensures memory { OnErr result (CanBeWritten packet.now) }
    {
        match frame_of(alloc, packet)? {
            Some(frame) => {
                let _fits = self.peer.connection.tell(frame.as_slice(), b"")?;
                Ok(())
            }
            None => Ok(()),
        }
    }
}
