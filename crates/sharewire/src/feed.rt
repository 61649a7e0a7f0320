// What a piece of a stream adds.
use crate::fault::WireFault;
use crate::packet::Packet;
use bytetext::{NoMemory, Seq, TryCopy};
use std::alloc::Global;

/// What a piece of a stream adds to what came before it.
#[derive(Debug, Drop)]
pub struct Feed {
    /// The packets whose frames end in the piece, in order.
    pub packets: Seq<Packet>,
    /// The fault after them, if the stream has one.
    pub fault: Option<WireFault>,
}

impl TryCopy for Feed {
    fn copy(&self, alloc: Global) -> Result<Feed, NoMemory> {
        Ok(Feed {
            packets: self.packets.copy(alloc)?,
            fault: self.fault,
        })
    }
}
