// What a call of a link returns.
ghost use Rattle.std.specs.Prelude.{◌≡◌, []};

use crate::note::LinkNote;
use bytetext::{NoMemory, Seq, TryCopy};
use sharewire::Packet;
use std::alloc::Global;

/// A packet and the bot that it goes to.
#[derive(Drop)]
pub struct Outgoing {
    /// The addressee's number.
    pub to: u16,
    /// What is sent.
    pub packet: Packet,
}

impl TryCopy for Outgoing {
    fn copy(&self, alloc: Global) -> Result<Outgoing, NoMemory> {
        Ok(Outgoing {
            to: self.to,
            packet: self.packet.copy(alloc)?,
        })
    }
}

/// Packets to send, in order.
pub type Outgoings = Seq<Outgoing>;

/// What a call returns: its outcome, and what to send.
#[derive(Drop)]
pub struct Answer {
    /// The outcome of the call.
    pub note: LinkNote,
    /// The packets to send, in order.
    pub packets: Outgoings,
}

impl Answer {
    /// Returns `note` with nothing to send. Allocates nothing.
    pub fn only(alloc: Global, note: LinkNote) -> Answer
        ensures { result ≡ record { note = note; packets = [] } }
    {
        Answer {
            note,
            packets: Seq::empty(alloc),
        }
    }
}

impl TryCopy for Answer {
    fn copy(&self, alloc: Global) -> Result<Answer, NoMemory> {
        Ok(Answer {
            note: self.note.copy(alloc)?,
            packets: self.packets.copy(alloc)?,
        })
    }
}
