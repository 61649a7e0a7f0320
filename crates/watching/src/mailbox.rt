// Where the packets of other bots wait, and those for them.
ghost use Rattle.std.specs.Prelude.{◌≡◌, ◌∷◌, List, IfOk, OnOk};
ghost use Rattle.std.specs.List.{AllByRecursion};
ghost use Rattle.sharewire.specs.declared.packet.Packet.{Packet as Arrived};
ghost use Rattle.sharelink.specs.declared.answer.Outgoing.{Outgoing as Leaving};
ghost use Rattle.sharelink.specs.Shapes.{HasGoodRecords};

use bytetext::NoMemory;
use sharelink::Outgoing;
use sharewire::Packet;
use std::alloc::Global;

/// Where the packets wait that other bots have sent to a process, and those for them: its connections to them.
pub trait Mailbox {
    /// These packets are taken, and this is left.
    ghost gives: { Self → List Arrived → Self → Type 0 };

    /// This packet is queued, and this comes of it.
    ghost posts: { Leaving → Self → Self → Type 0 };

    /// All packets that were queued, the newest first.
    ghost told: { Self → List Leaving };

    /// Takes the packets of one turn. The records of a part are well-formed.
    ///
    /// # Errors
    /// `NoMemory` if an allocation fails.
    fn take_packets(&mut self, alloc: Global) -> Result<Vec<Packet>, NoMemory>
        ensures good { IfOk result (λ packets. AllByRecursion HasGoodRecords packets.items) }
        ensures gives { IfOk result (λ packets. gives self.old packets.items self.new) }
        ensures told { told self.new ≡ told self.old };

    /// Queues the packet of `outgoing` for its recipient, at second `now`. If the recipient is not linked, the packet is
    /// lost.
    ///
    /// # Errors
    /// `NoMemory` if an allocation fails.
    fn tell(&mut self, alloc: Global, outgoing: &Outgoing, now: u64) -> Result<(), NoMemory>
        requires good { HasGoodRecords outgoing.now.packet }
        ensures posts { OnOk result (posts outgoing.now self.old self.new) }
        ensures told { OnOk result (told self.new ≡ outgoing.now ∷ told self.old) };
}
