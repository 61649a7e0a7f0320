// Which leaf sends a packet.
ghost use Rattle.std.specs.Prelude.{◌≡◌, ◌↔◌, true, Some};
ghost use Rattle.peers.specs.PacketSpeakers.{speaker_of};

use sharewire::Packet;

/// Whether `packet` names `leaf` as its sender: its hello, its request, or a text from it.
///
/// A peer that has shown to be a leaf may speak for that leaf alone. If this is false for a packet that came over its
/// connection, the packet names another leaf, or only the hub may send it: reject it, and disconnect the leaf. Leaves
/// are numbered from 1.
pub fn is_said_by(packet: &Packet, leaf: u16) -> bool
    ensures { (result ≡ true) ↔ (speaker_of packet.now ≡ Some leaf) }
{
    match packet {
        Packet::Hello { leaf: speaker, .. } | Packet::Request { leaf: speaker, .. } => {
            *speaker == leaf
        }
        Packet::BotText { from, .. } => *from == leaf,
        Packet::Change { .. }
        | Packet::Part { .. }
        | Packet::Accepted { .. }
        | Packet::Refused { .. } => false,
    }
}
