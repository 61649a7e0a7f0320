// Packets as frames.
ghost use Rattle.std.specs.Prelude.{◌↔◌, IsTrue, IfOk, IfErr};
ghost use Rattle.sharewire.specs.Frames.{CanBeWritten};
ghost use Rattle.sharelink.specs.Shapes.{HasGoodRecords};
ghost use Rattle.peers.specs.Given.{IsGiven};

use bytetext::NoMemory;
use sharewire::{MAX_PART_RECORDS, Packet, is_bot_text, write_packet};
use std::alloc::Global;
use userfile::shape;

/// Returns the frame of `packet`, as [`write_packet`] writes it. Returns `None` if the packet has no frame: its layout
/// is 0, its change has a bad shape, it has more than eight records, or its text may not be sent.
///
/// # Errors
/// `NoMemory` if an allocation fails: never if the packet has no frame.
pub fn frame_of(alloc: Global, packet: &Packet) -> Result<Option<Vec<u8>>, NoMemory>
    requires good { HasGoodRecords packet.now }
    ensures given { IfOk result (λ given. IsGiven packet.now given) }
    ensures memory { IfErr result (λ _. CanBeWritten packet.now) }
{
    if !has_frame(packet) {
        return Ok(None);
    }
    Ok(Some(write_packet(alloc, packet)?))
}

// Whether a packet can be written: its layout is not 0, its change is of good shape, it has few enough records, and
// its text may be sent.
fn has_frame(packet: &Packet) -> bool
    requires good { HasGoodRecords packet.now }
    ensures { IsTrue result ↔ CanBeWritten packet.now }
{
    match packet {
        Packet::Change { change, .. } | Packet::Request { change, .. } => shape(change).is_none(),
        Packet::Part { records, .. } => records.len() <= MAX_PART_RECORDS,
        Packet::BotText { text, .. } => is_bot_text(text.as_bytes()),
        Packet::Hello { layout, .. } => *layout > 0,
        Packet::Accepted { .. } | Packet::Refused { .. } => true,
    }
}
