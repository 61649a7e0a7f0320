// Packets as frames.
ghost use Rattle.std.specs.Prelude.{◌≡◌, ◌++◌, IfOk, OnOk};
ghost use Rattle.sharewire.specs.Frames.{body_of, frame, CanBeWritten};

use crate::long_text::put_long_text;
use crate::packet::Packet;
use crate::part_records::put_part_records;
use bytetext::NoMemory;
use std::alloc::Global;
use usercodec::{byte_of_fault, put_change, put_u16, put_u32};

// Most frames have at most this number of bytes.
const USUAL: usize = 64;

/// Returns the one spelling of `packet`, its frame. Its layout is not 0, its change has a good shape (see
/// [`userfile::shape`]), its text is one that a bot may send (see [`is_bot_text`](crate::is_bot_text)), and it has at
/// most eight records, such as a userfile holds.
///
/// # Errors
/// `NoMemory` if it cannot allocate room for it.
pub fn write_packet(alloc: Global, packet: &Packet) -> Result<Vec<u8>, NoMemory>
    requires { CanBeWritten packet.now }
    ensures { IfOk result (λ bytes. bytes.items ≡ frame packet.now) }
{
    let mut frame = Vec::with_capacity(alloc, USUAL)?;
    // The length is written last, over these two bytes.
    frame.extend_from_slice(&[0, 0])?;
    frame.push(packet.kind().byte())?;
    put_body(&mut frame, packet)?;
    let [high, low] = ((frame.len() - 2) as u16).to_be_bytes();
    frame[0] = high;
    frame[1] = low;
    Ok(frame)
}

// Appends a packet's body to `out`.
fn put_body(out: &mut Vec<u8>, packet: &Packet) -> Result<(), NoMemory>
    requires { CanBeWritten packet.now }
    ensures { OnOk result (out.new.items ≡ out.old.items ++ body_of packet.now) }
{
    match packet {
        Packet::Hello {
            layout,
            leaf,
            version,
        } => {
            if *layout != 1 {
                out.push(*layout)?;
            }
            put_u16(out, *leaf)?;
            put_u32(out, *version)
        }
        Packet::Change {
            number,
            origin,
            request,
            change,
        } => {
            put_u32(out, *number)?;
            put_u16(out, *origin)?;
            put_u32(out, *request)?;
            put_change(out, change)
        }
        Packet::Part {
            version,
            part,
            count,
            records,
        } => {
            put_u32(out, *version)?;
            out.push(*part)?;
            out.push(*count)?;
            put_part_records(out, records.as_slice())
        }
        Packet::Request {
            leaf,
            request,
            change,
        } => {
            put_u16(out, *leaf)?;
            put_u32(out, *request)?;
            put_change(out, change)
        }
        Packet::Accepted {
            leaf,
            request,
            number,
        } => {
            put_u16(out, *leaf)?;
            put_u32(out, *request)?;
            put_u32(out, *number)
        }
        Packet::Refused {
            leaf,
            request,
            fault,
        } => {
            put_u16(out, *leaf)?;
            put_u32(out, *request)?;
            out.push(byte_of_fault(*fault))?;
            Ok(())
        }
        Packet::BotText { from, to, text } => {
            put_u16(out, *from)?;
            put_u16(out, *to)?;
            put_long_text(out, text.as_bytes())
        }
    }
}
