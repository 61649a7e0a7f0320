// The line of a packet that was sent.
ghost use Rattle.std.specs.Prelude.{◌≡◌, ◌++◌, OnOk};
ghost use Rattle.replay.specs.Text.{packet_text, sent_line};

use botworld::Sent;
use bytetext::NoMemory;
use recordtext::{put, put_counted, put_number};
use sharelink::Packet;

/// Appends the packet `sent` to `out` under its `number`, as `send K A>B KIND DETAIL`.
#[tactic(auto, using(std::proofs::Common::append_assoc))]
pub fn put_sent(out: &mut Vec<u8>, number: u64, sent: &Sent) -> Result<(), NoMemory>
    ensures { OnOk result (out.new.items ≡ out.old.items ++ sent_line number sent.now) }
{
    put(out, b"send ")?;
    put_number(out, number)?;
    put(out, b" ")?;
    put_number(out, u64::from(sent.from))?;
    put(out, b">")?;
    put_number(out, u64::from(sent.to))?;
    put(out, b" ")?;
    put_packet(out, &sent.packet)?;
    put(out, b"\n")
}

/// Appends what `packet` is to `out`, as `KIND DETAIL`.
///
/// # Errors
/// `NoMemory` if memory cannot be allocated.
#[tactic(auto, using(std::proofs::Common::append_assoc))]
pub fn put_packet(out: &mut Vec<u8>, packet: &Packet) -> Result<(), NoMemory>
    ensures { OnOk result (out.new.items ≡ out.old.items ++ packet_text packet.now) }
{
    match packet {
        Packet::Hello { version, .. } => put_counted(out, b"Hello ", u64::from(*version)),
        Packet::Change { number, .. } => put_counted(out, b"Change ", u64::from(*number)),
        Packet::Request { request, .. } => put_counted(out, b"Request ", u64::from(*request)),
        Packet::Accepted {
            request,
            number,
            ..
        } => {
            put_counted(out, b"Accepted ", u64::from(*request))?;
            put_counted(out, b" ", u64::from(*number))
        }
        Packet::Refused { request, fault, .. } => {
            put_counted(out, b"Refused ", u64::from(*request))?;
            put(out, b" ")?;
            put(out, fault.code().as_bytes())
        }
        Packet::BotText { from, to, text } => {
            put_counted(out, b"BotText ", u64::from(*from))?;
            put_counted(out, b" ", u64::from(*to))?;
            put(out, b" ")?;
            put(out, text.as_bytes())
        }
        Packet::Part {
            version,
            part,
            count,
            ..
        } => {
            put_counted(out, b"Part ", u64::from(*version))?;
            put_counted(out, b" ", u64::from(*part))?;
            put_counted(out, b" ", u64::from(*count))
        }
    }
}
