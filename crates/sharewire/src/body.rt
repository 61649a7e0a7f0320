// The packet of a kind and a body.
ghost use Rattle.std.specs.Prelude.{◌≡◌};
ghost use Rattle.usercodec.specs.Answers.{Finds, Gives};
ghost use Rattle.sharewire.specs.Bodies.{hello_at, later_hello_at, layout_at, change_packet_at, part_at, request_at, accepted_at, refused_at};
ghost use Rattle.sharewire.specs.Bodies.{body_at, bot_text_packet_at};

use crate::kind::Kind;
use crate::long_text::bot_text;
use crate::packet::Packet;
use crate::part_records::part_records;
use bytetext::{Failure, NoMemory};
use std::alloc::Global;
use usercodec::{CodecError, CodecFault, Reader};

fn packet(alloc: Global, kind: Kind, reader: &mut Reader<'_>) -> Result<Packet, CodecError>
    ensures { Finds (λ packet. (packet, reader.new)) result (body_at kind reader.old) }
{
    match kind {
        Kind::Hello => hello(reader),
        Kind::LaterHello => later_hello(reader),
        Kind::Change => change(alloc, reader),
        Kind::Part => part(alloc, reader),
        Kind::Request => request(alloc, reader),
        Kind::Accepted => accepted(reader),
        Kind::Refused => refused(reader),
        Kind::BotText => bot_text_packet(alloc, reader),
    }
}

#[tactic(auto, unfolding(crate::specs::Bodies::hello_at))]
fn hello(reader: &mut Reader<'_>) -> Result<Packet, CodecError>
    ensures { Finds (λ packet. (packet, reader.new)) result (hello_at reader.old) }
{
    let leaf = reader.u16()?;
    let version = reader.u32()?;
    Ok(Packet::Hello {
        layout: 1,
        leaf,
        version,
    })
}

#[tactic(auto, unfolding(crate::specs::Bodies::later_hello_at))]
fn later_hello(reader: &mut Reader<'_>) -> Result<Packet, CodecError>
    ensures { Finds (λ packet. (packet, reader.new)) result (later_hello_at reader.old) }
{
    let layout = layout(reader)?;
    let leaf = reader.u16()?;
    let version = reader.u32()?;
    Ok(Packet::Hello {
        layout,
        leaf,
        version,
    })
}

#[tactic(auto, unfolding(crate::specs::Bodies::layout_at))]
fn layout(reader: &mut Reader<'_>) -> Result<u8, CodecError>
    ensures { Gives (λ layout. (layout, reader.new)) result (layout_at reader.old) }
{
    let layout = reader.byte()?;
    if layout < 2 {
        return Err(Failure::Refused(CodecFault::NotCanonical));
    }
    Ok(layout)
}

#[tactic(auto, unfolding(crate::specs::Bodies::change_packet_at))]
fn change(alloc: Global, reader: &mut Reader<'_>) -> Result<Packet, CodecError>
    ensures { Finds (λ packet. (packet, reader.new)) result (change_packet_at reader.old) }
{
    let number = reader.u32()?;
    let origin = reader.u16()?;
    let request = reader.u32()?;
    let change = reader.change(alloc)?;
    Ok(Packet::Change {
        number,
        origin,
        request,
        change,
    })
}

#[tactic(auto, unfolding(crate::specs::Bodies::part_at))]
fn part(alloc: Global, reader: &mut Reader<'_>) -> Result<Packet, CodecError>
    ensures { Finds (λ packet. (packet, reader.new)) result (part_at reader.old) }
{
    let version = reader.u32()?;
    let part = reader.byte()?;
    let count = reader.byte()?;
    let records = part_records(alloc, reader)?;
    Ok(Packet::Part {
        version,
        part,
        count,
        records,
    })
}

#[tactic(auto, unfolding(crate::specs::Bodies::request_at))]
fn request(alloc: Global, reader: &mut Reader<'_>) -> Result<Packet, CodecError>
    ensures { Finds (λ packet. (packet, reader.new)) result (request_at reader.old) }
{
    let leaf = reader.u16()?;
    let request = reader.u32()?;
    let change = reader.change(alloc)?;
    Ok(Packet::Request {
        leaf,
        request,
        change,
    })
}

#[tactic(auto, unfolding(crate::specs::Bodies::accepted_at))]
fn accepted(reader: &mut Reader<'_>) -> Result<Packet, CodecError>
    ensures { Finds (λ packet. (packet, reader.new)) result (accepted_at reader.old) }
{
    let leaf = reader.u16()?;
    let request = reader.u32()?;
    let number = reader.u32()?;
    Ok(Packet::Accepted {
        leaf,
        request,
        number,
    })
}

#[tactic(auto, unfolding(crate::specs::Bodies::refused_at))]
fn refused(reader: &mut Reader<'_>) -> Result<Packet, CodecError>
    ensures { Finds (λ packet. (packet, reader.new)) result (refused_at reader.old) }
{
    let leaf = reader.u16()?;
    let request = reader.u32()?;
    let fault = reader.fault()?;
    Ok(Packet::Refused {
        leaf,
        request,
        fault,
    })
}

#[tactic(auto, unfolding(crate::specs::Bodies::bot_text_packet_at))]
fn bot_text_packet(alloc: Global, reader: &mut Reader<'_>) -> Result<Packet, CodecError>
    ensures { Finds (λ packet. (packet, reader.new)) result (bot_text_packet_at reader.old) }
{
    let from = reader.u16()?;
    let to = reader.u16()?;
    let text = bot_text(alloc, reader)?;
    Ok(Packet::BotText { from, to, text })
}

ghost use Rattle.sharewire.specs.Steps.{ReadsBody};

// Returns the packet of this kind whose body is all of `body`, or `None` if it is no packet's body.
pub(crate) fn read_body(alloc: Global, kind: Kind, body: &[u8]) -> Result<Option<Packet>, NoMemory>
    ensures { ReadsBody kind body.now result }
{
    let mut reader = Reader::new(body);
    match packet(alloc, kind, &mut reader) {
        Ok(packet) => {
            if reader.is_empty() {
                return Ok(Some(packet));
            }
            Ok(None)
        }
        Err(Failure::Refused(_)) => Ok(None),
        Err(Failure::NoMemory) => Err(NoMemory),
    }
}
