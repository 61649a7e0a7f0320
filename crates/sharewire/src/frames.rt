// The packets of bytes that begin with a frame.
ghost use Rattle.std.specs.Prelude.{◌≤◌, IfOk, length};
ghost use Rattle.sharewire.specs.Steps.{IsNext, IsRead};

use crate::body::read_body;
use crate::fault::WireFault;
use crate::front::front;
use crate::packet::Packet;
use bytetext::NoMemory;
use std::alloc::Global;

// What stands at the front: a whole packet, or just the beginning of a frame or a fault.
#[derive(Drop)]
pub(crate) enum Next<'a> {
    Whole { packet: Packet, rest: &'a [u8] },
    End { fault: Option<WireFault> },
}

// Packets, what stands after them, and the fault if there is one.
#[derive(Drop)]
pub(crate) struct Frames<'a> {
    pub(crate) packets: Vec<Packet>,
    pub(crate) rest: &'a [u8],
    pub(crate) fault: Option<WireFault>,
}

pub(crate) fn read_frames(alloc: Global, bytes: &[u8]) -> Result<Frames<'_>, NoMemory>
    ensures { IfOk result (λ frames. IsRead bytes.now frames) }
{
    let mut packets = Vec::with_capacity(alloc, whole_frames(bytes))?;
    let mut rest = bytes;
    loop {
        match read_frame(alloc, rest)? {
            Next::Whole {
                packet,
                rest: behind,
            } => {
                packets.push(packet)?;
                rest = behind;
            }
            Next::End { fault } => {
                return Ok(Frames {
                    packets,
                    rest,
                    fault,
                });
            }
        }
    }
}

// Counts the whole frames at the front, as far as their lengths and kinds show.
fn whole_frames(bytes: &[u8]) -> usize
    ensures { result ≤ length bytes.now }
{
    let mut count = 0;
    let mut rest = bytes;
    while let Ok(Some(inside)) = front(rest) {
        count += 1;
        rest = inside.rest;
    }
    count
}

fn read_frame(alloc: Global, bytes: &[u8]) -> Result<Next<'_>, NoMemory>
    ensures { IfOk result (λ next. IsNext bytes.now next) }
{
    match front(bytes) {
        Err(fault) => Ok(Next::End { fault: Some(fault) }),
        Ok(None) => Ok(Next::End { fault: None }),
        Ok(Some(inside)) => match read_body(alloc, inside.kind, inside.body)? {
            Some(packet) => Ok(Next::Whole {
                packet,
                rest: inside.rest,
            }),
            None => Ok(Next::End {
                fault: Some(WireFault::BadBody),
            }),
        },
    }
}
