// Calls of a bot's link.
ghost use Rattle.std.specs.Prelude.{◌+◌};
ghost use Rattle.sharelink.specs.declared.TheConstants.{MAX_LEAVES};
ghost use Rattle.sharelink.specs.Shapes.{AreGood, GoOut};

use crate::net::{Good, LinkPlace, Net, Sent};
use crate::print::{put, put_code, put_note, put_number, put_packet, records_text};
use bytetext::{Failure, NoMemory, TryCopy};
use caselines::CaseError;
use disks::MemDisk;
use sharelink::{Answer, BotLink, LinkError, Outgoing};
use std::alloc::Global;
use userfile::Change;

/// A call of a link.
#[derive(Drop)]
pub enum Call {
    /// A request for a change.
    Ask(Change),
    /// A pump.
    Pump,
    /// A compaction.
    Compact,
    /// A restart.
    Restart,
    /// The receipt of a packet.
    Take(Good),
}

/// Makes the `call` of the link of `bot`, and prints what it answers. A number above the last bot's names none.
pub fn make(
    alloc: Global,
    net: &mut Net,
    bot: u16,
    call: Call,
    out: &mut Vec<u8>,
) -> Result<(), CaseError> {
    match net.bots.get_mut(usize::from(bot)) {
        Some(LinkPlace::Linked(link)) => {
            let before = link.version();
            let answer = answer_of(alloc, link, call);
            tell(alloc, net, bot, answer, out)?;
            see(alloc, net, bot, before)?;
        }
        Some(LinkPlace::Apart(_)) => {
            put_number(out, u64::from(bot))?;
            put(out, b" apart\n")?;
        }
        None => put(out, b"world O2\n")?,
    }
    Ok(())
}

fn answer_of(alloc: Global, link: &mut BotLink<MemDisk>, call: Call) -> Result<Answer, LinkError>
    ensures { GoOut (MAX_LEAVES + 1) result }
{
    match call {
        Call::Ask(change) => link.ask(alloc, change),
        Call::Pump => link.pump(alloc),
        Call::Compact => link.compact(alloc),
        Call::Restart => link.restart(alloc),
        Call::Take(packet) => link.receive(alloc, packet.packet()),
    }
}

// Prints what a call answered, and sends its packets, both from a copy of the answer.
fn tell(
    alloc: Global,
    net: &mut Net,
    bot: u16,
    answer: Result<Answer, LinkError>,
    out: &mut Vec<u8>,
) -> Result<(), NoMemory>
    requires { GoOut (MAX_LEAVES + 1) answer }
{
    match answer {
        Ok(answer) => tell_copy(alloc, net, bot, answer.copy(alloc)?, out),
        Err(Failure::Refused(fault)) => put_code(out, bot, b"refused", fault.code()),
        Err(Failure::NoMemory) => Err(NoMemory),
    }
}

fn tell_copy(
    alloc: Global,
    net: &mut Net,
    bot: u16,
    answer: Answer,
    out: &mut Vec<u8>,
) -> Result<(), NoMemory>
    requires { AreGood answer.packets }
{
    send(alloc, net, bot, answer.packets.as_slice(), out)?;
    put_number(out, u64::from(bot))?;
    put_note(out, &answer.note)?;
    put(out, b"\n")
}

// send K A>B KIND DETAIL
fn send(
    alloc: Global,
    net: &mut Net,
    bot: u16,
    packets: &[Outgoing],
    out: &mut Vec<u8>,
) -> Result<(), NoMemory>
    requires { AreGood packets.now }
{
    for outgoing in packets {
        let to = outgoing.to;
        let packet = Good::copy_of(alloc, &outgoing.packet)?;
        net.packets.push(Sent { to, packet })?;
        put_sent(out, net.packets.len(), bot, outgoing)?;
    }
    Ok(())
}

fn put_sent(
    out: &mut Vec<u8>,
    number: usize,
    bot: u16,
    outgoing: &Outgoing,
) -> Result<(), NoMemory> {
    put(out, b"send ")?;
    put_number(out, number as u64)?;
    put(out, b" ")?;
    put_number(out, u64::from(bot))?;
    put(out, b">")?;
    put_number(out, u64::from(outgoing.to))?;
    put_packet(out, &outgoing.packet)?;
    put(out, b"\n")
}

/// Notes what `bot` shows now, and a breach if its version fell below `before`, the version that it had.
pub fn see(alloc: Global, net: &mut Net, bot: u16, before: u32) -> Result<(), NoMemory> {
    let Some(LinkPlace::Linked(link)) = net.bots.get(usize::from(bot)) else {
        return Ok(());
    };
    let version = link.version();
    let records = records_text(alloc, link.userfile())?;
    if version < before {
        net.seen.note_breach(bot, b" went back to ", version)?;
    }
    net.seen.note(bot, version, records)
}
