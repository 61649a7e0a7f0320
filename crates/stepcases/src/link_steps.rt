// The steps of a net of links.
ghost use Rattle.std.specs.Prelude.{IfOk};
ghost use Rattle.std.specs.List.{AllByRecursion};
ghost use Rattle.sharewire.specs.Frames.{IsGoodPacket};

use crate::calls::{Call, make};
use crate::link_disks::{again, hold, plan, plan_read, stop};
use crate::net::{Good, Leaves, LinkPlace, Net};
use crate::print::{put, put_number, records_text};
use crate::words::bytes_of;
use bytetext::{NoMemory, Seq};
use caselines::{BAD_WORDS, CaseError, NO_SUCH_CASE, cut, number};
use recordtext::change_of;
use sharewire::{Packet, WireReader};
use std::alloc::Global;

/// Plays the step `line` with `net`, and appends what it answers to `out`.
///
/// # Errors
/// `Refused` if `line` is no step of a net, and `NoMemory` if an allocation fails.
pub fn play(alloc: Global, net: &mut Net, line: &[u8], out: &mut Vec<u8>) -> Result<(), CaseError> {
    let (word, rest) = cut(line, b' ');
    let (first, rest) = cut(rest, b' ');
    match step_of(word)? {
        Step::AtBot(step) => play_at(alloc, net, number(first)?, step, rest, out),
        Step::Check => check(net, out),
        Step::Deliver => deliver(alloc, net, number(first)?, out),
        Step::Leaves => begin(alloc, net, number(first)?),
    }
}

// What a step does.
#[derive(Clone, Copy)]
enum Step {
    AtBot(AtBot),
    Check,
    Deliver,
    Leaves,
}

// What a step does with a bot.
#[derive(Clone, Copy)]
enum AtBot {
    Again,
    Ask,
    Compact,
    Give,
    Hold,
    Plan,
    PlanRead,
    Pump,
    Restart,
    Show,
    Stop,
}

const STEPS: [(&[u8], Step); 14] = [
    (b"again", Step::AtBot(AtBot::Again)),
    (b"ask", Step::AtBot(AtBot::Ask)),
    (b"check", Step::Check),
    (b"compact", Step::AtBot(AtBot::Compact)),
    (b"deliver", Step::Deliver),
    (b"give", Step::AtBot(AtBot::Give)),
    (b"hold", Step::AtBot(AtBot::Hold)),
    (b"leaves", Step::Leaves),
    (b"plan", Step::AtBot(AtBot::Plan)),
    (b"planread", Step::AtBot(AtBot::PlanRead)),
    (b"pump", Step::AtBot(AtBot::Pump)),
    (b"restart", Step::AtBot(AtBot::Restart)),
    (b"show", Step::AtBot(AtBot::Show)),
    (b"stop", Step::AtBot(AtBot::Stop)),
];

fn step_of(word: &[u8]) -> Result<Step, CaseError> {
    match STEPS.iter().find(|(name, _)| *name == word) {
        Some((_, step)) => Ok(*step),
        None => Err(NO_SUCH_CASE),
    }
}

fn play_at(
    alloc: Global,
    net: &mut Net,
    bot: u16,
    step: AtBot,
    rest: &[u8],
    out: &mut Vec<u8>,
) -> Result<(), CaseError> {
    match step {
        AtBot::Again => again(alloc, net, bot, out),
        AtBot::Ask => ask(alloc, net, bot, rest, out),
        AtBot::Compact => make(alloc, net, bot, Call::Compact, out),
        AtBot::Give => give(alloc, net, bot, rest, out),
        AtBot::Hold => hold(alloc, net, bot, rest, out),
        AtBot::Plan => plan(alloc, net, bot, rest, out),
        AtBot::PlanRead => plan_read(alloc, net, bot, rest, out),
        AtBot::Pump => make(alloc, net, bot, Call::Pump, out),
        AtBot::Restart => make(alloc, net, bot, Call::Restart, out),
        AtBot::Show => show(alloc, net, bot, out),
        AtBot::Stop => stop(alloc, net, bot, rest, out),
    }
}

// Plays `ask B CHANGE`.
fn ask(
    alloc: Global,
    net: &mut Net,
    bot: u16,
    change: &[u8],
    out: &mut Vec<u8>,
) -> Result<(), CaseError> {
    match change_of(alloc, change)? {
        Some(change) => make(alloc, net, bot, Call::Ask(change), out),
        None => Err(BAD_WORDS),
    }
}

// Plays `leaves N`.
fn begin(alloc: Global, net: &mut Net, count: u16) -> Result<(), CaseError> {
    *net = Net::new(alloc, Leaves::new(count)?)?;
    Ok(())
}

// Plays `check`.
fn check(net: &Net, out: &mut Vec<u8>) -> Result<(), CaseError> {
    let breaches = net.seen.breaches();
    put(
        out,
        if breaches.is_empty() {
            b"same\n"
        } else {
            breaches
        },
    )?;
    Ok(())
}

// Plays `deliver K`.
fn deliver(
    alloc: Global,
    net: &mut Net,
    number: usize,
    out: &mut Vec<u8>,
) -> Result<(), CaseError> {
    if let Some(place) = number.checked_sub(1) {
        if let Some(sent) = net.packets.get(place) {
            let to = sent.to;
            let packet = Good::copy_of(alloc, sent.packet.packet())?;
            return make(alloc, net, to, Call::Take(packet), out);
        }
    }
    Ok(put(out, b"world O3\n")?)
}

// Plays `give B FRAME`.
fn give(
    alloc: Global,
    net: &mut Net,
    bot: u16,
    frame: &[u8],
    out: &mut Vec<u8>,
) -> Result<(), CaseError> {
    let bytes = bytes_of(alloc, frame)?;
    let packets = packets_in(alloc, &bytes)?;
    for packet in packets.as_slice() {
        let packet = Good::read(alloc, packet)?;
        make(alloc, net, bot, Call::Take(packet), out)?;
    }
    Ok(())
}

// Reads the packets that `bytes` begin with.
fn packets_in(alloc: Global, bytes: &[u8]) -> Result<Seq<Packet>, NoMemory>
    ensures { IfOk result (λ packets. AllByRecursion IsGoodPacket packets) }
{
    let mut reader = WireReader::new(alloc);
    let feed = reader.feed(alloc, bytes)?;
    Ok(feed.packets)
}

// Plays `show B`.
fn show(alloc: Global, net: &Net, bot: u16, out: &mut Vec<u8>) -> Result<(), CaseError> {
    let Some(LinkPlace::Linked(link)) = net.bots.get(usize::from(bot)) else {
        return Ok(put(out, b"world O2\n")?);
    };
    let userfile = link.userfile();
    put_number(out, u64::from(bot))?;
    put(out, b" version ")?;
    put_number(out, u64::from(link.version()))?;
    put(out, b" users ")?;
    put_number(out, userfile.user_count() as u64)?;
    put(out, b" bans ")?;
    put_number(out, userfile.ban_count() as u64)?;
    put(out, b"\n")?;
    put(out, &records_text(alloc, userfile)?)?;
    Ok(())
}
