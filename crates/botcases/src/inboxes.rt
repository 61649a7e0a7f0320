// Inboxes.
ghost use Rattle.std.specs.Prelude.{IfOk};
ghost use Rattle.std.specs.List.{AllByRecursion};
ghost use Rattle.sharelink.specs.Shapes.{HasGoodRecords};

use botjournal::LAYOUT;
use bytetext::Text;
use caselines::{BAD_NUMBER, BAD_WORDS, CaseError, Sink, cut, number};
use peers::Inbox;
use sharewire::Packet;
use std::alloc::Global;

/// Answers `inbox STREAMS STEP..`: what each step answers, with ` | ` between. `words` are those after `peers`.
pub fn inbox(alloc: Global, words: &[Text], out: &mut Sink) -> Result<(), CaseError> {
    let [streams, steps @ ..] = words else {
        return Err(BAD_WORDS);
    };
    let mut inbox = Inbox::new(alloc, number(streams.as_bytes())?)?;
    let mut answers = 0;
    for step in steps {
        let (name, rest) = cut(step.as_bytes(), b' ');
        match name {
            b"put" => put(alloc, &mut inbox, rest)?,
            b"forget" => forget(&mut inbox, rest)?,
            _ => {
                out.between(b" | ", answers);
                answers = 1;
                ask(alloc, &mut inbox, name, rest, out)?;
            }
        }
    }
    Ok(())
}

/// Puts the `packets` of `stream` into `peers`. Returns a fault of the case if `peers` has no such stream.
pub fn put_into(inbox: &mut Inbox, stream: usize, packets: Vec<Packet>) -> Result<(), CaseError>
    requires { AllByRecursion HasGoodRecords packets.items }
{
    if stream >= inbox.stream_count() {
        return Err(BAD_NUMBER);
    }
    inbox.put(stream, packets)?;
    Ok(())
}

fn put(alloc: Global, inbox: &mut Inbox, words: &[u8]) -> Result<(), CaseError> {
    let (stream, count) = cut(words, b' ');
    let count = number::<usize>(count)?;
    let leaf = number(stream)?;
    for _ in 0..count {
        put_into(inbox, number(stream)?, hello(alloc, leaf)?)?;
    }
    Ok(())
}

// Makes the hello of `leaf`, alone in a list.
fn hello(alloc: Global, leaf: u16) -> Result<Vec<Packet>, CaseError>
    ensures { IfOk result (λ packets. AllByRecursion HasGoodRecords packets.items) }
{
    let mut packets = Vec::new(alloc);
    packets.push(Packet::Hello {
        layout: LAYOUT,
        leaf,
        version: 0,
    })?;
    Ok(packets)
}

fn forget(inbox: &mut Inbox, words: &[u8]) -> Result<(), CaseError> {
    let stream = number(words)?;
    if stream >= inbox.stream_count() {
        return Err(BAD_NUMBER);
    }
    inbox.forget(stream);
    Ok(())
}

// Makes a step that has an answer.
fn ask(
    alloc: Global,
    inbox: &mut Inbox,
    name: &[u8],
    rest: &[u8],
    out: &mut Sink,
) -> Result<(), CaseError> {
    match name {
        b"count" => out.number(inbox.count(number(rest)?) as u64),
        b"take" => put_runs(inbox.take(alloc)?.as_slice(), out),
        _ => return Err(BAD_WORDS),
    }
    Ok(())
}

// Writes how many packets of one leaf follow one another.
fn put_runs(packets: &[Packet], out: &mut Sink) {
    out.put(b"took");
    let mut last = None;
    let mut count = 0_u32;
    for packet in packets {
        let leaf = leaf_of(packet);
        if last != Some(leaf) {
            put_run(last, count, out);
            last = Some(leaf);
            count = 0;
        }
        count = count.saturating_add(1);
    }
    put_run(last, count, out);
}

fn put_run(leaf: Option<u16>, count: u32, out: &mut Sink) {
    if let Some(leaf) = leaf {
        out.put(b" ");
        out.number(u64::from(leaf));
        out.put(b":");
        out.number(u64::from(count));
    }
}

fn leaf_of(packet: &Packet) -> u16 {
    match packet {
        Packet::Hello { leaf, .. } => *leaf,
        Packet::Change { .. }
        | Packet::Part { .. }
        | Packet::Request { .. }
        | Packet::Accepted { .. }
        | Packet::Refused { .. }
        | Packet::BotText { .. } => 0,
    }
}
