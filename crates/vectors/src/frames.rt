// Packets as bytes.
ghost use Rattle.std.specs.Prelude.{◌≡◌, IfOk, None};
ghost use Rattle.userfile.specs.Apply.{bad_shape};
ghost use Rattle.sharewire.specs.Frames.{CanBeWritten};

use bytetext::{Text, TryCopy};
use caselines::{BAD_NUMBER, BAD_WORDS, CaseError, Sink, number, put_change};
use sharewire::{Feed, Packet, WireReader, is_bot_text, write_packet};
use std::alloc::Global;
use userfile::{Change, ChangeFault, shape};

/// Answers `frame PACKET` on `out`: the bytes that spell a packet, which is some words.
pub fn frame(alloc: Global, words: &[Text], out: &mut Sink) -> Result<(), CaseError> {
    let [kind, words @ ..] = words else {
        return Err(BAD_WORDS);
    };
    let packet = packet_of(alloc, kind.as_bytes(), words)?;
    out.hex(&write_packet(alloc, &packet)?);
    Ok(())
}

// The kinds of packets, and what each takes.
#[derive(Clone, Copy)]
enum Kind {
    Accepted,
    Change,
    Hello,
    Refused,
    Request,
    Text,
}

const KINDS: [(&[u8], Kind); 6] = [
    (b"accepted", Kind::Accepted),
    (b"change", Kind::Change),
    (b"hello", Kind::Hello),
    (b"refused", Kind::Refused),
    (b"request", Kind::Request),
    (b"text", Kind::Text),
];

fn packet_of(alloc: Global, kind: &[u8], words: &[Text]) -> Result<Packet, CaseError>
    ensures { IfOk result (λ packet. CanBeWritten packet) }
{
    let Some((_, kind)) = KINDS.iter().find(|(word, _)| *word == kind) else {
        return Err(BAD_WORDS);
    };
    match (*kind, words) {
        (Kind::Hello, [layout, leaf, version]) => hello(layout, leaf, version),
        (Kind::Change, [place, origin, request, change]) => {
            changed(place, origin, request, change_of(alloc, change)?)
        }
        (Kind::Request, [leaf, request, change]) => {
            requested(leaf, request, change_of(alloc, change)?)
        }
        (Kind::Accepted, [leaf, request, place]) => accepted(leaf, request, place),
        (Kind::Refused, [leaf, request, code]) => refused(leaf, request, code),
        (Kind::Text, [from, to, text]) => bot_text(from, to, text_of(alloc, text)?),
        (_, _) => Err(BAD_WORDS),
    }
}

fn hello(layout: &Text, leaf: &Text, version: &Text) -> Result<Packet, CaseError>
    ensures { IfOk result (λ packet. CanBeWritten packet) }
{
    let layout: u8 = number(layout.as_bytes())?;
    if layout == 0 {
        return Err(BAD_NUMBER);
    }
    let leaf = number(leaf.as_bytes())?;
    let version = number(version.as_bytes())?;
    Ok(Packet::Hello {
        layout,
        leaf,
        version,
    })
}

fn changed(place: &Text, origin: &Text, request: &Text, change: Change) -> Result<Packet, CaseError>
    requires { bad_shape change ≡ None }
    ensures { IfOk result (λ packet. CanBeWritten packet) }
{
    match (
        number(place.as_bytes()),
        number(origin.as_bytes()),
        number(request.as_bytes()),
    ) {
        (Ok(number), Ok(origin), Ok(request)) => Ok(Packet::Change {
            number,
            origin,
            request,
            change,
        }),
        (_, _, _) => Err(BAD_NUMBER),
    }
}

fn requested(leaf: &Text, request: &Text, change: Change) -> Result<Packet, CaseError>
    requires { bad_shape change ≡ None }
    ensures { IfOk result (λ packet. CanBeWritten packet) }
{
    match (number(leaf.as_bytes()), number(request.as_bytes())) {
        (Ok(leaf), Ok(request)) => Ok(Packet::Request {
            leaf,
            request,
            change,
        }),
        (_, _) => Err(BAD_NUMBER),
    }
}

fn accepted(leaf: &Text, request: &Text, place: &Text) -> Result<Packet, CaseError>
    ensures { IfOk result (λ packet. CanBeWritten packet) }
{
    let leaf = number(leaf.as_bytes())?;
    let request = number(request.as_bytes())?;
    let number = number(place.as_bytes())?;
    Ok(Packet::Accepted {
        leaf,
        request,
        number,
    })
}

fn refused(leaf: &Text, request: &Text, code: &Text) -> Result<Packet, CaseError>
    ensures { IfOk result (λ packet. CanBeWritten packet) }
{
    let leaf = number(leaf.as_bytes())?;
    let request = number(request.as_bytes())?;
    let fault = fault_of(code.as_bytes())?;
    Ok(Packet::Refused {
        leaf,
        request,
        fault,
    })
}

fn bot_text(from: &Text, to: &Text, text: Text) -> Result<Packet, CaseError>
    requires { CanBeWritten (Packet.BotText 0 0 text) }
    ensures { IfOk result (λ packet. CanBeWritten packet) }
{
    match (number(from.as_bytes()), number(to.as_bytes())) {
        (Ok(from), Ok(to)) => Ok(Packet::BotText { from, to, text }),
        (_, _) => Err(BAD_NUMBER),
    }
}

// The change of a word, whose shape is good.
fn change_of(alloc: Global, word: &Text) -> Result<Change, CaseError>
    ensures { IfOk result (λ change. bad_shape change ≡ None) }
{
    let Some(change) = recordtext::change_of(alloc, word.as_bytes())? else {
        return Err(BAD_WORDS);
    };
    match shape(&change) {
        Some(_) => Err(BAD_WORDS),
        None => Ok(change),
    }
}

// A text that a bot may send another.
fn text_of(alloc: Global, word: &Text) -> Result<Text, CaseError>
    ensures { IfOk result (λ text. CanBeWritten (Packet.BotText 0 0 text)) }
{
    if is_bot_text(word.as_bytes()) {
        Ok(word.copy(alloc)?)
    } else {
        Err(BAD_WORDS)
    }
}

const FAULTS: [ChangeFault; 12] = [
    ChangeFault::BadHandle,
    ChangeFault::UserExists,
    ChangeFault::NoSuchUser,
    ChangeFault::BadMask,
    ChangeFault::MaskExists,
    ChangeFault::NoSuchMask,
    ChangeFault::BadChannel,
    ChangeFault::BanExists,
    ChangeFault::NoSuchBan,
    ChangeFault::BadComment,
    ChangeFault::Full,
    ChangeFault::NotAllowed,
];

fn fault_of(code: &[u8]) -> Result<ChangeFault, CaseError> {
    match FAULTS.iter().find(|fault| fault.code().as_bytes() == code) {
        Some(fault) => Ok(*fault),
        None => Err(BAD_WORDS),
    }
}

/// Answers `frames PIECE..` on `out`: for each piece of a stream the packets whose frames end in it and then the code
/// of the fault, with `, ` between, or `none`.
pub fn frames(alloc: Global, words: &[Text], out: &mut Sink) -> Result<(), CaseError> {
    let mut reader = WireReader::new(alloc);
    for (i, piece) in words.iter().enumerate() {
        out.between(b" ; ", i);
        let feed = reader.feed(alloc, piece.as_bytes())?;
        put_feed(alloc, &feed, out);
    }
    Ok(())
}

fn put_feed(alloc: Global, feed: &Feed, out: &mut Sink) {
    for (i, packet) in feed.packets.as_slice().iter().enumerate() {
        out.between(b", ", i);
        put_packet(alloc, packet, out);
    }
    if let Some(fault) = feed.fault {
        out.put_if(!feed.packets.is_empty(), b", ");
        out.put(fault.code().as_bytes());
    }
    out.put_if(feed.packets.is_empty() && feed.fault.is_none(), b"none");
}

// A packet in the words that `frame` takes.
fn put_packet(alloc: Global, packet: &Packet, out: &mut Sink) {
    match packet {
        Packet::Hello {
            layout,
            leaf,
            version,
        } => {
            put_numbers(b"hello", u64::from(*layout), u64::from(*leaf), out);
            put_number(u64::from(*version), out);
        }
        Packet::Change {
            number,
            origin,
            request,
            change,
        } => {
            put_numbers(b"change", u64::from(*number), u64::from(*origin), out);
            put_number(u64::from(*request), out);
            out.put(b" ");
            put_change(alloc, change, out);
        }
        Packet::Request {
            leaf,
            request,
            change,
        } => {
            put_numbers(b"request", u64::from(*leaf), u64::from(*request), out);
            out.put(b" ");
            put_change(alloc, change, out);
        }
        Packet::Accepted {
            leaf,
            request,
            number,
        } => {
            put_numbers(b"accepted", u64::from(*leaf), u64::from(*request), out);
            put_number(u64::from(*number), out);
        }
        Packet::Refused {
            leaf,
            request,
            fault,
        } => {
            put_numbers(b"refused", u64::from(*leaf), u64::from(*request), out);
            out.put(b" ");
            out.put(fault.code().as_bytes());
        }
        Packet::BotText { from, to, text } => {
            put_numbers(b"text", u64::from(*from), u64::from(*to), out);
            out.put(b" ");
            out.put(text.as_bytes());
        }
        Packet::Part {
            version,
            part,
            count,
            records,
        } => {
            put_numbers(b"part", u64::from(*version), u64::from(*part), out);
            put_number(u64::from(*count), out);
            put_number(records.len() as u64, out);
        }
    }
}

// A word, and two numbers after spaces.
fn put_numbers(word: &[u8], first: u64, second: u64, out: &mut Sink) {
    out.put(word);
    put_number(first, out);
    put_number(second, out);
}

fn put_number(value: u64, out: &mut Sink) {
    out.put(b" ");
    out.number(value);
}
