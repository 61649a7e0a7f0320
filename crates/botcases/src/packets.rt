// Packets as words.
ghost use Rattle.std.specs.Prelude.{IfOk};
ghost use Rattle.sharelink.specs.Shapes.{HasGoodRecords};

use botjournal::LAYOUT;
use bytetext::Text;
use caselines::{BAD_WORDS, CaseError, Sink, cut, number};
use peers::is_said_by;
use sharewire::Packet;
use std::alloc::Global;
use userfile::{Change, Edit};

/// Answers `said LEAF PACKET..`: for each packet, whether it names this leaf as the one that says it. `words` are those
/// after `said`.
pub fn said(alloc: Global, words: &[Text], out: &mut Sink) -> Result<(), CaseError> {
    let [leaf, packets @ ..] = words else {
        return Err(BAD_WORDS);
    };
    let leaf = number(leaf.as_bytes())?;
    for (place, words) in packets.iter().enumerate() {
        let packet = packet_of(alloc, words.as_bytes())?;
        out.between(b" ", place);
        out.put(if is_said_by(&packet, leaf) {
            b"yes"
        } else {
            b"no"
        });
    }
    Ok(())
}

/// Reads the packet that `words` spell.
pub fn packet_of(alloc: Global, words: &[u8]) -> Result<Packet, CaseError>
    ensures { IfOk result HasGoodRecords }
{
    let (kind, rest) = cut(words, b' ');
    let (first, rest) = cut(rest, b' ');
    let (second, third) = cut(rest, b' ');
    match kind {
        b"hello" => Ok(Packet::Hello {
            layout: LAYOUT,
            leaf: number(first)?,
            version: number(second)?,
        }),
        b"request" => Ok(Packet::Request {
            leaf: number(first)?,
            request: number(second)?,
            change: added(alloc, third)?,
        }),
        b"accepted" => Ok(Packet::Accepted {
            leaf: number(first)?,
            request: number(second)?,
            number: number(third)?,
        }),
        b"text" => Ok(Packet::BotText {
            from: number(first)?,
            to: number(second)?,
            text: Text::from_slice(alloc, third)?,
        }),
        _ => Err(BAD_WORDS),
    }
}

/// Returns the change that adds the user `handle`.
pub fn added(alloc: Global, handle: &[u8]) -> Result<Change, CaseError> {
    Ok(Change::by_nobody(Edit::AddUser {
        handle: Text::from_slice(alloc, handle)?,
    }))
}
