// Which of the packets that a leaf sends are handed on.
ghost use Rattle.std.specs.Prelude.{◌≡◌, ◌<◌, ◌≤◌, ◌+◌, ◌++◌, ◌∷◌, [], if◌then◌else◌, IfOk, OnOk, vec_len, vec_capacity};
ghost use Rattle.std.specs.List.{count_by};
ghost use Rattle.peers.specs.Picking.{grants, is_barred, is_hello, is_lost, is_ours, is_request, picked, said_after, said_by};

use botjournal::LAYOUT;
use bytetext::NoMemory;
use handshake::LeafRights;
use sharewire::Packet;
use std::alloc::Global;
use std::collections::VecDeque;
use userfile::Change;

// The packets of one piece that are handed on: of the hellos only the last, and no request that is barred. Each hello is
// answered by all that the leaf lacks, so the others would have the same sent again and again. Notes in `said` which
// layout the last hello says.
#[tactic(auto, using(crate::proofs::PickingLemmas::picked_one, crate::proofs::PickingLemmas::said_one))]
pub(crate) fn picked(
    alloc: Global,
    packets: Vec<Packet>,
    may: LeafRights,
    said: &mut Option<u8>,
) -> Result<Vec<Packet>, NoMemory>
    ensures picked { IfOk result (λ kept. kept.items ≡ picked may said.old packets.items) }
    ensures said { OnOk result (said.new ≡ said_by said.old packets.items) }
{
    let count = packets.len();
    let mut kept = Vec::with_capacity(alloc, count)?;
    let mut hellos = count_hellos(packets.as_slice());
    let mut rest = VecDeque::from(packets);
    for _packet in 0..count {
        if let Some(packet) = rest.pop_front() {
            hellos -= usize::from(is_hello(&packet));
            let lost = is_lost(may, *said, &packet, hellos);
            *said = said_after(*said, &packet);
            keep_unless(lost, packet, &mut kept);
        }
    }
    Ok(kept)
}

// Appends a packet, unless it is lost. Allocates nothing.
fn keep_unless(lost: bool, packet: Packet, kept: &mut Vec<Packet>)
    requires room { vec_len kept.old < vec_capacity kept.old }
    ensures kept { kept.new.items ≡ (if lost then kept.old.items else kept.old.items ++ packet ∷ []) }
    ensures few { vec_len kept.new ≤ vec_len kept.old + 1 }
    ensures room { vec_capacity kept.new ≡ vec_capacity kept.old }
{
    if !lost {
        kept.push_reserved(packet);
    }
}

fn count_hellos(packets: &[Packet]) -> usize
    ensures { result ≡ count_by is_hello packets.now }
{
    let mut count = 0;
    for packet in packets {
        if is_hello(packet) {
            count += 1;
        }
    }
    count
}

// Whether a packet is not handed on, if the last hello before it said the layout `said`, and this many hellos come after
// it.
fn is_lost(may: LeafRights, said: Option<u8>, packet: &Packet, hellos: usize) -> bool
    ensures { result ≡ is_lost may said packet.now hellos }
{
    (is_hello(packet) && hellos > 0) || is_barred(may, said, packet)
}

// Whether a packet is a request that the leaf may not make, or one of a leaf whose last hello was of another layout.
fn is_barred(may: LeafRights, said: Option<u8>, packet: &Packet) -> bool
    ensures { result ≡ is_barred may said packet.now }
{
    match packet {
        Packet::Request { change, .. } => !(grants(may, change) && is_ours(said)),
        Packet::Hello { .. }
        | Packet::Change { .. }
        | Packet::Part { .. }
        | Packet::Accepted { .. }
        | Packet::Refused { .. }
        | Packet::BotText { .. } => false,
    }
}

// Whether a leaf may ask for a change.
fn grants(may: LeafRights, change: &Change) -> bool
    ensures { result ≡ grants may change.now }
{
    match may {
        LeafRights::Asks => true,
        LeafRights::Reads => false,
        LeafRights::Persons => change.by.is_some(),
    }
}

// Whether a leaf's last hello said the layout of this hub's journal. A leaf that has said no hello said none.
fn is_ours(said: Option<u8>) -> bool
    ensures { result ≡ is_ours said }
{
    match said {
        Some(layout) => layout == LAYOUT,
        None => false,
    }
}

// The layout that the last hello said, after one more packet.
fn said_after(said: Option<u8>, packet: &Packet) -> Option<u8>
    ensures { result ≡ said_after said packet.now }
{
    match packet {
        Packet::Hello { layout, .. } => Some(*layout),
        Packet::Change { .. }
        | Packet::Part { .. }
        | Packet::Request { .. }
        | Packet::Accepted { .. }
        | Packet::Refused { .. }
        | Packet::BotText { .. } => said,
    }
}

// Whether a packet is a hello.
pub(crate) fn is_hello(packet: &Packet) -> bool
    ensures { result ≡ is_hello packet.now }
{
    match packet {
        Packet::Hello { .. } => true,
        Packet::Change { .. }
        | Packet::Part { .. }
        | Packet::Request { .. }
        | Packet::Accepted { .. }
        | Packet::Refused { .. }
        | Packet::BotText { .. } => false,
    }
}

// Whether a packet is a request.
pub(crate) fn is_request(packet: &Packet) -> bool
    ensures { result ≡ is_request packet.now }
{
    match packet {
        Packet::Request { .. } => true,
        Packet::Hello { .. }
        | Packet::Change { .. }
        | Packet::Part { .. }
        | Packet::Accepted { .. }
        | Packet::Refused { .. }
        | Packet::BotText { .. } => false,
    }
}
