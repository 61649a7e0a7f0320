// The packets that a hub sends.
ghost use Rattle.std.specs.Prelude.{◌≡◌, ◌+◌, ◌-◌, ◌*◌, ◌/◌, ◌<◌, ◌≤◌, ◌^◌, nat_lt, take, drop, IfOk, OnErr, length};
ghost use Rattle.std.specs.List.{AllByRecursion};
ghost use Rattle.usercodec.specs.Records.{IsGoodRecord};
ghost use Rattle.protocol.specs.Packets.{from_wire, answer_packet, change_packet, numbered_from};
ghost use Rattle.protocol.specs.HubRules.{version_of, changes_from, all_parts};
ghost use Rattle.protocol.specs.Snapshots.{items_of, part_count};
ghost use Rattle.sharelink.specs.Calls.{outgoing_of, outgoings_of};
ghost use Rattle.sharelink.specs.Shapes.{HasGoodRecords, AreGood};
ghost use Rattle.sharelink.specs.HubLinks.{told_before, told_accepted, hello_sends};

use crate::HELLO_CHANGES;
use crate::accepted::AcceptedChange;
use crate::answer::Outgoing;
use crate::hub_state::HubState;
use botjournal::Verdict;
use bytetext::{NoMemory, Seq, TryCopy, copies_of};
use sharewire::Packet;
use std::alloc::Global;
use usercodec::Record;

/// Returns the reply that tells `leaf` the outcome of its request. Allocates nothing.
pub(crate) fn reply_packet(leaf: u16, request: u32, answer: Verdict) -> Outgoing
    ensures packet { outgoing_of result ≡ record { to = leaf; packet = answer_packet leaf request answer } }
    ensures good { HasGoodRecords result.packet }
{
    let packet = match answer {
        Verdict::Taken(number) => Packet::Accepted {
            leaf,
            request,
            number,
        },
        Verdict::Refused(fault) => Packet::Refused {
            leaf,
            request,
            fault,
        },
    };
    Outgoing { to: leaf, packet }
}

/// Returns what goes out when a change is accepted under `number`: the reply to the leaf that asked for it, and the
/// change to each leaf.
pub(crate) fn accepted_packets(
    alloc: Global,
    leaves: u16,
    number: u32,
    entry: &AcceptedChange,
) -> Result<Vec<Outgoing>, NoMemory>
    ensures { IfOk result (λ packets. outgoings_of packets.items ≡ told_accepted leaves number entry.now) }
{
    let mut packets = told_before(alloc, entry.origin(), entry.request(), number)?;
    for place in 0..leaves {
        let packet = numbered_packet(alloc, number, entry)?;
        packets.push(Outgoing {
            to: place + 1,
            packet,
        })?;
    }
    Ok(packets)
}

// Returns the reply to the leaf that asked for a change accepted under `number`, and nothing for the hub's own change.
fn told_before(
    alloc: Global,
    origin: u16,
    request: u32,
    number: u32,
) -> Result<Vec<Outgoing>, NoMemory>
    ensures { IfOk result (λ packets. outgoings_of packets.items ≡ told_before origin request number) }
{
    if origin == 0 {
        return Ok(Vec::new(alloc));
    }
    Ok(vec![in alloc; reply_packet(origin, request, Verdict::Taken(number))]?)
}

// Returns the packet of the accepted change of this number.
fn numbered_packet(alloc: Global, number: u32, entry: &AcceptedChange) -> Result<Packet, NoMemory>
    ensures { IfOk result (λ packet. from_wire packet ≡ change_packet number entry.now) }
{
    let change = entry.change().copy(alloc)?;
    Ok(Packet::Change {
        number,
        origin: entry.origin(),
        request: entry.request(),
        change,
    })
}

/// Returns the answer to a hello of `leaf`: the changes after `version`, at most 16, or all records if the hub no
/// longer keeps those changes one by one.
pub(crate) fn hello_packets(
    alloc: Global,
    leaf: u16,
    version: u32,
    hub: &HubState,
) -> Result<Vec<Outgoing>, NoMemory>
    requires has { version ≤ version_of hub.now }
    ensures packets { IfOk result (λ packets. outgoings_of packets.items ≡ hello_sends hub.now leaf version (nat_lt version hub.now.floor)) }
    ensures some { OnErr result (0 < length (hello_sends hub.now leaf version (nat_lt version hub.now.floor))) }
    ensures good { IfOk result (λ packets. AreGood packets.items) }
    ensures few { IfOk result (λ packets. length packets.items ≤ 255) }
{
    if version < hub.floor() {
        all_parts(alloc, leaf, hub)
    } else {
        next_changes(alloc, leaf, version, hub)
    }
}

// Returns the changes after a version to one leaf, at most 16.
fn next_changes(
    alloc: Global,
    leaf: u16,
    version: u32,
    hub: &HubState,
) -> Result<Vec<Outgoing>, NoMemory>
    requires kept { hub.now.floor ≤ version }
    requires has { version ≤ version_of hub.now }
    ensures packets { IfOk result (λ packets. outgoings_of packets.items ≡ changes_from hub.now leaf version) }
    ensures some { OnErr result (0 < length (changes_from hub.now leaf version)) }
{
    numbered_from(alloc, leaf, version, changes_after(version, hub))
}

// Returns the accepted changes after a version, at most 16.
fn changes_after(version: u32, hub: &HubState) -> &[AcceptedChange]
    requires kept { hub.now.floor ≤ version }
    requires has { version ≤ version_of hub.now }
    ensures changes { result.now ≡ take 16 (drop (version - hub.now.floor) hub.now.tail) }
    ensures last { version + length result.now < 2 ^ 32 }
{
    let _last = hub.version();
    let rest = &hub.tail()[(version - hub.floor()) as usize..];
    let count = rest.len().min(HELLO_CHANGES);
    &rest[..count]
}

// Returns these accepted changes to one leaf, numbered on from a version.
fn numbered_from(
    alloc: Global,
    leaf: u16,
    version: u32,
    entries: &[AcceptedChange],
) -> Result<Vec<Outgoing>, NoMemory>
    requires last { version + length entries.now < 2 ^ 32 }
    ensures packets { IfOk result (λ packets. outgoings_of packets.items ≡ numbered_from leaf version entries.now) }
    ensures some { OnErr result (0 < length entries.now) }
{
    let mut packets = Vec::new(alloc);
    let mut number = version;
    for entry in entries {
        number += 1;
        let packet = numbered_packet(alloc, number, entry)?;
        packets.push(Outgoing { to: leaf, packet })?;
    }
    Ok(packets)
}

// Returns all records, in parts of eight, to one leaf.
fn all_parts(alloc: Global, leaf: u16, hub: &HubState) -> Result<Vec<Outgoing>, NoMemory>
    ensures packets { IfOk result (λ packets. outgoings_of packets.items ≡ all_parts hub.now leaf) }
    ensures good { IfOk result (λ packets. AreGood packets.items) }
    ensures few { IfOk result (λ packets. length packets.items ≤ 255) }
{
    let items = hub.items(alloc)?;
    let count = part_count(items.as_slice());
    parts_of(alloc, leaf, hub, items.as_slice(), count)
}

// Returns how many parts these records make.
fn part_count(items: &[Record]) -> u8
    requires few { length items.now ≤ 700 }
    ensures { result ≡ (length items.now - 1) / 8 + 1 }
{
    (items.len().saturating_sub(1) / 8 + 1) as u8
}

// Returns these records of a hub, in `count` parts.
fn parts_of(
    alloc: Global,
    leaf: u16,
    hub: &HubState,
    items: &[Record],
    count: u8,
) -> Result<Vec<Outgoing>, NoMemory>
    requires items { items.now ≡ items_of hub.now.records }
    requires good { AllByRecursion IsGoodRecord items.now }
    requires count { count ≡ part_count hub.now.records }
    ensures packets { IfOk result (λ packets. outgoings_of packets.items ≡ all_parts hub.now leaf) }
    ensures good { IfOk result (λ packets. AreGood packets.items) }
    ensures few { IfOk result (λ packets. length packets.items ≤ 255) }
{
    let mut packets = Vec::new(alloc);
    for place in 0..count {
        let records = part_at(alloc, items, place)?;
        packets.push(Outgoing {
            to: leaf,
            packet: Packet::Part {
                version: hub.version(),
                part: place + 1,
                count,
                records,
            },
        })?;
    }
    Ok(packets)
}

// Returns the records of the part at this place, from 0.
fn part_at(alloc: Global, items: &[Record], place: u8) -> Result<Seq<Record>, NoMemory>
    requires within { 8 * place ≤ length items.now }
    ensures { IfOk result (λ records. records ≡ take 8 (drop (8 * place) items.now)) }
{
    let rest = &items[8 * place as usize..];
    let count = rest.len().min(8);
    Ok(Seq::new(copies_of(alloc, &rest[..count])?))
}
