// The packets that a leaf sends, all of them to the hub.
ghost use Rattle.std.specs.Prelude.{◌≡◌, ◌∷◌, IfOk};
ghost use Rattle.botjournal.specs.declared.TheConstants.{LAYOUT};
ghost use Rattle.sharelink.specs.Calls.{note_of as told_of};
ghost use Rattle.sharelink.specs.LeafLinks.{hello_packet, request_packet, request_packets, again_note};

use crate::answer::Outgoing;
use crate::note::LinkNote;
use botjournal::{LAYOUT, Request};
use bytetext::{NoMemory, TryCopy};
use sharewire::Packet;
use std::alloc::Global;
use userfile::Change;

/// Returns a hello, and `requests` in their order.
pub(crate) fn hello_and_requests(
    alloc: Global,
    leaf: u16,
    version: u32,
    requests: &[Request],
) -> Result<Vec<Outgoing>, NoMemory>
    ensures { IfOk result (λ packets. packets.items ≡ hello_packet leaf version ∷ request_packets leaf requests.now) }
{
    let mut packets = vec![in alloc; hello_packet(leaf, version)]?;
    for request in requests {
        packets.push(request_packet(alloc, leaf, request.number, &request.change)?)?;
    }
    Ok(packets)
}

// Returns a hello, with the layout of the journal and the leaf's version.
fn hello_packet(leaf: u16, version: u32) -> Outgoing
    ensures { result ≡ hello_packet leaf version }
{
    Outgoing {
        to: 0,
        packet: Packet::Hello {
            layout: LAYOUT,
            leaf,
            version,
        },
    }
}

/// Returns a request for `change`, under the number `request`.
pub(crate) fn request_packet(
    alloc: Global,
    leaf: u16,
    request: u32,
    change: &Change,
) -> Result<Outgoing, NoMemory>
    ensures { IfOk result (λ outgoing. outgoing ≡ request_packet leaf request change.now) }
{
    let change = change.copy(alloc)?;
    Ok(Outgoing {
        to: 0,
        packet: Packet::Request {
            leaf,
            request,
            change,
        },
    })
}

/// Returns the note for `requests` that go out again: the highest number, or that nothing waits. Allocates nothing.
pub(crate) fn again_note(requests: &[Request]) -> LinkNote
    ensures { told_of result ≡ again_note requests.now }
{
    match requests.last() {
        Some(request) => LinkNote::Sent(request.number),
        None => LinkNote::Idle,
    }
}
