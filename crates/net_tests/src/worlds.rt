// All bots and their packets: `botworld`.
use crate::nets::{new_bots, no_procs};
use botcore::BotEvent;
use botjournal::LAYOUT;
use botworld::{Outcome, Step, Transcript, World};
use bytetext::TryCopy;
use disks::MemDisk;
use procs::Nobody;
use sharelink::Packet;
use std::alloc::Global;
use std::slice;

// Returns whether `count` bots, each in a net of `leaves` leaves, are refused as a world, and all are handed back.
fn is_refused(alloc: Global, count: u16, leaves: u16) -> bool {
    let Ok(bots) = new_bots(alloc, count, leaves) else {
        return false;
    };
    match World::new(alloc, bots, no_procs(alloc)) {
        Ok(_) => false,
        Err(refused) => refused.why.code() == "O1" && refused.bots.len() == usize::from(count),
    }
}

#[test]
fn a_world_has_a_hub_and_all_leaves_of_it(rt: HostRuntime) {
    assert!(rt; is_refused(rt.alloc(), 0, 0));
    assert!(rt; is_refused(rt.alloc(), 2, 2));
    assert!(rt; is_refused(rt.alloc(), 1, 1));
}

// Makes a packet that nobody sent.
fn made_up() -> Packet {
    Packet::Hello {
        layout: LAYOUT,
        leaf: 1,
        version: 0,
    }
}

// Makes the step by which the hub receives `packet`.
fn receiving(packet: Packet) -> Step {
    let event = BotEvent::Receive(packet);
    Step::At { bot: 0, event }
}

// Creates a hub without leaves.
fn lone_hub(alloc: Global) -> Option<World<Nobody, MemDisk, Nobody>> {
    match new_bots(alloc, 1, 0) {
        Ok(bots) => World::new(alloc, bots, no_procs(alloc)).ok(),
        Err(_) => None,
    }
}

// Returns what comes of `step` at a lone hub.
fn told(alloc: Global, step: &Step) -> Option<Transcript> {
    let mut world = lone_hub(alloc)?;
    Some(world.run(alloc, slice::from_ref(step)))
}

// Returns whether the only outcome is that there is no such packet.
fn is_no_packet(transcript: &Transcript) -> bool {
    match transcript.outcomes.as_slice() {
        [Outcome::NoSuchPacket] => !transcript.cut,
        _ => false,
    }
}

#[test]
fn a_packet_that_nobody_sent_is_none(rt: HostRuntime) {
    let step = receiving(made_up()).copy(rt.alloc()).expect(&rt, "memory");
    let transcript = told(rt.alloc(), &step).expect(&rt, "memory");
    let twin = transcript.copy(rt.alloc()).expect(&rt, "memory");
    assert!(rt; is_no_packet(&transcript) && is_no_packet(&twin));
    assert!(rt; Outcome::NoSuchPacket.code() == Some("O3"));
}
