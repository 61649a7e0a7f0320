// The hub's side of the link.
ghost use Rattle.std.specs.Prelude.{◌≡◌};
ghost use Rattle.live.specs.Present.{is_leaf};

use crate::addresses::{TOKEN, listen, port_of};
use crate::frames::FramePeer;
use crate::peer::Peer;
use bytetext::NoMemory;
use net::{Registry, TcpDoor};
use sharewire::Packet;
use std::alloc::Global;
use std::io;
use std::net::Net;

// How many connections the hub holds before it drops some. If one more comes, it drops the oldest that has not said
// hello.
const MAX_ENDS: usize = 64;

// One connection to the hub.
#[derive(Drop)]
struct End {
    wire: FramePeer,
    // The leaf whose hello was the first packet.
    leaf: Option<u16>,
}

/// The hub's listener and its connections.
pub struct LinkHouse {
    door: TcpDoor,
    ends: Vec<End>,
    leaves: u16,
}

// By hand, so that this is proved once, and not in each crate in which a hub's side of the link ends.
impl Drop for LinkHouse {
    fn drop(self) {
        let LinkHouse {
            door: _,
            ends: _,
            leaves: _,
        } = self;
    }
}

impl LinkHouse {
    ghost use Rattle.std.specs.Prelude.{◌≡◌, ◌<◌, IfOk, IfErr, IsSome, OnErr, OnSome, position, vec_len};
    ghost use Rattle.live.specs.Present.{is_of};
    ghost use Rattle.std.specs.List.{AllByRecursion};
    ghost use Rattle.sharewire.specs.Frames.{CanBeWritten};
    ghost use Rattle.sharelink.specs.Shapes.{HasGoodRecords};

    /// Opens a listener on a port of 127.0.0.1 that the system chooses, for a net of `leaves` leaves. `registry` watches
    /// the listener.
    ///
    /// # Errors
    /// Those of the system, if it cannot listen on a port or cannot wait for it.
    pub fn open<R: Net + AllocGlobal>(
        rt: &R,
        registry: &Registry,
        leaves: u16,
    ) -> io::Result<LinkHouse> {
        Ok(LinkHouse {
            door: listen(rt, registry, 0)?,
            ends: Vec::new(rt.alloc()),
            leaves,
        })
    }

    /// Returns the port on which the hub listens.
    ///
    /// # Errors
    /// Those of the system.
    pub fn port(&self) -> io::Result<u16> {
        port_of(&self.door)
    }

    /// Accepts the connections that wait; `registry` watches them. Returns whether any connection came.
    ///
    /// # Errors
    /// `NoMemory` if memory cannot be allocated.
    pub fn let_in(&mut self, alloc: Global, registry: &Registry) -> Result<bool, NoMemory> {
        for count in 0..MAX_ENDS {
            let Some(arrival) = self.door.let_in(registry, TOKEN) else {
                return Ok(count > 0);
            };
            self.make_place();
            let peer = Peer::accepted(alloc, arrival.socket);
            self.ends.push(End {
                wire: FramePeer::new(alloc, peer),
                leaf: None,
            })?;
        }
        Ok(true)
    }

    // If the hub holds many connections already, drops the oldest that has not said hello.
    fn make_place(&mut self) {
        if self.ends.len() < MAX_ENDS {
            return;
        }
        if let Some(place) = self.ends.iter().position(|end| end.leaf.is_none()) {
            let _oldest = self.ends.remove(place);
        }
    }

    /// Reads what has arrived from each connection. Returns whether anything arrived.
    ///
    /// # Errors
    /// `NoMemory` if memory cannot be allocated; never if nobody is connected.
    pub fn read(&mut self) -> Result<bool, NoMemory>
        ensures memory { OnErr result (0 < vec_len self.old.ends) }
    {
        let mut came = false;
        for end in self.ends.iter_mut() {
            if end.wire.peer.read()? {
                came = true;
            }
        }
        Ok(came)
    }

    /// Returns the number of connections.
    pub fn count(&self) -> usize {
        self.ends.len()
    }

    /// Returns whether `peer` is the other side of one of the hub's connections, and each side has read all that the
    /// other has sent or queued.
    pub fn is_even_with(&self, peer: &Peer) -> bool {
        self.ends.iter().any(|end| end.wire.peer.is_even_with(peer))
    }

    /// Returns the packets that have arrived from the connection at `place`. If its first packet is not the hello of a
    /// leaf, returns none and marks the connection to be closed.
    ///
    /// # Errors
    /// `NoMemory` if memory cannot be allocated; never if no connection is at `place`.
    pub fn take_packets(&mut self, alloc: Global, place: usize) -> Result<Vec<Packet>, NoMemory>
        ensures good { IfOk result (λ packets. AllByRecursion HasGoodRecords packets.items) }
        ensures memory { IfErr result (λ _. place < vec_len self.old.ends) }
    {
        let Some(end) = self.ends.get_mut(place) else {
            return Ok(Vec::new(alloc));
        };
        let packets = end.wire.take_packets(alloc)?;
        let Some(first) = packets.first() else {
            return Ok(packets);
        };
        if end.leaf.is_some() {
            return Ok(packets);
        }
        let Some(leaf) = greeting_of(first, self.leaves) else {
            end.wire.peer.connection.is_over = true;
            return Ok(Vec::new(alloc));
        };
        self.seat_leaf(place, leaf);
        Ok(packets)
    }

    // Notes that the connection at a place is this leaf. If another connection was this leaf, marks that one to be
    // closed.
    fn seat_leaf(&mut self, place: usize, leaf: u16) {
        if let Some(former) = self.end_of(leaf) {
            former.wire.peer.connection.is_over = true;
            former.leaf = None;
        }
        if let Some(end) = self.ends.get_mut(place) {
            end.leaf = Some(leaf);
        }
    }

    fn end_of(&mut self, leaf: u16) -> Option<&mut End>
        ensures { OnSome result (IsSome (position (is_of leaf) self.old.ends.items)) }
    {
        let place = self.place_of(leaf)?;
        self.ends.get_mut(place)
    }

    // The place of the connection that is this leaf.
    fn place_of(&self, leaf: u16) -> Option<usize>
        ensures { result ≡ position (is_of leaf) self.now.ends.items }
    {
        self.ends.iter().position(|end| is_leaf(end.leaf, leaf))
    }

    /// Queues `packet` for the leaf of number `leaf`. Drops it if that leaf has not said hello.
    ///
    /// # Errors
    /// `NoMemory` if memory cannot be allocated; never if the packet has no frame or is dropped.
    pub fn tell(&mut self, alloc: Global, leaf: u16, packet: &Packet) -> Result<(), NoMemory>
        requires good { HasGoodRecords packet.now }
        ensures memory { OnErr result (CanBeWritten packet.now) }
        ensures lost { OnErr result (IsSome (position (is_of leaf) self.old.ends.items)) }
    {
        match self.end_of(leaf) {
            Some(end) => end.wire.tell(alloc, packet),
            None => Ok(()),
        }
    }

    /// Writes to each connection what waits for it, as far as the system takes it. Drops the connections that are over.
    /// Returns whether anything moved.
    pub fn send(&mut self) -> bool {
        let mut moved = false;
        for end in self.ends.iter_mut() {
            if end.wire.peer.send() {
                moved = true;
            }
        }
        let held = self.ends.len();
        self.ends.retain(|end| !end.wire.peer.connection.is_over);
        moved || self.ends.len() < held
    }
}

// Whether a connection is that of a leaf of this number.
fn is_leaf(leaf: Option<u16>, number: u16) -> bool
    ensures { result ≡ is_leaf number leaf }
{
    match leaf {
        Some(leaf) => leaf == number,
        None => false,
    }
}

// The leaf whose hello this packet is; `None` if it is no hello, or that of no leaf.
fn greeting_of(packet: &Packet, leaves: u16) -> Option<u16> {
    match packet {
        Packet::Hello { leaf, .. } => {
            if *leaf >= 1 && *leaf <= leaves {
                Some(*leaf)
            } else {
                None
            }
        }
        Packet::Change { .. }
        | Packet::Part { .. }
        | Packet::Request { .. }
        | Packet::Accepted { .. }
        | Packet::Refused { .. }
        | Packet::BotText { .. } => None,
    }
}
