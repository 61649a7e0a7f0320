// A linked leaf of the hub.
ghost use Rattle.std.specs.Prelude.{◌≡◌, ◌≤◌, true, false, [], IfOk, OnOk, OnErr, not, ◌&&◌, ◌||◌, is_some};
ghost use Rattle.std.specs.List.{AllByRecursion, count_by, list_all};
ghost use Rattle.sharelink.specs.Shapes.{HasGoodRecords};
ghost use Rattle.sharewire.specs.Frames.{CanBeWritten};
ghost use Rattle.handshake.specs.declared.progress.LeafRights.TheVariants.{Persons, Reads};
ghost use Rattle.peers.specs.Hearing.{HandsOn, HeedsBeats, ReadsFrames};
ghost use Rattle.peers.specs.Picking.{is_hello, is_nameless, is_ours, is_request, picked, said_by};
ghost use Rattle.peers.specs.Speakers.{is_own};
ghost use Rattle.peers.specs.Tells.{TellsLeaf, is_held};

use crate::beat::{Beat, Beats, last_of};
use crate::frame_reader::FrameReader;
use crate::gone::Gone;
use crate::link_wire::LinkWire;
use crate::picking::picked;
use crate::speaker::is_said_by;
use bytetext::NoMemory;
use handshake::{DrawnNumber, HeldParts, LeafRights};
use net::Way;
use sharewire::Packet;
use std::alloc::Global;

// A linked leaf.
pub(crate) struct Seat {
    pub(crate) wire: LinkWire,
    pub(crate) reader: FrameReader,
    pub(crate) leaf: u16,
    // The number of its folder.
    pub(crate) made: DrawnNumber,
    pub(crate) may: LeafRights,
    // The layout that its last hello on this connection said, if it has said one.
    pub(crate) layout: Option<u8>,
    // The version that it said last.
    pub(crate) version: u32,
    // The parts of a snapshot that it holds, as its last beat says.
    pub(crate) held: HeldParts,
    // Its last beat, if the hub has not compared it with its own records yet.
    pub(crate) beat: Option<Beat>,
    // Which of the hub's tokens names it.
    pub(crate) slot: usize,
    // Its address, or that it came through a tunnel.
    pub(crate) way: Way,
    // The second at which it was linked.
    pub(crate) since: u64,
}

// Written by hand, so that the drop is proved once, and not in each function that drops one.
impl Drop for Seat {
    fn drop(self) {
        let Seat {
            wire: _,
            reader: _,
            leaf: _,
            made: _,
            may: _,
            layout: _,
            version: _,
            held: _,
            beat: _,
            slot: _,
            way: _,
            since: _,
        } = self;
    }
}

impl Seat {
    // Reads a piece at second `steady` of the monotonic clock, unless too much waits for the leaf, and returns the packets
    // that are whole now and are handed on. Bytes that are no records or no frames, or a packet that this leaf may not
    // send, end the connection; after such a packet it returns none.
    pub(crate) fn hear(&mut self, alloc: Global, steady: u64) -> Result<Vec<Packet>, NoMemory>
        ensures good { IfOk result (λ packets. AllByRecursion HasGoodRecords packets.items) }
        // A leaf speaks for itself alone.
        ensures own { IfOk result (λ packets. list_all (is_own self.old.leaf) packets.items ≡ true) }
        // Of the hellos only the last, no request of a leaf that may only read, and none in nobody's name of a leaf that
        // asks for persons alone.
        ensures hello { IfOk result (λ packets. count_by is_hello packets.items ≤ 1) }
        ensures reads { IfOk result (λ packets. self.old.may ≡ Reads → count_by is_request packets.items ≡ 0) }
        ensures persons { IfOk result (λ packets. self.old.may ≡ Persons → count_by is_nameless packets.items ≡ 0) }
        // No request of a leaf that has said no hello of this hub's layout.
        ensures layout { IfOk result (λ packets. is_ours self.old.layout ≡ false → count_by is_hello packets.items ≡ 0
            → count_by is_request packets.items ≡ 0) }
        // Only what was checked.
        ensures checked { IfOk result (λ packets. HandsOn self.old packets.items self.new) }
    {
        if self.wire.is_slow() || self.wire.gone().is_some() {
            self.wire.rest(steady);
            return Ok(Vec::new(alloc));
        }
        let opened = self.wire.open(alloc, steady)?;
        self.heed_beats(opened.beats.as_slice());
        self.read_frames(alloc, opened.frames.as_slice())
    }

    // Notes what the last of these beats says.
    fn heed_beats(&mut self, contents: &[u8])
        ensures heeds { HeedsBeats contents.now self.old self.new }
        ensures wire { self.new.wire ≡ record self.old.wire { gone = self.new.wire.gone } }
        ensures reader { self.new.reader ≡ self.old.reader }
        ensures leaf { self.new.leaf ≡ self.old.leaf }
        ensures may { self.new.may ≡ self.old.may }
        ensures layout { self.new.layout ≡ self.old.layout }
    {
        match last_of(contents) {
            Beats::Nothing => {}
            Beats::Last(beat) => {
                self.version = beat.version;
                self.held = beat.held;
                self.beat = Some(beat);
            }
            Beats::Bad => self.wire.end(Gone::BadBeat),
        }
    }

    // Reads frames.
    fn read_frames(&mut self, alloc: Global, frames: &[u8]) -> Result<Vec<Packet>, NoMemory>
        ensures good { IfOk result (λ packets. AllByRecursion HasGoodRecords packets.items) }
        ensures reads { IfOk result (λ packets. ReadsFrames frames.now self.old packets.items self.new) }
    {
        let feed = self.reader.feed(alloc, frames)?;
        self.wire.end_at(feed.fault);
        if !are_said_by(feed.packets.as_slice(), self.leaf) {
            self.wire.end(Gone::OtherSpeaker);
            return Ok(Vec::new(alloc));
        }
        self.note_version(feed.packets.as_slice());
        self.pick(alloc, feed.packets.into_vec())
    }

    // Returns which of these packets are handed on, and notes the layout in the last hello among them.
    fn pick(&mut self, alloc: Global, packets: Vec<Packet>) -> Result<Vec<Packet>, NoMemory>
        ensures picked { IfOk result (λ kept. kept.items ≡ picked self.old.may self.old.layout packets.items) }
        ensures said { OnOk result (self.new.layout ≡ said_by self.old.layout packets.items) }
        ensures same { self.new ≡ record self.old { layout = self.new.layout } }
    {
        picked(alloc, packets, self.may, &mut self.layout)
    }

    // Notes the version in the last hello among these packets.
    fn note_version(&mut self, packets: &[Packet])
        ensures same { self.new ≡ record self.old { version = self.new.version } }
    {
        if let Some(version) = version_in(packets) {
            self.version = version;
        }
    }

    // Queues a packet for the leaf, unless it is a part that the leaf holds.
    pub(crate) fn tell(&mut self, alloc: Global, packet: &Packet) -> Result<(), NoMemory>
        requires good { HasGoodRecords packet.now }
        ensures frame { OnErr result (CanBeWritten packet.now) }
        ensures told { OnOk result (TellsLeaf packet.now self.old self.new) }
    {
        if is_held(&self.held, packet) {
            return Ok(());
        }
        self.wire.tell(alloc, packet)
    }

    // Whether the leaf may have more to read at once.
    pub(crate) fn is_busy(&self) -> bool {
        self.wire.connection.may_give() && !self.wire.is_slow() && self.wire.gone().is_none()
    }
}

// Whether a packet is a part of a snapshot that a leaf holds.
fn is_held(held: &HeldParts, packet: &Packet) -> bool
    ensures { result ≡ is_held held.now packet.now }
{
    match packet {
        Packet::Part { version, part, .. } => held.has(*version, *part),
        Packet::Hello { .. }
        | Packet::Change { .. }
        | Packet::Request { .. }
        | Packet::Accepted { .. }
        | Packet::Refused { .. }
        | Packet::BotText { .. } => false,
    }
}

// The version in the last hello among these packets.
fn version_in(packets: &[Packet]) -> Option<u32> {
    let mut last = None;
    for packet in packets {
        if let Packet::Hello { version, .. } = packet {
            last = Some(*version);
        }
    }
    last
}

// Whether all packets name this leaf as their sender.
fn are_said_by(packets: &[Packet], leaf: u16) -> bool
    ensures { result ≡ list_all (is_own leaf) packets.now }
{
    packets.iter().all(|packet| is_own(packet, leaf))
}

fn is_own(packet: &Packet, leaf: u16) -> bool
    ensures { result ≡ is_own leaf packet.now }
{
    is_said_by(packet, leaf)
}
