// A sealed connection to another bot.
ghost use Rattle.std.specs.Prelude.{◌≡◌, ◌≤◌, true, vec_capacity, vec_len};
ghost use Rattle.net.specs.Connections.{Sends, talk_of};
ghost use Rattle.peers.specs.declared.link_wire.TheConstants.{MAX_SEALED};

use crate::beat::Beat;
use crate::frame_writing::frame_of;
use crate::gone::Gone;
use crate::outbox::Outbox;
use crate::pulse::Pulse;
use bytetext::NoMemory;
use handshake::LinkKeys;
use net::{AnySocket, Bounds, Connection};
use sealing::{Key, Kind, OpenedPiece, Opener, SealFault, Sealer};
use sharewire::{Packet, WireFault};
use std::alloc::Global;

/// The most bytes of frames that wait for one bot: more than a snapshot takes.
pub const MAX_UNSENT: usize = 4_194_304;

// The most sealed bytes that are unsent.
pub(crate) const MAX_SEALED: usize = 262_144;

// The most bytes of a piece that is read, and the most unsent bytes.
pub(crate) const BOUNDS: Bounds = Bounds {
    heard: 4_096,
    unsent: MAX_SEALED,
};

// Nothing more is sealed while this many sealed bytes are unsent.
const SEALED: usize = 65_536;

// While more than this many bytes wait, the connection is not read.
const SLOW: usize = 65_536;

// A sealed connection to another bot.
pub(crate) struct LinkWire {
    pub(crate) connection: Connection<AnySocket>,
    // The frames that wait to be sealed.
    pub(crate) outbox: Outbox,
    pub(crate) sealer: Sealer,
    pub(crate) opener: Opener,
    // The beat that is to be sealed before the frames that wait, if there is one.
    beat: Option<Beat>,
    pulse: Pulse,
    // Why the connection is to be closed, if it is.
    gone: Option<Gone>,
    // There is room for all that is sealed.
    pub(crate) ghost wide: { MAX_SEALED ≤ connection.bounds.unsent },
}

// Written by hand, so that the drop is proved once, and not in each function that drops one.
impl Drop for LinkWire {
    fn drop(self) {
        let LinkWire {
            connection: _,
            outbox: _,
            sealer: _,
            opener: _,
            beat: _,
            pulse: _,
            gone: _,
        } = self;
    }
}

// The keys of a connection, by which end has it.
#[derive(Clone, Copy)]
pub(crate) struct WireKeys {
    // The key of what this end sends.
    pub(crate) sends: Key,
    // The key of what this end reads.
    pub(crate) reads: Key,
}

impl WireKeys {
    // The hub's.
    pub(crate) fn of_hub(keys: &LinkKeys) -> WireKeys
        ensures { result ≡ record { sends = keys.now.to_leaf; reads = keys.now.to_hub } }
    {
        WireKeys {
            sends: keys.to_leaf,
            reads: keys.to_hub,
        }
    }

    // A leaf's.
    pub(crate) fn of_leaf(keys: &LinkKeys) -> WireKeys
        ensures { result ≡ record { sends = keys.now.to_hub; reads = keys.now.to_leaf } }
    {
        WireKeys {
            sends: keys.to_hub,
            reads: keys.to_leaf,
        }
    }
}

impl LinkWire {
    ghost use Rattle.std.specs.Prelude.{◌≡◌, ◌≤◌, ◌+◌, ◌↔◌, ◌||◌, [], Some, None, IsSome, IsTrue, ◌-◌, IfOk, OnOk, OnErr, is_some, is_none, length, nat_lt};
    ghost use Rattle.net.specs.Connections.{Sends, talk_of};
    ghost use Rattle.sealing.specs.Streams.{Opens};
    ghost use Rattle.sharelink.specs.Shapes.{HasGoodRecords};
    ghost use Rattle.sharewire.specs.Frames.{CanBeWritten};
    ghost use Rattle.peers.specs.Sealed.{IsSealed, OpensFrames, Seals, SealsAndSends, waiting, is_slow};
    ghost use Rattle.peers.specs.declared.pulse.TheConstants.{BEAT_EVERY, SILENCE};
    ghost use Rattle.peers.specs.declared.link_wire.TheConstants.{MAX_SEALED, SEALED};
    ghost use Rattle.peers.specs.Tells.{Tells};

    // A connection whose handshake is over at second `steady` of the monotonic clock: what was heard and is not taken are
    // the first records. Allocates nothing.
    pub(crate) fn new(
        alloc: Global,
        connection: Connection<AnySocket>,
        keys: &WireKeys,
        steady: u64,
    ) -> LinkWire
        requires wide { MAX_SEALED ≤ connection.bounds.unsent }
        ensures connection { result.connection ≡ connection }
        ensures outbox { result.outbox ≡ [] }
        ensures sealer { result.sealer ≡ record { key = keys.now.sends; count = 0 } }
        ensures opener { Opens keys.now.reads [] [] result.opener }
        ensures key { result.opener.key ≡ keys.now.reads }
        ensures beat { result.beat ≡ None }
        ensures gone { result.gone ≡ None }
    {
        LinkWire {
            connection,
            outbox: Outbox::new(alloc),
            sealer: Sealer::new(keys.sends),
            opener: Opener::new(alloc, keys.reads),
            beat: None,
            pulse: Pulse::new(steady),
            gone: None,
        }
    }

    // Queues the frame of a packet for the other end. A packet that has no frame is lost. If the frame does not fit, the
    // connection is to be closed.
    pub(crate) fn tell(&mut self, alloc: Global, packet: &Packet) -> Result<(), NoMemory>
        requires good { HasGoodRecords packet.now }
        ensures frame { OnErr result (CanBeWritten packet.now) }
        ensures told { OnOk result (Tells packet.now self.old self.new) }
    {
        let Some(frame) = frame_of(alloc, packet)? else {
            return Ok(());
        };
        if frame.len() > MAX_UNSENT || self.outbox.len() > MAX_UNSENT - frame.len() {
            self.end(Gone::TooSlow);
            return Ok(());
        }
        self.outbox.put(frame.as_slice())
    }

    // Whether a beat is due at second `steady`, and none waits to be sealed.
    pub(crate) fn wants_beat(&self, steady: u64) -> bool
        ensures { IsTrue result ↔ ((self.now.beat ≡ None) × (BEAT_EVERY ≤ steady - self.now.pulse.sealed)) }
    {
        self.beat.is_none() && self.pulse.is_beat_due(steady)
    }

    // Has a beat sealed before the frames that wait.
    pub(crate) fn put_beat(&mut self, beat: Beat)
        ensures { self.new ≡ record self.old { beat = Some beat } }
    {
        self.beat = Some(beat);
    }

    // Seals what waits, as far as few sealed bytes are unsent, and offers the socket the sealed bytes, at second `steady`.
    // If a beat is due, `beat` is sealed first. Returns whether the socket took a byte.
    pub(crate) fn send(&mut self, beat: &Option<Beat>, steady: u64) -> Result<bool, NoMemory>
        ensures sends { IfOk result (λ took. SealsAndSends self.old took self.new) }
        ensures memory { OnErr result (Seals self.old self.new) }
    {
        self.put_if_due(beat, steady);
        self.seal(steady)?;
        Ok(self.offer(steady))
    }

    // Has `beat` sealed before the frames that wait, if one is due.
    fn put_if_due(&mut self, beat: &Option<Beat>, steady: u64)
        ensures same { self.new ≡ record self.old { beat = self.new.beat } }
    {
        if let Some(beat) = beat {
            if self.wants_beat(steady) {
                self.put_beat(*beat);
            }
        }
    }

    // Offers the socket the sealed bytes. Returns whether it took a byte.
    fn offer(&mut self, steady: u64) -> bool
        ensures sends { Sends (talk_of self.old.connection) result (talk_of self.new.connection) }
        ensures outbox { self.new.outbox ≡ self.old.outbox }
        ensures sealer { self.new.sealer ≡ self.old.sealer }
    {
        let took = send_unsent(&mut self.connection);
        if took || self.waiting() == 0 {
            self.pulse.took = steady;
        }
        took
    }

    // Seals the beat and a front of the frames that wait, as far as few sealed bytes are unsent.
    fn seal(&mut self, steady: u64) -> Result<(), NoMemory>
        ensures seals { Seals self.old self.new }
        ensures all { OnOk result (self.new.gone ≡ None → IsSealed self.new) }
    {
        if self.connection.unsent.len() >= SEALED {
            return Ok(());
        }
        self.seal_beat(steady)?;
        if self.outbox.len() == 0 {
            return Ok(());
        }
        self.seal_frames(steady)
    }

    // Seals the beat that waits, if there is one.
    fn seal_beat(&mut self, steady: u64) -> Result<(), NoMemory>
        requires room { length self.old.connection.unsent.items ≤ SEALED }
        ensures seals { Seals self.old self.new }
        ensures few { length self.new.connection.unsent.items ≤ length self.old.connection.unsent.items + 46 }
    {
        let Some(beat) = self.beat else {
            return Ok(());
        };
        let content = beat.content();
        if self
            .sealer
            .seal(&mut self.connection.unsent, Kind::Beat, &content)?
        {
            self.beat = None;
            self.pulse.sealed = steady;
        } else {
            self.end(Gone::NotSealed(SealFault::Spent));
        }
        Ok(())
    }

    // Seals a front of the frames that wait.
    fn seal_frames(&mut self, steady: u64) -> Result<(), NoMemory>
        requires room { length self.old.connection.unsent.items ≤ SEALED + 46 }
        ensures seals { Seals self.old self.new }
        ensures all { OnOk result (self.new.gone ≡ None → IsSealed self.new) }
    {
        let room = SEALED.saturating_sub(self.connection.unsent.len());
        let front = self.outbox.front(room);
        let count = front.len();
        if self.sealer.seal_all(&mut self.connection.unsent, front)? {
            self.outbox.take_front(count);
            self.pulse.sealed = steady;
        } else {
            self.end(Gone::NotSealed(SealFault::Spent));
        }
        Ok(())
    }

    // Reads a piece at second `steady`, and returns what its whole records carry. A fault ends the connection.
    pub(crate) fn open(&mut self, alloc: Global, steady: u64) -> Result<OpenedPiece, NoMemory>
        // Only what was checked.
        ensures opens { IfOk result (λ opened. OpensFrames opened.frames.items self.old self.new) }
        ensures fault { IfOk result (λ opened. IsSome opened.fault → IsSome self.new.gone) }
        ensures outbox { self.new.outbox ≡ self.old.outbox }
    {
        let _came = self.connection.read(1)?;
        let bytes = self.connection.take_heard(alloc);
        let opened = self.opener.feed(alloc, bytes.as_slice())?;
        self.heed(&opened, steady);
        Ok(opened)
    }

    // Notes that records came, and whether there was a fault after them.
    fn heed(&mut self, opened: &OpenedPiece, steady: u64)
        ensures fault { IsSome opened.now.fault → IsSome self.new.gone }
        ensures same { self.new ≡ record self.old { gone = self.new.gone; pulse = self.new.pulse } }
    {
        if let Some(fault) = opened.fault {
            self.end(Gone::NotSealed(fault));
        }
        if !opened.frames.is_empty() || !opened.beats.is_empty() {
            self.pulse.heard = steady;
        }
    }

    // Notes that this end does not listen at second `steady`, so that the other is not silent.
    pub(crate) fn rest(&mut self, steady: u64)
        ensures { self.new ≡ record self.old { pulse = record self.old.pulse { heard = steady } } }
    {
        self.pulse.heard = steady;
    }

    // Marks the connection as one to close if the other end has said nothing for too long at second `steady`.
    pub(crate) fn end_if_silent(&mut self, steady: u64)
        ensures ends { SILENCE ≤ steady - self.old.pulse.heard → IsSome self.new.gone }
        ensures stays { (SILENCE ≤ steady - self.old.pulse.heard → ⊥) → self.new ≡ self.old }
    {
        if self.pulse.is_silent(steady) {
            self.end(Gone::Silent);
        }
    }

    // Marks the connection as one to close if the other end has taken nothing for too long at second `steady`.
    pub(crate) fn end_if_stuck(&mut self, steady: u64)
        ensures ends { SILENCE ≤ steady - self.old.pulse.took → IsSome self.new.gone }
        ensures stays { (SILENCE ≤ steady - self.old.pulse.took → ⊥) → self.new ≡ self.old }
    {
        if self.pulse.is_stuck(steady) {
            self.end(Gone::Stuck);
        }
    }

    // Marks the connection as one to close if the other end has taken nothing for too long at second `steady`, or has said
    // nothing although this end `listened`. Returns why it is to be closed, if it is.
    pub(crate) fn end_if_dead(&mut self, steady: u64, listened: bool) -> Option<Gone> {
        self.end_if_stuck(steady);
        if listened {
            self.end_if_silent(steady);
        }
        self.gone()
    }

    // Marks the connection as one to close. The first reason is the one that is logged.
    pub(crate) fn end(&mut self, gone: Gone)
        ensures gone { IsSome self.new.gone }
        ensures same { self.new ≡ record self.old { gone = self.new.gone } }
    {
        if self.gone.is_none() {
            self.gone = Some(gone);
        }
    }

    // Marks the connection as one to close if the frames that it brought have a fault.
    pub(crate) fn end_at(&mut self, fault: Option<WireFault>)
        ensures same { self.new ≡ record self.old { gone = self.new.gone } }
    {
        if let Some(fault) = fault {
            self.end(Gone::NoFrames(fault));
        }
    }

    // Why the connection is to be closed, if it is.
    pub(crate) fn gone(&self) -> Option<Gone>
        ensures { is_some result ≡ (is_some self.now.gone || self.now.connection.is_over) }
    {
        match self.gone {
            Some(gone) => Some(gone),
            None if self.connection.is_over => Some(Gone::Ended),
            None => None,
        }
    }

    // The number of bytes that wait: those of frames, and sealed ones.
    pub(crate) fn waiting(&self) -> usize
        ensures { result ≡ waiting self.now }
    {
        self.outbox
            .len()
            .saturating_add(self.connection.unsent.len())
    }

    // Whether so much waits that the connection is not to be read.
    pub(crate) fn is_slow(&self) -> bool
        ensures { result ≡ is_slow self.now }
    {
        self.waiting() > SLOW
    }
}

// Offers the socket the unsent bytes. Returns whether it took a byte. Once none is left, gives back their room: a hub has
// a connection for each leaf, mostly at rest.
fn send_unsent(connection: &mut Connection<AnySocket>) -> bool
    ensures sends { Sends (talk_of connection.old) result (talk_of connection.new) }
    ensures bounds { connection.new.bounds ≡ connection.old.bounds }
    ensures frees { result ≡ true → vec_len connection.new.unsent ≡ 0 → vec_capacity connection.new.unsent ≡ 0 }
{
    let took = connection.send();
    if took && connection.unsent.is_empty() {
        connection.unsent.shrink_to_fit();
    }
    took
}
