// A leaf's connection to its hub before the first record.
ghost use Rattle.std.specs.Prelude.{◌≡◌, ◌≤◌, None, OnErr};
ghost use Rattle.handshake.specs.Heirs.{IsToldBy};
ghost use Rattle.peers.specs.declared.link_wire.TheConstants.{MAX_SEALED};

use crate::beat::Beat;
use crate::gone::Gone;
use crate::hub_link::HubLink;
use crate::link_wire::{BOUNDS, LinkWire, WireKeys};
use crate::turn_time::TurnTime;
use bytetext::NoMemory;
use handshake::{
    HandshakeFault, HubAnswer, LeafHears, LeafRights, LeafSide, LinkKeys, Own, is_late,
};
use net::{AnySocket, Connection, Dialled, Way};
use std::alloc::Global;

// A connection to the hub before the first record.
pub(crate) struct Meeting {
    pub(crate) connection: Connection<AnySocket>,
    pub(crate) side: LeafSide,
    // What the process has told about the leaf, if it has.
    pub(crate) said: Option<Said>,
    // The hub's answer, once the hub has shown its code.
    pub(crate) joined: Option<Joined>,
    // Why the connection is to be closed, if it is.
    gone: Option<Gone>,
    // Whether the hub told that it is the heir of the leaf's net.
    pub(crate) told: bool,
    // The second of the monotonic clock at which the connection began.
    began: u64,
    way: Way,
    // If the hub told so, then by these bytes, with a code under the leaf's key.
    ghost told_by: { ∥ IsToldBy side connection.heard.items told ∥₁ },
    // There is room for all that will be sealed.
    ghost wide: { MAX_SEALED ≤ connection.bounds.unsent },
}

// Written by hand, so that the drop is proved once, and not in each function that drops one.
impl Drop for Meeting {
    fn drop(self) {
        let Meeting {
            connection: _,
            side: _,
            said: _,
            joined: _,
            gone: _,
            told: _,
            began: _,
            way: _,
        } = self;
    }
}

// What a leaf says of itself: what stands in its beats, and the number of its last request.
#[derive(Clone, Copy)]
pub(crate) struct Said {
    pub(crate) beat: Beat,
    pub(crate) last: u32,
}

// What a leaf learns from the hub's answer.
#[derive(Clone, Copy)]
pub(crate) struct Joined {
    pub(crate) answer: HubAnswer,
    keys: LinkKeys,
}

impl Meeting {
    // A connection that begins when the monotonic clock shows second `steady`. `side` is to be told how far the leaf has
    // come. Allocates nothing.
    pub(crate) fn begin(alloc: Global, dialled: Dialled, side: LeafSide, steady: u64) -> Meeting
        ensures { result.side ≡ side }
    {
        let Dialled { socket, way } = dialled;
        Meeting {
            connection: Connection::new(alloc, socket, BOUNDS),
            side,
            said: None,
            joined: None,
            gone: None,
            told: false,
            began: steady,
            way,
        }
    }

    // Whether the process is to tell how far the leaf has come: before it answers the greeting, and after it has begun
    // another journal.
    pub(crate) fn wants_own(&self) -> bool {
        self.said.is_none() || self.to_begin_after().is_some()
    }

    // The process tells how far the leaf has come.
    pub(crate) fn tell_own(&mut self, own: &Own) {
        if self.told {
            return;
        }
        if self.side.greeted.is_none() {
            self.side.own = own.progress_for(0);
        }
        self.said = Some(Said {
            beat: Beat::of(own),
            last: own.last(0),
        });
    }

    // Reads from the hub, and answers it, when the monotonic clock shows second `steady`. Returns whether a byte arrived.
    pub(crate) fn meet(&mut self, steady: u64) -> Result<bool, NoMemory>
        ensures memory { OnErr result (self.old.joined ≡ None) }
    {
        if self.joined.is_some() || self.told {
            return Ok(false);
        }
        let came = self.connection.read(1)?;
        for _line in 0..2 {
            if !self.meet_line(steady)? {
                break;
            }
        }
        Ok(came)
    }

    // Reads a line of the hub's, once the process has told how far the leaf has come. Returns whether there may be another.
    fn meet_line(&mut self, steady: u64) -> Result<bool, NoMemory> {
        if self.told {
            return Ok(false);
        }
        if self.said.is_none() {
            self.end_if_late(steady);
            return Ok(false);
        }
        match self.side.hear(self.connection.heard.as_slice()) {
            LeafHears::More => {
                self.end_if_late(steady);
                Ok(false)
            }
            LeafHears::Answers { used, line } => {
                self.connection.take_front(used);
                let _fits = self.connection.tell(line.as_bytes(), b"")?;
                Ok(true)
            }
            LeafHears::Joined { used, answer, keys } => {
                self.connection.take_front(used);
                self.joined = Some(Joined { answer, keys });
                Ok(false)
            }
            LeafHears::Refused(fault) => {
                self.told = fault.is_heir();
                self.gone = Some(Gone::Handshake(fault));
                Ok(false)
            }
        }
    }

    // Marks the connection as one to close if the handshake takes too long.
    fn end_if_late(&mut self, steady: u64) {
        if is_late(self.began, steady) {
            self.gone = Some(Gone::Handshake(HandshakeFault::TooLate));
        }
    }

    // The number of the last request that the hub replied to, if it has shown its code, and the leaf does not know that
    // request.
    pub(crate) fn to_begin_after(&self) -> Option<u32> {
        let (Some(joined), Some(said)) = (self.joined, self.said) else {
            return None;
        };
        let last = joined.answer.progress.last;
        if said.last < last { Some(last) } else { None }
    }

    // Whether the hub has shown its code, and the leaf's journal is not to be begun above another request.
    pub(crate) fn is_over(&self) -> bool {
        self.said.is_some() && self.joined.is_some() && self.to_begin_after().is_none()
    }

    // Why the connection is to be closed, if it is.
    pub(crate) fn gone(&self) -> Option<Gone> {
        match self.gone {
            Some(gone) => Some(gone),
            None if self.connection.is_over => Some(Gone::Ended),
            None => None,
        }
    }

    // The link after the handshake, which begins at second `time`, and what the leaf may do. Its first record is a beat.
    // Returns `None` if the handshake is not over. Allocates nothing.
    pub(crate) fn into_link(self, alloc: Global, time: TurnTime) -> Option<(HubLink, LeafRights)> {
        let (Some(said), Some(joined)) = (self.said, self.joined) else {
            return None;
        };
        let Meeting {
            connection,
            side: _,
            said: _,
            joined: _,
            gone: _,
            told: _,
            began: _,
            way,
        } = self;
        let keys = WireKeys::of_leaf(&joined.keys);
        let mut wire = LinkWire::new(alloc, connection, &keys, time.steady);
        wire.put_beat(said.beat);
        let version = joined.answer.progress.version;
        let link = HubLink::new(alloc, wire, said.beat, version, way, time.now);
        Some((link, joined.answer.may))
    }
}
