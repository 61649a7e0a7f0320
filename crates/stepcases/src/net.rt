// A net of bots, and the packets that they sent.
ghost use Rattle.std.specs.Prelude.{◌≤◌};
ghost use Rattle.disks.specs.State.{IsSettled};
ghost use Rattle.disks.specs.Memory.{state_of};
ghost use Rattle.sharelink.specs.declared.TheConstants.{MAX_LEAVES};

use crate::seen::Seen;
use bytejournal::{Disks, Returned};
use bytetext::{Failure, NoMemory, TryCopy};
use caselines::{BAD_NUMBER, CaseError};
use disks::{Disk as _, MemDisk};
use sharelink::{BotLink, MAX_LEAVES, Packet};
use std::alloc::Global;
use std::marker::Model;

/// How many leaves a net has: at most `MAX_LEAVES`.
#[derive(Drop)]
pub struct Leaves {
    count: u16,
}

impl Model for Leaves {
    ghost use Rattle.std.specs.Prelude.{ℕ, ◌≤◌};
    ghost use Rattle.sharelink.specs.declared.TheConstants.{MAX_LEAVES};

    ghost Value = { ℕ };

    ghost view = { λ l. l.count };

    ghost invariant = { λ l. l.count ≤ MAX_LEAVES };
}

impl Leaves {
    ghost use Rattle.std.specs.Prelude.{◌≡◌, ◌≤◌};
    ghost use Rattle.sharelink.specs.declared.TheConstants.{MAX_LEAVES};

    /// Makes a count of `count` leaves. Returns `BAD_NUMBER` above `MAX_LEAVES`.
    pub fn new(count: u16) -> Result<Leaves, CaseError> {
        if count > MAX_LEAVES {
            return Err(BAD_NUMBER);
        }
        Ok(Leaves { count })
    }

    /// Returns the number of leaves.
    pub fn count(&self) -> u16
        ensures count { result ≡ self.now }
        ensures few { result ≤ MAX_LEAVES }
    {
        self.count
    }
}

/// A packet whose records each have a spelling: one that was sent or read from bytes.
#[derive(Drop)]
pub struct Good {
    packet: Packet,
}

impl Model for Good {
    ghost use Rattle.sharewire.specs.declared.packet.Packet.{Packet};
    ghost use Rattle.sharelink.specs.Shapes.{HasGoodRecords};

    ghost Value = { Packet };

    ghost view = { λ g. g.packet };

    ghost invariant = { λ g. HasGoodRecords g.packet };
}

impl Good {
    ghost use Rattle.std.specs.Prelude.{◌≡◌};
    ghost use Rattle.sharewire.specs.Frames.{IsGoodPacket};
    ghost use Rattle.sharelink.specs.Shapes.{HasGoodRecords};

    /// Copies `packet`, which was read from bytes.
    #[tactic(auto, using(crate::proofs::Shapes::good_records))]
    pub fn read(alloc: Global, packet: &Packet) -> Result<Good, NoMemory>
        requires { IsGoodPacket packet.now }
    {
        Good::copy_of(alloc, packet)
    }

    /// Copies `packet`.
    pub fn copy_of(alloc: Global, packet: &Packet) -> Result<Good, NoMemory>
        requires { HasGoodRecords packet.now }
    {
        Ok(Good {
            packet: packet.copy(alloc)?,
        })
    }

    /// Returns the packet.
    pub fn packet(&self) -> &Packet
        ensures { HasGoodRecords result.now }
    {
        &self.packet
    }
}

/// A packet that was sent.
#[derive(Drop)]
pub struct Sent {
    /// The addressee's number.
    pub to: u16,
    /// What was sent.
    pub packet: Good,
}

/// A bot's link, or its disks if no link could be opened on them.
#[derive(Drop)]
pub enum LinkPlace {
    /// The link.
    Linked(BotLink<MemDisk>),
    /// The disks.
    Apart(Disks<MemDisk>),
}

/// A net.
#[derive(Drop)]
pub struct Net {
    /// How many leaves there are.
    pub leaves: Leaves,
    /// The bots, by their numbers.
    pub bots: Vec<LinkPlace>,
    /// All packets that were ever sent, in order.
    pub packets: Vec<Sent>,
    /// What was seen of the bots' versions and records.
    pub seen: Seen,
}

impl Net {
    /// Makes a net without bots. Does not allocate.
    pub fn without_bots(alloc: Global) -> Net {
        Net {
            leaves: Leaves { count: 0 },
            bots: Vec::new(alloc),
            packets: Vec::new(alloc),
            seen: Seen::nothing(alloc),
        }
    }

    /// Creates a hub and these `leaves`, all of them new.
    pub fn new(alloc: Global, leaves: Leaves) -> Result<Net, NoMemory> {
        let mut bots = Vec::new(alloc);
        let count = leaves.count();
        for number in 0..count + 1 {
            bots.push(new_bot(alloc, number, count)?)?;
        }
        Ok(Net {
            leaves,
            bots,
            packets: Vec::new(alloc),
            seen: Seen::nothing(alloc),
        })
    }
}

// Creates a new bot.
fn new_bot(alloc: Global, number: u16, leaves: u16) -> Result<LinkPlace, NoMemory>
    requires numbered { number ≤ leaves }
    requires few { leaves ≤ MAX_LEAVES }
{
    let first = MemDisk::new(alloc);
    let second = MemDisk::new(alloc);
    match BotLink::create(alloc, first, second, number, leaves) {
        Ok(link) => Ok(LinkPlace::Linked(link)),
        Err(returned) => Ok(LinkPlace::Apart(kept_disks(returned)?)),
    }
}

// Returns the disks on which no link was made, or `NoMemory` if memory ran out.
fn kept_disks(returned: Returned<MemDisk>) -> Result<Disks<MemDisk>, NoMemory> {
    match returned.error {
        Failure::Refused(_) => Ok(returned.disks),
        Failure::NoMemory => Err(NoMemory),
    }
}

/// Takes the disks from `place`, as a crash leaves them.
pub fn disks_of(place: LinkPlace) -> Disks<MemDisk>
    ensures first { IsSettled (state_of result.first) }
    ensures second { IsSettled (state_of result.second) }
{
    let mut disks = match place {
        LinkPlace::Linked(link) => link.into_disks(),
        LinkPlace::Apart(disks) => disks,
    };
    disks.first.reopen();
    disks.second.reopen();
    disks
}
