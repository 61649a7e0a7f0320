// The other bots, and who asked for the changes that wait at a leaf.
ghost use Rattle.std.specs.Prelude.{◌≡◌, [], None, is_some};

use administrators::Asks;
use bytetext::NoMemory;
use peers::{Links, Mail};
use sharelink::Outgoing;
use sharewire::Packet;
use std::alloc::Global;
use upkeep::HandOver;
use watching::Mailbox;

// The connections to the other bots, and who asked for the changes that wait here.
pub(crate) struct Others {
    pub(crate) mail: Mail,
    pub(crate) asks: Asks,
    // At a hub that is being handed over: to whom.
    pub(crate) handing: Option<HandOver>,
}

// Written by hand, so that the drop is proved once, and not in each function that drops one.
impl Drop for Others {
    fn drop(self) {
        let Others {
            mail: _,
            asks: _,
            handing: _,
        } = self;
    }
}

impl Others {
    // Nobody has asked for anything yet, and nobody was told anything. Allocates nothing.
    pub(crate) fn new(alloc: Global, links: Links) -> Others
        ensures links { result.mail.links ≡ links }
        ensures told { result.mail.account.told ≡ [] }
        ensures nobody { result.asks.askers.items ≡ [] }
        ensures stays { result.handing ≡ None }
    {
        Others {
            mail: Mail::new(links),
            asks: Asks::new(alloc),
            handing: None,
        }
    }

    // Whether the bot is a hub that is being handed over.
    pub(crate) fn hands_over(&self) -> bool
        ensures { result ≡ is_some self.now.handing }
    {
        self.handing.is_some()
    }

    // Whether the bot is a hub that accepts no change now: it is in doubt, or being handed over.
    pub(crate) fn accepts_none(&self) -> bool {
        self.hands_over() || self.mail.links.doubt().is_some()
    }

    // Whether the bot, for which so many changes wait, is to pump at second `now`: at a hub only for these, and never if it
    // accepts no change. Then the changes that its procs asked for wait.
    pub(crate) fn is_pump_due(&self, waiting: usize, now: u64) -> bool {
        let links = &self.mail.links;
        !self.accepts_none() && links.is_pump_due(now) && (waiting > 0 || links.is_leaf())
    }
}

// The only packets of other bots that a process takes, those that its connections hand on, and the only way by which it
// tells other bots anything.
impl Mailbox for Others {
    ghost use Rattle.peers.specs.Tells.{TakesPackets, TellsOne};

    ghost gives = { λ old packets new. TakesPackets old.mail.links packets new.mail.links };

    ghost posts = { λ outgoing old new.
        TellsOne outgoing.to outgoing.packet old.mail.links new.mail.links × (new.asks ≡ old.asks) };

    ghost told = { λ others. others.mail.account.told };

    fn take_packets(&mut self, alloc: Global) -> Result<Vec<Packet>, NoMemory> {
        self.mail.links.take_packets(alloc)
    }

    fn tell(&mut self, alloc: Global, outgoing: &Outgoing, now: u64) -> Result<(), NoMemory> {
        self.mail.tell(alloc, outgoing, now)
    }
}
