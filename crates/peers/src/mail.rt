// A bot's connections to the others, with an account of what they were told.
ghost use Rattle.std.specs.Prelude.{◌≡◌, ◌∷◌, [], OnOk, OnErr};
ghost use Rattle.sharewire.specs.Frames.{CanBeWritten};
ghost use Rattle.sharelink.specs.Shapes.{HasGoodRecords};
ghost use Rattle.peers.specs.Linked.{Reaches};
ghost use Rattle.peers.specs.Tells.{TellsOne};

use crate::account::MailAccount;
use crate::links::Links;
use bytetext::NoMemory;
use sharelink::Outgoing;
use std::alloc::Global;

/// A bot's connections to the others of its net, with an account of all packets that they were told: no packet gets to
/// another bot but by [`Mail::tell`].
pub struct Mail {
    /// The connections.
    pub links: Links,
    /// What they were told.
    pub account: MailAccount,
}

// Written by hand, so that the drop is proved once, and not in each function that drops one.
impl Drop for Mail {
    fn drop(self) {
        let Mail {
            links: _,
            account: _,
        } = self;
    }
}

impl Mail {
    /// Creates the account of `links`, which were told nothing yet. Allocates nothing.
    pub fn new(links: Links) -> Mail
        ensures links { result.links ≡ links }
        ensures told { result.account.told ≡ [] }
    {
        Mail {
            links,
            account: MailAccount::new(),
        }
    }

    /// Queues the packet of `outgoing` for its recipient. If the recipient is not linked, the packet is lost.
    /// A leaf's hello counts as said at second `now`.
    ///
    /// # Errors
    /// `NoMemory` if an allocation fails: never if the recipient is not linked, nor if the packet has no frame.
    pub fn tell(&mut self, alloc: Global, outgoing: &Outgoing, now: u64) -> Result<(), NoMemory>
        requires good { HasGoodRecords outgoing.now.packet }
        ensures memory { OnErr result (Reaches outgoing.now.to self.old.links) }
        ensures frame { OnErr result (CanBeWritten outgoing.now.packet) }
        ensures told { OnOk result (TellsOne outgoing.now.to outgoing.now.packet self.old.links self.new.links) }
        ensures noted { OnOk result (self.new.account.told ≡ outgoing.now ∷ self.old.account.told) }
    {
        self.links.tell(alloc, outgoing, now)?;
        self.account.note(outgoing);
        Ok(())
    }
}
