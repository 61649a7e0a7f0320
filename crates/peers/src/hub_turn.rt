// Which of a leaf's hubs is tried, and when.
ghost use Rattle.std.specs.Prelude.{◌≡◌};

use net::Dialling;

// Which of a leaf's hubs is tried next, or is connected, and when the next try is due. After a good link is lost its hub
// is tried once more: the hub may only have been started again. After a try that failed the next hub is tried.
pub(crate) struct HubTurn {
    pub(crate) dialling: Dialling,
    // The number of hubs.
    hubs: usize,
    // Whether the connection was good.
    is_good: bool,
    ghost counted: { dialling.servers ≡ hubs },
    ghost noted: { dialling.good ≡ is_good },
}

// Written by hand, so that the drop is proved once, and not in each function that drops one.
impl Drop for HubTurn {
    fn drop(self) {
        let HubTurn {
            dialling: _,
            hubs: _,
            is_good: _,
        } = self;
    }
}

impl HubTurn {
    ghost use Rattle.std.specs.Prelude.{◌≡◌, ◌<◌, ◌≤◌, false, max};
    ghost use Rattle.bytetext.specs.declared.moment.TheConstants.{MOMENTS_END};
    ghost use Rattle.net.specs.Dials.{good};
    ghost use Rattle.net.specs.declared.redial.TheConstants.{FIRST_WAIT};
    ghost use Rattle.peers.specs.Moving.{next_hub};

    // The first of these hubs is due at once; no hub counts as one. `number` is the bot's number, and `most` the longest
    // wait in seconds.
    pub(crate) fn new(number: u16, most: u16, hubs: usize) -> HubTurn
        requires most { FIRST_WAIT ≤ most }
        ensures first { result.dialling.place ≡ 0 }
        ensures count { result.dialling.servers ≡ max hubs 1 }
        ensures most { result.dialling.waits.most ≡ most }
    {
        let hubs = hubs.max(1);
        HubTurn {
            dialling: Dialling::new(number, most, hubs),
            hubs,
            is_good: false,
        }
    }

    // The other end has shown that it is a hub of the leaf's net.
    pub(crate) fn good(&mut self)
        ensures { self.new.dialling ≡ good self.old.dialling }
    {
        self.dialling.good();
        self.is_good = true;
    }

    // A try failed at second `now`, or the connection was lost then.
    pub(crate) fn lost(&mut self, now: u64)
        requires moment { now < MOMENTS_END }
        ensures next { self.new.dialling.place ≡ next_hub self.old.dialling }
        ensures again { self.new.dialling.good ≡ false }
        ensures count { self.new.dialling.servers ≡ self.old.dialling.servers }
        ensures later { now < self.new.dialling.waits.due }
    {
        let place = self.dialling.place();
        self.dialling.lost(now);
        if self.is_good {
            self.dialling.relist(self.hubs, place);
        }
        self.is_good = false;
    }
}
