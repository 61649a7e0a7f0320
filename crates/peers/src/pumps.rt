// When a leaf is to say hello.
ghost use Rattle.std.specs.Prelude.{◌≡◌, ◌≤◌, ◌↔◌, IsTrue};
ghost use Rattle.peers.specs.Hellos.{answered, applied, asked, begun, noted, said, sent};

use sharelink::{HELLO_CHANGES, LinkNote};

/// A leaf that has nothing to ask waits this many seconds for its next hello.
pub const REST: u64 = 30;

/// A leaf waits this many seconds for its hub's answer to a request.
pub const AGAIN: u64 = 5;

/// When a leaf is to say hello to its hub:
///
/// - at once when it is linked, when a request was answered, when it has put the hub's records in place, when a new
///   request was sent and more changes wait, and when it has applied 16 changes since its last hello, which are all
///   that a hub sends in answer to one hello;
/// - a second after its last hello when something is asked, or a change came too early;
/// - 5 seconds after its last hello when any other request was sent with it;
/// - otherwise 30 seconds after its last hello.
///
/// So a leaf says hello at most once a second, except after a hello that led to something.
#[derive(Clone, Copy)]
pub struct Pumps {
    /// The second at which the next hello is due.
    pub due: u64,
    /// The second of the last hello.
    pub last: u64,
    /// The version in the last hello.
    pub version: u32,
    /// The number of the newest request that was sent, 0 before any.
    pub request: u32,
}

impl Pumps {
    /// Starts without any hello said: the first is due at once.
    pub fn new() -> Pumps
        ensures { result ≡ begun }
    {
        Pumps {
            due: 0,
            last: 0,
            version: 0,
            request: 0,
        }
    }

    /// Whether a hello is due at second `now`.
    pub fn is_due(self, now: u64) -> bool
        ensures { IsTrue result ↔ (self.due ≤ now) }
    {
        self.due <= now
    }

    /// Notes that the leaf said hello with `version` at second `now`.
    pub fn say(&mut self, version: u32, now: u64)
        ensures { self.new ≡ said version now self.old }
    {
        *self = Pumps {
            due: now.saturating_add(REST),
            last: now,
            version,
            request: self.request,
        };
    }

    /// Notes that requests were sent with the hello, the newest numbered `request`. `more` says whether more changes
    /// wait.
    pub fn send(&mut self, request: u32, more: bool)
        ensures { self.new ≡ sent request more self.old }
    {
        if more && self.request < request {
            self.due = 0;
        } else {
            self.due = self.due.min(self.last.saturating_add(AGAIN));
        }
        self.request = request;
    }

    /// Notes that something is asked, or that a change came too early: the next hello is due a second after the last.
    pub fn ask(&mut self)
        ensures { self.new ≡ asked self.old }
    {
        self.due = self.due.min(self.last.saturating_add(1));
    }

    /// Notes that the connection begins, that the last hello led to something, or that a request was answered: the
    /// next hello is due at once.
    pub fn go_on(&mut self)
        ensures { self.new ≡ answered self.old }
    {
        self.due = 0;
    }

    /// Notes that the leaf is at `version` now.
    pub fn apply(&mut self, version: u32)
        ensures { self.new ≡ applied version self.old }
    {
        if version.saturating_sub(self.version) as usize >= HELLO_CHANGES {
            self.due = 0;
        }
    }

    /// Notes what the `note` of a leaf's step means for its hellos. `more` says whether more changes wait than are out.
    pub fn note(&mut self, note: &LinkNote, more: bool)
        ensures { self.new ≡ noted note.now more self.old }
    {
        match note {
            LinkNote::Sent(request) => self.send(*request, more),
            LinkNote::Queued | LinkNote::Early => self.ask(),
            LinkNote::Accepted(_) | LinkNote::Refused(_) | LinkNote::Installed(_) => self.go_on(),
            LinkNote::Applied(version) => self.apply(*version),
            LinkNote::Idle
            | LinkNote::Served(_)
            | LinkNote::Old
            | LinkNote::Repeat
            | LinkNote::Gap
            | LinkNote::Kept(_)
            | LinkNote::Compacted
            | LinkNote::Relayed
            | LinkNote::Text { from: _, text: _ }
            | LinkNote::Stray
            | LinkNote::Restarted(_) => {}
        }
    }
}
