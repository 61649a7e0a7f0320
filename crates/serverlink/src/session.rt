// One connection to a server.
ghost use Rattle.std.specs.Prelude.{◌≡◌, None, [], length};
ghost use Rattle.streams.specs.Accounts.{nothing_yet};
ghost use Rattle.serverlink.specs.Casings.{unannounced};
ghost use Rattle.serverlink.specs.Questions.{begun as no_questions};
ghost use Rattle.serverlink.specs.Regains.{begun as no_nick};
ghost use Rattle.net.specs.Connections.{handed};
ghost use Rattle.serverlink.specs.Tags.{stage_after, untagged};
ghost use Rattle.serverlink.specs.Vigils.{begun, care_of};
ghost use Rattle.serverlink.specs.Waiting.{wants_of};
ghost use Rattle.serverlink.specs.Wanting.{is_nick_due, with_question};
ghost use Rattle.serverlink.specs.declared.tags.TagStage.TheVariants.{Front};

use crate::casing::Casing;
use crate::questions::WhoQuestions;
use crate::regain::Regain;
use crate::server_wire::ServerWire;
use crate::tags::TagStage;
use crate::vigil::{Care, Vigil};
use net::AnySocket;
use registration::Registration;
use std::alloc::Global;

/// A connection to a server, and what is known about it.
pub struct Session {
    pub(crate) wire: ServerWire<AnySocket>,
    // By the monotonic clock, which nobody sets: a step of the wall clock is no silence.
    pub(crate) vigil: Vigil,
    // The second of the bot's clock at which the connection began.
    pub(crate) began: u64,
    /// Whether the server has welcomed the bot (001).
    pub is_welcomed: bool,
    // How many other nicks the bot has asked for.
    pub(crate) tried: usize,
    // The registration, with the login to the bot's account, if it has one; until it is over.
    pub(crate) login: Option<Registration>,
    // How the server compares names.
    pub(crate) casing: Casing,
    // The bot's nick, and when the process asks for another one.
    pub(crate) regain: Regain,
    // The channels that the process still asks about.
    pub(crate) questions: WhoQuestions,
    // Where in a line the bytes that were taken last ended.
    pub(crate) tags: TagStage,
}

// Written by hand, so that the drop is proved once, and not in each function that drops one.
impl Drop for Session {
    fn drop(self) {
        let Session {
            wire: _,
            vigil: _,
            began: _,
            is_welcomed: _,
            tried: _,
            login: _,
            casing: _,
            regain: _,
            questions: _,
            tags: _,
        } = self;
    }
}

impl Session {
    // A connection over a new socket, which begins at second `now`, and at second `steady` of the monotonic clock.
    // Allocates nothing.
    pub(crate) fn new(alloc: Global, socket: AnySocket, now: u64, steady: u64) -> Session
        requires fresh { socket.account.past ≡ nothing_yet }
        ensures began { result.began ≡ now }
        ensures vigil { result.vigil ≡ begun steady }
        ensures login { result.login ≡ None }
        ensures casing { result.casing ≡ unannounced }
        ensures regain { result.regain ≡ no_nick }
        ensures questions { result.questions ≡ no_questions }
        ensures tags { result.tags ≡ Front }
        ensures unsent { result.wire.unsent ≡ [] }
    {
        Session {
            wire: ServerWire::new(alloc, socket),
            vigil: Vigil::new(steady),
            began: now,
            is_welcomed: false,
            tried: 0,
            login: None,
            casing: Casing::unannounced(),
            regain: Regain::new(),
            questions: WhoQuestions::new(alloc),
            tags: TagStage::Front,
        }
    }

    // Whether the process may send a line of its own at second `now`.
    pub(crate) fn may_tell(&self, now: u64) -> bool {
        self.is_welcomed && self.wire.pace.may(now)
    }

    // Whether the process is due to ask at second `now` whether somebody has the nick `wanted`, while the bot has another
    // one. If it is, notes that it asks.
    pub(crate) fn ask_for_nick(&mut self, wanted: &[u8], now: u64) -> bool
        ensures due { result ≡ is_nick_due self.old wanted.now now }
        ensures asked { self.new ≡ with_question wanted.now now self.old }
    {
        if !self.regain.is_due(self.casing.mapping(), wanted, now) {
            return false;
        }
        self.regain.ask(now);
        true
    }

    // Takes the bytes that were read and not taken yet, without the tags of their lines. Allocates nothing.
    pub(crate) fn take_heard(&mut self, alloc: Global) -> Vec<u8>
        ensures all { result.items ≡ untagged self.old.tags self.old.wire.heard }
        ensures wire { self.new.wire ≡ handed self.old.wire }
        ensures tags { self.new.tags ≡ stage_after self.old.tags self.old.wire.heard }
    {
        let mut bytes = self.wire.connection.take_heard(alloc);
        self.tags.drop_tags(&mut bytes);
        bytes
    }

    // Returns what to do about the connection at second `steady` of the monotonic clock. Returns `Ask` once for each
    // silence.
    pub(crate) fn care(&mut self, steady: u64) -> Care
        ensures care { result ≡ care_of self.old.vigil steady self.old.is_welcomed }
        ensures wants { wants_of self.new ≡ wants_of self.old }
        ensures wire { self.new.wire ≡ self.old.wire }
    {
        let care = self.vigil.care(steady, self.is_welcomed);
        if care == Care::Ask {
            self.vigil.ask();
        }
        care
    }

    /// Returns the second at which the connection began, counted from 1970-01-01 UTC.
    pub fn began(&self) -> u64
        ensures { result ≡ self.now.began }
    {
        self.began
    }

    // Whether the connection has held for long at second `steady` of the monotonic clock.
    pub(crate) fn is_good(&self, steady: u64) -> bool {
        self.is_welcomed && self.vigil.is_good(steady)
    }

    /// Returns the number of unsent bytes.
    pub fn unsent(&self) -> usize
        ensures { result ≡ length self.now.wire.unsent }
    {
        self.wire.connection.unsent.len()
    }
}
