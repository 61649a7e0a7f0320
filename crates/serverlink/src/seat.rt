// A channel on which the bot is to be.
ghost use Rattle.std.specs.Prelude.{◌≡◌};
ghost use Rattle.net.specs.Waits.{lost as lost_wait};
ghost use Rattle.serverlink.specs.Seats.{begun, invited, is_after, is_due, is_sooner, joined, later, lost, not_let_in, rekeyed, retried, same_key, taken_off, waiting, welcomed};

use crate::vigil::GOOD;
use bytetext::Text;
use net::Redial;
use std::marker::Model;

/// The longest wait after the bot was taken off a channel, or after the server did not let it in, in seconds.
pub const LONGEST_WAIT: u16 = 300;

/// How many seconds after the process last asked to join a channel it asks again, if the server has not answered.
pub const ASK_AGAIN: u64 = 60;

/// How many seconds after an invitation the process asks to join the channel, unless it was due sooner.
pub const INVITED: u64 = 5;

/// A channel on which the bot is to be: its key, whether the bot is on it, and when the process asks to join it.
///
/// The process asks as soon as the server has welcomed the bot, and then each minute while the bot is not on the
/// channel. After a KICK, after a PART in the bot's name, and each time that the server does not let the bot in, it asks
/// after a wait instead. That wait grows from 2 to 300 seconds, until the bot has stayed for two minutes. An invitation
/// shortens the wait that it comes in to five seconds; a refusal after it begins the next wait. The process asks nothing
/// before the server has welcomed the bot.
///
/// The process itself leaves a channel only if the bot is no longer to be there, and then the channel has no seat. So
/// each PART that a seat hears of is one that the process did not ask for.
#[derive(Drop)]
pub struct Seat {
    channel: Text,
    key: Option<Text>,
    is_on: bool,
    // The second at which the bot last joined.
    since: u64,
    // The second at which the process asks to join, unless the bot is on the channel. `None` until a server welcomes
    // the bot.
    asks: Option<u64>,
    redial: Redial,
}

impl Model for Seat {
    ghost use Rattle.serverlink.specs.Seats.{Seated};

    ghost Value = { Seated };

    ghost view = { λ s. record {
      channel = s.channel;
      key = s.key;
      on = s.is_on;
      since = s.since;
      asks = s.asks;
      waits = s.redial;
    } };
}

impl Seat {
    ghost use Rattle.std.specs.Prelude.{◌≡◌, ◌<◌, None, Some, MatchOption};
    ghost use Rattle.bytetext.specs.declared.moment.TheConstants.{MOMENTS_END};

    /// Creates the seat of `channel` for the bot numbered `number`, which is not on it and not welcomed yet. The bot
    /// joins the channel with this `key`, if it has one.
    pub fn new(channel: Text, key: Option<Text>, number: u16) -> Seat
        ensures { result ≡ begun channel key number }
    {
        Seat {
            channel,
            key,
            is_on: false,
            since: 0,
            asks: None,
            redial: Redial::new(number, LONGEST_WAIT),
        }
    }

    /// Returns the channel's name.
    pub fn channel(&self) -> &[u8]
        ensures { result.now ≡ self.now.channel }
    {
        self.channel.as_bytes()
    }

    /// Returns the channel's key, if it has one.
    pub fn key(&self) -> Option<&[u8]>
        ensures { MatchOption result (self.now.key ≡ None) (λ key. self.now.key ≡ Some key.now) }
    {
        match &self.key {
            Some(key) => Some(key.as_bytes()),
            None => None,
        }
    }

    // Whether this is its key, or it has none as here.
    pub(crate) fn has_key(&self, key: &Option<Text>) -> bool
        ensures { result ≡ same_key self.now.key key.now }
    {
        match (&self.key, key) {
            (Some(own), Some(key)) => own.as_bytes() == key.as_bytes(),
            (None, None) => true,
            (Some(_), None) | (None, Some(_)) => false,
        }
    }

    // Notes at second `now` that the bot joins the channel with this `key`, or with none. If the bot is not on it, the
    // process is due to ask.
    pub(crate) fn take_key(&mut self, key: Option<Text>, now: u64)
        ensures { self.new ≡ rekeyed self.old key now }
    {
        self.key = key;
        if self.asks.is_some() {
            self.asks = Some(now);
        }
    }

    /// Whether the bot is on the channel.
    pub fn is_on(&self) -> bool
        ensures { result ≡ self.now.on }
    {
        self.is_on
    }

    /// Returns the second at which the process asks to join the channel, unless the bot is on it by then. Returns
    /// `None` if no server has welcomed the bot.
    pub fn asks(&self) -> Option<u64>
        ensures { result ≡ self.now.asks }
    {
        self.asks
    }

    /// Notes that a server has welcomed the bot, and that the process is due to ask at second `now`.
    pub fn welcome(&mut self, now: u64)
        ensures { self.new ≡ welcomed self.old now }
    {
        self.asks = Some(now);
    }

    /// Notes that the bot joined the channel at second `now`.
    pub fn join(&mut self, now: u64)
        ensures { self.new ≡ joined self.old now }
    {
        self.is_on = true;
        self.since = now;
    }

    /// Notes that the bot lost its server. The process asks nothing until another welcomes the bot.
    pub fn lose(&mut self)
        ensures { self.new ≡ lost self.old }
    {
        self.is_on = false;
        self.asks = None;
    }

    /// Notes that the bot was taken off the channel at second `now`, by a KICK or by a PART in its name.
    pub fn take_off(&mut self, now: u64)
        requires { now < MOMENTS_END }
        ensures { self.new ≡ taken_off self.old now }
    {
        let was_good = now.saturating_sub(self.since) >= GOOD;
        self.wait(now, was_good);
    }

    /// Notes that the server did not let the bot in at second `now`. Changes nothing if the bot is on the channel: then
    /// the server rejects something else there.
    pub fn bar(&mut self, now: u64)
        requires { now < MOMENTS_END }
        ensures { self.new ≡ not_let_in self.old now }
    {
        if !self.is_on {
            self.wait(now, false);
        }
    }

    /// Notes that somebody invited the bot to the channel at second `now`: if the bot is not on it, the process asks five
    /// seconds later, unless it was due sooner. Returns whether it asks sooner than before. However often the bot is invited,
    /// an invitation brings no JOIN nearer than five seconds from `now`.
    pub fn invite(&mut self, now: u64) -> bool
        ensures sooner { result ≡ is_sooner self.old now }
        ensures invited { self.new ≡ invited self.old now }
    {
        let soon = now.saturating_add(INVITED);
        if self.is_on || !is_after(self.asks, soon) {
            return false;
        }
        self.asks = Some(soon);
        true
    }

    // The bot is not on the channel, and asks to join after the next wait.
    fn wait(&mut self, now: u64, was_good: bool)
        requires { now < MOMENTS_END }
        ensures { self.new ≡ waiting self.old (lost_wait self.old.waits now was_good) }
    {
        self.redial.lost(now, was_good);
        self.is_on = false;
        self.asks = Some(self.redial.due());
    }

    /// Whether the process is due to ask to join the channel at second `now`.
    pub fn is_due(&self, now: u64) -> bool
        ensures { result ≡ is_due self.now now }
    {
        match self.asks {
            Some(second) => !self.is_on && second <= now,
            None => false,
        }
    }

    /// Notes that the process asks to join the channel at second `now`. If the server does not answer, the process asks
    /// again a minute later.
    pub fn retry(&mut self, now: u64)
        ensures { self.new ≡ retried self.old now }
    {
        self.asks = later(now);
    }
}

// Whether the process asks, and later than at this second.
fn is_after(asks: Option<u64>, second: u64) -> bool
    ensures { result ≡ is_after asks second }
{
    match asks {
        Some(asks) => second < asks,
        None => false,
    }
}

// A minute after second `now`.
fn later(now: u64) -> Option<u64>
    ensures { result ≡ later now }
{
    Some(now.saturating_add(ASK_AGAIN))
}
