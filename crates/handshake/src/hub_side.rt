// The hub's side.
ghost use Rattle.std.specs.Prelude.{◌≡◌};
ghost use Rattle.handshake.specs.Judging.{is_older, is_other, is_same, net_refusal};
ghost use Rattle.handshake.specs.Sides.{leaf_line_fault};

use crate::MAX_LINE;
use crate::book::Place;
use crate::codes::is_same_code;
use crate::drawn_number::{DrawnNumber, may_be_of};
use crate::fault::HandshakeFault;
use crate::keys::{LinkKeys, leaf_key, link_keys};
use crate::line::HandshakeLine;
use crate::nonce::Nonce;
use crate::progress::{LeafRights, Progress};
use crate::reading::{Ask, ask_in, is_old_leaf};
use crate::refusal::HandshakeRefusal;
use crate::sides::{HubAnswer, no_line};
use crate::words::line_len;
use sealing::Key;

/// The hub's side of one connection, before the first record.
#[derive(Drop)]
pub struct HubSide {
    /// The net's secret, as a key.
    pub key: Key,
    /// The hub's net.
    pub net: DrawnNumber,
    /// The net whose heir the hub's net is, if it is one.
    pub parent: Option<DrawnNumber>,
    /// The number of leaves of the net.
    pub leaves: u16,
    /// The nonce that the hub drew for this connection.
    pub nonce: Nonce,
}

/// What the bytes that a hub has read mean.
#[derive(Clone, Copy)]
pub enum HubHears {
    /// There is no whole line yet: read more.
    More,
    /// A leaf of the net showed the right code: [`HubSide::judge`] says whether it may join.
    Asks {
        /// The length of the leaf's line, in bytes. The bytes after it are the leaf's first records.
        used: usize,
        /// What the line says.
        ask: Ask,
    },
    /// Disconnect the other side, and send it nothing.
    Refused(HandshakeFault),
}

impl HubSide {
    ghost use Rattle.std.specs.Prelude.{◌≡◌};
    ghost use Rattle.handshake.specs.Lines.{greeting};
    ghost use Rattle.handshake.specs.Keys.{leaf_key};
    ghost use Rattle.handshake.specs.Judging.{judged};
    ghost use Rattle.handshake.specs.Reading.{ask_in};
    ghost use Rattle.handshake.specs.Sides.{IsShown, hub_answer, hub_hears, hub_hears_ask, hub_keys};
    ghost use Rattle.handshake.specs.Sides.{refusal_line, shows_code, welcome_line};

    /// Returns the line that the hub sends first.
    pub fn greeting(&self) -> HandshakeLine
        ensures { result ≡ greeting self.now.nonce }
    {
        let mut line = HandshakeLine::empty();
        line.put(b"eggnet 2 ");
        line.put(self.nonce.as_bytes());
        line.put(b"\n");
        line
    }

    /// Returns what `heard`, all bytes read so far, means. More bytes after a line change nothing.
    pub fn hear(&self, heard: &[u8]) -> HubHears
        ensures hears { result ≡ hub_hears self.now heard.now }
        // Only a leaf that showed the code under its own key asks.
        ensures shown { IsShown self.now heard.now result }
    {
        match line_len(heard) {
            Some(len) => self.hear_line(len + 1, &heard[..len]),
            None if heard.len() >= MAX_LINE => HubHears::Refused(HandshakeFault::TooLong),
            None => HubHears::More,
        }
    }

    // Returns what a line means that has `used` bytes with its line feed.
    fn hear_line(&self, used: usize, line: &[u8]) -> HubHears
        ensures { result ≡ hub_hears_ask self.now used line.now (ask_in line.now) }
    {
        let Some(ask) = ask_in(line) else {
            return HubHears::Refused(leaf_line_fault(line));
        };
        if ask.words.leaf < 1 || ask.words.leaf > self.leaves {
            return HubHears::Refused(HandshakeFault::NoSuchLeaf);
        }
        if !self.shows_code(&ask) {
            return HubHears::Refused(HandshakeFault::WrongCode);
        }
        HubHears::Asks { used, ask }
    }

    // Whether a leaf shows the code under its own key.
    fn shows_code(&self, ask: &Ask) -> bool
        ensures { result ≡ shows_code self.now ask.now }
    {
        is_same_code(&ask.code, &ask.words.code(&self.key_of(ask), &self.nonce))
    }

    /// Returns why the leaf that asks may not join, or `None` if it may. `place` is what the hub's book says of the
    /// leaf and its folder. `own` is how far the hub's records have come; its `last` is the number of the last request
    /// of this leaf that the hub replied to.
    pub fn judge(&self, ask: &Ask, place: Place, own: &Progress) -> Option<HandshakeRefusal>
        ensures { result ≡ judged self.now ask.now.words place own.now }
    {
        let words = &ask.words;
        if !may_be_of(&self.net, &words.net) {
            return Some(net_refusal(&self.parent, &words.net));
        }
        if words.leaves != self.leaves {
            return Some(HandshakeRefusal::Count);
        }
        if is_other(place) {
            return Some(HandshakeRefusal::Other);
        }
        if words.progress.version > own.version {
            return Some(HandshakeRefusal::Ahead);
        }
        if words.progress.version == own.version && words.progress.sum != own.sum {
            return Some(HandshakeRefusal::Records);
        }
        if is_older(&words.progress, place, own) {
            return Some(HandshakeRefusal::Older);
        }
        None
    }

    /// Returns the line that welcomes a leaf that may join. `own` is as for [`HubSide::judge`], and `may` is what the
    /// leaf may do.
    pub fn welcome(&self, ask: &Ask, own: &Progress, may: LeafRights) -> HandshakeLine
        ensures { result ≡ welcome_line self.now ask.now own.now may }
    {
        self.answer(own, may)
            .line(&self.key_of(ask), &ask.words.nonce, &self.nonce)
    }

    /// Returns the line that refuses a leaf, with a code under the leaf's key.
    pub fn refuse(&self, ask: &Ask, refusal: HandshakeRefusal) -> HandshakeLine
        ensures { result ≡ refusal_line self.now ask.now refusal }
    {
        no_line(&self.key_of(ask), refusal, &ask.words.nonce, &self.nonce)
    }

    /// Returns the keys of the records on this connection, if the hub sent the line of [`HubSide::welcome`] for the
    /// same arguments.
    pub fn keys(&self, ask: &Ask, own: &Progress, may: LeafRights) -> LinkKeys
        ensures { result ≡ hub_keys self.now ask.now own.now may }
    {
        let key = self.key_of(ask);
        let hub_code = self
            .answer(own, may)
            .code(&key, &ask.words.nonce, &self.nonce);
        link_keys(&key, &ask.code, &hub_code)
    }

    // The key of the leaf that asks.
    fn key_of(&self, ask: &Ask) -> Key
        ensures { result ≡ leaf_key self.now.key ask.now.words.leaf }
    {
        leaf_key(&self.key, ask.words.leaf)
    }

    // What the hub says of itself.
    fn answer(&self, own: &Progress, may: LeafRights) -> HubAnswer
        ensures { result ≡ hub_answer self.now own.now may }
    {
        HubAnswer {
            net: self.net,
            progress: *own,
            may,
        }
    }
}

// Why a line is not a leaf's.
fn leaf_line_fault(line: &[u8]) -> HandshakeFault
    ensures { result ≡ leaf_line_fault line.now }
{
    if is_old_leaf(line) {
        HandshakeFault::OldLeaf
    } else {
        HandshakeFault::NoLeafLine
    }
}

// Why a leaf of another net may not join a hub whose net has this `parent`.
fn net_refusal(parent: &Option<DrawnNumber>, net: &Option<DrawnNumber>) -> HandshakeRefusal
    ensures { result ≡ net_refusal parent.now net.now }
{
    let (Some(parent), Some(net)) = (parent, net) else {
        return HandshakeRefusal::Net;
    };
    if net.is_same(parent) {
        HandshakeRefusal::Heir
    } else {
        HandshakeRefusal::Net
    }
}

// Whether another folder is the leaf, or this one never joins again.
fn is_other(place: Place) -> bool
    ensures { result ≡ is_other place }
{
    match place {
        Place::Free | Place::Same => false,
        Place::Taken | Place::Barred => true,
    }
}

// Whether the hub has replied to a request that the leaf does not know. A leaf without records that knows of no request
// begins anew: a crash while its journal was made again may have left it so.
fn is_older(leaf: &Progress, place: Place, hub: &Progress) -> bool
    ensures { result ≡ is_older leaf.now place hub.now }
{
    leaf.last < hub.last && (leaf.version > 0 || (is_same(place) && leaf.last > 0))
}

// Whether this folder is the leaf.
fn is_same(place: Place) -> bool
    ensures { result ≡ is_same place }
{
    match place {
        Place::Same => true,
        Place::Free | Place::Taken | Place::Barred => false,
    }
}
