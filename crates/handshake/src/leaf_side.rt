// A leaf's side.
ghost use Rattle.std.specs.Prelude.{◌≡◌};
ghost use Rattle.handshake.specs.Sides.{greeting_fault};

use crate::MAX_LINE;
use crate::codes::is_same_code;
use crate::drawn_number::{DrawnNumber, may_be_of};
use crate::fault::HandshakeFault;
use crate::keys::{LinkKeys, link_keys};
use crate::line::HandshakeLine;
use crate::nonce::Nonce;
use crate::progress::Progress;
use crate::reading::{HubSaid, greeting_in, hub_said_in};
use crate::refusal::HandshakeRefusal;
use crate::sides::{HubAnswer, LeafWords, no_code};
use crate::words::line_len;
use sealing::Key;

/// A leaf's side of one connection, before the first record.
#[derive(Drop)]
pub struct LeafSide {
    /// The leaf's key.
    pub key: Key,
    /// The leaf's number, from 1.
    pub leaf: u16,
    /// The leaf's number of leaves.
    pub leaves: u16,
    /// The number of the leaf's net, if the leaf keeps it already.
    pub net: Option<DrawnNumber>,
    /// The number of the leaf's folder.
    pub made: DrawnNumber,
    /// How far the leaf's records have come. It stays the same from the greeting on.
    pub own: Progress,
    /// The nonce that the leaf drew for this connection.
    pub nonce: Nonce,
    /// The nonce that the hub drew for it, once the leaf has read its greeting.
    pub greeted: Option<Nonce>,
}

/// What the bytes that a leaf has read mean.
#[derive(Drop)]
pub enum LeafHears {
    /// There is no whole line yet: read more.
    More,
    /// The hub greeted: send the line, and read what comes after the greeting.
    Answers {
        /// The length of the greeting, in bytes.
        used: usize,
        /// The line to send.
        line: HandshakeLine,
    },
    /// The hub showed the right code: send records, after saving the number of its net if the leaf keeps none.
    Joined {
        /// The length of the hub's line, in bytes. The bytes after it are the hub's first records.
        used: usize,
        /// What the hub says of itself.
        answer: HubAnswer,
        /// The keys of the records.
        keys: LinkKeys,
    },
    /// Disconnect the hub.
    Refused(HandshakeFault),
}

impl LeafSide {
    ghost use Rattle.std.specs.Prelude.{◌≡◌};
    ghost use Rattle.handshake.specs.Sides.{hears_greeting, hears_hub, hears_welcome, leaf_after, leaf_hears, leaf_hears_next};
    ghost use Rattle.handshake.specs.Sides.{leaf_keys, leaf_words, nonce_after, refusal_fault};

    /// Returns what `heard`, all bytes read and not used so far, means. More bytes after a line change nothing.
    pub fn hear(&mut self, heard: &[u8]) -> LeafHears
        ensures hears { result ≡ leaf_hears self.old heard.now }
        ensures after { self.new ≡ leaf_after self.old heard.now }
    {
        match line_len(heard) {
            Some(len) => self.hear_line(len + 1, &heard[..len]),
            None if heard.len() >= MAX_LINE => LeafHears::Refused(HandshakeFault::TooLong),
            None => LeafHears::More,
        }
    }

    // Returns what a line means that has `used` bytes with its line feed.
    fn hear_line(&mut self, used: usize, line: &[u8]) -> LeafHears
        ensures hears { result ≡ leaf_hears_next self.old used line.now self.old.greeted }
        ensures after { self.new ≡ record self.old { greeted = nonce_after self.old.greeted line.now } }
    {
        match self.greeted {
            Some(hub_nonce) => self.hear_hub(used, &hub_nonce, hub_said_in(line)),
            None => {
                self.greeted = greeting_in(line);
                self.hear_greeting(used, line)
            }
        }
    }

    // Returns what a line means if no greeting was read before it.
    fn hear_greeting(&self, used: usize, line: &[u8]) -> LeafHears
        ensures { result ≡ hears_greeting self.now used line.now self.now.greeted }
    {
        match self.greeted {
            Some(hub_nonce) => LeafHears::Answers {
                used,
                line: self.words().line(&self.key, &hub_nonce),
            },
            None => LeafHears::Refused(greeting_fault(line)),
        }
    }

    // Returns what the hub's second line means.
    fn hear_hub(&self, used: usize, hub_nonce: &Nonce, said: Option<HubSaid>) -> LeafHears
        ensures { result ≡ hears_hub self.now used hub_nonce.now said }
    {
        match said {
            Some(HubSaid::Welcome { answer, code }) => {
                self.hear_welcome(used, hub_nonce, &answer, &code)
            }
            Some(HubSaid::No { refusal, code }) => {
                LeafHears::Refused(self.refusal_fault(hub_nonce, refusal, &code))
            }
            None => LeafHears::Refused(HandshakeFault::NoHubLine),
        }
    }

    // Returns what a welcome means.
    fn hear_welcome(
        &self,
        used: usize,
        hub_nonce: &Nonce,
        answer: &HubAnswer,
        code: &[u8; 64],
    ) -> LeafHears
        ensures { result ≡ hears_welcome self.now used hub_nonce.now answer.now code.now }
    {
        if !is_same_code(code, &answer.code(&self.key, &self.nonce, hub_nonce)) {
            return LeafHears::Refused(HandshakeFault::WrongCode);
        }
        if !may_be_of(&answer.net, &self.net) {
            return LeafHears::Refused(HandshakeFault::OtherNet);
        }
        LeafHears::Joined {
            used,
            answer: *answer,
            keys: self.keys(hub_nonce, code),
        }
    }

    // The keys of the records, if the hub shows this code.
    fn keys(&self, hub_nonce: &Nonce, code: &[u8; 64]) -> LinkKeys
        ensures { result ≡ leaf_keys self.now hub_nonce.now code.now }
    {
        let leaf_code = self.words().code(&self.key, hub_nonce);
        link_keys(&self.key, &leaf_code, code)
    }

    // Returns what a refusal with this code means.
    fn refusal_fault(
        &self,
        hub_nonce: &Nonce,
        refusal: HandshakeRefusal,
        code: &[u8; 64],
    ) -> HandshakeFault
        ensures { result ≡ refusal_fault self.now hub_nonce.now refusal code.now }
    {
        if is_same_code(code, &no_code(&self.key, refusal, &self.nonce, hub_nonce)) {
            HandshakeFault::Told(refusal)
        } else {
            HandshakeFault::WrongCode
        }
    }

    // What the leaf says of itself.
    fn words(&self) -> LeafWords
        ensures { result ≡ leaf_words self.now }
    {
        LeafWords {
            leaf: self.leaf,
            leaves: self.leaves,
            net: self.net,
            made: self.made,
            progress: self.own,
            nonce: self.nonce,
        }
    }
}

// Why a line is not a greeting.
fn greeting_fault(line: &[u8]) -> HandshakeFault
    ensures { result ≡ greeting_fault line.now }
{
    if line.starts_with(b"eggnet 2 ") {
        HandshakeFault::NoGreeting
    } else if line.starts_with(b"eggnet ") {
        HandshakeFault::OtherVersion
    } else {
        HandshakeFault::NoGreeting
    }
}
