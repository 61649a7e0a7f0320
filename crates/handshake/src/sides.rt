// What each side says, and the codes of it.
ghost use Rattle.std.specs.Prelude.{◌≡◌, ◌≤◌, ◌+◌, ◌++◌, length};
ghost use Rattle.handshake.specs.Lines.{front_code, hub_code, hub_front, hub_line, leaf_code, leaf_front, leaf_line, net_word};
ghost use Rattle.handshake.specs.Lines.{no_code, no_front, no_line, progress_words, refusal_word, rights_word, with_code};

use crate::drawn_number::DrawnNumber;
use crate::line::HandshakeLine;
use crate::nonce::Nonce;
use crate::progress::{LeafRights, Progress};
use crate::refusal::HandshakeRefusal;
use itoa::Buffer;
use sealing::Key;

/// What a leaf's line says, without its code.
#[derive(Clone, Copy)]
pub struct LeafWords {
    /// The leaf's number.
    pub leaf: u16,
    /// Its number of leaves.
    pub leaves: u16,
    /// The number of its net, if the leaf keeps it.
    pub net: Option<DrawnNumber>,
    /// The number of its folder.
    pub made: DrawnNumber,
    /// How far its records have come.
    pub progress: Progress,
    /// The nonce that the leaf drew for this connection.
    pub nonce: Nonce,
}

/// What the hub's answer to a leaf that it welcomes says, without its code.
#[derive(Clone, Copy)]
pub struct HubAnswer {
    /// The hub's net.
    pub net: DrawnNumber,
    /// How far the hub's records have come.
    pub progress: Progress,
    /// What the leaf may do.
    pub may: LeafRights,
}

impl LeafWords {
    /// Returns the code of these words under `key`, the leaf's, to a hub that drew `hub_nonce`.
    pub(crate) fn code(&self, key: &Key, hub_nonce: &Nonce) -> [u8; 64]
        ensures { result ≡ leaf_code key.now self.now hub_nonce.now }
    {
        let mut text = self.front();
        text.put(b" ");
        text.put(hub_nonce.as_bytes());
        key.code(text.as_bytes())
    }

    /// Returns the leaf's line.
    pub(crate) fn line(&self, key: &Key, hub_nonce: &Nonce) -> HandshakeLine
        ensures { result ≡ leaf_line key.now self.now hub_nonce.now }
    {
        with_code(self.front(), &self.code(key, hub_nonce))
    }

    // The line without its code.
    fn front(&self) -> HandshakeLine
        ensures value { result ≡ leaf_front self.now }
        ensures short { length result ≤ 134 }
    {
        let mut buffer = Buffer::new();
        let mut front = HandshakeLine::empty();
        front.put(b"leaf ");
        front.put(buffer.format(self.leaf).as_bytes());
        front.put(b" ");
        front.put(buffer.format(self.leaves).as_bytes());
        front.put(b" ");
        front.put(net_word(&self.net));
        front.put(b" ");
        front.put(self.made.as_bytes());
        front.put(b" ");
        put_progress(&mut front, &self.progress);
        front.put(b" ");
        front.put(self.nonce.as_bytes());
        front
    }
}

impl HubAnswer {
    /// Returns the code of this answer under `key`, the leaf's, on a connection for which these nonces were drawn.
    pub(crate) fn code(&self, key: &Key, leaf_nonce: &Nonce, hub_nonce: &Nonce) -> [u8; 64]
        ensures { result ≡ hub_code key.now self.now leaf_nonce.now hub_nonce.now }
    {
        front_code(key, self.front(), leaf_nonce, hub_nonce)
    }

    /// Returns the hub's line.
    pub(crate) fn line(&self, key: &Key, leaf_nonce: &Nonce, hub_nonce: &Nonce) -> HandshakeLine
        ensures { result ≡ hub_line key.now self.now leaf_nonce.now hub_nonce.now }
    {
        with_code(self.front(), &self.code(key, leaf_nonce, hub_nonce))
    }

    // The line without its code.
    fn front(&self) -> HandshakeLine
        ensures value { result ≡ hub_front self.now }
        ensures short { length result ≤ 134 }
    {
        let mut front = HandshakeLine::empty();
        front.put(b"hub ");
        front.put(self.net.as_bytes());
        front.put(b" ");
        put_progress(&mut front, &self.progress);
        front.put(b" ");
        front.put(rights_word(self.may));
        front
    }
}

/// Returns the code of a refusal under `key`, the leaf's.
pub(crate) fn no_code(
    key: &Key,
    refusal: HandshakeRefusal,
    leaf_nonce: &Nonce,
    hub_nonce: &Nonce,
) -> [u8; 64]
    ensures { result ≡ no_code key.now refusal leaf_nonce.now hub_nonce.now }
{
    front_code(key, no_front(refusal), leaf_nonce, hub_nonce)
}

/// Returns the hub's line that refuses a leaf.
pub(crate) fn no_line(
    key: &Key,
    refusal: HandshakeRefusal,
    leaf_nonce: &Nonce,
    hub_nonce: &Nonce,
) -> HandshakeLine
    ensures { result ≡ no_line key.now refusal leaf_nonce.now hub_nonce.now }
{
    with_code(
        no_front(refusal),
        &no_code(key, refusal, leaf_nonce, hub_nonce),
    )
}

// The line of a refusal without its code.
fn no_front(refusal: HandshakeRefusal) -> HandshakeLine
    ensures value { result ≡ no_front refusal }
    ensures short { length result ≤ 134 }
{
    let mut front = HandshakeLine::empty();
    front.put(b"no ");
    front.put(refusal_word(refusal));
    front
}

// The code of one of the hub's lines, by its front.
fn front_code(key: &Key, front: HandshakeLine, leaf_nonce: &Nonce, hub_nonce: &Nonce) -> [u8; 64]
    requires { length front ≤ 134 }
    ensures { result ≡ front_code key.now front leaf_nonce.now hub_nonce.now }
{
    let mut text = front;
    text.put(b" ");
    text.put(leaf_nonce.as_bytes());
    text.put(b" ");
    text.put(hub_nonce.as_bytes());
    key.code(text.as_bytes())
}

// The line with its code.
fn with_code(front: HandshakeLine, code: &[u8; 64]) -> HandshakeLine
    requires { length front ≤ 134 }
    ensures { result ≡ with_code front code.now }
{
    let mut line = front;
    line.put(b" ");
    line.put(code);
    line.put(b"\n");
    line
}

// The words VERSION SUM LAST.
fn put_progress(line: &mut HandshakeLine, progress: &Progress)
    requires { length line.old ≤ 100 }
    ensures all { line.new ≡ line.old ++ progress_words progress.now }
    ensures len { length line.new ≤ length line.old + 38 }
{
    let mut buffer = Buffer::new();
    line.put(buffer.format(progress.version).as_bytes());
    line.put(b" ");
    line.put(&progress.sum);
    line.put(b" ");
    line.put(buffer.format(progress.last).as_bytes());
}

// The word for a net.
fn net_word(net: &Option<DrawnNumber>) -> &[u8]
    ensures word { result.now ≡ net_word net.now }
    ensures short { length result.now ≤ 16 }
{
    match net {
        Some(net) => net.as_bytes(),
        None => b"-",
    }
}

// The word for what a leaf may do.
fn rights_word(may: LeafRights) -> &'static [u8]
    ensures word { result.now ≡ rights_word may }
    ensures short { length result.now ≤ 7 }
{
    match may {
        LeafRights::Asks => b"asks",
        LeafRights::Reads => b"reads",
        LeafRights::Persons => b"persons",
    }
}

// The word for a refusal.
fn refusal_word(refusal: HandshakeRefusal) -> &'static [u8]
    ensures word { result.now ≡ refusal_word refusal }
    ensures short { length result.now ≤ 7 }
{
    match refusal {
        HandshakeRefusal::Heir => b"heir",
        HandshakeRefusal::Net => b"net",
        HandshakeRefusal::Count => b"count",
        HandshakeRefusal::Other => b"other",
        HandshakeRefusal::Ahead => b"ahead",
        HandshakeRefusal::Records => b"records",
        HandshakeRefusal::Older => b"older",
    }
}
