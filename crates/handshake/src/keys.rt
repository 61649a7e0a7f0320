// The keys that come of a net's secret.
ghost use Rattle.std.specs.Prelude.{◌≡◌, ◌≤◌, ◌++◌, length};
ghost use Rattle.handshake.specs.Keys.{both_codes, key_of_text, leaf_key, leaf_key_text, link_keys};

use crate::line::HandshakeLine;
use itoa::Buffer;
use sealing::Key;

/// The keys of the records on one connection, one for each direction.
#[derive(Clone, Copy)]
pub struct LinkKeys {
    /// The key of the records from the hub to the leaf.
    pub to_leaf: Key,
    /// The key of the records from the leaf to the hub.
    pub to_hub: Key,
}

/// Returns the key of the leaf numbered `leaf`, made of the net's `secret`: its HMAC of `eggnet leaf N`. Who has it can
/// speak as that leaf, and as the hub to that leaf, but as no other.
pub fn leaf_key(secret: &Key, leaf: u16) -> Key
    ensures { result ≡ leaf_key secret.now leaf }
{
    key_of_text(secret, &leaf_key_text(leaf))
}

// The key that is made of a text under another key.
fn key_of_text(key: &Key, text: &HandshakeLine) -> Key
    ensures { result ≡ key_of_text key.now text.now }
{
    Key::new(&key.mac(text.as_bytes()))
}

// The text under which a leaf's key is made.
pub(crate) fn leaf_key_text(leaf: u16) -> HandshakeLine
    ensures { result ≡ leaf_key_text leaf }
{
    let mut buffer = Buffer::new();
    let mut text = HandshakeLine::empty();
    text.put(b"eggnet leaf ");
    text.put(buffer.format(leaf).as_bytes());
    text
}

/// Returns the keys of the records on a connection on which the leaf showed the code `leaf_code`, and the hub
/// `hub_code`. `key` is the leaf's.
pub(crate) fn link_keys(key: &Key, leaf_code: &[u8; 64], hub_code: &[u8; 64]) -> LinkKeys
    ensures { result ≡ link_keys key.now leaf_code.now hub_code.now }
{
    LinkKeys {
        to_leaf: key_of_text(key, &both_codes(b"hub to leaf ", leaf_code, hub_code)),
        to_hub: key_of_text(key, &both_codes(b"leaf to hub ", leaf_code, hub_code)),
    }
}

// The text of a direction's key.
fn both_codes(direction: &[u8], leaf_code: &[u8; 64], hub_code: &[u8; 64]) -> HandshakeLine
    requires { length direction.now ≤ 70 }
    ensures { result ≡ direction.now ++ both_codes leaf_code.now hub_code.now }
{
    let mut text = HandshakeLine::empty();
    text.put(direction);
    text.put(leaf_code);
    text.put(b" ");
    text.put(hub_code);
    text
}
