// What a server says of its capabilities (IRCv3, Client Capability Negotiation).
ghost use Rattle.std.specs.Prelude.{◌≡◌};
ghost use Rattle.std.specs.Str.{bytes_eq};
ghost use Rattle.chanstate.specs.Items.{acknowledged, removed, has_word, capability_items};
ghost use Rattle.chanstate.specs.Seen.{items_seen};

use crate::message_parts::MessageParts;
use crate::words::param;
use bytetext::Text;

// The capability by which a JOIN tells the account, and how a list disables it.
const EXTENDED_JOIN: &[u8] = b"extended-join";

const NO_EXTENDED_JOIN: &[u8] = b"-extended-join";

fn is_word(piece: &[u8], word: &[u8]) -> bool
    ensures { result ≡ bytes_eq piece.now word.now }
{
    piece == word
}

// Returns whether `word` stands in `list`, whose words are separated by spaces.
fn has_word(word: &[u8], list: &[u8]) -> bool
    ensures { result ≡ has_word word.now list.now }
{
    for piece in list.split(|byte| *byte == b' ') {
        if is_word(piece, word) {
            return true;
        }
    }
    false
}

// Returns what the server says by acknowledging `list`.
fn acknowledged(list: &[u8]) -> MessageParts<'static>
    ensures { items_seen result ≡ acknowledged list.now }
{
    if has_word(EXTENDED_JOIN, list) {
        return MessageParts::JoinsTell(true);
    }
    if has_word(NO_EXTENDED_JOIN, list) {
        return MessageParts::JoinsTell(false);
    }
    MessageParts::Nothing
}

// Returns what the server says by removing `list`.
fn removed(list: &[u8]) -> MessageParts<'static>
    ensures { items_seen result ≡ removed list.now }
{
    if has_word(EXTENDED_JOIN, list) {
        MessageParts::JoinsTell(false)
    } else {
        MessageParts::Nothing
    }
}

/// Returns what a CAP of a server says.
pub fn capability(params: &[Text]) -> MessageParts<'static>
    ensures { items_seen result ≡ capability_items params.now }
{
    let Some(what) = param(params, 1) else {
        return MessageParts::Nothing;
    };
    let Some(list) = param(params, 2) else {
        return MessageParts::Nothing;
    };
    if what == b"ACK".as_slice() {
        acknowledged(list)
    } else if what == b"DEL".as_slice() {
        removed(list)
    } else {
        MessageParts::Nothing
    }
}
