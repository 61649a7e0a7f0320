// Parses the lines of a handshake.
ghost use Rattle.std.specs.Prelude.{◌≡◌};
ghost use Rattle.handshake.specs.Digits.{digits_in};
ghost use Rattle.handshake.specs.Reading.{answer_after, ask_after, ask_in, greeting_in, hub_said_in, is_old_after, is_old_leaf};
ghost use Rattle.handshake.specs.Reading.{net_in, progress_in, refusal_after, refusal_in, rights_in};

use crate::digits::are_digits;
use crate::drawn_number::DrawnNumber;
use crate::nonce::Nonce;
use crate::progress::{LeafRights, Progress};
use crate::refusal::HandshakeRefusal;
use crate::sides::{HubAnswer, LeafWords};
use crate::words::{cut_word, number_in, wide_in};

/// What a leaf's line says.
#[derive(Clone, Copy)]
pub struct Ask {
    /// What the leaf says of itself.
    pub words: LeafWords,
    /// The code that it shows.
    pub code: [u8; 64],
}

/// What a hub's second line says.
#[derive(Clone, Copy)]
pub(crate) enum HubSaid {
    /// The leaf is welcome.
    Welcome {
        /// What the hub says of itself.
        answer: HubAnswer,
        /// The code that it shows.
        code: [u8; 64],
    },
    /// The leaf is refused.
    No {
        /// The reason.
        refusal: HandshakeRefusal,
        /// The code that the hub shows.
        code: [u8; 64],
    },
}

/// Parses `line`, without its line feed, as a leaf's line. Returns `None` if it is not one.
pub(crate) fn ask_in(line: &[u8]) -> Option<Ask>
    ensures { result ≡ ask_in line.now }
{
    ask_after(line.strip_prefix(b"leaf ")?)
}

fn ask_after(words: &[u8]) -> Option<Ask>
    ensures { result ≡ ask_after words.now }
{
    let leaf = cut_word(words);
    let leaves = cut_word(leaf.rest);
    let net = cut_word(leaves.rest);
    let made = cut_word(net.rest);
    let version = cut_word(made.rest);
    let sum = cut_word(version.rest);
    let last = cut_word(sum.rest);
    let nonce = cut_word(last.rest);
    Some(Ask {
        words: LeafWords {
            leaf: number_in(leaf.word)?,
            leaves: number_in(leaves.word)?,
            net: net_in(net.word)?,
            made: DrawnNumber::read(made.word)?,
            progress: progress_in(version.word, sum.word, last.word)?,
            nonce: Nonce::read(nonce.word)?,
        },
        code: code_in(nonce.rest)?,
    })
}

/// Whether `line`, without its line feed, is one that a leaf of an earlier release sends: `leaf N NET NONCE CODE`.
pub(crate) fn is_old_leaf(line: &[u8]) -> bool
    ensures { result ≡ is_old_leaf line.now }
{
    match line.strip_prefix(b"leaf ") {
        Some(words) => is_old_after(words),
        None => false,
    }
}

fn is_old_after(words: &[u8]) -> bool
    ensures { result ≡ is_old_after words.now }
{
    let leaf = cut_word(words);
    let net = cut_word(leaf.rest);
    let nonce = cut_word(net.rest);
    number_in(leaf.word).is_some()
        && net_in(net.word).is_some()
        && are_digits(32, nonce.word)
        && are_digits(64, nonce.rest)
}

// The net that a word names: a number, or `-` for none.
fn net_in(word: &[u8]) -> Option<Option<DrawnNumber>>
    ensures { result ≡ net_in word.now }
{
    if word == b"-".as_slice() {
        return Some(None);
    }
    match DrawnNumber::read(word) {
        Some(net) => Some(Some(net)),
        None => None,
    }
}

// How far a side's records have come, by three words of its line.
fn progress_in(version: &[u8], sum: &[u8], last: &[u8]) -> Option<Progress>
    ensures { result ≡ progress_in version.now sum.now last.now }
{
    Some(Progress {
        version: wide_in(version)?,
        sum: sum_in(sum)?,
        last: wide_in(last)?,
    })
}

// Parses a word as a sum of records.
fn sum_in(word: &[u8]) -> Option<[u8; 16]>
    ensures { result ≡ digits_in 16 word.now }
{
    if !are_digits(16, word) {
        return None;
    }
    let mut sum = [0; 16];
    sum.copy_from_slice(word);
    Some(sum)
}

// Parses a word as a code.
fn code_in(word: &[u8]) -> Option<[u8; 64]>
    ensures { result ≡ digits_in 64 word.now }
{
    if !are_digits(64, word) {
        return None;
    }
    let mut code = [0; 64];
    code.copy_from_slice(word);
    Some(code)
}

/// Parses `line`, without its line feed, as a hub's second line. Returns `None` if it is not one.
pub(crate) fn hub_said_in(line: &[u8]) -> Option<HubSaid>
    ensures { result ≡ hub_said_in line.now }
{
    match line.strip_prefix(b"hub ") {
        Some(words) => answer_after(words),
        None => refusal_after(line.strip_prefix(b"no ")?),
    }
}

fn answer_after(words: &[u8]) -> Option<HubSaid>
    ensures { result ≡ answer_after words.now }
{
    let net = cut_word(words);
    let version = cut_word(net.rest);
    let sum = cut_word(version.rest);
    let last = cut_word(sum.rest);
    let may = cut_word(last.rest);
    Some(HubSaid::Welcome {
        answer: HubAnswer {
            net: DrawnNumber::read(net.word)?,
            progress: progress_in(version.word, sum.word, last.word)?,
            may: rights_in(may.word)?,
        },
        code: code_in(may.rest)?,
    })
}

fn refusal_after(words: &[u8]) -> Option<HubSaid>
    ensures { result ≡ refusal_after words.now }
{
    let word = cut_word(words);
    Some(HubSaid::No {
        refusal: refusal_in(word.word)?,
        code: code_in(word.rest)?,
    })
}

// What the leaf may do, by the word for it.
fn rights_in(word: &[u8]) -> Option<LeafRights>
    ensures { result ≡ rights_in word.now }
{
    if word == b"asks".as_slice() {
        Some(LeafRights::Asks)
    } else if word == b"reads".as_slice() {
        Some(LeafRights::Reads)
    } else if word == b"persons".as_slice() {
        Some(LeafRights::Persons)
    } else {
        None
    }
}

// The refusal that a word names.
fn refusal_in(word: &[u8]) -> Option<HandshakeRefusal>
    ensures { result ≡ refusal_in word.now }
{
    if word == b"heir".as_slice() {
        Some(HandshakeRefusal::Heir)
    } else if word == b"net".as_slice() {
        Some(HandshakeRefusal::Net)
    } else if word == b"count".as_slice() {
        Some(HandshakeRefusal::Count)
    } else if word == b"other".as_slice() {
        Some(HandshakeRefusal::Other)
    } else if word == b"ahead".as_slice() {
        Some(HandshakeRefusal::Ahead)
    } else if word == b"records".as_slice() {
        Some(HandshakeRefusal::Records)
    } else if word == b"older".as_slice() {
        Some(HandshakeRefusal::Older)
    } else {
        None
    }
}

/// Parses `line`, without its line feed, as a hub's greeting, and returns its nonce. Returns `None` if it is not one.
pub(crate) fn greeting_in(line: &[u8]) -> Option<Nonce>
    ensures { result ≡ greeting_in line.now }
{
    Nonce::read(line.strip_prefix(b"eggnet 2 ")?)
}
