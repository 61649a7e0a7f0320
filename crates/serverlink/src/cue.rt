// What a message means for a bot's registration and its channels.
ghost use Rattle.std.specs.Prelude.{◌≡◌};
ghost use Rattle.serverlink.specs.Cues.{cue_of, is_barring, is_by, is_for, is_numeric_fault, is_to, numeric_cue, other_cue, param, unavailable};

use ircline::{Message, Numeric, Source, numeric_of, source};
use rfccase::{Casemapping, is_channel_name, same_by};

/// What a message means for a bot with a given nick.
#[derive(Clone, Copy, Debug, PartialEq, Eq)]
pub enum Cue {
    /// The server has welcomed the bot under the nick that is the first parameter (001).
    Welcomed,
    /// The bot's nick is now the first parameter.
    Renamed,
    /// The bot is on the channel that is the first parameter.
    Joined,
    /// The bot has left the channel that is the first parameter.
    Parted,
    /// The bot was kicked off the channel that is the first parameter.
    Kicked,
    /// The server does not let the bot join the channel that is the second parameter: 403, 405, 471, 473 to 477, 479,
    /// 480, 489, 520, and 437 if that parameter is the name of a channel.
    Barred,
    /// The server sends the bot on from the channel that is the second parameter to the one that is the third (470).
    Forwarded,
    /// The server rejects a nick (432, 436, and 437 if its second parameter is not the name of a channel).
    NickRefused,
    /// The server rejects something else, or ends the connection (another number from 400 to 599, ERROR).
    Refused,
    /// The server says what it supports (005).
    Supports,
    /// Somebody invites the bot to the channel that is the second parameter.
    Invited,
    /// Nothing.
    Nothing,
}

/// Returns what `message` means for a bot whose nick is `own`, by the casemapping of the server that sends it. Allocates
/// nothing.
pub fn cue_of(mapping: Casemapping, message: &Message, own: &[u8]) -> Cue
    ensures { result ≡ cue_of mapping message.now own.now }
{
    let command = message.command.as_bytes();
    if command == b"JOIN".as_slice() && is_by(mapping, message, own) {
        Cue::Joined
    } else if command == b"PART".as_slice() && is_by(mapping, message, own) {
        Cue::Parted
    } else if command == b"NICK".as_slice() && is_by(mapping, message, own) {
        Cue::Renamed
    } else if command == b"KICK".as_slice() && is_to(mapping, message, own) {
        Cue::Kicked
    } else if command == b"INVITE".as_slice() && is_for(mapping, message, own) {
        Cue::Invited
    } else if command == b"ERROR".as_slice() {
        Cue::Refused
    } else {
        numeric_cue(message)
    }
}

// What a message with a numeric command means.
fn numeric_cue(message: &Message) -> Cue
    ensures { result ≡ numeric_cue message.now }
{
    let command = message.command.as_bytes();
    match numeric_of(command) {
        Numeric::Welcome => Cue::Welcomed,
        Numeric::ErroneousNickname | Numeric::NickCollision => Cue::NickRefused,
        Numeric::UnavailableResource => unavailable(param(message, 1)),
        Numeric::NicknameInUse => Cue::Refused,
        Numeric::Other => other_cue(command),
    }
}

// What it means that `name` cannot be had for a while. No nick is the name of a channel (RFC 2812 section 2.3.1), so
// the name alone decides.
fn unavailable(name: &[u8]) -> Cue
    ensures { result ≡ unavailable name.now }
{
    if is_channel_name(name) {
        Cue::Barred
    } else {
        Cue::NickRefused
    }
}

// What a command means that is no answer to a registration.
fn other_cue(command: &[u8]) -> Cue
    ensures { result ≡ other_cue command.now }
{
    match command {
        b"005" => Cue::Supports,
        b"470" => Cue::Forwarded,
        _ => {
            if is_barring(command) {
                Cue::Barred
            } else if is_numeric_fault(command) {
                Cue::Refused
            } else {
                Cue::Nothing
            }
        }
    }
}

// Whether a command says that the server does not let a person join the channel that is the second parameter: there is
// no such channel (403), it is one too many (405), full (471), for the invited alone (473), banned (474), with a key
// (475), no name of a channel (476, 479), for the registered alone (477), joined too often (480), for TLS alone (489) or
// for operators of the server alone (520). RFC 2812 section 5.2 has some of them, and today's servers the others.
fn is_barring(command: &[u8]) -> bool
    ensures { result ≡ is_barring command.now }
{
    match command {
        b"403"
        | b"405"
        | b"471"
        | b"473"
        | b"474"
        | b"475"
        | b"476"
        | b"477"
        | b"479"
        | b"480"
        | b"489"
        | b"520" => true,
        _ => false,
    }
}

// Whether a command is a number from 400 to 599.
fn is_numeric_fault(command: &[u8]) -> bool
    ensures { result ≡ is_numeric_fault command.now }
{
    command.len() == 3 && (command[0] == b'4' || command[0] == b'5')
}

// Whether the sender of a message has this nick.
pub(crate) fn is_by(mapping: Casemapping, message: &Message, own: &[u8]) -> bool
    ensures { result ≡ is_by mapping message.now own.now }
{
    match source(message.prefix.as_bytes()) {
        Source::Person(person) => same_by(mapping, person.nick, own),
        Source::Server(_) | Source::None => false,
    }
}

// Whether a message's second parameter is this nick.
fn is_to(mapping: Casemapping, message: &Message, own: &[u8]) -> bool
    ensures { result ≡ is_to mapping message.now own.now }
{
    same_by(mapping, param(message, 1), own)
}

// Whether a message's first parameter is this nick.
fn is_for(mapping: Casemapping, message: &Message, own: &[u8]) -> bool
    ensures { result ≡ is_for mapping message.now own.now }
{
    same_by(mapping, param(message, 0), own)
}

/// Returns the parameter of `message` at `place`, counted from 0, or an empty slice if the message has fewer.
pub fn param(message: &Message, place: usize) -> &[u8]
    ensures { result.now ≡ param message.now place }
{
    match message.params.as_slice().get(place) {
        Some(text) => text.as_bytes(),
        None => b"",
    }
}
