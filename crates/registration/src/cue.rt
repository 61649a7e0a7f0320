// What a message of the server's means for a registration.
ghost use Rattle.std.specs.Prelude.{◌≡◌, None, Some, MatchOption};
ghost use Rattle.registration.specs.Cues.{cap_heard, heard_of, is_failure, list_heard, param, piece_of, unknown_heard};
ghost use Rattle.registration.specs.Sets.{mechanisms_in, offer_in};

use crate::capabilities::Offer;
use crate::mechanism::Mechanisms;
use crate::registration_event::RegistrationEvent;
use ircline::Message;

// What a message that is no piece of a login means.
pub(crate) fn heard_of(message: &Message) -> RegistrationEvent
    ensures { result ≡ heard_of message.now }
{
    let command = message.command.as_bytes();
    if command == b"CAP".as_slice() {
        cap_heard(message, param(message, 1))
    } else if command == b"001".as_slice() {
        RegistrationEvent::Welcomed
    } else if command == b"421".as_slice() {
        unknown_heard(message)
    } else if command == b"903".as_slice() {
        RegistrationEvent::LoggedIn
    } else if command == b"908".as_slice() {
        narrowed(param(message, 1))
    } else if is_failure(command) {
        RegistrationEvent::LoginFailed
    } else {
        RegistrationEvent::Nothing
    }
}

// What an answer to CAP means, by its word.
fn cap_heard(message: &Message, word: &[u8]) -> RegistrationEvent
    ensures { result ≡ cap_heard message.now word.now }
{
    if word == b"LS".as_slice() {
        list_heard(message)
    } else if word == b"ACK".as_slice() {
        acknowledged(param(message, 2))
    } else if word == b"NAK".as_slice() {
        denied(param(message, 2))
    } else {
        RegistrationEvent::Nothing
    }
}

// A line of the list of capabilities.
fn list_heard(message: &Message) -> RegistrationEvent
    ensures { result ≡ list_heard message.now }
{
    if param(message, 2) == b"*".as_slice() {
        listed(param(message, 3), false)
    } else {
        listed(param(message, 2), true)
    }
}

// The events of these lists. Each is made in a function of its own, since that costs the prover less.
fn listed(list: &[u8], is_last: bool) -> RegistrationEvent
    ensures { result ≡ RegistrationEvent.Listed (offer_in list.now) is_last }
{
    RegistrationEvent::Listed {
        offer: Offer::of(list),
        is_last,
    }
}

fn acknowledged(list: &[u8]) -> RegistrationEvent
    ensures { result ≡ RegistrationEvent.Acknowledged (offer_in list.now) }
{
    RegistrationEvent::Acknowledged(Offer::of(list))
}

fn denied(list: &[u8]) -> RegistrationEvent
    ensures { result ≡ RegistrationEvent.Denied (offer_in list.now) }
{
    RegistrationEvent::Denied(Offer::of(list))
}

fn narrowed(list: &[u8]) -> RegistrationEvent
    ensures { result ≡ RegistrationEvent.Narrowed (mechanisms_in list.now) }
{
    RegistrationEvent::Narrowed(Mechanisms::of(list))
}

// A command that the server does not know.
fn unknown_heard(message: &Message) -> RegistrationEvent
    ensures { result ≡ unknown_heard message.now }
{
    if param(message, 1) == b"CAP".as_slice() {
        RegistrationEvent::UnknownCommand
    } else {
        RegistrationEvent::Nothing
    }
}

// Whether a command says that a login failed.
fn is_failure(command: &[u8]) -> bool
    ensures { result ≡ is_failure command.now }
{
    match command {
        b"902" | b"904" | b"905" | b"906" | b"907" => true,
        _ => false,
    }
}

// The piece of a login's message, if the message is one.
pub(crate) fn piece_of(message: &Message) -> Option<&[u8]>
    ensures { MatchOption result (piece_of message.now ≡ None) (λ piece. piece_of message.now ≡ Some piece.now) }
{
    if message.command.as_bytes() == b"AUTHENTICATE".as_slice() {
        Some(param(message, 0))
    } else {
        None
    }
}

// The parameter at `place`, counted from 0, or an empty slice if the message has fewer.
fn param(message: &Message, place: usize) -> &[u8]
    ensures { result.now ≡ param message.now place }
{
    match message.params.as_slice().get(place) {
        Some(text) => text.as_bytes(),
        None => b"",
    }
}
