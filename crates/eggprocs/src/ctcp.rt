// The proc that answers requests of the Client-To-Client Protocol (CTCP).
ghost use Rattle.std.specs.Prelude.{◌≡◌, ◌++◌, ◌<◌, IfOk};
ghost use Rattle.std.specs.Option.{option_copied};
ghost use Rattle.eggprocs.specs.Ctcp.{is_raw, sender_of, command_of, addressee_of, without_colon, text_of, is_tagged, untagged, is_request};
ghost use Rattle.eggprocs.specs.Ctcp.{two_digits, day_clock, told_time, told_ping, answer_to, tagged, answered_to, asked_by_ctcp};

use crate::args::arg_at;
use crate::channel::one_line;
use crate::everyone::is_own_nick;
use crate::lines::notice;
use bytetext::{NoMemory, Text, after_word, first_word};
use ircline::{Source, source};
use outqueue::Queue;
use procs::{Actions, Call, CallKind, View};
use std::alloc::Global;

/// The maximum number of bytes of a PING's argument, which `ctcp` gives back. A longer one gets no answer.
pub const MAX_PING: usize = 32;

// What `ctcp` requests: a NOTICE to the person who sends the bot a request.
pub(crate) fn asked_by_ctcp(
    alloc: Global,
    call: &Call,
    view: &View<'_>,
) -> Result<Actions, NoMemory>
    ensures { IfOk result (λ actions. actions ≡ asked_by_ctcp call.now view.now) }
{
    if !is_request(call, view) {
        return Ok(Actions::empty(alloc));
    }
    let Some(nick) = sender_of(call) else {
        return Ok(Actions::empty(alloc));
    };
    let words = untagged(text_of(call));
    let answer = answer_to(alloc, words, view.second())?;
    answered_to(alloc, nick, answer)
}

// Whether a call is for a line of the server.
pub(crate) fn is_raw(kind: CallKind) -> bool
    ensures { result ≡ is_raw kind }
{
    matches!(kind, CallKind::Raw)
}

// The nick of the person who sends the line.
fn sender_of(call: &Call) -> Option<&[u8]>
    ensures { option_copied result ≡ sender_of call.now }
{
    match source(arg_at(call.args.as_slice(), 0)) {
        Source::Person(person) => Some(person.nick),
        Source::Server(_) | Source::None => None,
    }
}

// The command of the line.
pub(crate) fn command_of(call: &Call) -> &[u8]
    ensures { result.now ≡ command_of call.now }
{
    arg_at(call.args.as_slice(), 1)
}

// To whom a PRIVMSG goes.
fn addressee_of(call: &Call) -> &[u8]
    ensures { result.now ≡ addressee_of call.now }
{
    first_word(arg_at(call.args.as_slice(), 2))
}

// The text of a PRIVMSG.
fn text_of(call: &Call) -> &[u8]
    ensures { result.now ≡ text_of call.now }
{
    without_colon(after_word(arg_at(call.args.as_slice(), 2)))
}

// A last parameter without the colon that may mark it.
pub(crate) fn without_colon(text: &[u8]) -> &[u8]
    ensures { result.now ≡ without_colon text.now }
{
    if !text.is_empty() && text[0] == b':' {
        &text[1..]
    } else {
        text
    }
}

// Whether a text begins with a byte 1 and ends with another one.
fn is_tagged(text: &[u8]) -> bool
    ensures { result ≡ is_tagged text.now }
{
    text.len() >= 2 && text[0] == 1 && text[text.len() - 1] == 1
}

// What is between the first byte of a text and its last one.
fn untagged(text: &[u8]) -> &[u8]
    ensures { result.now ≡ untagged text.now }
{
    let front = &text[..text.len().saturating_sub(1)];
    if front.is_empty() { front } else { &front[1..] }
}

// Whether a call is for a request to the bot alone.
fn is_request(call: &Call, view: &View<'_>) -> bool
    ensures { result ≡ is_request call.now view.now }
{
    is_raw(call.kind)
        && command_of(call) == b"PRIVMSG".as_slice()
        && is_own_nick(view, addressee_of(call))
        && is_tagged(text_of(call))
}

// The answer to a request by its first word.
fn answer_to(alloc: Global, words: &[u8], second: Option<u64>) -> Result<Option<Text>, NoMemory>
    ensures { IfOk result (λ answer. answer ≡ answer_to words.now second) }
{
    let keyword = first_word(words);
    if keyword == b"VERSION".as_slice() {
        Ok(Some(Text::from_slice(alloc, b"VERSION eggnet")?))
    } else if keyword == b"PING".as_slice() {
        told_ping(alloc, after_word(words))
    } else if keyword == b"TIME".as_slice() {
        told_time(alloc, second)
    } else {
        Ok(None)
    }
}

// The argument of a PING given back, if it is not too long.
fn told_ping(alloc: Global, argument: &[u8]) -> Result<Option<Text>, NoMemory>
    ensures { IfOk result (λ answer. answer ≡ told_ping argument.now) }
{
    if argument.len() > MAX_PING {
        return Ok(None);
    }
    let mut text = Vec::from_slice(alloc, b"PING ")?;
    text.extend_from_slice(argument)?;
    Ok(Some(Text::new(text)))
}

// The time of the day in UTC, once the bot's clock shows a second.
fn told_time(alloc: Global, second: Option<u64>) -> Result<Option<Text>, NoMemory>
    ensures { IfOk result (λ answer. answer ≡ told_time second) }
{
    let Some(second) = second else {
        return Ok(None);
    };
    let mut text = Vec::from_slice(alloc, b"TIME ")?;
    text.extend_from_slice(&day_clock((second % 86_400) as u32))?;
    text.extend_from_slice(b" UTC")?;
    Ok(Some(Text::new(text)))
}

// The hour, minute and second of a second of the day.
fn day_clock(second: u32) -> [u8; 8]
    ensures { result ≡ day_clock second }
{
    let [h, i] = two_digits(second / 3600);
    let [m, n] = two_digits(second / 60 % 60);
    let [s, t] = two_digits(second % 60);
    [h, i, b':', m, n, b':', s, t]
}

// The last two decimal digits of a number.
fn two_digits(n: u32) -> [u8; 2]
    ensures { result ≡ two_digits n }
{
    [b'0' + (n / 10 % 10) as u8, b'0' + (n % 10) as u8]
}

// A NOTICE with an answer to this nick, if there is one.
fn answered_to(alloc: Global, nick: &[u8], answer: Option<Text>) -> Result<Actions, NoMemory>
    ensures { IfOk result (λ actions. actions ≡ answered_to nick.now answer) }
{
    let Some(answer) = answer else {
        return Ok(Actions::empty(alloc));
    };
    let text = tagged(alloc, answer.as_bytes())?;
    let line = notice(alloc, nick, text.as_bytes())?;
    one_line(alloc, Queue::Help, line)
}

// A text between two bytes 1.
fn tagged(alloc: Global, text: &[u8]) -> Result<Text, NoMemory>
    ensures { IfOk result (λ tagged_text. tagged_text ≡ tagged text.now) }
{
    let mut line = Vec::from_slice(alloc, b"\x01")?;
    line.extend_from_slice(text)?;
    line.extend_from_slice(b"\x01")?;
    Ok(Text::new(line))
}
