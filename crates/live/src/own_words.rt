// The commands that only a live script has.
ghost use Rattle.std.specs.Prelude.{◌≡◌, ◌∷◌, map, IfOk};
ghost use Rattle.live.specs.Words.{by_more_words, by_number, by_one_word, by_two_words, clock, heard, own_command, turns, until};

use crate::MAX_TURNS;
use crate::live_command::{LiveCommand, Speech};
use crate::moment::Moment;
use bytetext::{NoMemory, Text};
use script::{number, rest_of};
use std::alloc::Global;

/// Returns the command that `words` spell, if only a live script has it, and `None` otherwise.
///
/// # Errors
/// `NoMemory` if memory cannot be allocated.
pub fn own_command(alloc: Global, words: &[&[u8]]) -> Result<Option<LiveCommand>, NoMemory>
    ensures { IfOk result (λ command. command ≡ own_command (map (λ word. word.now) words.now)) }
{
    match words {
        [verb, a] => by_one_word(alloc, verb, a),
        [verb, a, b] => by_two_words(alloc, verb, a, b),
        [verb, a, b, text, rest @ ..] => by_more_words(alloc, verb, a, b, text, rest),
        [] | [_] => Ok(None),
    }
}

// until V, turns N, clock N, heard NICK
fn by_one_word(alloc: Global, verb: &[u8], a: &[u8]) -> Result<Option<LiveCommand>, NoMemory>
    ensures { IfOk result (λ command. command ≡ by_one_word verb.now a.now) }
{
    if verb == b"heard".as_slice() {
        return heard(alloc, a);
    }
    match number(a) {
        Some(count) => Ok(by_number(verb, count)),
        None => Ok(None),
    }
}

fn heard(alloc: Global, nick: &[u8]) -> Result<Option<LiveCommand>, NoMemory>
    ensures { IfOk result (λ command. command ≡ heard nick.now) }
{
    if nick.is_empty() {
        return Ok(None);
    }
    Ok(Some(LiveCommand::Heard(Text::from_slice(alloc, nick)?)))
}

fn by_number(verb: &[u8], count: u64) -> Option<LiveCommand>
    ensures { result ≡ by_number verb.now count }
{
    if verb == b"until".as_slice() {
        until(count)
    } else if verb == b"turns".as_slice() {
        turns(count)
    } else if verb == b"clock".as_slice() {
        clock(count)
    } else {
        None
    }
}

fn until(version: u64) -> Option<LiveCommand>
    ensures { result ≡ until version }
{
    if version <= u64::from(u32::MAX) {
        Some(LiveCommand::Until(version as u32))
    } else {
        None
    }
}

fn turns(count: u64) -> Option<LiveCommand>
    ensures { result ≡ turns count }
{
    if count <= u64::from(MAX_TURNS) {
        Some(LiveCommand::Turns(count as u32))
    } else {
        None
    }
}

fn clock(seconds: u64) -> Option<LiveCommand>
    ensures { result ≡ clock seconds }
{
    match Moment::new(seconds) {
        Some(moment) => Some(LiveCommand::Clock(moment)),
        None => None,
    }
}

// guest NICK CHANNEL
fn by_two_words(
    alloc: Global,
    verb: &[u8],
    nick: &[u8],
    channel: &[u8],
) -> Result<Option<LiveCommand>, NoMemory>
    ensures { IfOk result (λ command. command ≡ by_two_words verb.now nick.now channel.now) }
{
    if verb != b"guest".as_slice() || nick.is_empty() || channel.is_empty() {
        return Ok(None);
    }
    let nick = Text::from_slice(alloc, nick)?;
    let channel = Text::from_slice(alloc, channel)?;
    Ok(Some(LiveCommand::Guest { nick, channel }))
}

// say NICK TARGET TEXT..
fn by_more_words(
    alloc: Global,
    verb: &[u8],
    nick: &[u8],
    target: &[u8],
    first: &[u8],
    rest: &[&[u8]],
) -> Result<Option<LiveCommand>, NoMemory>
    ensures { IfOk result (λ command. command ≡ by_more_words verb.now nick.now target.now
        (first.now ∷ map (λ word. word.now) rest.now)) }
{
    if verb != b"say".as_slice() || nick.is_empty() || target.is_empty() {
        return Ok(None);
    }
    let Some(text) = rest_of(alloc, first, rest)? else {
        return Ok(None);
    };
    let nick = Text::from_slice(alloc, nick)?;
    let target = Text::from_slice(alloc, target)?;
    Ok(Some(LiveCommand::Say(Speech { nick, target, text })))
}
