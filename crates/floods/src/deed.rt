// What a line counts as.
ghost use Rattle.std.specs.Prelude.{◌≡◌, ◌≤◌, length};
ghost use Rattle.floods.specs.Acts.{deed_of, deops, is_action, is_channel, is_ctcp, kind_of, on_channel, place_said, said, second_of, target_of, text_of};

use crate::command::Command;
use crate::kind::FloodKind;
use crate::place::FloodPlace;
use bytetext::{after_word, first_word};

// What a line counts as, whoever sent it.
#[derive(Drop)]
pub(crate) struct Deed {
    pub(crate) kind: FloodKind,
    // The channel of the line.
    pub(crate) place: FloodPlace,
    // For how many lines it counts.
    pub(crate) weight: usize,
}

// What a line with this command and these words counts as, if it is counted.
#[tactic(auto, unfolding(crate::specs::Acts::deed_of))]
pub(crate) fn deed_of(command: Command, words: &[u8]) -> Option<Deed>
    ensures { result ≡ deed_of command words.now }
{
    match command {
        Command::Says => Some(said(first_word(words), text_of(after_word(words)))),
        Command::Joins => on_channel(FloodKind::Join, target_of(words), 1),
        Command::Renames => Some(Deed {
            kind: FloodKind::Nick,
            place: FloodPlace::none(),
            weight: 1,
        }),
        Command::Kicks => on_channel(FloodKind::Kick, target_of(words), 1),
        Command::SetsModes => on_channel(
            FloodKind::Deop,
            target_of(words),
            deops(second_of(words)),
        ),
    }
}

// What a PRIVMSG or NOTICE to `target` with this `text` counts as.
fn said(target: &[u8], text: &[u8]) -> Deed
    ensures { result ≡ said target.now text.now }
{
    Deed {
        kind: kind_of(target, text),
        place: place_said(target),
        weight: 1,
    }
}

// A line that the channel `target` sees counts if it is one, and if the line counts for any.
fn on_channel(kind: FloodKind, target: &[u8], weight: usize) -> Option<Deed>
    ensures { result ≡ on_channel kind target.now weight }
{
    if !is_channel(target) || weight == 0 {
        return None;
    }
    Some(Deed {
        kind,
        place: FloodPlace::new(target),
        weight,
    })
}

// The place of a line to `target`: the channel, or no place for the bot itself.
fn place_said(target: &[u8]) -> FloodPlace
    ensures { result ≡ place_said target.now }
{
    if is_channel(target) {
        return FloodPlace::new(target);
    }
    FloodPlace::none()
}

// The first parameter of these words.
fn target_of(words: &[u8]) -> &[u8]
    ensures { result.now ≡ target_of words.now }
{
    first_word(text_of(words))
}

// The second parameter of these words.
fn second_of(words: &[u8]) -> &[u8]
    ensures { result.now ≡ second_of words.now }
{
    first_word(text_of(after_word(words)))
}

// A parameter without the colon that stands before a last one.
fn text_of(text: &[u8]) -> &[u8]
    ensures { result.now ≡ text_of text.now }
{
    match text {
        [b':', rest @ ..] => rest,
        _ => text,
    }
}

// How many letters o stand under a minus in these letters of modes.
fn deops(letters: &[u8]) -> usize
    ensures { result ≡ deops letters.now }
{
    let mut count = 0;
    let mut minus = false;
    for letter in letters {
        match *letter {
            b'-' => minus = true,
            b'+' => minus = false,
            b'o' if minus => count += 1,
            _ => {}
        }
    }
    count
}

fn is_channel(target: &[u8]) -> bool
    ensures { result ≡ is_channel target.now }
{
    match target {
        [first, ..] => matches!(*first, b'#' | b'&' | b'+' | b'!'),
        [] => false,
    }
}

fn is_ctcp(text: &[u8]) -> bool
    ensures { result ≡ is_ctcp text.now }
{
    match text {
        [first, ..] => *first == 1,
        [] => false,
    }
}

// Whether a CTCP is an ACTION.
fn is_action(text: &[u8]) -> bool
    ensures { result ≡ is_action text.now }
{
    match text {
        [_, b'A', b'C', b'T', b'I', b'O', b'N', ..] => true,
        _ => false,
    }
}

// What a line to `target` with this `text` counts as.
fn kind_of(target: &[u8], text: &[u8]) -> FloodKind
    ensures { result ≡ kind_of target.now text.now }
{
    let is_channel = is_channel(target);
    if is_ctcp(text) && !(is_channel && is_action(text)) {
        return FloodKind::Ctcp;
    }
    if is_channel {
        return FloodKind::Channel;
    }
    FloodKind::Message
}
