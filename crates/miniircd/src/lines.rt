// The lines that the server writes.
ghost use Rattle.std.specs.Prelude.{◌≡◌, ◌++◌, IfOk};
ghost use Rattle.ircline.specs.Printing.{wants_colon};
ghost use Rattle.miniircd.specs.Lines.{shown, repeated, numbered_head, numbered, cut, head, relayed, source_of};

use crate::client_identity::ClientIdentity;
use crate::texts::front;
use bytetext::NoMemory;
use std::alloc::Global;

// The most bytes of a line before CR and LF (RFC 2812 section 2.3).
const MAX_LINE: usize = 510;

// The most bytes of a line before its last parameter and the space before that.
const ROOM: usize = 509;

// The most bytes of a word that a reply repeats.
const MAX_REPEATED: usize = 100;

fn shown(nick: &[u8]) -> &[u8]
    ensures { result.now ≡ shown nick.now }
{
    if nick.len() > 0 { nick } else { b"*" }
}

// Returns a numbered reply up to its last parameter, with the colon of that parameter.
fn numbered_head(alloc: Global, nick: &[u8], code: &[u8], words: &[u8]) -> Result<Vec<u8>, NoMemory>
    ensures { IfOk result (λ line. line.items ≡ numbered_head nick.now code.now words.now) }
{
    let mut line = Vec::from_slice(alloc, b":irc.test ")?;
    line.extend_from_slice(code)?;
    line.extend_from_slice(b" ")?;
    line.extend_from_slice(shown(nick))?;
    line.extend_from_slice(words)?;
    line.extend_from_slice(b" :")?;
    Ok(line)
}

/// Returns the reply to `nick` with the number `code`, of at most 510 bytes. `words` have a space before each, and
/// `last`, the last parameter, gets a colon.
pub fn numbered(
    alloc: Global,
    nick: &[u8],
    code: &[u8],
    words: &[u8],
    last: &[u8],
) -> Result<Vec<u8>, NoMemory>
    ensures { IfOk result (λ line. line.items ≡ numbered nick.now code.now words.now last.now) }
{
    let mut line = numbered_head(alloc, nick, code, words)?;
    let last = front(last, MAX_LINE.saturating_sub(line.len()));
    line.extend_from_slice(last)?;
    Ok(line)
}

/// Returns `word`, which a reply repeats, with a space before it.
pub fn repeated(alloc: Global, word: &[u8]) -> Result<Vec<u8>, NoMemory>
    ensures { IfOk result (λ words. words.items ≡ repeated word.now) }
{
    let mut words = Vec::from_slice(alloc, b" ")?;
    let len = MAX_REPEATED.min(word.len());
    words.extend_from_slice(&word[..len])?;
    Ok(words)
}

// Returns whether a last parameter needs a colon.
fn wants_colon(param: &[u8]) -> bool
    ensures { result ≡ wants_colon param.now }
{
    match param {
        [] => true,
        [first, ..] => *first == b':' || param.contains(&b' '),
    }
}

// Returns the longest front of `last` that fits in `room` bytes, with the colon that it may need.
fn cut(room: usize, last: &[u8]) -> &[u8]
    ensures { result.now ≡ cut room last.now }
{
    let front = &last[..room.min(last.len())];
    if wants_colon(front) && room <= last.len() {
        &last[..room.saturating_sub(1)]
    } else {
        front
    }
}

// Returns a line up to its last parameter.
fn head(alloc: Global, source: &[u8], command: &[u8], words: &[u8]) -> Result<Vec<u8>, NoMemory>
    ensures { IfOk result (λ line. line.items ≡ head source.now command.now words.now) }
{
    let mut line = Vec::from_slice(alloc, b":")?;
    line.extend_from_slice(source)?;
    line.extend_from_slice(b" ")?;
    line.extend_from_slice(command)?;
    line.extend_from_slice(words)?;
    Ok(line)
}

/// Returns a message that the server passes on from `source`, of at most 510 bytes. `words` stand after `command`, with
/// a space before each; `last` is the last parameter.
pub fn relayed(
    alloc: Global,
    source: &[u8],
    command: &[u8],
    words: &[u8],
    last: &[u8],
) -> Result<Vec<u8>, NoMemory>
    ensures { IfOk result (λ line. line.items ≡ relayed source.now command.now words.now last.now) }
{
    let mut line = head(alloc, source, command, words)?;
    let last = cut(ROOM.saturating_sub(line.len()), last);
    line.push(b' ')?;
    if wants_colon(last) {
        line.push(b':')?;
    }
    line.extend_from_slice(last)?;
    Ok(line)
}

/// Returns the source of the messages of `person`.
pub fn source_of(alloc: Global, person: &ClientIdentity) -> Result<Vec<u8>, NoMemory>
    ensures { IfOk result (λ source. source.items ≡ source_of person.now) }
{
    let mut source = Vec::from_slice(alloc, person.nick.as_bytes())?;
    source.extend_from_slice(b"!")?;
    source.extend_from_slice(person.user.as_bytes())?;
    source.extend_from_slice(b"@local")?;
    Ok(source)
}

/// Returns the QUIT from `source`, with the `reason` that the client may give.
pub fn farewell(alloc: Global, source: &[u8], reason: Option<&[u8]>) -> Result<Vec<u8>, NoMemory> {
    match reason {
        Some(reason) => relayed(alloc, source, b"QUIT", b"", reason),
        None => head(alloc, source, b"QUIT", b""),
    }
}
