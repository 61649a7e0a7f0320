// Other nicks for a server that rejects the bot's own.
ghost use Rattle.std.specs.Prelude.{◌≡◌, ◌≢◌, ◌<◌, None, IfOk, IfErr, length};
ghost use Rattle.serverlink.specs.Nicks.{cut_nick, other_nick, place_of};

use bytetext::{NoMemory, Text};
use std::alloc::Global;

/// The most bytes of a nick that every server accepts (RFC 2812 section 1.2.1).
pub const SHORT_NICK: usize = 9;

/// Returns the next nick to try after a server has rejected the bot's own, `nick`, and the first `tried` of these.
///
/// If `nick` is longer than nine bytes, the first nick to try is its first nine bytes. All others end in more and more
/// underscores, which replace their last bytes. Returns `None` once all bytes would be underscores.
///
/// # Errors
/// `NoMemory` if an allocation fails: never when there is no further nick.
pub fn other_nick(alloc: Global, nick: &[u8], tried: usize) -> Result<Option<Text>, NoMemory>
    ensures found { IfOk result (λ found. found ≡ other_nick nick.now tried) }
    ensures memory { IfErr result (λ _. other_nick nick.now tried ≢ None) }
{
    let place = place_of(nick.len(), tried);
    if place >= SHORT_NICK || place >= nick.len() {
        return Ok(None);
    }
    Ok(Some(cut_nick(alloc, nick, place)?))
}

// How many underscores the nick ends in.
fn place_of(len: usize, tried: usize) -> usize
    ensures { result ≡ place_of len tried }
{
    if len > SHORT_NICK {
        tried
    } else {
        tried.saturating_add(1)
    }
}

// The first nine bytes of a nick, the last of them replaced by underscores.
fn cut_nick(alloc: Global, nick: &[u8], underscores: usize) -> Result<Text, NoMemory>
    requires few { underscores < SHORT_NICK }
    requires within { underscores < length nick.now }
    ensures { IfOk result (λ text. text ≡ cut_nick nick.now underscores) }
{
    let kept = SHORT_NICK.min(nick.len()) - underscores;
    let mut text = Vec::from_slice(alloc, &nick[..kept])?;
    text.resize(kept + underscores, b'_')?;
    Ok(Text::new(text))
}
