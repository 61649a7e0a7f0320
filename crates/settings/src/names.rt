// Which words are nicks, and which are keys of channels.
ghost use Rattle.std.specs.Prelude.{◌≡◌};
ghost use Rattle.std.specs.List.{list_all};
ghost use Rattle.settings.specs.Names.{is_key, is_key_byte, is_nick, is_nick_byte};

use crate::{MAX_KEY, MAX_NICK};

/// Returns whether a bot can connect under `nick`.
pub fn is_nick(nick: &[u8]) -> bool
    ensures { result ≡ is_nick nick.now }
{
    if nick.is_empty() || nick.len() > MAX_NICK || nick[0] == b':' {
        return false;
    }
    are_nick_bytes(nick)
}

fn are_nick_bytes(nick: &[u8]) -> bool
    ensures { result ≡ list_all is_nick_byte nick.now }
{
    nick.iter().all(|byte| is_nick_byte(*byte))
}

fn is_nick_byte(byte: u8) -> bool
    ensures { result ≡ is_nick_byte byte }
{
    byte > b' ' && byte != b'!' && byte != b'@' && byte != b',' && byte != b'*' && byte != b'?'
}

/// Returns whether a JOIN can give `key` as the key of a channel: 1 to 50 bytes, none of them a space, a control byte
/// below it or a comma, and the first no colon.
pub fn is_key(key: &[u8]) -> bool
    ensures { result ≡ is_key key.now }
{
    if key.is_empty() || key.len() > MAX_KEY || key[0] == b':' {
        return false;
    }
    are_key_bytes(key)
}

fn are_key_bytes(key: &[u8]) -> bool
    ensures { result ≡ list_all is_key_byte key.now }
{
    key.iter().all(|byte| is_key_byte(*byte))
}

fn is_key_byte(byte: u8) -> bool
    ensures { result ≡ is_key_byte byte }
{
    byte > b' ' && byte != b','
}
