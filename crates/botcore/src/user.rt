// The user name under which a bot registers.
ghost use Rattle.std.specs.Prelude.{◌≡◌, ◌≤◌, IfOk, filter, take};
ghost use Rattle.std.specs.Char.{is_ascii_alphanumeric};
ghost use Rattle.botcore.specs.Automatic.{user_name, user_of};

use crate::config::Config;
use crate::limits::MAX_USER;
use bytetext::{NoMemory, Text, TryCopy};
use std::alloc::Global;

// Returns the user name of a bot with this configuration.
pub(crate) fn user_name(alloc: Global, config: &Config) -> Result<Text, NoMemory>
    ensures { IfOk result (λ user. user ≡ user_name config.now) }
{
    if config.sends_at_once {
        user_of(alloc, config.nick.as_bytes())
    } else {
        config.nick.copy(alloc)
    }
}

// Returns the first letters and digits of `nick`, or `bot` if it has none.
fn user_of(alloc: Global, nick: &[u8]) -> Result<Text, NoMemory>
    ensures { IfOk result (λ user. user ≡ user_of nick.now) }
{
    let user = first_plain(alloc, nick)?;
    if user.is_empty() {
        return Text::from_slice(alloc, b"bot");
    }
    Ok(Text::new(user))
}

// Returns the first letters and digits of `nick`, at most as many as a user name has.
fn first_plain(alloc: Global, nick: &[u8]) -> Result<Vec<u8>, NoMemory>
    ensures { IfOk result (λ user. user.items ≡ take MAX_USER (filter is_ascii_alphanumeric nick.now)) }
{
    let mut user = Vec::from_slice(alloc, nick)?;
    keep_plain(&mut user);
    user.truncate(MAX_USER);
    Ok(user)
}

// Drops all bytes but letters and digits.
fn keep_plain(bytes: &mut Vec<u8>)
    ensures { bytes.new.items ≡ filter is_ascii_alphanumeric bytes.old.items }
{
    bytes.retain(|byte| byte.is_ascii_alphanumeric());
}
