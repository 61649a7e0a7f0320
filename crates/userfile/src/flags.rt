// A person's flags.
use crate::user::User;
use flagexpr::Flags;

/// The flags of a person that a bind is tried against.
#[derive(Clone, Copy, Debug)]
pub struct PersonFlags {
    /// The flags that the person has everywhere.
    pub global: Flags,
    /// The flags on the channel.
    pub chan: Flags,
    /// The flags of the person as a bot.
    pub bot: Flags,
}

impl PersonFlags {
    ghost use Rattle.std.specs.Prelude.{◌≡◌, ℕ, List, None, Some};
    ghost use Rattle.userfile.specs.Persons.{flags_on};

    // No flags: those of an unknown person.
    pub(crate) fn none() -> PersonFlags
        ensures { (channel : List ℕ) → result ≡ flags_on channel None }
    {
        PersonFlags {
            global: Flags::empty(),
            chan: Flags::empty(),
            bot: Flags::empty(),
        }
    }

    // A user's flags, with those on this channel.
    pub(crate) fn on(user: &User, channel: &[u8]) -> PersonFlags
        ensures { result ≡ flags_on channel.now (Some user.now) }
    {
        let chan = match user.channels.get(channel) {
            Some(entry) => entry.flags,
            None => Flags::empty(),
        };
        PersonFlags {
            global: user.global,
            chan,
            bot: user.bot,
        }
    }
}
