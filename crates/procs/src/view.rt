// What a proc sees of its bot.
use chanstate::ChanState;
use std::marker::Model;
use userfile::Userfile;

/// What a proc sees of its bot. The bot lends it for the call, and carries out the actions of the event only
/// afterwards.
#[derive(Drop)]
pub struct View<'a> {
    userfile: &'a Userfile,
    channels: &'a ChanState,
    second: Option<u64>,
}

impl<'a> Model for View<'a> {
    ghost use Rattle.procs.specs.Seen.{Seen};

    ghost Value = { Seen };

    ghost view = { λ v. record { sight = record { records = v.userfile.now; channels = v.channels.now }; second = v.second } };
}

impl<'a> View<'a> {
    ghost use Rattle.std.specs.Prelude.{◌≡◌};

    /// Creates the view of a bot with this `userfile` and these `channels`, whose clock shows `second`. Does not
    /// allocate.
    pub fn new(userfile: &'a Userfile, channels: &'a ChanState, second: Option<u64>) -> View<'a>
        ensures { result ≡ record { sight = record { records = userfile.now; channels = channels.now }; second = second } }
    {
        View {
            userfile,
            channels,
            second,
        }
    }

    /// Returns the people with their flags, and the bans.
    pub fn userfile(&self) -> &Userfile
        ensures { result.now ≡ self.now.sight.records }
    {
        self.userfile
    }

    /// Returns the channels that the bot is on, who is on them, and the bot's own nick.
    pub fn channels(&self) -> &ChanState
        ensures { result.now ≡ self.now.sight.channels }
    {
        self.channels
    }

    /// Returns the second that the bot's clock shows, counted from the start of 1970; none before its first reading.
    /// When a reading calls a proc, it is that reading, from which the proc's timers count.
    pub fn second(&self) -> Option<u64>
        ensures { result ≡ self.now.second }
    {
        self.second
    }
}
