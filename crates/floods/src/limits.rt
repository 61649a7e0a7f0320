// How many lines a person may send before the bot ignores him.
ghost use Rattle.std.specs.Prelude.{◌≡◌, Some};
ghost use Rattle.floods.specs.Windows.{eggdrop, limit_of};

use crate::kind::FloodKind;

/// At most `lines` lines of one kind in a window of `seconds` seconds. The window begins with a counted line.
#[derive(Clone, Copy, Debug, PartialEq, Eq)]
pub struct Limit {
    /// The most lines of a window.
    pub lines: u16,
    /// How long a window is.
    pub seconds: u32,
}

/// The limits of each kind; `None` is no limit.
#[derive(Clone, Copy, Debug, PartialEq, Eq)]
pub struct Limits {
    /// The limit of lines to the bot.
    pub message: Option<Limit>,
    /// The limit of CTCPs.
    pub ctcp: Option<Limit>,
    /// The limit of lines to channels, all channels together.
    pub channel: Option<Limit>,
    /// The limit of JOINs of one channel.
    pub join: Option<Limit>,
    /// The limit of NICKs.
    pub nick: Option<Limit>,
    /// The limit of KICKs from one channel.
    pub kick: Option<Limit>,
    /// The limit of members of one channel from whom a person takes op.
    pub deop: Option<Limit>,
    /// How many seconds a person is ignored who passes a limit.
    pub ignore: u32,
}

impl Limits {
    /// Returns Eggdrop's limits (`flood-msg 5:60`, `flood-ctcp 3:60`, `flood-chan 15:60`, `flood-join 5:60`,
    /// `flood-nick 5:60`, `flood-kick 3:10`, `flood-deop 3:10`, `ignore-time 10`).
    pub fn eggdrop() -> Limits
        ensures { result ≡ eggdrop }
    {
        Limits {
            message: most(5, 60),
            ctcp: most(3, 60),
            channel: most(15, 60),
            join: most(5, 60),
            nick: most(5, 60),
            kick: most(3, 10),
            deop: most(3, 10),
            ignore: 600,
        }
    }

    /// Returns the limit of `kind`.
    pub fn of(&self, kind: FloodKind) -> Option<Limit>
        ensures { result ≡ limit_of self.now kind }
    {
        match kind {
            FloodKind::Message => self.message,
            FloodKind::Ctcp => self.ctcp,
            FloodKind::Channel => self.channel,
            FloodKind::Join => self.join,
            FloodKind::Nick => self.nick,
            FloodKind::Kick => self.kick,
            FloodKind::Deop => self.deop,
        }
    }
}

// At most `lines` lines in `seconds` seconds.
fn most(lines: u16, seconds: u32) -> Option<Limit>
    ensures { result ≡ Some (record { lines = lines; seconds = seconds }) }
{
    Some(Limit { lines, seconds })
}
