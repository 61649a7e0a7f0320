// The kinds of lines that are counted.
ghost use Rattle.std.specs.Prelude.{◌≡◌};
ghost use Rattle.floods.specs.Windows.{is_by_channel, is_speech, kind_number};

/// What a line counts as. Each kind has a limit of its own.
#[derive(Clone, Copy, Debug, PartialEq, Eq)]
pub enum FloodKind {
    /// A PRIVMSG or NOTICE to the bot itself.
    Message,
    /// A CTCP: its text begins with byte 1. An ACTION to a channel counts as `Channel`.
    Ctcp,
    /// A PRIVMSG or NOTICE to a channel: the target begins with one of `#`, `&`, `+` and `!`.
    Channel,
    /// A JOIN of a channel.
    Join,
    /// A NICK.
    Nick,
    /// A KICK from a channel.
    Kick,
    /// A MODE that takes op from members of a channel. It counts once for each `o` under a minus.
    Deop,
}

impl FloodKind {
    // A number for each kind.
    pub(crate) fn number(self) -> u8
        ensures { result ≡ kind_number self }
    {
        match self {
            FloodKind::Message => 0,
            FloodKind::Ctcp => 1,
            FloodKind::Channel => 2,
            FloodKind::Join => 3,
            FloodKind::Nick => 4,
            FloodKind::Kick => 5,
            FloodKind::Deop => 6,
        }
    }

    // Whether its lines are dropped if their person is ignored. Other lines pass, since they change the channels.
    pub(crate) fn is_speech(self) -> bool
        ensures { result ≡ is_speech self }
    {
        match self {
            FloodKind::Message | FloodKind::Ctcp | FloodKind::Channel => true,
            FloodKind::Join | FloodKind::Nick | FloodKind::Kick | FloodKind::Deop => false,
        }
    }

    // Whether its lines are counted for each channel apart.
    pub(crate) fn is_by_channel(self) -> bool
        ensures { result ≡ is_by_channel self }
    {
        match self {
            FloodKind::Join | FloodKind::Kick | FloodKind::Deop => true,
            FloodKind::Message | FloodKind::Ctcp | FloodKind::Channel | FloodKind::Nick => false,
        }
    }
}
