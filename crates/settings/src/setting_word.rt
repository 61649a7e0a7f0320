// The first words of lines.
ghost use Rattle.std.specs.Prelude.{◌≡◌};
ghost use Rattle.settings.specs.Vocabulary.{spelling_of, word_named};

/// The first word of a line with a setting.
#[derive(Clone, Copy, Debug, PartialEq, Eq)]
pub enum SettingWord {
    /// The account that the bot authenticates as.
    Account,
    /// A bind.
    Bind,
    /// Which bot it is.
    Bot,
    /// A channel to join.
    Channel,
    /// The bot's own folder.
    Data,
    /// Whether `msg` and `pub` binds ignore a text for which a `msgm` or `pubm` proc was called.
    Exclusive,
    /// How many lines to channels a person may send.
    FloodChan,
    /// How many CTCPs a person may send.
    FloodCtcp,
    /// From how many members of one channel a person may take op.
    FloodDeop,
    /// How many JOINs of one channel a person may send.
    FloodJoin,
    /// How many KICKs from one channel a person may send.
    FloodKick,
    /// How many lines to the bot a person may send.
    FloodMsg,
    /// How many NICKs a person may send.
    FloodNick,
    /// Where the hub listens.
    Hub,
    /// How long a person is ignored who sends more.
    IgnoreTime,
    /// What a leaf may do.
    Leaf,
    /// Where the bot listens.
    Listen,
    /// What is logged, where, and in which form.
    Log,
    /// The bot's nick.
    Nick,
    /// Where a page that shows the bot is served.
    Page,
    /// A line for the server.
    Perform,
    /// The file of the secret that both ends of the link know.
    Secret,
    /// A server to try.
    Server,
    /// How far its clock is ahead of UTC at each moment.
    Zone,
}

// Every word.
const ALL: [SettingWord; 24] = [
    SettingWord::Account,
    SettingWord::Bind,
    SettingWord::Bot,
    SettingWord::Channel,
    SettingWord::Data,
    SettingWord::Exclusive,
    SettingWord::FloodChan,
    SettingWord::FloodCtcp,
    SettingWord::FloodDeop,
    SettingWord::FloodJoin,
    SettingWord::FloodKick,
    SettingWord::FloodMsg,
    SettingWord::FloodNick,
    SettingWord::Hub,
    SettingWord::IgnoreTime,
    SettingWord::Leaf,
    SettingWord::Listen,
    SettingWord::Log,
    SettingWord::Nick,
    SettingWord::Page,
    SettingWord::Perform,
    SettingWord::Secret,
    SettingWord::Server,
    SettingWord::Zone,
];

impl SettingWord {
    /// Returns the word as files spell it.
    pub fn spelling(self) -> &'static str
        ensures { result.now ≡ spelling_of self }
    {
        match self {
            SettingWord::Account => "account",
            SettingWord::Bind => "bind",
            SettingWord::Bot => "bot",
            SettingWord::Channel => "channel",
            SettingWord::Data => "data",
            SettingWord::Exclusive => "exclusive",
            SettingWord::FloodChan => "flood-chan",
            SettingWord::FloodCtcp => "flood-ctcp",
            SettingWord::FloodDeop => "flood-deop",
            SettingWord::FloodJoin => "flood-join",
            SettingWord::FloodKick => "flood-kick",
            SettingWord::FloodMsg => "flood-msg",
            SettingWord::FloodNick => "flood-nick",
            SettingWord::Hub => "hub",
            SettingWord::IgnoreTime => "ignore-time",
            SettingWord::Leaf => "leaf",
            SettingWord::Listen => "listen",
            SettingWord::Log => "log",
            SettingWord::Nick => "nick",
            SettingWord::Page => "page",
            SettingWord::Perform => "perform",
            SettingWord::Secret => "secret",
            SettingWord::Server => "server",
            SettingWord::Zone => "zone",
        }
    }

    /// Returns the word that `spelling` spells, byte for byte.
    pub fn named(spelling: &[u8]) -> Option<SettingWord>
        ensures { result ≡ word_named spelling.now }
    {
        ALL.iter()
            .copied()
            .find(|word| word.spelling().as_bytes() == spelling)
    }
}
