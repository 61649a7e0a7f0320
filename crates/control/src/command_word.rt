// The first words of commands.
ghost use Rattle.std.specs.Prelude.{◌≡◌};
ghost use Rattle.control.specs.Vocabulary.{spelling_of, word_named};

/// The first word of a command.
#[derive(Clone, Copy, Debug, PartialEq, Eq)]
pub enum CommandWord {
    /// A channel is joined.
    AddChan,
    /// A channel is left.
    DelChan,
    /// A ban is added.
    AddBan,
    /// A hostmask is added to a user.
    AddHost,
    /// A user is added.
    AddUser,
    /// The journal is copied.
    Backup,
    /// A bind is made.
    Bind,
    /// A user's flags as a bot are set.
    Bot,
    /// A user's flags on a channel are set.
    Chan,
    /// The accepted changes are told.
    Changes,
    /// The journal is rewritten.
    Compact,
    /// A ban is removed.
    DelBan,
    /// A hostmask is removed from a user.
    DelHost,
    /// A user is removed.
    DelUser,
    /// The bot ends.
    Die,
    /// A user's global flags are set.
    Global,
    /// A leaf is to take the hub's place.
    HandOver,
    /// A user's info line is set.
    Info,
    /// The bot leaves its server for the next.
    Jump,
    /// The configuration file is read again.
    Reload,
    /// A leaf may come back from another folder.
    Renew,
    /// The log's file is opened again.
    Reopen,
    /// The bot sends the server a line.
    Say,
    /// The records are shown.
    Show,
    /// The bot's status is shown.
    Status,
    /// A ban is made sticky, or no longer sticky.
    Sticky,
    /// The hub's records count, though a leaf has others.
    Trust,
    /// A bind is removed.
    Unbind,
    /// A person is ignored no longer.
    Unignore,
}

// Every word.
const ALL: [CommandWord; 29] = [
    CommandWord::AddChan,
    CommandWord::DelChan,
    CommandWord::AddBan,
    CommandWord::AddHost,
    CommandWord::AddUser,
    CommandWord::Backup,
    CommandWord::Bind,
    CommandWord::Bot,
    CommandWord::Chan,
    CommandWord::Changes,
    CommandWord::Compact,
    CommandWord::DelBan,
    CommandWord::DelHost,
    CommandWord::DelUser,
    CommandWord::Die,
    CommandWord::Global,
    CommandWord::HandOver,
    CommandWord::Info,
    CommandWord::Jump,
    CommandWord::Reload,
    CommandWord::Renew,
    CommandWord::Reopen,
    CommandWord::Say,
    CommandWord::Show,
    CommandWord::Status,
    CommandWord::Sticky,
    CommandWord::Trust,
    CommandWord::Unbind,
    CommandWord::Unignore,
];

impl CommandWord {
    /// Returns the word as admins spell it.
    pub fn spelling(self) -> &'static str
        ensures { result.now ≡ spelling_of self }
    {
        match self {
            CommandWord::AddChan => "+chan",
            CommandWord::DelChan => "-chan",
            CommandWord::AddBan => "addban",
            CommandWord::AddHost => "addhost",
            CommandWord::AddUser => "adduser",
            CommandWord::Backup => "backup",
            CommandWord::Bind => "bind",
            CommandWord::Bot => "bot",
            CommandWord::Chan => "chan",
            CommandWord::Changes => "changes",
            CommandWord::Compact => "compact",
            CommandWord::DelBan => "delban",
            CommandWord::DelHost => "delhost",
            CommandWord::DelUser => "deluser",
            CommandWord::Die => "die",
            CommandWord::Global => "global",
            CommandWord::HandOver => "handover",
            CommandWord::Info => "info",
            CommandWord::Jump => "jump",
            CommandWord::Reload => "reload",
            CommandWord::Renew => "renew",
            CommandWord::Reopen => "reopen",
            CommandWord::Say => "say",
            CommandWord::Show => "show",
            CommandWord::Status => "status",
            CommandWord::Sticky => "sticky",
            CommandWord::Trust => "trust-this-copy",
            CommandWord::Unbind => "unbind",
            CommandWord::Unignore => "unignore",
        }
    }

    /// Returns the word that `spelling` spells, byte for byte.
    pub fn named(spelling: &[u8]) -> Option<CommandWord>
        ensures { result ≡ word_named spelling.now }
    {
        ALL.iter()
            .copied()
            .find(|word| word.spelling().as_bytes() == spelling)
    }
}
