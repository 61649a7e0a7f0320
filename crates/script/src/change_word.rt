// The names of changes.
ghost use Rattle.std.specs.Prelude.{◌≡◌};
ghost use Rattle.script.specs.Vocabulary.{change_word_named, change_spelling};

/// The name of a change, the third word of an `ask`.
#[derive(Clone, Copy, Debug, PartialEq, Eq)]
pub enum ChangeWord {
    /// Adds a user.
    AddUser,
    /// Deletes a user.
    DelUser,
    /// Adds a hostmask to a user.
    AddHost,
    /// Deletes a hostmask of a user.
    DelHost,
    /// Deletes a ban.
    DelBan,
    /// Sets a user's flags everywhere.
    Global,
    /// Sets a user's flags as a bot.
    Bot,
    /// Sets a user's flags on a channel.
    Chan,
    /// Adds a ban.
    AddBan,
    /// Sets a user's info line.
    Info,
    /// Sets whether a ban is sticky.
    Sticky,
}

// Every name.
const ALL: [ChangeWord; 11] = [
    ChangeWord::AddUser,
    ChangeWord::DelUser,
    ChangeWord::AddHost,
    ChangeWord::DelHost,
    ChangeWord::DelBan,
    ChangeWord::Global,
    ChangeWord::Bot,
    ChangeWord::Chan,
    ChangeWord::AddBan,
    ChangeWord::Info,
    ChangeWord::Sticky,
];

impl ChangeWord {
    /// Returns the name as scripts spell it.
    pub fn spelling(self) -> &'static str
        ensures { result.now ≡ change_spelling self }
    {
        match self {
            ChangeWord::AddUser => "adduser",
            ChangeWord::DelUser => "deluser",
            ChangeWord::AddHost => "addhost",
            ChangeWord::DelHost => "delhost",
            ChangeWord::DelBan => "delban",
            ChangeWord::Global => "global",
            ChangeWord::Bot => "bot",
            ChangeWord::Chan => "chan",
            ChangeWord::AddBan => "addban",
            ChangeWord::Info => "info",
            ChangeWord::Sticky => "sticky",
        }
    }

    /// Returns the name that is spelled as `spelling`, byte for byte.
    pub fn named(spelling: &[u8]) -> Option<ChangeWord>
        ensures { result ≡ change_word_named spelling.now }
    {
        ALL.iter()
            .copied()
            .find(|word| spelling == word.spelling().as_bytes())
    }
}
