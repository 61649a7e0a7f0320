// The command of a message, as far as channels and events are concerned.
ghost use Rattle.std.specs.Prelude.{◌≡◌, find};
ghost use Rattle.std.specs.Str.{bytes_eq};
ghost use Rattle.chanstate.specs.Items.{word_of, all_verbs, verb_of};

/// A command that may change the state of channels or has events of its own, and any other.
#[derive(Clone, Copy)]
pub enum ChannelCommand {
    RplWelcome,
    RplISupport,
    Join,
    Part,
    Kick,
    Quit,
    Nick,
    Mode,
    Topic,
    RplTopic,
    RplNoTopic,
    RplNamReply,
    RplWhoReply,
    RplWhoSpcRpl,
    Cap,
    Account,
    ChgHost,
    Privmsg,
    Notice,
    Other,
}

// Every command that has a name. Most lines are talk, so PRIVMSG is compared first.
const ALL: [ChannelCommand; 19] = [
    ChannelCommand::Privmsg,
    ChannelCommand::Notice,
    ChannelCommand::RplWelcome,
    ChannelCommand::RplISupport,
    ChannelCommand::Join,
    ChannelCommand::Part,
    ChannelCommand::Kick,
    ChannelCommand::Quit,
    ChannelCommand::Nick,
    ChannelCommand::Mode,
    ChannelCommand::Topic,
    ChannelCommand::RplTopic,
    ChannelCommand::RplNoTopic,
    ChannelCommand::RplNamReply,
    ChannelCommand::RplWhoReply,
    ChannelCommand::RplWhoSpcRpl,
    ChannelCommand::Cap,
    ChannelCommand::Account,
    ChannelCommand::ChgHost,
];

impl ChannelCommand {
    // Returns the name that stands in a message; any other command has none.
    fn word(self) -> &'static [u8]
        ensures { result.now ≡ word_of self }
    {
        match self {
            ChannelCommand::RplWelcome => b"001",
            ChannelCommand::RplISupport => b"005",
            ChannelCommand::Join => b"JOIN",
            ChannelCommand::Part => b"PART",
            ChannelCommand::Kick => b"KICK",
            ChannelCommand::Quit => b"QUIT",
            ChannelCommand::Nick => b"NICK",
            ChannelCommand::Mode => b"MODE",
            ChannelCommand::Topic => b"TOPIC",
            ChannelCommand::RplTopic => b"332",
            ChannelCommand::RplNoTopic => b"331",
            ChannelCommand::RplNamReply => b"353",
            ChannelCommand::RplWhoReply => b"352",
            ChannelCommand::RplWhoSpcRpl => b"354",
            ChannelCommand::Cap => b"CAP",
            ChannelCommand::Account => b"ACCOUNT",
            ChannelCommand::ChgHost => b"CHGHOST",
            ChannelCommand::Privmsg => b"PRIVMSG",
            ChannelCommand::Notice => b"NOTICE",
            ChannelCommand::Other => b"",
        }
    }
}

/// Returns the command called `command` (RFC 2812 sections 3.1, 3.2, 3.3 and 5.1; for 005, 354, CAP, ACCOUNT and CHGHOST
/// what today's servers send).
pub fn read_verb(command: &[u8]) -> ChannelCommand
    ensures { result ≡ verb_of command.now }
{
    find_verb(command).unwrap_or(ChannelCommand::Other)
}

fn find_verb(command: &[u8]) -> Option<ChannelCommand>
    ensures { result ≡ find (λ verb. bytes_eq (word_of verb) command.now) all_verbs }
{
    ALL.iter().copied().find(|verb| verb.word() == command)
}
