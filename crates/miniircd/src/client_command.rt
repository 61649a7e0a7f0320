// The commands that the server knows (RFC 2812 section 3).
ghost use Rattle.std.specs.Prelude.{◌≡◌};
ghost use Rattle.miniircd.specs.Commands.{is_command, command_of, inquiry_of, needed, needed_of, is_open, is_open_to_all, is_quit};

/// A command, by its name.
#[derive(Clone, Copy)]
pub enum ClientCommand {
    Nick,
    User,
    Join,
    Part,
    Topic,
    Kick,
    Mode,
    Privmsg,
    Notice,
    Names,
    Who,
    Ping,
    Quit,
    Ask(Inquiry),
    Unknown,
}

/// A command that changes nothing on this server: it asks, passes something on, or answers.
#[derive(Clone, Copy)]
pub enum Inquiry {
    // CAP, which is not in RFC 2812: what else the server can do (IRCv3, capability negotiation).
    Cap,
    Invite,
    Ison,
    List,
    Pong,
    Userhost,
    Whois,
}

// Returns whether `word` is the command called `name`.
fn is(word: &[u8], name: &[u8]) -> bool
    ensures { result ≡ is_command word.now name.now }
{
    word == name
}

/// Returns the command of a message, whose name is `word`.
pub fn read_command(word: &[u8]) -> ClientCommand
    ensures { result ≡ command_of word.now }
{
    if is(word, b"PRIVMSG") {
        ClientCommand::Privmsg
    } else if is(word, b"NOTICE") {
        ClientCommand::Notice
    } else if is(word, b"NICK") {
        ClientCommand::Nick
    } else if is(word, b"USER") {
        ClientCommand::User
    } else if is(word, b"JOIN") {
        ClientCommand::Join
    } else if is(word, b"PART") {
        ClientCommand::Part
    } else if is(word, b"TOPIC") {
        ClientCommand::Topic
    } else if is(word, b"KICK") {
        ClientCommand::Kick
    } else if is(word, b"MODE") {
        ClientCommand::Mode
    } else if is(word, b"NAMES") {
        ClientCommand::Names
    } else if is(word, b"WHO") {
        ClientCommand::Who
    } else if is(word, b"PING") {
        ClientCommand::Ping
    } else if is(word, b"QUIT") {
        ClientCommand::Quit
    } else {
        inquiry_of(word)
    }
}

// Returns the command called `word` if it is none of those above.
fn inquiry_of(word: &[u8]) -> ClientCommand
    ensures { result ≡ inquiry_of word.now }
{
    if is(word, b"INVITE") {
        ClientCommand::Ask(Inquiry::Invite)
    } else if is(word, b"USERHOST") {
        ClientCommand::Ask(Inquiry::Userhost)
    } else if is(word, b"CAP") {
        ClientCommand::Ask(Inquiry::Cap)
    } else if is(word, b"ISON") {
        ClientCommand::Ask(Inquiry::Ison)
    } else if is(word, b"LIST") {
        ClientCommand::Ask(Inquiry::List)
    } else if is(word, b"PONG") {
        ClientCommand::Ask(Inquiry::Pong)
    } else if is(word, b"WHOIS") {
        ClientCommand::Ask(Inquiry::Whois)
    } else {
        ClientCommand::Unknown
    }
}

impl Inquiry {
    // Returns how many parameters it needs.
    fn needed(self) -> usize
        ensures { result ≡ needed_of self }
    {
        match self {
            Inquiry::Invite => 2,
            Inquiry::Cap | Inquiry::Ison | Inquiry::Userhost => 1,
            Inquiry::List | Inquiry::Pong | Inquiry::Whois => 0,
        }
    }

    // Returns whether a client may send it before it is registered.
    fn is_open(self) -> bool
        ensures { result ≡ is_open_to_all self }
    {
        match self {
            Inquiry::Cap | Inquiry::Pong => true,
            Inquiry::Invite | Inquiry::Ison | Inquiry::List | Inquiry::Userhost | Inquiry::Whois =>
                false,
        }
    }
}

impl ClientCommand {
    /// Returns how many parameters it needs.
    pub fn needed(self) -> usize
        ensures { result ≡ needed self }
    {
        match self {
            ClientCommand::User => 4,
            ClientCommand::Kick | ClientCommand::Privmsg | ClientCommand::Notice => 2,
            ClientCommand::Nick
            | ClientCommand::Join
            | ClientCommand::Part
            | ClientCommand::Topic
            | ClientCommand::Mode
            | ClientCommand::Names
            | ClientCommand::Who
            | ClientCommand::Ping => 1,
            ClientCommand::Ask(inquiry) => inquiry.needed(),
            ClientCommand::Quit | ClientCommand::Unknown => 0,
        }
    }

    /// Returns whether a client may send it before it is registered.
    pub fn is_open(self) -> bool
        ensures { result ≡ is_open self }
    {
        match self {
            ClientCommand::Nick | ClientCommand::User | ClientCommand::Ping | ClientCommand::Quit =>
                true,
            ClientCommand::Ask(inquiry) => inquiry.is_open(),
            ClientCommand::Join
            | ClientCommand::Part
            | ClientCommand::Topic
            | ClientCommand::Kick
            | ClientCommand::Mode
            | ClientCommand::Privmsg
            | ClientCommand::Notice
            | ClientCommand::Names
            | ClientCommand::Who
            | ClientCommand::Unknown => false,
        }
    }

    /// Returns whether it is a QUIT.
    pub fn is_quit(self) -> bool
        ensures { result ≡ is_quit self }
    {
        match self {
            ClientCommand::Quit => true,
            ClientCommand::Nick
            | ClientCommand::User
            | ClientCommand::Join
            | ClientCommand::Part
            | ClientCommand::Topic
            | ClientCommand::Kick
            | ClientCommand::Mode
            | ClientCommand::Privmsg
            | ClientCommand::Notice
            | ClientCommand::Names
            | ClientCommand::Who
            | ClientCommand::Ping
            | ClientCommand::Ask(_)
            | ClientCommand::Unknown => false,
        }
    }
}
