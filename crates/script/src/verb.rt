// The first words of lines.
ghost use Rattle.std.specs.Prelude.{◌≡◌};
ghost use Rattle.script.specs.Vocabulary.{spelling_of, verb_named};

/// The first word of a line that is neither empty nor begins with `#`.
#[derive(Clone, Copy, Debug, PartialEq, Eq)]
pub enum Verb {
    /// Sets the number of leaves.
    Leaves,
    /// Requests a change.
    Ask,
    /// Makes each end of the link do what is due.
    Pump,
    /// Compacts a journal.
    Compact,
    /// Restarts a bot from its disks.
    Restart,
    /// Gives a bot a new connection to the server.
    Connect,
    /// Gives a bot a line of the server to read.
    Line,
    /// Makes a bot read its clock.
    Clock,
    /// Adds a bind.
    Bind,
    /// Removes a bind.
    Unbind,
    /// Delivers a packet.
    Deliver,
    /// Shows a bot's records.
    Show,
    /// Sets the zone of all clocks.
    Zone,
}

// Every verb.
const ALL: [Verb; 13] = [
    Verb::Leaves,
    Verb::Ask,
    Verb::Pump,
    Verb::Compact,
    Verb::Restart,
    Verb::Connect,
    Verb::Line,
    Verb::Clock,
    Verb::Bind,
    Verb::Unbind,
    Verb::Deliver,
    Verb::Show,
    Verb::Zone,
];

impl Verb {
    /// Returns the verb as scripts spell it.
    pub fn spelling(self) -> &'static str
        ensures { result.now ≡ spelling_of self }
    {
        match self {
            Verb::Leaves => "leaves",
            Verb::Ask => "ask",
            Verb::Pump => "pump",
            Verb::Compact => "compact",
            Verb::Restart => "restart",
            Verb::Connect => "connect",
            Verb::Line => "line",
            Verb::Clock => "clock",
            Verb::Bind => "bind",
            Verb::Unbind => "unbind",
            Verb::Deliver => "deliver",
            Verb::Show => "show",
            Verb::Zone => "zone",
        }
    }

    /// Returns the verb that is spelled as `spelling`, byte for byte.
    pub fn named(spelling: &[u8]) -> Option<Verb>
        ensures { result ≡ verb_named spelling.now }
    {
        ALL.iter()
            .copied()
            .find(|verb| spelling == verb.spelling().as_bytes())
    }
}
