// The commands of a live script.
use crate::moment::Moment;
use botcore::BotEvent;
use bytetext::{Seq, Text};

/// One command after the number of leaves. Whether its bot or guest exists is checked when the command is done.
#[derive(Drop)]
pub enum LiveCommand {
    /// Makes this bot take a step: an ask, a pump, a compaction, a restart, a bind or an unbind.
    Tell {
        /// The bot's number.
        bot: u16,
        /// The step's event.
        event: BotEvent,
    },
    /// Gives this bot a new connection to the server.
    Connect(u16),
    /// Shows the version and the records of this bot.
    Show(u16),
    /// Makes turns until each bot is at this version or above.
    Until(u32),
    /// Makes this number of turns, at most [`MAX_TURNS`](crate::MAX_TURNS).
    Turns(u32),
    /// Makes a client in memory register under a nick and join a channel.
    Guest {
        /// The nick, which is also the user name.
        nick: Text,
        /// The channel.
        channel: Text,
    },
    /// Makes a guest say something.
    Say(Speech),
    /// Prints what a guest has received since the last time.
    Heard(Text),
    /// Sets the moment that each bot's clock shows from now on.
    Clock(Moment),
}

/// What a guest says, and to whom.
pub struct Speech {
    /// The guest's nick.
    pub nick: Text,
    /// A channel or a nick.
    pub target: Text,
    /// The text that the guest says.
    pub text: Text,
}

// By hand, so that this is proved once, and not in each function in which one ends.
impl Drop for Speech {
    fn drop(self) {
        let Speech {
            nick: _,
            target: _,
            text: _,
        } = self;
    }
}

/// Commands, in order.
pub type LiveCommands = Seq<LiveCommand>;
