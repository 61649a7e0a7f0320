// The kinds of calls.

/// Why a proc is called: for the kind of event of its bind, with the meaning of the Eggdrop bind type of the same word
/// (Eggdrop 1.9, Tcl commands, "Bind types"), or for a timer that is due.
#[derive(Clone, Copy, Debug, PartialEq, Eq)]
pub enum CallKind {
    /// A line of the server, by its command.
    Raw,
    /// The first word of a private message.
    Msg,
    /// A private message, by its whole text.
    Msgm,
    /// A notice, by its whole text.
    Notc,
    /// The first word of a message to a channel.
    Pub,
    /// A message to a channel, by the channel and the whole text.
    Pubm,
    /// Someone joins a channel.
    Join,
    /// Someone leaves a channel.
    Part,
    /// Someone leaves the server.
    Sign,
    /// Someone is kicked from a channel.
    Kick,
    /// Someone takes another nick.
    Nick,
    /// One mode of a channel is set or cleared.
    Mode,
    /// A channel gets another topic.
    Topc,
    /// Someone logs in to an account of the network, or out of it.
    Account,
    /// The first word of a text of another bot.
    Bot,
    /// A minute begins, by its time text.
    Time,
    /// A minute begins, by cron fields.
    Cron,
    /// A timer or a utimer is due. A timer names its proc itself, so no bind has this kind.
    Timer,
}
