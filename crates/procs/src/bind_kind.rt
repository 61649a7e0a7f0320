// The kinds of binds.
ghost use Rattle.std.specs.Prelude.{◌≡◌, Some};
ghost use Rattle.procs.specs.Kinds.{call_kind_of, kind_of, word_of};

use crate::call_kind::CallKind;

/// The kind of event that a bind waits for, as the Eggdrop bind type of the same word (Eggdrop 1.9, Tcl commands,
/// "Bind types"). A proc is called for each of these, and for a due timer, for which no bind waits.
#[derive(Clone, Copy, Debug, PartialEq, Eq)]
pub enum BindKind {
    /// Any line of the server, by its command.
    Raw,
    /// The first word of a private message.
    Msg,
    /// A private message, by its whole text.
    Msgm,
    /// A notice, by its whole text.
    Notc,
    /// The first word of a message to a channel.
    Pub,
    /// A message to a channel, by the channel and the whole text.
    Pubm,
    /// Someone joins a channel, by the channel and `nick!user@host`.
    Join,
    /// Someone leaves a channel, by the channel and `nick!user@host`.
    Part,
    /// Someone leaves the server, by a channel that both are on and `nick!user@host`.
    Sign,
    /// Someone is kicked from a channel, by the channel and the nick that is kicked.
    Kick,
    /// Someone takes another nick, by a channel that both are on and the new nick.
    Nick,
    /// One mode of a channel is set or cleared, by the channel and the signed mode.
    Mode,
    /// A channel gets another topic, by the channel and the topic.
    Topc,
    /// Someone logs in to an account of the network, or out of it, by the channel, `nick!user@host` and the account.
    Account,
    /// The first word of a text of another bot.
    Bot,
    /// A minute begins, by its time text: minute, hour, day, the month from 00, year.
    Time,
    /// A minute begins, by cron fields.
    Cron,
}

// Every kind.
const ALL: [BindKind; 17] = [
    BindKind::Raw,
    BindKind::Msg,
    BindKind::Msgm,
    BindKind::Notc,
    BindKind::Pub,
    BindKind::Pubm,
    BindKind::Join,
    BindKind::Part,
    BindKind::Sign,
    BindKind::Kick,
    BindKind::Nick,
    BindKind::Mode,
    BindKind::Topc,
    BindKind::Account,
    BindKind::Bot,
    BindKind::Time,
    BindKind::Cron,
];

impl BindKind {
    /// Returns the word that scripts write.
    pub fn word(self) -> &'static [u8]
        ensures word { result.now ≡ word_of self }
        // No two kinds share a word.
        ensures own { kind_of result.now ≡ Some self }
    {
        match self {
            BindKind::Raw => b"raw",
            BindKind::Msg => b"msg",
            BindKind::Msgm => b"msgm",
            BindKind::Notc => b"notc",
            BindKind::Pub => b"pub",
            BindKind::Pubm => b"pubm",
            BindKind::Join => b"join",
            BindKind::Part => b"part",
            BindKind::Sign => b"sign",
            BindKind::Kick => b"kick",
            BindKind::Nick => b"nick",
            BindKind::Mode => b"mode",
            BindKind::Topc => b"topc",
            BindKind::Account => b"account",
            BindKind::Bot => b"bot",
            BindKind::Time => b"time",
            BindKind::Cron => b"cron",
        }
    }

    /// Returns the kind whose word is `word`, byte for byte, if there is one.
    pub fn of_word(word: &[u8]) -> Option<BindKind>
        ensures { result ≡ kind_of word.now }
    {
        ALL.iter().copied().find(|kind| kind.word() == word)
    }

    /// Returns the kind of call that a bind of this kind makes.
    pub fn kind(self) -> CallKind
        ensures { result ≡ call_kind_of self }
    {
        match self {
            BindKind::Raw => CallKind::Raw,
            BindKind::Msg => CallKind::Msg,
            BindKind::Msgm => CallKind::Msgm,
            BindKind::Notc => CallKind::Notc,
            BindKind::Pub => CallKind::Pub,
            BindKind::Pubm => CallKind::Pubm,
            BindKind::Join => CallKind::Join,
            BindKind::Part => CallKind::Part,
            BindKind::Sign => CallKind::Sign,
            BindKind::Kick => CallKind::Kick,
            BindKind::Nick => CallKind::Nick,
            BindKind::Mode => CallKind::Mode,
            BindKind::Topc => CallKind::Topc,
            BindKind::Account => CallKind::Account,
            BindKind::Bot => CallKind::Bot,
            BindKind::Time => CallKind::Time,
            BindKind::Cron => CallKind::Cron,
        }
    }
}
