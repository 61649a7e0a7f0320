// Why a script cannot be read, as a sentence.
ghost use Rattle.std.specs.Prelude.{◌≡◌};
ghost use Rattle.script.specs.Askers.{in_name};

use crate::change_word::ChangeWord;
use crate::verb::Verb;
use std::fmt;
use std::fmt::Display;

/// Why a script cannot be read. The words of a line are counted from 1.
#[derive(Clone, Copy, Debug, PartialEq, Eq)]
pub enum Reason {
    /// The script has more than 1,048,576 bytes.
    TooLong,
    /// No line of the script says anything.
    NoCommand,
    /// The line ends in a carriage return.
    CarriageReturn,
    /// The line begins with a byte order mark.
    ByteOrderMark,
    /// The line begins with a space.
    SpaceBefore,
    /// The line ends in a space where a word is expected, or none.
    SpaceAfter,
    /// Two spaces stand together where one separates words.
    TwoSpaces,
    /// A tab stands where a space is expected.
    Tab,
    /// The first word is not a command.
    Unknown,
    /// The line has too few or too many words for this verb.
    Form(Verb),
    /// The second word is not a number of leaves, or it is above 1,000.
    Leaves,
    /// The second word is not the rule of a zone.
    Zone,
    /// The second word is not the number of a bot.
    Bot,
    /// The second word is not the number of a packet.
    Packet,
    /// The third word is not a number of seconds.
    Seconds,
    /// The third word is not the name of a change.
    Change,
    /// The line has too few or too many words for this change.
    ChangeForm(ChangeWord),
    /// The line has too few words for an ask in a person's name.
    AskerForm,
    /// The fifth word is not flags: those of a user everywhere, or as a bot.
    Flags,
    /// The sixth word is not flags: those of a user on a channel.
    ChannelFlags,
    /// The seventh word is not a number of seconds.
    Expiry,
    /// The sixth word is neither 0 nor 1.
    Mark,
    /// What follows who asks is neither a casemapping nor the name of a change.
    NamedChange,
    /// The last word of a change in a person's name is not flags.
    NamedFlags,
    /// The expiry of a ban in a person's name is not a number of seconds.
    NamedExpiry,
    /// The last word of a change in a person's name is neither 0 nor 1.
    NamedMark,
    /// The third word is not a type of binds.
    Kind,
    /// The number of leaves does not come first.
    LeavesFirst,
    /// The number of leaves comes twice.
    LeavesAgain,
    /// The zone comes twice, or after another command than the number of leaves.
    ZoneLate,
}

impl Reason {
    /// Returns the reason for a change that a person asks for, whose words stand further on in the line.
    pub(crate) fn in_name(self) -> Reason
        ensures { result ≡ in_name self }
    {
        match self {
            Reason::Change => Reason::NamedChange,
            Reason::Flags | Reason::ChannelFlags => Reason::NamedFlags,
            Reason::Expiry => Reason::NamedExpiry,
            Reason::Mark => Reason::NamedMark,
            Reason::TooLong
            | Reason::NoCommand
            | Reason::CarriageReturn
            | Reason::ByteOrderMark
            | Reason::SpaceBefore
            | Reason::SpaceAfter
            | Reason::TwoSpaces
            | Reason::Tab
            | Reason::Unknown
            | Reason::Form(_)
            | Reason::Leaves
            | Reason::Zone
            | Reason::Bot
            | Reason::Packet
            | Reason::Seconds
            | Reason::ChangeForm(_)
            | Reason::AskerForm
            | Reason::NamedChange
            | Reason::NamedFlags
            | Reason::NamedExpiry
            | Reason::NamedMark
            | Reason::Kind
            | Reason::LeavesFirst
            | Reason::LeavesAgain
            | Reason::ZoneLate => self,
        }
    }

    /// Returns what is wrong, and what to write instead.
    pub fn sentence(self) -> &'static str {
        match self {
            Reason::TooLong => "the script is longer than 1,048,576 bytes",
            Reason::NoCommand => "the script has no command: begin with leaves N, as in leaves 2",
            Reason::CarriageReturn =>
                "a carriage return ends the line: end lines with a line feed alone",
            Reason::ByteOrderMark =>
                "the line begins with a byte order mark: save the script without one",
            Reason::SpaceBefore => "the line begins with a space: begin it with its command",
            Reason::SpaceAfter =>
                "the line ends in a space: take it out, or write the word that is to follow it",
            Reason::TwoSpaces => "two spaces stand together: write one space between words",
            Reason::Tab => "a tab stands between words: write one space there",
            Reason::Unknown =>
                "word 1 is no command: say leaves, zone, ask, pump, compact, restart, connect, line, clock, bind, unbind, \
                 deliver or show",
            Reason::Form(verb) => form_of(verb),
            Reason::Leaves => "word 2 is no number of leaves: say 0 to 1000",
            Reason::Zone =>
                "word 2 is no rule of POSIX for a zone: say one, as in CET-1CEST,M3.5.0,M10.5.0/3",
            Reason::Bot =>
                "word 2 is no number of a bot: say 0 for the hub, or the number of a leaf",
            Reason::Packet =>
                "word 2 is no number of a packet: say 1 for the first that is sent, and so on",
            Reason::Seconds =>
                "word 3 is no number: say the seconds since 1970-01-01 UTC, as in 1767225600",
            Reason::Change =>
                "word 3 is no change: say adduser, deluser, addhost, delhost, global, bot, chan, addban, delban, info or sticky",
            Reason::ChangeForm(word) => change_form_of(word),
            Reason::AskerForm =>
                "say ask B as NICK!USER@HOST CHANGE, as in ask 0 as alice!al@host.example info alice I keep the eggs",
            Reason::Flags => "word 5 is no flags: say letters alone, as in mo, or - for none",
            Reason::ChannelFlags =>
                "word 6 is no flags: say letters alone, as in mo, or - for none",
            Reason::Expiry =>
                "word 7 is no number: say the seconds since 1970-01-01 UTC, or 0 for a ban that does not end",
            Reason::Mark =>
                "word 6 is neither 0 nor 1: say 1 for a ban that is to be sticky, or 0 for one that is not",
            Reason::NamedChange =>
                "no change follows who asks: say adduser, deluser, addhost, delhost, global, bot, chan, addban, delban, info or \
                 sticky, or before it ascii, strict-rfc1459 or rfc1459",
            Reason::NamedFlags =>
                "the last word is no flags: say letters alone, as in mo, or - for none",
            Reason::NamedExpiry =>
                "the word after the handle is no number: say the seconds since 1970-01-01 UTC, or 0 for a ban that does not \
                 end",
            Reason::NamedMark =>
                "the last word is neither 0 nor 1: say 1 for a ban that is to be sticky, or 0 for one that is not",
            Reason::Kind =>
                "word 3 is no type of binds: say raw, msg, msgm, notc, pub, pubm, join, part, sign, kick, nick, mode, topc, \
                 account, bot, time or cron",
            Reason::LeavesFirst => "leaves N comes before all other commands, as in leaves 2",
            Reason::LeavesAgain => "a line above says leaves: say it once",
            Reason::ZoneLate => "say zone once, as the next command after leaves",
        }
    }
}

impl Display for Reason {
    fn fmt<W: fmt::Write>(&self, f: &mut fmt::Formatter<W>) -> fmt::Result {
        f.write_str(self.sentence())
    }
}

// The words of a line of this verb.
fn form_of(verb: Verb) -> &'static str {
    match verb {
        Verb::Leaves => "say leaves N, as in leaves 2",
        Verb::Ask => "say ask B CHANGE, as in ask 0 adduser alice",
        Verb::Pump => "say pump B, as in pump 0",
        Verb::Compact => "say compact B, as in compact 0",
        Verb::Restart => "say restart B, as in restart 1",
        Verb::Connect => "say connect B, as in connect 0",
        Verb::Line => "say line B TEXT, as in line 0 PING :irc.test",
        Verb::Clock => "say clock B N, as in clock 0 1767225600",
        Verb::Bind => "say bind B TYPE FLAGS PROC MASK, as in bind 0 pub - echo !echo",
        Verb::Unbind => "say unbind B TYPE PROC MASK, as in unbind 0 pub echo !echo",
        Verb::Deliver => "say deliver K, as in deliver 1",
        Verb::Show => "say show B, as in show 0",
        Verb::Zone => "say zone RULE, as in zone CET-1CEST,M3.5.0,M10.5.0/3",
    }
}

// The words of a line that requests this change.
fn change_form_of(word: ChangeWord) -> &'static str {
    match word {
        ChangeWord::AddUser => "say ask B adduser HANDLE, as in ask 0 adduser alice",
        ChangeWord::DelUser => "say ask B deluser HANDLE, as in ask 0 deluser alice",
        ChangeWord::AddHost =>
            "say ask B addhost HANDLE MASK, as in ask 0 addhost alice *!*alice@host.example",
        ChangeWord::DelHost =>
            "say ask B delhost HANDLE MASK, as in ask 0 delhost alice *!*alice@host.example",
        ChangeWord::DelBan =>
            "say ask B delban CHANNEL MASK, as in ask 0 delban #egg *!*@spam.example",
        ChangeWord::Global => "say ask B global HANDLE FLAGS, as in ask 0 global alice o",
        ChangeWord::Bot => "say ask B bot HANDLE FLAGS, as in ask 0 bot egg1 s",
        ChangeWord::Chan => "say ask B chan HANDLE CHANNEL FLAGS, as in ask 0 chan alice #egg o",
        ChangeWord::AddBan =>
            "say ask B addban CHANNEL MASK HANDLE EXPIRY COMMENT, as in ask 0 addban #egg *!*@spam.example alice 0 no spam",
        ChangeWord::Info => "say ask B info HANDLE TEXT, as in ask 0 info alice I keep the eggs",
        ChangeWord::Sticky =>
            "say ask B sticky CHANNEL MASK N, as in ask 0 sticky #egg *!*@spam.example 1",
    }
}
