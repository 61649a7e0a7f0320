// What to say instead of a faulty line.
use crate::setting_word::SettingWord;
use std::fmt;
use std::fmt::Display;

/// What to say instead of a line that breaks a rule.
#[derive(Clone, Copy, Debug, PartialEq, Eq)]
pub enum SettingAdvice {
    /// The line does not have the form of this word.
    Form(SettingWord),
    /// An earlier line has this word, which may stand once.
    Once(SettingWord),
    /// A channel's key is none that a JOIN can give.
    Key,
    /// The bot's number is above the number of leaves, or these are above 1,000.
    Leaves,
    /// The line names no leaf of the net: its number is 0, or above the number of leaves.
    NoLeaf,
    /// The line is for hubs, and the bot is a leaf.
    HubAlone,
    /// An earlier line says the same.
    Again,
    /// An earlier line is of this leaf.
    LeafAgain,
    /// A second line names a file for the log.
    LogFile,
    /// The host to listen at is no IP address.
    Address,
    /// The host to serve the page at is no IP address.
    PageAddress,
    /// The page has no password, and could be read from other machines.
    PagePassword,
    /// Eight lines above name a hub.
    Hubs,
    /// The port is not a number from 1 to 65,535.
    Port,
    /// A plus stands before the port, and the host has other bytes than letters, digits, `.`, `-`, `_` and `:`.
    TlsHost,
    /// The first word is unknown.
    Unknown,
    /// The line ends in a carriage return.
    CarriageReturn,
    /// The line has a control byte: below 32, or 127.
    Control,
    /// The line begins with a byte order mark.
    ByteOrderMark,
}

impl Display for SettingAdvice {
    fn fmt<W: fmt::Write>(&self, f: &mut fmt::Formatter<W>) -> fmt::Result {
        if let SettingAdvice::Once(word) = *self {
            f.write_str("say ")?;
            f.write_str(word.spelling())?;
        }
        f.write_str(words_of(*self))
    }
}

// What is said, without the word that may stand once.
fn words_of(advice: SettingAdvice) -> &'static str {
    match advice {
        SettingAdvice::Once(_) => " once: a line above has it",
        SettingAdvice::Form(word) => form_of(word),
        SettingAdvice::Key =>
            "say a key of 1 to 50 bytes, without commas and without a colon in front, as in channel #egg key",
        SettingAdvice::Leaves => "say a number of at most LEAVES, and at most 1000 leaves",
        SettingAdvice::NoLeaf => "say the number of a leaf of this net, from 1 to LEAVES",
        SettingAdvice::HubAlone => "a leaf has no line leaf: take it out",
        SettingAdvice::Again => "take this line out: a line above says the same",
        SettingAdvice::LeafAgain => "say one line leaf of each leaf: a line above is of this one",
        SettingAdvice::Address => "say an address of this machine, as in listen 0.0.0.0 7100",
        SettingAdvice::LogFile => "say log file once: a line above has it",
        SettingAdvice::PageAddress => "say an address of this machine, as in page 127.0.0.1 7180",
        SettingAdvice::PagePassword =>
            "name a FILE with a password, as in page 0.0.0.0 7180 /etc/eggnet/page: without one, say 127.0.0.1 or ::1",
        SettingAdvice::Hubs => "say at most 8 lines hub: take this line out",
        SettingAdvice::Port => "say a port of 1 to 65535",
        SettingAdvice::TlsHost =>
            "say a name or an address before +PORT, in letters, digits, dots, dashes and colons, as in server irc.example.net +6697",
        SettingAdvice::Unknown =>
            "begin with account, bind, bot, channel, data, exclusive, flood-chan, flood-ctcp, flood-deop, flood-join, flood-kick, flood-msg, flood-nick, hub, ignore-time, leaf, listen, log, nick, page, perform, secret, server, zone or #",
        SettingAdvice::CarriageReturn => "end lines with a line feed alone",
        SettingAdvice::Control => "write spaces for tabs, and no other control bytes",
        SettingAdvice::ByteOrderMark => "save the file without a byte order mark",
    }
}

// The form of a line of this word.
fn form_of(word: SettingWord) -> &'static str {
    match word {
        SettingWord::Account => "say account NAME FILE, as in account egg /etc/eggnet/password",
        SettingWord::Bind => "say bind TYPE FLAGS PROC MASK, as in bind pub - echo !echo",
        SettingWord::Bot => "say bot NUMBER of LEAVES, as in bot 1 of 40",
        SettingWord::Channel =>
            "say channel NAME, as in channel #egg, and its key after that if it has one",
        SettingWord::Data => "say data FOLDER, as in data /var/lib/eggnet/egg1",
        SettingWord::Exclusive => "say exclusive alone",
        SettingWord::FloodChan =>
            "say flood-chan LINES:SECONDS, as in flood-chan 15:60, or flood-chan 0:0 for no limit",
        SettingWord::FloodCtcp =>
            "say flood-ctcp LINES:SECONDS, as in flood-ctcp 3:60, or flood-ctcp 0:0 for no limit",
        SettingWord::FloodDeop =>
            "say flood-deop LINES:SECONDS, as in flood-deop 3:10, or flood-deop 0:0 for no limit",
        SettingWord::FloodJoin =>
            "say flood-join LINES:SECONDS, as in flood-join 5:60, or flood-join 0:0 for no limit",
        SettingWord::FloodKick =>
            "say flood-kick LINES:SECONDS, as in flood-kick 3:10, or flood-kick 0:0 for no limit",
        SettingWord::FloodMsg =>
            "say flood-msg LINES:SECONDS, as in flood-msg 5:60, or flood-msg 0:0 for no limit",
        SettingWord::FloodNick =>
            "say flood-nick LINES:SECONDS, as in flood-nick 5:60, or flood-nick 0:0 for no limit",
        SettingWord::Hub => "say hub HOST PORT, as in hub hub.example.net 7100",
        SettingWord::IgnoreTime => "say ignore-time MINUTES, from 1 to 65535, as in ignore-time 10",
        SettingWord::Leaf => "say leaf N reads or leaf N persons, as in leaf 3 reads",
        SettingWord::Listen => "say listen ADDRESS PORT, as in listen 0.0.0.0 7100",
        SettingWord::Log =>
            "say log lines, log json or log file PATH, as in log file /var/log/eggnet/egg1",
        SettingWord::Nick => "say nick NICK, of 1 to 30 bytes without ! @ , * ?, as in nick egg1",
        SettingWord::Page =>
            "say page ADDRESS PORT, as in page 127.0.0.1 7180, and the file of its password after that",
        SettingWord::Perform =>
            "say perform LINE, of at most 510 bytes, as in perform MODE egg1 +i",
        SettingWord::Secret => "say secret FILE, as in secret /etc/eggnet/secret",
        SettingWord::Server =>
            "say server HOST PORT, as in server irc.example.net 6667, and its password after that",
        SettingWord::Zone =>
            "say zone RULE, a rule of POSIX and no name of a place, as in zone CET-1CEST,M3.5.0,M10.5.0/3",
    }
}
