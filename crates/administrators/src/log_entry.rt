// What the log says, except about the server.
use crate::audit::IrcCaller;
use crate::change_words::{Acceptance, EditWords, NameWords};
use serverlink::{Shown, put};
use std::fmt;
use std::fmt::Display;
use userfile::Change;

const NOT_REOPENED: &str = "the file of the log can't be opened again: this goes on in the old one";

const OTHER_LAYOUT: &str = "a leaf has another layout: run one version of the program on all bots";

const NO_ROOM: &str = "no room for changes: free some on the disk of the bot's folder";

/// An event that is logged.
#[derive(Drop)]
pub enum LogEntry<'a> {
    /// The bot is up at this version.
    Up(u32),
    /// The file of the secret of this leaf holds the net's secret.
    KnowsNet(u16),
    /// A leaf begins again, since the hub has replied to requests of an earlier folder up to this number.
    BeginsAbove(u32),
    /// The bot's records at this version have this sum.
    Records(u32, &'a [u8]),
    /// A change was accepted under this number, and the nick of who asked, or the empty text if no person did.
    Accepted(u32, &'a [u8]),
    /// A change, the pump or a compaction was refused with this code, and the nick of who asked, or the empty text.
    NotDone(&'static str, &'a [u8]),
    /// A step left something out: a word for it, and the proc that the program lacks, if that is why.
    LeftOut(&'static str, &'a [u8]),
    /// An admin asks for this.
    Asked(&'a [u8]),
    /// A person on IRC asks a proc for this change.
    AskedOnIrc(IrcCaller<'a>, &'a Change),
    /// This proc asks for the change by itself.
    AskedByProc(&'a [u8], &'a Change),
    /// What a hub accepted under this number, and the bot that asked for it.
    Change(u32, u16, &'a Change),
    /// A new file of the log is open.
    Reopened,
    /// The file of the log can't be opened, so the old one stays.
    NotReopened,
    /// A silent admin is disconnected, since another one waits.
    GaveWay,
    /// A leaf whose journal has another layout says hello.
    OtherLayout,
    /// The journal was rewritten.
    Compacted,
    /// The disk of the bot's folder has no more room for changes.
    NoRoom,
    /// It has room again.
    RoomAgain,
    /// The bot ends.
    Ended,
}

impl Display for LogEntry<'_> {
    fn fmt<W: fmt::Write>(&self, f: &mut fmt::Formatter<W>) -> fmt::Result {
        match *self {
            LogEntry::Up(version) => put(f, "up at version ", &version),
            LogEntry::KnowsNet(leaf) => put_knows_net(f, leaf),
            LogEntry::BeginsAbove(last) => put_begins_above(f, last),
            LogEntry::Records(version, sum) => put_records(f, version, sum),
            LogEntry::Accepted(number, nick) => put_accepted(f, number, nick),
            LogEntry::NotDone(code, nick) => put_not_done(f, code, nick),
            LogEntry::LeftOut(word, proc) => put_left_out(f, word, proc),
            LogEntry::Asked(line) => put(f, "admin: ", &Shown(line)),
            LogEntry::AskedOnIrc(source, change) => put_asked_on_irc(f, source, change),
            LogEntry::AskedByProc(proc, change) => put_asked_by_proc(f, proc, change),
            LogEntry::Change(number, bot, change) => put_change(f, number, bot, change),
            LogEntry::Reopened => f.write_str("log opened again"),
            LogEntry::NotReopened => f.write_str(NOT_REOPENED),
            LogEntry::GaveWay => f.write_str("admin gone: it was silent, and another waited"),
            LogEntry::OtherLayout => f.write_str(OTHER_LAYOUT),
            LogEntry::Compacted => f.write_str("journal rewritten"),
            LogEntry::NoRoom => f.write_str(NO_ROOM),
            LogEntry::RoomAgain => f.write_str("room for changes again"),
            LogEntry::Ended => f.write_str("ended"),
        }
    }
}

// ---- what an entry says of the bot

fn put_knows_net<W: fmt::Write>(f: &mut fmt::Formatter<W>, leaf: u16) -> fmt::Result {
    put(
        f,
        "the file of the secret holds the net's secret: print the key of leaf ",
        &leaf,
    )?;
    f.write_str(" with eggnet key, and keep only that here")
}

fn put_begins_above<W: fmt::Write>(f: &mut fmt::Formatter<W>, last: u32) -> fmt::Result {
    put(f, "the hub has replied to ", &last)?;
    f.write_str(" requests of an earlier folder of this leaf; this one begins above them")
}

fn put_records<W: fmt::Write>(f: &mut fmt::Formatter<W>, version: u32, sum: &[u8]) -> fmt::Result {
    put(f, "records at version ", &version)?;
    put(f, ": ", &Shown(sum))
}

fn put_left_out<W: fmt::Write>(f: &mut fmt::Formatter<W>, word: &str, proc: &[u8]) -> fmt::Result {
    put(f, "left out: ", &word)?;
    put(f, " ", &Shown(proc))
}

// ---- what it says of changes

fn put_asked_on_irc<W: fmt::Write>(
    f: &mut fmt::Formatter<W>,
    source: IrcCaller<'_>,
    change: &Change,
) -> fmt::Result {
    put(f, "asked on IRC by ", &Shown(source.nick))?;
    put(f, "!", &Shown(source.host))?;
    put(f, ", handle ", &Shown(source.handle))?;
    match &change.by {
        Some(asker) if source.is_person(asker.person.as_bytes()) => {}
        Some(_) => NameWords(change).fmt(f)?,
        None => f.write_str(", in nobody's name")?,
    }
    put(f, ": ", &EditWords(&change.edit))
}

fn put_asked_by_proc<W: fmt::Write>(
    f: &mut fmt::Formatter<W>,
    proc: &[u8],
    change: &Change,
) -> fmt::Result {
    put(f, "asked by the proc ", &Shown(proc))?;
    put_named(f, change)
}

fn put_change<W: fmt::Write>(
    f: &mut fmt::Formatter<W>,
    number: u32,
    bot: u16,
    change: &Change,
) -> fmt::Result {
    let number = u64::from(number);
    Acceptance { number, bot }.fmt(f)?;
    put_named(f, change)
}

// In whose name a change is requested, and what it edits.
fn put_named<W: fmt::Write>(f: &mut fmt::Formatter<W>, change: &Change) -> fmt::Result {
    NameWords(change).fmt(f)?;
    put(f, ": ", &EditWords(&change.edit))
}

fn put_accepted<W: fmt::Write>(f: &mut fmt::Formatter<W>, number: u32, nick: &[u8]) -> fmt::Result {
    put(f, "change ", &number)?;
    f.write_str(" accepted")?;
    put_nick(f, nick)
}

fn put_not_done<W: fmt::Write>(f: &mut fmt::Formatter<W>, code: &str, nick: &[u8]) -> fmt::Result {
    put(f, "refused: ", &code)?;
    put_nick(f, nick)
}

// Who asked, if a person did.
fn put_nick<W: fmt::Write>(f: &mut fmt::Formatter<W>, nick: &[u8]) -> fmt::Result {
    if nick.is_empty() {
        Ok(())
    } else {
        put(f, ", asked by ", &Shown(nick))
    }
}
