// What the log says about the server.
use crate::shown::{Shown, put};
use crate::why::Why;
use net::{DialFault, Way};
use rfccase::{Casemapping, same};
use std::fmt;
use std::fmt::Display;

// An event of the connection to a server, as the log shows it.
#[derive(Drop)]
pub(crate) enum Entry<'a> {
    // The bot begins to connect to a server.
    Dialled(&'a [u8], Way),
    // An attempt to connect to a server, or to the path of its tunnel, could not begin; the second at which the next one
    // is due.
    NotDialled(&'a [u8], DialFault, u64),
    // The bot disconnects from the server; the second at which the next attempt is due.
    Lost(Why, u64),
    // The server rejects something, or ends the connection: the command and its text.
    Refused(&'a [u8], &'a [u8]),
    // The server sends the bot on from a channel to another one.
    Forwarded(&'a [u8], &'a [u8]),
    // The server announces a casemapping by this name; the one by which the bot goes on.
    OtherCase(&'a [u8], Casemapping),
    // A message arrived: its sender, its command and the rest of it.
    Heard(&'a [u8], &'a [u8], &'a [u8]),
    // A fact about this nick, channel or line.
    Plain(Fact, &'a [u8]),
    // The server rejects every nick that the bot asks for.
    NoNick,
    // A line of the configuration or of an operator, or an answer to a person, is queued for the server. It may hold a
    // password.
    ToldOwn,
    // The system gives no random bytes for a login to this server; the second at which the next attempt is due.
    NoNonce(&'a [u8], u64),
}

// A fact about one nick, channel or line.
#[derive(Clone, Copy)]
pub(crate) enum Fact {
    // The server welcomed the bot under this nick.
    Welcomed,
    // The bot has this nick now.
    Renamed,
    // The server rejected a nick, and the bot asks for this one.
    OtherNick,
    // The bot is on this channel.
    Joined,
    // The bot has left this channel.
    Parted,
    // The bot was kicked off this channel.
    Kicked,
    // The server did not let the bot onto this channel.
    Barred,
    // Somebody has invited the bot to this channel, so that it asks to join sooner.
    Invited,
    // A line of the bot's is queued for the server.
    Told,
}

// What the log writes before the nick, the channel or the line.
fn words_of(fact: Fact) -> &'static str {
    match fact {
        Fact::Welcomed => "welcome as ",
        Fact::Renamed => "nick is ",
        Fact::OtherNick => "nick refused: asking for ",
        Fact::Joined => "on ",
        Fact::Parted => "left ",
        Fact::Kicked => "kicked off ",
        Fact::Barred => "not let onto ",
        Fact::Invited => "invited to ",
        Fact::Told => "> ",
    }
}

// The name by which a server announces a casemapping.
fn name_of(mapping: Casemapping) -> &'static [u8] {
    match mapping {
        Casemapping::Ascii => b"ascii",
        Casemapping::StrictRfc1459 => b"strict-rfc1459",
        Casemapping::Rfc1459 => b"rfc1459",
    }
}

impl Display for Entry<'_> {
    fn fmt<W: fmt::Write>(&self, f: &mut fmt::Formatter<W>) -> fmt::Result {
        match *self {
            Entry::Dialled(host, way) => {
                put(f, "connecting to ", &Shown(host))?;
                match way {
                    Way::Tcp(address) => put(f, " at ", &address),
                    Way::Tunnel => f.write_str(" through its tunnel"),
                }
            }
            Entry::NotDialled(host, fault, due) => {
                put(f, "not connecting to ", &Shown(host))?;
                put(f, ": ", &fault)?;
                put(f, "; next try at ", &due)
            }
            Entry::Lost(why, due) => {
                put(f, "server lost: ", &why)?;
                put(f, "; next try at ", &due)
            }
            Entry::Refused(command, text) => {
                put(f, "server says ", &Shown(command))?;
                put(f, " ", &Shown(text))
            }
            Entry::Forwarded(channel, other) => {
                put(f, "sent on from ", &Shown(channel))?;
                put(f, " to ", &Shown(other))
            }
            Entry::OtherCase(name, mapping) => {
                put(f, "server compares names by ", &Shown(name))?;
                let word = name_of(mapping);
                if same(name, word) {
                    return Ok(());
                }
                if Casemapping::named(name) == mapping {
                    return put(f, ", this bot by ", &Shown(word));
                }
                put(
                    f,
                    ", but said so after a JOIN: this bot goes on by ",
                    &Shown(word),
                )?;
                f.write_str("; say jump to have it connect again")
            }
            Entry::Heard(source, command, rest) => {
                put(f, "< ", &Shown(source))?;
                put(f, " ", &Shown(command))?;
                put(f, " ", &Shown(rest))
            }
            Entry::Plain(fact, shown) => put(f, words_of(fact), &Shown(shown)),
            Entry::NoNick => f.write_str("nick refused: no other is left to ask for"),
            Entry::ToldOwn => {
                f.write_str("> a line of the configuration or of an operator, or an answer")
            }
            Entry::NoNonce(host, due) => {
                put(f, "not connecting to ", &Shown(host))?;
                put(f, ": the system gives no random bytes; next try at ", &due)
            }
        }
    }
}
