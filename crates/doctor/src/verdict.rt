// What was found of one thing. Each text follows the name of what was looked at, and says what to change after a colon.
use crate::modes::FileMode;
use crate::rank::Rank;
use botfolder::FolderFault;
use handshake::SecretFault;
use net::{DialFault, DoorFault};
use serverlink::put;
use std::fmt;
use std::fmt::Display;
use std::net::SocketAddr;

// What was found of one thing: its kind is its rank.
#[derive(Clone, Copy)]
pub(crate) enum Verdict {
    Fine(Fine),
    Note(Note),
    Bad(Bad),
}

impl Verdict {
    ghost use Rattle.std.specs.Prelude.{◌≡◌};
    ghost use Rattle.doctor.specs.Status.{rank_of};

    pub(crate) fn rank(self) -> Rank
        ensures { result ≡ rank_of self }
    {
        match self {
            Verdict::Fine(_) => Rank::Fine,
            Verdict::Note(_) => Rank::Note,
            Verdict::Bad(_) => Rank::Bad,
        }
    }
}

impl Display for Verdict {
    fn fmt<W: fmt::Write>(&self, f: &mut fmt::Formatter<W>) -> fmt::Result {
        match *self {
            Verdict::Fine(fine) => fine.fmt(f),
            Verdict::Note(note) => note.fmt(f),
            Verdict::Bad(bad) => bad.fmt(f),
        }
    }
}

// What is as it is to be.
#[derive(Clone, Copy)]
pub(crate) enum Fine {
    Config,
    Folder,
    NoFolder,
    NoJournal,
    Journal(JournalSeen),
    Files { limit: u64, needed: u64 },
    Secret,
    Password,
    Answers(SocketAddr),
    Tunnel,
    Door,
}

impl Display for Fine {
    fn fmt<W: fmt::Write>(&self, f: &mut fmt::Formatter<W>) -> fmt::Result {
        let words = match *self {
            Fine::Config => "reads well",
            Fine::Folder => "is this user's alone",
            Fine::NoFolder => "is missing, and the first start makes it",
            Fine::NoJournal => "has no journal yet, and the first start makes it",
            Fine::Secret => "holds what this bot needs",
            Fine::Password => "can be read",
            Fine::Tunnel =>
                "has a tunnel that takes connections; what it says of the other end stands in stunnel's log",
            Fine::Door => "is free",
            Fine::Journal(seen) => return put(f, "has ", &seen),
            Fine::Answers(address) => return put(f, "answers at ", &address),
            Fine::Files { limit, needed } => {
                put(f, "is ", &limit)?;
                return put(f, ", and this bot needs at most ", &needed);
            }
        };
        f.write_str(words)
    }
}

// What does not keep the bot from running.
#[derive(Clone, Copy)]
pub(crate) enum Note {
    OpenConfig(FileMode),
    OpenFolder,
    Runs,
    OldJournal(JournalSeen),
    LargeJournal(JournalSeen),
    Files(u64),
    NetsSecret(u16),
}

impl Display for Note {
    fn fmt<W: fmt::Write>(&self, f: &mut fmt::Formatter<W>) -> fmt::Result {
        let words = match *self {
            Note::OpenFolder =>
                "lets others read the names there: take that right away, as chmod 700 does",
            Note::Runs =>
                "is in use by a running bot, so its journal was not read: ask the bot, as eggnet show does",
            Note::OpenConfig(mode) => return put(
                f,
                "reads well, but holds passwords, and others may read it: ",
                &mode,
            ),
            Note::OldJournal(seen) => return put_within(
                f,
                "has ",
                &seen,
                ": the next start rewrites it, so copy the folder first if an older eggnet is to read it again",
            ),
            Note::LargeJournal(seen) => return put_within(
                f,
                "has ",
                &seen,
                ": have its bot rewrite it, by eggnet tell FOLDER compact",
            ),
            Note::Files(needed) => return put(
                f,
                "can't be read: see that ulimit -n says at least ",
                &needed,
            ),
            Note::NetsSecret(leaf) => return put_within(
                f,
                "holds the net's secret: print the key of leaf ",
                &leaf,
                " with eggnet key, and keep only that here",
            ),
        };
        f.write_str(words)
    }
}

// What `run` refuses, what nobody answers, and what is open to others.
#[derive(Clone, Copy)]
pub(crate) enum Bad {
    NoFolder,
    OthersFolder { owner: u32, user: u64 },
    OpenFolder,
    Folder(FolderFault),
    OtherJournal,
    SpentJournal,
    Files { limit: u64, needed: u64 },
    Secret(SecretFault),
    Password,
    OpenSecret(FileMode),
    Host(DialFault),
    NoWay,
    NoTunnel,
    TunnelBusy,
    Refuses(SocketAddr),
    Silent(SocketAddr),
    Door(DoorFault),
    NotHere,
    Untried,
}

impl Display for Bad {
    fn fmt<W: fmt::Write>(&self, f: &mut fmt::Formatter<W>) -> fmt::Result {
        let words = match *self {
            Bad::NoFolder =>
                "can't be made: give this user the right to write and enter the folder above it",
            Bad::OpenFolder => "lets others write there: take that right away, as chmod 700 does",
            Bad::OtherJournal =>
                "holds the journal of another bot, or one that is damaged: give the folder of this bot, or a copy of it; a leaf may also begin with an empty folder",
            Bad::SpentJournal =>
                "holds a journal of an older layout that can't be rewritten, since its generations are used up: run an older version of eggnet, or give a leaf an empty folder",
            Bad::Password => "can't be read: give a regular file that this user may read",
            Bad::NoWay =>
                "can't be reached: check the routes of this machine, as ip route shows them, and its limit of open files",
            Bad::NoTunnel =>
                "has no tunnel, as nobody listens at its socket in the folder's tls: run stunnel on what `eggnet tunnel CONFIG` prints, as this user",
            Bad::TunnelBusy =>
                "has a tunnel that takes no connection: see that stunnel runs as this user and is not stuck, and run it again",
            Bad::NotHere =>
                "is no address of this machine: say one of those that ip addr shows, or 0.0.0.0 for all of them",
            Bad::Untried =>
                "can't be tried: this machine gives no socket or no time, so raise its limit of open files",
            Bad::Folder(fault) => return fault.fmt(f),
            Bad::Secret(fault) => return fault.fmt(f),
            Bad::Door(fault) => return fault.fmt(f),
            Bad::Host(fault) => return put(f, "can't be reached; ", &fault),
            Bad::OpenSecret(mode) => return put(f, "may be read by others: ", &mode),
            Bad::OthersFolder { owner, user } => return others_folder(f, owner, user),
            Bad::Files { limit, needed } => return few_files(f, limit, needed),
            Bad::Refuses(address) => return put_within(
                f,
                "refuses connections at ",
                &address,
                ", or no way leads there: check its host and port, and that it runs",
            ),
            Bad::Silent(address) => return put_within(
                f,
                "doesn't answer within 5 seconds at ",
                &address,
                ": check its host and port, and the firewalls on the way",
            ),
        };
        f.write_str(words)
    }
}

// Who owns a folder that another user is to use.
fn others_folder<W: fmt::Write>(f: &mut fmt::Formatter<W>, owner: u32, user: u64) -> fmt::Result {
    put(f, "belongs to user ", &owner)?;
    put(f, ", and this is user ", &user)?;
    put_within(
        f,
        ": run the bot and this command as user ",
        &owner,
        ", or give the folder to this user, as chown does",
    )
}

// How many files may be open, where that is too few.
fn few_files<W: fmt::Write>(f: &mut fmt::Formatter<W>, limit: u64, needed: u64) -> fmt::Result {
    put(f, "is ", &limit)?;
    put(f, ", and this bot may need ", &needed)?;
    put(f, ": raise it, as ulimit -n ", &needed)?;
    put_within(f, " does, or LimitNOFILE=", &needed, " in its unit")
}

// What is seen of a journal: the layout in which it is written, the version of its records, and the bytes of its files.
#[derive(Clone, Copy)]
pub(crate) struct JournalSeen {
    pub(crate) layout: u8,
    pub(crate) version: u32,
    pub(crate) bytes: u64,
}

impl Display for JournalSeen {
    fn fmt<W: fmt::Write>(&self, f: &mut fmt::Formatter<W>) -> fmt::Result {
        put(f, "a journal of layout ", &self.layout)?;
        put(f, ", at version ", &self.version)?;
        put_within(f, ", of ", &self.bytes, " bytes")
    }
}

// Writes `shown` between `front` and `back`.
fn put_within<W: fmt::Write, D: Display>(
    f: &mut fmt::Formatter<W>,
    front: &str,
    shown: &D,
    back: &str,
) -> fmt::Result {
    put(f, front, shown)?;
    f.write_str(back)
}
