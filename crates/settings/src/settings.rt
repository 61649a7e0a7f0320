// What a configuration file says.
use crate::draft::is_limited;
use bottimers::Zone;
use bytetext::{Seq, Text, Texts};
use floods::Limits;

/// What a configuration file says.
#[derive(Debug)]
pub struct Settings {
    /// The bot's own folder.
    pub folder: Text,
    /// Which bot it is.
    pub station: Station,
    /// The nick under which it connects.
    pub nick: Text,
    /// The channels that it joins, in order.
    pub channels: ChannelSettings,
    /// The servers that it tries, in turn: one or more.
    pub servers: Servers,
    /// Where the hubs listen that a leaf tries, in turn: 1 to [`MAX_HUBS`](crate::MAX_HUBS) at a leaf, each once, and none
    /// at any other bot.
    pub hubs: Hubs,
    /// Where the bot listens; a hub with leaves has it, and no leaf. The host spells an IP address
    /// ([`is_address`](crate::is_address)).
    pub listen: Option<Address>,
    /// The leaves that may not ask for every change, each once. None but a hub has any, and each is one of its leaves.
    pub limits: LeafLines,
    /// The file of the secret that both ends of the link know. A bot of a net of several has it.
    pub secret: Option<Text>,
    /// The account that it authenticates as.
    pub account: Option<Login>,
    /// How far its clock is ahead of UTC at each moment.
    pub zone: Zone,
    /// Whether `msg` and `pub` binds ignore a text for which a `msgm` or `pubm` proc was called.
    pub exclusive: bool,
    /// How many lines a person may send, and how long who sends more is ignored.
    pub floods: Limits,
    /// Whether each line from and to the server is logged.
    pub log_lines: bool,
    /// Whether each line of the log is a JSON object.
    pub log_json: bool,
    /// The file of the log, if it does not go to standard output.
    pub log_file: Option<Text>,
    /// The page that shows the bot, if one is served.
    pub page: Option<PageSetting>,
    /// Lines of 1 to 510 bytes that it sends to the server once after each registration, in order.
    pub performs: Texts,
    /// The binds, in order.
    pub binds: BindLines,
}

// By hand, so that this is proved once, and not in each function in which one ends.
impl Drop for Settings {
    fn drop(self) {
        let Settings {
            folder: _,
            station: _,
            nick: _,
            channels: _,
            servers: _,
            hubs: _,
            listen: _,
            limits: _,
            secret: _,
            account: _,
            zone: _,
            exclusive: _,
            floods: _,
            log_lines: _,
            log_json: _,
            log_file: _,
            page: _,
            performs: _,
            binds: _,
        } = self;
    }
}

impl Settings {
    ghost use Rattle.std.specs.Prelude.{◌≡◌};
    ghost use Rattle.settings.specs.Drafts.{is_limited};

    /// Returns whether a line says `rule` of the leaf of number `leaf`.
    pub fn is_limited(&self, leaf: u16, rule: LeafRule) -> bool
        ensures { result ≡ is_limited leaf rule self.now.limits }
    {
        is_limited(leaf, rule, self.limits.as_slice())
    }
}

/// A bot's number in its net, and the number of leaves.
#[derive(Clone, Copy, Debug, PartialEq, Eq)]
pub struct Station {
    /// 0 is the hub; the leaves are 1 to `leaves`.
    pub number: u16,
    /// At most 1,000.
    pub leaves: u16,
}

/// What a leaf may do that may not ask for every change.
#[derive(Clone, Copy, Debug, PartialEq, Eq)]
pub enum LeafRule {
    /// It may only read.
    Reads,
    /// It may ask for the changes that persons ask for, and for none in nobody's name.
    Persons,
}

/// A leaf that may not ask for every change, and the line on which that stands.
#[derive(Clone, Copy, Debug, PartialEq, Eq)]
pub struct LeafLine {
    /// The line's number, from 1.
    pub line: u64,
    /// The leaf's number.
    pub leaf: u16,
    /// What the leaf may do.
    pub rule: LeafRule,
}

/// Leaves, in the order of their lines.
pub type LeafLines = Seq<LeafLine>;

/// A host and a port, and whether the connection is encrypted.
#[derive(Debug)]
pub struct Address {
    /// A name or an address, one word. If `tls` is true, it has only letters, digits, `.`, `-`, `_` and `:`.
    pub host: Text,
    /// 1 to 65,535.
    pub port: u16,
    /// Whether a plus stands before the port: the connection is encrypted by TLS, and goes through a tunnel on this
    /// machine.
    pub tls: bool,
}

// By hand, so that this is proved once, and not in each function in which one ends.
impl Drop for Address {
    fn drop(self) {
        let Address {
            host: _,
            port: _,
            tls: _,
        } = self;
    }
}

/// A server to try.
#[derive(Debug)]
pub struct Server {
    /// Where it is.
    pub address: Address,
    /// The password that the bot sends with PASS, if there is one.
    pub pass: Option<Text>,
}

// By hand, so that this is proved once, and not in each function in which one ends.
impl Drop for Server {
    fn drop(self) {
        let Server {
            address: _,
            pass: _,
        } = self;
    }
}

/// A channel to join.
#[derive(Debug)]
pub struct ChannelSetting {
    /// A channel name.
    pub name: Text,
    /// The key with which the bot joins it, if there is one ([`is_key`](crate::is_key)).
    pub key: Option<Text>,
}

// By hand, so that this is proved once, and not in each function in which one ends.
impl Drop for ChannelSetting {
    fn drop(self) {
        let ChannelSetting { name: _, key: _ } = self;
    }
}

/// Channels, in order.
pub type ChannelSettings = Seq<ChannelSetting>;

/// Hubs, in order.
pub type Hubs = Seq<Address>;

/// Servers, in order.
pub type Servers = Seq<Server>;

/// The account that a bot authenticates as.
#[derive(Debug)]
pub struct Login {
    /// The account's name.
    pub name: Text,
    /// The file of its password.
    pub file: Text,
}

// By hand, so that this is proved once, and not in each function in which one ends.
impl Drop for Login {
    fn drop(self) {
        let Login { name: _, file: _ } = self;
    }
}

/// Where a page that shows the bot is served, and who may read it.
#[derive(Debug)]
pub struct PageSetting {
    /// Where it is served. The host spells an IP address ([`is_address`](crate::is_address)), which is a loopback
    /// address ([`is_loopback`](crate::is_loopback)) if there is no password.
    pub address: Address,
    /// The file of the password, if a reader must send one.
    pub password: Option<Text>,
}

// By hand, so that this is proved once, and not in each function in which one ends.
impl Drop for PageSetting {
    fn drop(self) {
        let PageSetting {
            address: _,
            password: _,
        } = self;
    }
}

/// The words of a bind. None is empty. Nothing has checked that such a type exists, or that flags and mask are well
/// formed.
#[derive(Debug, Drop)]
pub struct BindWords {
    /// The type, as the table of binds names it.
    pub kind: Text,
    /// The flag expression.
    pub flags: Text,
    /// The proc that is called.
    pub proc: Text,
    /// The mask or keyword.
    pub mask: Text,
}

/// A bind, and the line on which it stands.
#[derive(Debug)]
pub struct BindLine {
    /// The line's number, from 1.
    pub line: u64,
    /// The bind's words.
    pub words: BindWords,
}

// By hand, so that this is proved once, and not in each function in which one ends.
impl Drop for BindLine {
    fn drop(self) {
        let BindLine { line: _, words: _ } = self;
    }
}

/// Binds, in order.
pub type BindLines = Seq<BindLine>;
