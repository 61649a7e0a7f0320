// What a page shows of a bot.
use rfccase::Casemapping;
use std::net::SocketAddr;
use userfile::Userfile;

/// What a page shows of a bot, as its process is at one moment.
#[derive(Clone, Copy)]
pub struct PageView<'a> {
    /// The second since 1970-01-01 UTC.
    pub now: u64,
    /// The bot.
    pub own: OwnView,
    /// Its connection to a server.
    pub server: ServerView<'a>,
    /// Its channels, in the order of its configuration.
    pub channels: &'a [ChannelView<'a>],
    /// Its connections to the other bots.
    pub links: LinksView<'a>,
    /// Its records.
    pub userfile: &'a Userfile,
    /// How its server compares names: who a person is depends on it.
    pub mapping: Casemapping,
    /// The end of its log.
    pub log: LogView<'a>,
}

/// A bot, and what waits in it.
#[derive(Clone, Copy)]
pub struct OwnView {
    /// Its number: 0 is the hub.
    pub number: u16,
    /// The number of leaves of its net.
    pub leaves: u16,
    /// The version of its records.
    pub version: u32,
    /// The number of changes that the hub has still to answer.
    pub asks: usize,
    /// The number of lines of its own that wait for the server.
    pub lines: usize,
    /// The number of administrators at its socket.
    pub admins: usize,
}

/// A bot's connection to a server.
#[derive(Clone, Copy)]
pub enum ServerView<'a> {
    /// There is none.
    Gone {
        /// The second at which the next server is tried.
        due: u64,
    },
    /// It is connected, or connects.
    Here(SessionView<'a>),
}

/// A connection to a server.
#[derive(Clone, Copy)]
pub struct SessionView<'a> {
    /// The server's host, as the configuration has it.
    pub host: &'a [u8],
    /// The server's port.
    pub port: u16,
    /// The bot's nick.
    pub nick: &'a [u8],
    /// The second at which the connection began.
    pub since: u64,
    /// Whether the server has welcomed the bot.
    pub is_welcomed: bool,
    /// The number of bytes that wait for the server.
    pub unsent: usize,
}

/// One of a bot's channels.
#[derive(Clone, Copy)]
pub struct ChannelView<'a> {
    /// The channel's name.
    pub name: &'a [u8],
    /// Whether the bot is on it.
    pub is_on: bool,
    /// Whether the bot is an operator of it.
    pub is_op: bool,
}

/// A bot's place in its net.
#[derive(Clone, Copy)]
pub enum PlaceView {
    /// The only bot.
    Alone,
    /// The hub.
    Hub,
    /// A leaf.
    Leaf,
}

/// A bot's connections to the other bots.
#[derive(Clone, Copy)]
pub struct LinksView<'a> {
    /// The bot's place in its net.
    pub place: PlaceView,
    /// The number of linked bots.
    pub linked: usize,
    /// By how many versions the linked bot that is furthest behind differs from this one.
    pub behind: u64,
    /// The number of bytes that wait for other bots.
    pub unsent: u64,
    /// Some of the linked bots, in the order of their numbers: at most [`MAX_ROWS`](crate::MAX_ROWS).
    pub rows: &'a [LinkView],
    /// The number of the first linked bot after those rows, if there is one.
    pub next: Option<u16>,
}

/// Another bot that is linked.
#[derive(Clone, Copy)]
pub struct LinkView {
    /// Its number: 0 is the hub.
    pub number: u16,
    /// The version that it said last.
    pub version: u32,
    /// By how many versions it is behind this bot, or this leaf behind it.
    pub behind: u32,
    /// The number of bytes that wait for it.
    pub unsent: usize,
    /// The second since which it is linked.
    pub since: u64,
    /// Its address; none if it is linked through a tunnel.
    pub address: Option<SocketAddr>,
}

/// The end of a bot's log: whole lines, each with its line feed.
#[derive(Clone, Copy)]
pub struct LogView<'a> {
    /// The lines before the latest.
    pub earlier: &'a [u8],
    /// The latest lines.
    pub latest: &'a [u8],
    /// The number of bytes of the log that are not written yet.
    pub waiting: usize,
    /// The number of lines that were dropped since the last line that was kept.
    pub dropped: u64,
}
