// The page that shows the bot. It sees the process, and changes nothing of it.
use crate::process::Process;
use administrators::Seconds;
use botcore::Bot;
use bytetext::NoMemory;
use disks::FileDisk;
use net::{Log, Watch, Way};
use page::{
    ChannelView, LinkView, LinksView, LogView, MAX_ROWS, OwnView, PageAnswer, PageRequest,
    PageServer, PageView, PageWant, PlaceView, ServerView, SessionView, answer_to,
};
use peers::Links;
use serverlink::IrcConnection;
use settings::Settings;
use std::alloc::Global;

// Serves the readers of the page, if there is one: hears them, answers at most one request, and sends. A reader for whom
// memory runs out is disconnected. Returns whether there may be more to do at once.
pub(crate) fn serve(
    alloc: Global,
    page: &mut Option<PageServer>,
    watch: &Watch,
    log: &Log,
    process: &Process,
    settings: &Settings,
    seconds: Seconds,
) -> bool {
    let Some(server) = page else {
        return false;
    };
    let mut is_busy = server.read(alloc, watch, seconds.steady);
    if let Some(ask) = server.take_request(alloc) {
        let shown = Shown {
            own: OwnView {
                number: settings.station.number,
                leaves: settings.station.leaves,
                version: process.bot.version(),
                asks: process.others.asks.len(),
                lines: process.uplink.own.len(),
                admins: process.admins.len(),
            },
            uplink: &process.uplink,
            bot: &process.bot,
            links: &process.others.mail.links,
            log,
            settings,
        };
        let answer = answer_of(alloc, &ask.request, &shown, seconds.wall);
        server.answer(ask.number, answer.ok());
        is_busy = true;
    }
    server.send(seconds.steady) || is_busy
}

// The parts of a process that the page shows. Its functions borrow these, and not the process, as that is proved sooner.
#[derive(Drop)]
struct Shown<'a> {
    own: OwnView,
    uplink: &'a IrcConnection,
    bot: &'a Bot<FileDisk>,
    links: &'a Links,
    log: &'a Log,
    settings: &'a Settings,
}

// Answers a request at second `now`.
fn answer_of(
    alloc: Global,
    request: &PageRequest,
    shown: &Shown<'_>,
    now: u64,
) -> Result<PageAnswer, NoMemory> {
    let (uplink, bot, settings) = (shown.uplink, shown.bot, shown.settings);
    let channels = channels_of(alloc, uplink, bot)?;
    let linked = linked_of(alloc, shown.links, bot.version(), &request.want)?;
    let server = server_of(uplink, bot.own_nick(), settings);
    let links = LinksView {
        place: place_of(shown.links),
        linked: linked.count,
        behind: linked.behind,
        unsent: linked.unsent,
        rows: linked.rows.as_slice(),
        next: linked.next,
    };
    let view = PageView {
        now,
        own: shown.own,
        server,
        channels: channels.as_slice(),
        links,
        userfile: bot.userfile(),
        mapping: bot.casemapping(),
        log: log_view(shown.log),
    };
    answer_to(alloc, request, &view)
}

fn server_of<'a>(
    uplink: &'a IrcConnection,
    nick: &'a [u8],
    settings: &'a Settings,
) -> ServerView<'a> {
    let server = settings.servers.as_slice().get(uplink.place());
    let (Some(session), Some(server)) = (uplink.session(), server) else {
        return ServerView::Gone { due: uplink.due() };
    };
    ServerView::Here(SessionView {
        host: server.address.host.as_bytes(),
        port: server.address.port,
        nick,
        since: session.began(),
        is_welcomed: session.is_welcomed,
        unsent: session.unsent(),
    })
}

fn channels_of<'a>(
    alloc: Global,
    uplink: &'a IrcConnection,
    bot: &Bot<FileDisk>,
) -> Result<Vec<ChannelView<'a>>, NoMemory> {
    let seats = &uplink.channels;
    let mut channels = Vec::with_capacity(alloc, seats.len())?;
    for place in 0..seats.len() {
        if let Some(seat) = seats.get(place) {
            channels.push(ChannelView {
                name: seat.channel(),
                is_on: seat.is_on(),
                is_op: bot.is_op_on(seat.channel()),
            })?;
        }
    }
    Ok(channels)
}

fn place_of(links: &Links) -> PlaceView {
    match links {
        Links::Alone => PlaceView::Alone,
        Links::Hub(_) => PlaceView::Hub,
        Links::Leaf(_) => PlaceView::Leaf,
    }
}

fn log_view(log: &Log) -> LogView<'_> {
    LogView {
        earlier: log.earlier_lines(),
        latest: log.latest_lines(),
        waiting: log.len(),
        dropped: log.dropped(),
    }
}

// The other bots that are linked.
#[derive(Drop)]
struct Linked {
    // Those that the page shows.
    rows: Vec<LinkView>,
    // The number of the first one after them.
    next: Option<u16>,
    // The number of all.
    count: usize,
    // By how many versions the one that is furthest behind differs from this bot.
    behind: u64,
    // The bytes that wait for all.
    unsent: u64,
}

// Counts the linked bots, and takes those that a page shows.
fn linked_of(
    alloc: Global,
    links: &Links,
    version: u32,
    want: &PageWant,
) -> Result<Linked, NoMemory> {
    let mut linked = Linked {
        rows: Vec::new(alloc),
        next: None,
        count: 0,
        behind: 0,
        unsent: 0,
    };
    let from = match want {
        PageWant::Net { from } => usize::from(*from),
        PageWant::Metrics => usize::MAX,
        PageWant::Records { from: _, who: _ }
        | PageWant::Log
        | PageWant::Style
        | PageWant::Refused(_) => return Ok(linked),
    };
    for place in 0..links.places() {
        if let Some(row) = row_of(links, place, version) {
            linked.add(row, place >= from)?;
        }
    }
    Ok(linked)
}

impl Linked {
    // Counts a bot, and shows it if it `is_shown` and there is room.
    fn add(&mut self, row: LinkView, is_shown: bool) -> Result<(), NoMemory> {
        self.count = self.count.saturating_add(1);
        self.behind = self.behind.max(u64::from(row.behind));
        self.unsent = self.unsent.saturating_add(row.unsent as u64);
        if !is_shown || self.next.is_some() {
            return Ok(());
        }
        if self.rows.len() >= MAX_ROWS {
            self.next = Some(row.number);
            return Ok(());
        }
        self.rows.push(row)?;
        Ok(())
    }
}

// The other bot at a place, if it is linked.
fn row_of(links: &Links, place: usize, version: u32) -> Option<LinkView> {
    let facts = links.link_at(place)?;
    let behind = if links.is_leaf() {
        facts.version.saturating_sub(version)
    } else {
        version.saturating_sub(facts.version)
    };
    let address = match facts.way {
        Way::Tcp(address) => Some(address),
        Way::Tunnel => None,
    };
    Some(LinkView {
        number: place.min(65_535) as u16,
        version: facts.version,
        behind,
        unsent: facts.unsent,
        since: facts.since,
        address,
    })
}
