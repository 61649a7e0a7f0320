// A bot's process, from its start to its end.
ghost use Rattle.std.specs.Prelude.{◌≡◌, ◌<◌, ◌∷◌, [], IfOk, IfSome, OnOk, length};
ghost use Rattle.bytetext.specs.declared.moment.TheConstants.{MOMENTS_END};
ghost use Rattle.watching.specs.Acts.{Forgets, MayBegin, NumbersAbove};
ghost use Rattle.watching.specs.Following.{Allows, HasBegun, IsAt, IsReported, IsSettled, IsUp, IsWatched, Lets};
ghost use Rattle.botrun.specs.Renewals.{HasNoRecords, LeavesAsTold, RenewsWithout};
ghost use Rattle.upkeep.specs.Stations.{IsKnownWhereWanted, IsLinkedAs};
ghost use Rattle.botrun.specs.Watched.{station_of};

use crate::others::Others;
use crate::page_view::serve;
use crate::process::{Process, Turned};
use crate::starting::{BAN_KEEPER, bind_all, bot_of};
use administrators::{LogEntry, requests_in};
use botcore::{Bot, BotEvent, End};
use botfolder::BotFolder;
use disks::FileDisk;
use handshake::Secret;
use ircline::LineReader;
use net::{Log, Timeline, Watch};
use page::PageServer;
use procs::{ProcStore, Promise, Run};
use recordsums::{KeptSum, Sums};
use serverlink::IrcConnection;
use settings::Settings;
use std::alloc::Global;
use std::fs::File;
use std::net::Net;
use std::random::RandomSource;
use std::rt::Files;
use std::time::Clock;
use turns::watched_step;
use upkeep::{
    Bases, FloodWatch, Reloading, RunError, account_of, check, door_of, folder_of, forget_journal,
    links_of, log_of, page_of, secret_of, space_of, uplink_of, wait, warn,
};
use watching::Watcher;

/// Why a bot's process has ended without an error.
#[derive(Clone, Copy, Debug, PartialEq, Eq)]
pub enum RunEnd {
    /// An admin asked for it, or a hub was handed over.
    Ended,
    /// The bot is a leaf whose hub is the heir of its net: put its journal aside, and run it again, as a new leaf.
    Moves,
}

// Why a bot makes no more turns.
#[derive(Clone, Copy)]
enum LifeEnd {
    // The leaf has to begin again, with requests numbered above this number.
    BeginsAbove(u32),
    // The whole process has ended.
    Whole(RunEnd),
}

// The most events that one wait reports.
const EVENTS: usize = 64;

/// Runs the bot of `settings` until an admin ends it, or it has to leave its net. Its binds call the procs of `store`. If an admin says so, it reads
/// `file` again, the file of these settings, and takes all of it or nothing.
///
/// # Errors
/// - Before anything is opened: the errors of [`check`], then `Secret` and `Account`.
/// - Before anybody is connected or let in: `Folder`, `System`, `Page`, `Config`, `OtherJournal`, `GenerationsSpent`,
///   `NoNet`, `NoMade`, `BadDoubt`, `Book`, `Listen` and `Control`; once more when a leaf begins again.
/// - Later: `DiskFailed` and `System`, and `Folder` if a leaf cannot save the number of its net or forget its journal, or
///   a hub cannot write its book.
/// - At any time: `NoMemory` if an allocation fails.
///
/// [`RunError`] describes them.
///
/// The hub journals a change before the process reports it as accepted.
///
/// # What the process does
/// The call tells `watcher` each act of the process with its bot: before the act, and after it. It knows no more of the
/// watcher than that it allows lawful acts ([`watching`]). So whatever the process has done, at whatever moment somebody
/// kills it, is lawful: it opens the bot from what its disks hold, or creates it, and then makes only steps that the bot
/// takes, each from the bot that the step before has left. It queues for the other bots what the bot has reported for
/// them, in order, each packet once and to the bot that the report names. Before it waits again, it has queued all, and
/// has told the bot the time.
pub fn run<R, P: Promise, B: Run, W: Watcher>(
    rt: &R,
    store: &ProcStore<P, B>,
    settings: &mut Settings,
    file: &str,
    watcher: &mut W,
) -> Result<RunEnd, RunError>
where
    R: AllocGlobal + Net + Clock + Files<File = File> + Print + RandomSource,
    requires unwatched { W.past watcher.old ≡ [] }
    requires allows { Allows P.promised store.now (station_of settings.old) W.may }
{
    check(rt.alloc(), store, settings)?;
    let secret = secret_of(rt, settings)?;
    // A bot that cannot log in changes nothing in its folder; the account is read again when the bot begins there.
    let _account = account_of(rt, settings)?;
    // Before the folder, so that a bot that gets no log changes nothing there.
    let mut log = log_of(rt, settings)?;
    let ended = run_logged(rt, &mut log, store, settings, file, secret, watcher);
    log.flush(rt);
    ended
}

// Takes the folder, and runs the bot there until it ends. A leaf that has to begin again begins there with a new journal.
fn run_logged<R, P: Promise, B: Run, W: Watcher>(
    rt: &R,
    log: &mut Log,
    store: &ProcStore<P, B>,
    settings: &mut Settings,
    file: &str,
    secret: Option<Secret>,
    watcher: &mut W,
) -> Result<RunEnd, RunError>
where
    R: AllocGlobal + Net + Clock + Files<File = File> + Print + RandomSource,
    requires some { 0 < length settings.old.servers }
    requires known { IsKnownWhereWanted settings.old.station secret }
    requires unwatched { W.past watcher.old ≡ [] }
    requires allows { Allows P.promised store.now (station_of settings.old) W.may }
{
    let mut folder = folder_of(rt, settings)?;
    let mut watch = Watch::new(rt, EVENTS)?;
    let mut page = page_of(rt, &watch, settings)?;
    let mut timeline = Timeline::begin(rt.monotonic()?.as_secs());
    warn(log, settings, secret, timeline.read_clocks(rt)?);
    let mut last = 0;
    for _life in 0..u64::MAX {
        let mut process = begin(
            rt,
            &watch,
            folder,
            settings,
            file,
            secret,
            last,
            store.holds(BAN_KEEPER),
            watcher,
        )?;
        match live(
            rt,
            log,
            &mut watch,
            &mut timeline,
            &mut page,
            &mut process,
            store,
            settings,
            watcher,
        )? {
            LifeEnd::BeginsAbove(above) => {
                folder = give_up(rt, process, watcher)?;
                last = above;
            }
            LifeEnd::Whole(end) => {
                let _gone = process.folder.clear_control(rt);
                return Ok(end);
            }
        }
    }
    Ok(RunEnd::Ended)
}

// Ends the connections of a bot without records, and forgets its journal.
#[cold]
fn give_up<R: AllocGlobal + Files<File = File>, W: Watcher>(
    rt: &R,
    process: Process,
    watcher: &mut W,
) -> Result<BotFolder, RunError>
    requires empty { HasNoRecords process.bot }
    requires allowed { W.may (W.past watcher.old) (Forgets process.bot) }
    ensures past { W.past watcher.new ≡ Forgets process.bot ∷ W.past watcher.old }
{
    watcher.forgets(&process.bot);
    let folder = process.into_folder();
    forget_journal(rt, &folder)?;
    Ok(folder)
}

// Binds the configured procs to a bot that has begun, logs that it is up, and makes its turns.
#[inline(never)]
fn live<R, P: Promise, B: Run, W: Watcher>(
    rt: &R,
    log: &mut Log,
    watch: &mut Watch,
    timeline: &mut Timeline,
    page: &mut Option<PageServer>,
    process: &mut Process,
    store: &ProcStore<P, B>,
    settings: &mut Settings,
    watcher: &mut W,
) -> Result<LifeEnd, RunError>
where
    R: AllocGlobal + Net + Clock + Files<File = File> + Print + RandomSource,
    requires up { IsUp P.promised store.now (station_of settings.old) W.may (W.past watcher.old) process.old.bot
        process.old.others.mail.account.told }
    ensures station { settings.new.station ≡ settings.old.station }
    ensures some { 0 < length settings.old.servers → 0 < length settings.new.servers }
    ensures again { IfOk result (λ end. RenewsWithout end process.new.bot) }
    ensures moves { IfOk result (λ end. LeavesAsTold end process.new.others.mail.links) }
    ensures at { IfOk result (λ _.
        IsAt P.promised store.now (station_of settings.new) W.may (W.past watcher.new) process.new.bot) }
{
    bind_all(rt.alloc(), &mut process.bot, store, settings, watcher)?;
    let up = timeline.read_clocks(rt)?;
    look_back(rt.alloc(), process, store, up, watcher)?;
    log.note(up, &LogEntry::Up(process.bot.version()));
    process.space.tell_start(log, up);
    make_turns(
        rt, log, watch, timeline, page, process, store, settings, watcher,
    )
}

// Makes turns until the bot ends, or has to begin again. Serves the page and writes the log at the end of each turn. It
// is not inlined, so that no start needs its room on the stack.
#[inline(never)]
fn make_turns<R, P: Promise, B: Run, W: Watcher>(
    rt: &R,
    log: &mut Log,
    watch: &mut Watch,
    timeline: &mut Timeline,
    page: &mut Option<PageServer>,
    process: &mut Process,
    store: &ProcStore<P, B>,
    settings: &mut Settings,
    watcher: &mut W,
) -> Result<LifeEnd, RunError>
where
    R: AllocGlobal + Net + Clock + Files<File = File> + Print + RandomSource,
    requires up { IsUp P.promised store.now (station_of settings.old) W.may (W.past watcher.old) process.old.bot
        process.old.others.mail.account.told }
    // What is read again is of the same bot.
    ensures station { settings.new.station ≡ settings.old.station }
    ensures some { 0 < length settings.old.servers → 0 < length settings.new.servers }
    // A bot with records never begins again.
    ensures again { IfOk result (λ end. RenewsWithout end process.new.bot) }
    // A leaf leaves its net only as it was told.
    ensures moves { IfOk result (λ end. LeavesAsTold end process.new.others.mail.links) }
    ensures at { IfOk result (λ _.
        IsAt P.promised store.now (station_of settings.new) W.may (W.past watcher.new) process.new.bot) }
{
    let mut turned = Turned::Busy;
    let mut is_serving = false;
    for _turn in 0..u64::MAX {
        process.reloading.settle(settings);
        log.flush(rt);
        watcher.waits();
        let seconds = wait(rt, watch, timeline, turned == Turned::Rests && !is_serving)?;
        let is_awake = turned == Turned::Busy || !watch.tokens().is_empty();
        process.space.look_if_due(log, is_awake, seconds);
        turned = process.turn(rt, log, watch, store, settings, seconds, watcher)?;
        is_serving = serve(rt.alloc(), page, watch, log, process, settings, seconds);
        match turned {
            Turned::Busy | Turned::Rests => {}
            Turned::BeginsAbove(last) => {
                log.note(seconds.wall, &LogEntry::BeginsAbove(last));
                return Ok(LifeEnd::BeginsAbove(last));
            }
            Turned::Moves => return Ok(LifeEnd::Whole(RunEnd::Moves)),
            Turned::Ended => {
                log.note(seconds.wall, &LogEntry::Ended);
                break;
            }
        }
    }
    Ok(LifeEnd::Whole(RunEnd::Ended))
}

// Creates the process of the bot in a folder. It is not connected to anybody yet. If the folder holds no journal, a
// leaf's requests are numbered above `last`. `leaves_bans` says whether the bot leaves recorded bans to its procs. It is
// not inlined, so that no turn needs its room on the stack.
#[inline(never)]
fn begin<R, W: Watcher>(
    rt: &R,
    watch: &Watch,
    folder: BotFolder,
    settings: &Settings,
    file: &str,
    secret: Option<Secret>,
    last: u32,
    leaves_bans: bool,
    watcher: &mut W,
) -> Result<Process, RunError>
where
    R: AllocGlobal + Net + Files<File = File> + RandomSource + Clock,
    requires some { 0 < length settings.now.servers }
    requires known { IsKnownWhereWanted settings.now.station secret }
    requires lets { Lets (MayBegin (station_of settings.now)) W.may (W.past watcher.old) }
    requires numbers { NumbersAbove (W.past watcher.old) last }
    ensures station { IfOk result (λ process. IsLinkedAs settings.now.station process.others.mail.links) }
    ensures told { IfOk result (λ process. process.others.mail.account.told ≡ []) }
    ensures begun { IfOk result (λ process.
        HasBegun (station_of settings.now) (W.past watcher.old) (W.past watcher.new) process.bot) }
{
    let uplink = uplink_of(rt, settings)?;
    // Made before the journal is read, so that its room for counts is memory that nothing has used. Most pages of that room
    // stay unused, and the system gives none for them.
    let floods = FloodWatch::new(rt.alloc(), settings.floods)?;
    let bot = bot_of(rt, &folder, settings, last, leaves_bans, watcher)?;
    with_bot(
        rt, watch, folder, settings, file, secret, uplink, floods, bot,
    )
}

// The process of a bot that has begun.
#[inline(never)]
fn with_bot<R>(
    rt: &R,
    watch: &Watch,
    folder: BotFolder,
    settings: &Settings,
    file: &str,
    secret: Option<Secret>,
    uplink: IrcConnection,
    floods: FloodWatch,
    bot: Bot<FileDisk>,
) -> Result<Process, RunError>
where
    R: AllocGlobal + Net + Files<File = File> + RandomSource,
    requires known { IsKnownWhereWanted settings.now.station secret }
    ensures station { IfOk result (λ process. IsLinkedAs settings.now.station process.others.mail.links) }
    ensures told { IfOk result (λ process. process.others.mail.account.told ≡ []) }
    ensures bot { IfOk result (λ process. process.bot ≡ bot) }
{
    let links = links_of(
        rt,
        watch.registry(),
        &folder,
        settings,
        secret,
        bot.version(),
    )?;
    let admins = door_of(rt, watch, &folder)?;
    let space = space_of(rt, &folder)?;
    let bases = Bases::new(bot.version());
    Ok(Process {
        folder,
        bot,
        lines: LineReader::new(rt.alloc()),
        uplink,
        floods,
        admins,
        others: Others::new(rt.alloc(), links),
        bases,
        kept_sum: KeptSum::new(),
        sums: Sums::new(),
        space,
        until: None,
        reloading: Reloading::new(rt.alloc(), file)?,
        obeyed: None,
        nick: Vec::new(rt.alloc()),
        rested: None,
    })
}

// At a leaf, notes the changes of an earlier run that are out: they are answered before all that are asked for in this
// one. A pump sends each of them again, and nothing else waits yet.
#[inline(never)]
fn look_back<P: Promise, B: Run, W: Watcher>(
    alloc: Global,
    process: &mut Process,
    store: &ProcStore<P, B>,
    now: u64,
    watcher: &mut W,
) -> Result<(), RunError>
    requires watched { IsWatched P.promised store.now W.may (W.past watcher.old) process.old.bot }
    requires settled { IsSettled (W.past watcher.old) process.old.others.mail.account.told }
    ensures { OnOk result (IsReported P.promised store.now W.may (W.past watcher.old) (W.past watcher.new) process.new.bot
        process.new.others.mail.account.told) }
{
    if !process.others.mail.links.is_leaf() {
        return Ok(());
    }
    let report = watched_step(alloc, &mut process.bot, store, BotEvent::Pump, watcher);
    let packets = report.packets.as_slice();
    process.others.send_all(alloc, packets, now, watcher)?;
    match report.end {
        End::NoMemory => Err(RunError::NoMemory),
        End::Done | End::Refused(_) => Ok(process.others.asks.put_many(requests_in(packets))?),
    }
}
