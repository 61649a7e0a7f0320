// Opens the bot in its folder, or creates it there, with the binds of its configuration.
ghost use Rattle.std.specs.Prelude.{◌≡◌, IfOk, OnOk};
ghost use Rattle.botfolder.specs.Folders.{AreEmpty, AreReady};
ghost use Rattle.watching.specs.Acts.{HasNoBot, MayBegin, NumbersAbove, station_in};
ghost use Rattle.watching.specs.Following.{HasBegun, IsWatched, Lets, StepsQuietly};
ghost use Rattle.botcore.specs.Steps.{asked_of};
ghost use Rattle.botrun.specs.Keeper.{HasKeeper, keeper_asked, kept_by, with_bind};
ghost use Rattle.botrun.specs.Watched.{station_of};

use crate::binding::new_bind;
use botcore::{Bot, BotError, BotEvent, BotFault, Config, End, NewBind, Refusal};
use botfolder::{Begun, BotFolder, FolderFault};
use bytejournal::JournalFault;
use bytetext::{Failure, NoMemory, Text, Texts, TryCopy};
use disks::{FileDisk, Pair};
use procs::{BindKind, ProcStore, Promise, Run};
use settings::{BindLine, Settings};
use std::alloc::Global;
use std::fs::File;
use std::random::RandomSource;
use std::rt::Files;
use std::time::Clock;
use turns::watched_step;
use upkeep::{RunError, begin_net, of_folder, of_line};
use watching::Watcher;

// The name of the proc to which a bot leaves recorded bans. Only a store that lacks it leaves them to the bot itself.
pub(crate) const BAN_KEEPER: &[u8] = b"keepbans";

// Opens the bot whose journal the folder holds, or creates it if there is none: then a leaf's requests are numbered above
// `last`. `leaves_bans` says whether the bot leaves recorded bans to its procs. It is not inlined, nor what it calls, so
// that each begins with little on the stack.
#[inline(never)]
pub(crate) fn bot_of<R: AllocGlobal + Files<File = File> + RandomSource + Clock, W: Watcher>(
    rt: &R,
    folder: &BotFolder,
    settings: &Settings,
    last: u32,
    leaves_bans: bool,
    watcher: &mut W,
) -> Result<Bot<FileDisk>, RunError>
    requires lets { Lets (MayBegin (station_of settings.now)) W.may (W.past watcher.old) }
    requires numbers { NumbersAbove (W.past watcher.old) last }
    ensures { IfOk result (HasBegun (station_of settings.now) (W.past watcher.old) (W.past watcher.new)) }
{
    let config = config_of(rt.alloc(), settings, leaves_bans)?;
    match folder.begin(rt) {
        Ok(Begun::Found(disks)) => found(rt.alloc(), config, disks, watcher),
        Ok(Begun::Empty(disks)) => {
            begin_net(rt, folder, settings)?;
            made(rt, folder, config, disks, last, watcher)
        }
        Err(error) => Err(of_folder(error)),
    }
}

// Opens the bot of an existing journal.
#[inline(never)]
fn found<W: Watcher>(
    alloc: Global,
    config: Config,
    disks: Pair,
    watcher: &mut W,
) -> Result<Bot<FileDisk>, RunError>
    requires ready { AreReady disks }
    requires lets { Lets (MayBegin (station_in config)) W.may (W.past watcher.old) }
    requires before { HasNoBot (W.past watcher.old) }
    ensures { IfOk result (HasBegun (station_in config) (W.past watcher.old) (W.past watcher.new)) }
{
    let Pair { first, second } = disks;
    watcher.opens(&first, &second);
    match Bot::open(alloc, config, first, second) {
        Ok(bot) => {
            bot.know_disks();
            watcher.began(&bot);
            Ok(bot)
        }
        Err(returned) => Err(of_bot(returned.error)),
    }
}

// Creates a bot; a leaf's requests are numbered above `last`. Its journal is found from now on.
#[inline(never)]
fn made<R: AllocGlobal + Files<File = File>, W: Watcher>(
    rt: &R,
    folder: &BotFolder,
    config: Config,
    disks: Pair,
    last: u32,
    watcher: &mut W,
) -> Result<Bot<FileDisk>, RunError>
    requires ready { AreReady disks }
    requires empty { AreEmpty disks }
    requires lets { Lets (MayBegin (station_in config)) W.may (W.past watcher.old) }
    requires numbers { NumbersAbove (W.past watcher.old) last }
    ensures { IfOk result (HasBegun (station_in config) (W.past watcher.old) (W.past watcher.new)) }
{
    let Pair { first, second } = disks;
    watcher.creates(&first, &second, last);
    let bot = match Bot::create_after(rt.alloc(), config, first, second, last) {
        Ok(bot) => bot,
        Err(returned) => return Err(of_bot(returned.error)),
    };
    match folder.finish(rt) {
        Ok(()) => {
            bot.know_disks();
            watcher.began(&bot);
            Ok(bot)
        }
        Err(error) => Err(of_folder(error)),
    }
}

// The configuration with which the bot is opened or created. The bot itself joins no channel: which those are can change
// while it runs, so the connection to the server joins all of them.
fn config_of(alloc: Global, settings: &Settings, leaves_bans: bool) -> Result<Config, NoMemory>
    ensures station { IfOk result (λ config. station_in config ≡ station_of settings.now) }
    ensures bans { IfOk result (λ config. config.leaves_bans ≡ leaves_bans) }
    ensures nick { IfOk result (λ config. config.nick ≡ settings.now.nick) }
{
    Ok(Config {
        number: settings.station.number,
        leaves: settings.station.leaves,
        nick: settings.nick.copy(alloc)?,
        channels: Texts::empty(alloc),
        exclusive: settings.exclusive,
        sends_at_once: true,
        leaves_bans,
        zone: settings.zone.copy(alloc)?,
    })
}

// Makes the binds of a configuration, and then those that every bot has.
pub(crate) fn bind_all<P: Promise, B: Run, W: Watcher>(
    alloc: Global,
    bot: &mut Bot<FileDisk>,
    store: &ProcStore<P, B>,
    settings: &Settings,
    watcher: &mut W,
) -> Result<(), RunError>
    requires watched { IsWatched P.promised store.now W.may (W.past watcher.old) bot.old }
    ensures quiet { StepsQuietly P.promised store.now W.may (W.past watcher.old) (W.past watcher.new) bot.new }
    ensures keeper { OnOk result (HasKeeper store.now bot.new) }
{
    bind_listed(alloc, bot, store, settings, watcher)?;
    bind_own(alloc, bot, store, watcher)
}

// Makes the binds of a configuration.
fn bind_listed<P: Promise, B: Run, W: Watcher>(
    alloc: Global,
    bot: &mut Bot<FileDisk>,
    store: &ProcStore<P, B>,
    settings: &Settings,
    watcher: &mut W,
) -> Result<(), RunError>
    requires watched { IsWatched P.promised store.now W.may (W.past watcher.old) bot.old }
    ensures { StepsQuietly P.promised store.now W.may (W.past watcher.old) (W.past watcher.new) bot.new }
{
    for bind in settings.binds.as_slice() {
        bind_one(alloc, bot, store, bind, watcher)?;
    }
    Ok(())
}

fn bind_one<P: Promise, B: Run, W: Watcher>(
    alloc: Global,
    bot: &mut Bot<FileDisk>,
    store: &ProcStore<P, B>,
    bind: &BindLine,
    watcher: &mut W,
) -> Result<(), RunError>
    requires watched { IsWatched P.promised store.now W.may (W.past watcher.old) bot.old }
    ensures { StepsQuietly P.promised store.now W.may (W.past watcher.old) (W.past watcher.new) bot.new }
{
    let asked = match new_bind(alloc, store, &bind.words) {
        Ok(asked) => asked,
        Err(why) => return Err(of_line(bind.line, why)),
    };
    let report = watched_step(alloc, bot, store, BotEvent::Bind(asked), watcher);
    match report.end {
        End::Refused(Refusal::Bind(fault)) => Err(RunError::Bind {
            line: bind.line,
            fault,
        }),
        End::NoMemory => Err(RunError::NoMemory),
        End::Done | End::Refused(Refusal::Link(_) | Refusal::Clock(_)) => Ok(()),
    }
}

// Makes the binds that every bot has, if the store holds their proc: of joins, and of bans that somebody removes.
fn bind_own<P: Promise, B: Run, W: Watcher>(
    alloc: Global,
    bot: &mut Bot<FileDisk>,
    store: &ProcStore<P, B>,
    watcher: &mut W,
) -> Result<(), RunError>
    requires watched { IsWatched P.promised store.now W.may (W.past watcher.old) bot.old }
    ensures quiet { StepsQuietly P.promised store.now W.may (W.past watcher.old) (W.past watcher.new) bot.new }
    ensures kept { OnOk result (bot.new ≡ kept_by store.now bot.old) }
{
    if !store.holds(BAN_KEEPER) {
        return Ok(());
    }
    bind_keeper(alloc, bot, store, BindKind::Join, b"*", watcher)?;
    bind_keeper(alloc, bot, store, BindKind::Mode, b"* -b", watcher)
}

// Makes a bind of the proc that keeps bans. A bot whose table has no room for it does not run: it would keep no bans.
fn bind_keeper<P: Promise, B: Run, W: Watcher>(
    alloc: Global,
    bot: &mut Bot<FileDisk>,
    store: &ProcStore<P, B>,
    kind: BindKind,
    mask: &[u8],
    watcher: &mut W,
) -> Result<(), RunError>
    requires watched { IsWatched P.promised store.now W.may (W.past watcher.old) bot.old }
    ensures quiet { StepsQuietly P.promised store.now W.may (W.past watcher.old) (W.past watcher.new) bot.new }
    ensures made { OnOk result (bot.new ≡ with_bind (keeper_asked kind mask.now) bot.old) }
{
    let asked = keeper_bind(alloc, kind, mask)?;
    let bound = watched_step(alloc, bot, store, BotEvent::Bind(asked), watcher);
    match bound.end {
        End::Done => Ok(()),
        End::Refused(Refusal::Bind(fault)) => Err(RunError::Bind { line: 0, fault }),
        // No bind is refused so.
        End::Refused(Refusal::Link(_) | Refusal::Clock(_)) => Err(RunError::Config),
        End::NoMemory => Err(RunError::NoMemory),
    }
}

// The bind of the proc that keeps bans, for anybody.
fn keeper_bind(alloc: Global, kind: BindKind, mask: &[u8]) -> Result<NewBind, NoMemory>
    ensures { IfOk result (λ asked. asked_of asked ≡ keeper_asked kind mask.now) }
{
    Ok(NewBind {
        kind,
        flags: Text::from_slice(alloc, b"-")?,
        mask: Text::from_slice(alloc, mask)?,
        proc: Text::from_slice(alloc, BAN_KEEPER)?,
    })
}

// The error for a bot that could not be created or opened.
fn of_bot(error: BotError) -> RunError {
    match error {
        Failure::Refused(BotFault::BadConfig) => RunError::Config,
        Failure::Refused(BotFault::Journal(fault)) => of_journal(fault),
        Failure::NoMemory => RunError::NoMemory,
    }
}

// The error for a journal's fault. If a disk failed while the journal was created or opened, what it holds is unknown.
fn of_journal(fault: JournalFault) -> RunError {
    match fault {
        JournalFault::NotAJournal => RunError::OtherJournal,
        JournalFault::GenerationsSpent => RunError::GenerationsSpent,
        JournalFault::DiskFault | JournalFault::Spent => RunError::Folder(FolderFault::DiskFails),
    }
}
