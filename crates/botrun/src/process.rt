// One turn of a bot's process.
ghost use Rattle.std.specs.Prelude.{◌≡◌, ◌<◌, true, IfOk, IfSome};
ghost use Rattle.peers.specs.Moving.{is_to_move};
ghost use Rattle.bytetext.specs.declared.moment.TheConstants.{MOMENTS_END};
ghost use Rattle.watching.specs.Following.{IsAt, IsEven, IsUp};
ghost use Rattle.botrun.specs.Renewals.{BeginsWithout, HasNoRecords, MovesAsTold};
ghost use Rattle.botrun.specs.Watched.{ByEnd, station_of};

use crate::others::Others;
use crate::own::tell_own;
use crate::steps::Hearing;
use crate::sum_logging::tell_sum;
use administrators::{Admins, Seconds};
use botcore::Bot;
use botfolder::BotFolder;
use disks::FileDisk;
use ircline::LineReader;
use net::{Log, Watch};
use procs::{ProcStore, Promise, Run};
use recordsums::{KeptSum, Sums};
use serverlink::IrcConnection;
use settings::Settings;
use std::fs::File;
use std::net::Net;
use std::random::RandomSource;
use std::rt::Files;
use upkeep::{
    Bases, FloodWatch, Reloading, RunError, Space, connect, enter_new_leaves, keep_new_doubt,
    keep_new_net, leave_net, send,
};
use watching::Watcher;

// A bot, its folder, its connections, and the state of its process.
pub(crate) struct Process {
    pub(crate) folder: BotFolder,
    pub(crate) bot: Bot<FileDisk>,
    pub(crate) lines: LineReader,
    pub(crate) uplink: IrcConnection,
    // Who floods the bot.
    pub(crate) floods: FloodWatch,
    pub(crate) admins: Admins,
    pub(crate) others: Others,
    // When the journal is rewritten.
    pub(crate) bases: Bases,
    // The sum of the records, and when the log shows it.
    pub(crate) kept_sum: KeptSum,
    pub(crate) sums: Sums,
    // The room for changes on the disk.
    pub(crate) space: Space,
    // Once the process is to end: the second until which it waits for what is still unsent.
    pub(crate) until: Option<u64>,
    // The configuration file, and what was read of it again.
    pub(crate) reloading: Reloading,
    // The number of the admin whose command is being executed, unless the answer comes later.
    pub(crate) obeyed: Option<u64>,
    // The bot's nick before the lines of this turn.
    pub(crate) nick: Vec<u8>,
    // When the last whole turn was made, if it left nothing to do and nothing has happened since.
    pub(crate) rested: Option<Seconds>,
}

// Written by hand, so that the drop is proved once, and not in each function that drops one.
impl Drop for Process {
    fn drop(self) {
        let Process {
            folder: _,
            bot: _,
            lines: _,
            uplink: _,
            floods: _,
            admins: _,
            others: _,
            bases: _,
            kept_sum: _,
            sums: _,
            space: _,
            until: _,
            reloading: _,
            obeyed: _,
            nick: _,
            rested: _,
        } = self;
    }
}

// The state in which a turn leaves a process.
#[derive(Clone, Copy, PartialEq, Eq)]
pub(crate) enum Turned {
    // There may be more to do at once.
    Busy,
    // The process rests until an event names a socket, and at most until the next second. If the server alone ends that
    // rest within 10 ms, the next turn begins once they have passed.
    //
    // No event is lost. A wait names a socket once, when something arrives or when there is room for more. So the
    // process asks each named socket, in this turn or a busy one after it, until there is nothing left to ask for:
    //
    // - It reads the server and the other bots until a read would block. It reads admins so too, unless they have
    //   first to take answers; an event announces that they do.
    // - It polls the door until nobody waits or no place is left, again once a place is free, and at the next second.
    // - It reads the answer to a lookup until a read would block, and looks at the time that it takes at each second.
    // - It offers unsent bytes until all are taken or none is; then an event announces room for more.
    // - A turn is busy if it executed a command, took a packet or began a connection to a server, or if a hello got due
    //   in it. No readiness event will announce the work that these leave, so the next turn starts at once.
    //
    // Everything else waits for the clock.
    Rests,
    // The bot is a leaf whose journal has to be made again, so that its requests are numbered above this number.
    BeginsAbove(u32),
    // The bot is a leaf whose hub is the heir of its net: it has to begin again as a new leaf of the hub's net.
    Moves,
    // The process has ended, as an admin asked.
    Ended,
}

impl Process {
    // Makes a turn, a short one if that is enough. `watch` names the sockets that may have something to read.
    pub(crate) fn turn<R, P: Promise, B: Run, W: Watcher>(
        &mut self,
        rt: &R,
        log: &mut Log,
        watch: &Watch,
        store: &ProcStore<P, B>,
        settings: &Settings,
        seconds: Seconds,
        watcher: &mut W,
    ) -> Result<Turned, RunError>
    where
        R: AllocGlobal + Net + Files<File = File> + Print + RandomSource,
        requires moment { seconds.wall < MOMENTS_END }
        requires even { IsEven P.promised store.now (station_of settings.now) W.may (W.past watcher.old) self.old.bot
            self.old.others.mail.account.told }
        // A bot with records goes on.
        ensures again { IfOk result (λ turned. BeginsWithout turned self.new.bot) }
        ensures moves { IfOk result (λ turned. MovesAsTold turned self.new.others.mail.links) }
        // After the turn the bot has been told the time, unless it has to begin again.
        ensures up { IfOk result (λ turned. ByEnd turned
            (IsUp P.promised store.now (station_of settings.now) W.may (W.past watcher.new) self.new.bot
            self.new.others.mail.account.told)
            (IsAt P.promised store.now (station_of settings.now) W.may (W.past watcher.new) self.new.bot)) }
    {
        self.uplink
            .wake(watch.tokens(), watch.endings(), seconds.steady);
        if self.is_short(watch.tokens(), seconds) {
            self.short_turn(rt, log, store, settings, seconds, watcher)
        } else {
            self.whole_turn(rt, log, watch, store, settings, seconds, watcher)
        }
    }

    // Whether a turn need not look beyond the server: the server alone may have something to read, and by the clocks a
    // whole turn in this second has left nothing to do.
    fn is_short(&self, tokens: &[usize], seconds: Seconds) -> bool {
        match self.rested {
            Some(rested) => {
                rested.wall == seconds.wall
                    && rested.steady == seconds.steady
                    && self.until.is_none()
                    && IrcConnection::is_alone_in(tokens)
            }
            None => false,
        }
    }

    // Makes a turn that reads the server alone. Most lines are what people say and no proc waits for: then there is nothing
    // more to do.
    fn short_turn<R, P: Promise, B: Run, W: Watcher>(
        &mut self,
        rt: &R,
        log: &mut Log,
        store: &ProcStore<P, B>,
        settings: &Settings,
        seconds: Seconds,
        watcher: &mut W,
    ) -> Result<Turned, RunError>
    where
        R: AllocGlobal + Net + Files<File = File> + Print + RandomSource,
        requires moment { seconds.wall < MOMENTS_END }
        requires even { IsEven P.promised store.now (station_of settings.now) W.may (W.past watcher.old) self.old.bot
            self.old.others.mail.account.told }
        ensures again { IfOk result (λ turned. BeginsWithout turned self.new.bot) }
        ensures moves { IfOk result (λ turned. MovesAsTold turned self.new.others.mail.links) }
        ensures up { IfOk result (λ turned. ByEnd turned
            (IsUp P.promised store.now (station_of settings.now) W.may (W.past watcher.new) self.new.bot
            self.new.others.mail.account.told)
            (IsAt P.promised store.now (station_of settings.now) W.may (W.past watcher.new) self.new.bot)) }
    {
        let more = self.uplink.read()?;
        let now = seconds.wall;
        let heard = self.hear(rt, log, store, settings, false, true, now, watcher)?;
        if heard.is_quiet && !heard.is_busy && !more && self.uplink.is_still() {
            return Ok(Turned::Rests);
        }
        self.end_turn(rt, log, store, settings, heard, more, seconds, watcher)
    }

    // Makes a whole turn: connects what is lost and due, reads, steps, writes, closes the connections that are over, and logs
    // the sum of the records if that is due. A leaf that has to begin again ends the turn once it has read, as one that
    // leaves its net does.
    fn whole_turn<R, P: Promise, B: Run, W: Watcher>(
        &mut self,
        rt: &R,
        log: &mut Log,
        watch: &Watch,
        store: &ProcStore<P, B>,
        settings: &Settings,
        seconds: Seconds,
        watcher: &mut W,
    ) -> Result<Turned, RunError>
    where
        R: AllocGlobal + Net + Files<File = File> + Print + RandomSource,
        requires moment { seconds.wall < MOMENTS_END }
        requires even { IsEven P.promised store.now (station_of settings.now) W.may (W.past watcher.old) self.old.bot
            self.old.others.mail.account.told }
        ensures again { IfOk result (λ turned. BeginsWithout turned self.new.bot) }
        ensures moves { IfOk result (λ turned. MovesAsTold turned self.new.others.mail.links) }
        ensures up { IfOk result (λ turned. ByEnd turned
            (IsUp P.promised store.now (station_of settings.now) W.may (W.past watcher.new) self.new.bot
            self.new.others.mail.account.told)
            (IsAt P.promised store.now (station_of settings.now) W.may (W.past watcher.new) self.new.bot)) }
    {
        let now = seconds.wall;
        self.others.mail.links.wake(watch.tokens(), seconds.steady);
        let (uplink, links) = (&mut self.uplink, &mut self.others.mail.links);
        let registry = watch.registry();
        let connected = connect(rt, log, registry, self.until, uplink, links, settings, now)?;
        let mut is_busy = connected;
        is_busy |= self.uplink.read()?;
        is_busy |= self
            .admins
            .read(rt, log, watch, &self.others.asks, seconds)?;
        let links = &mut self.others.mail.links;
        tell_own(rt.alloc(), &self.bot, &mut self.kept_sum, links)?;
        is_busy |= self.others.mail.links.read(rt, log, now)?;
        if let Some(last) = self.to_begin_after() {
            return Ok(Turned::BeginsAbove(last));
        }
        if self.is_to_move() {
            let (asks, admins) = (&mut self.others.asks, &mut self.admins);
            leave_net(rt, log, asks, admins, &mut self.uplink, settings, now)?;
            return Ok(Turned::Moves);
        }
        let links = &mut self.others.mail.links;
        keep_new_doubt(rt, log, &self.folder, &mut self.space, links, now)?;
        keep_new_net(rt, log, &self.folder, &mut self.space, links, now)?;
        enter_new_leaves(rt, log, &self.folder, &self.space, links, now)?;
        let heard = self.hear(rt, log, store, settings, connected, false, now, watcher)?;
        self.end_turn(rt, log, store, settings, heard, is_busy, seconds, watcher)
    }

    // Ends a turn whose steps are made: executes the admins' commands, and writes. `is_busy` says whether what was read
    // leaves more to do at once.
    fn end_turn<R, P: Promise, B: Run, W: Watcher>(
        &mut self,
        rt: &R,
        log: &mut Log,
        store: &ProcStore<P, B>,
        settings: &Settings,
        heard: Hearing,
        is_busy: bool,
        seconds: Seconds,
        watcher: &mut W,
    ) -> Result<Turned, RunError>
    where
        R: AllocGlobal + Net + Files<File = File> + Print + RandomSource,
        requires moment { seconds.wall < MOMENTS_END }
        requires up { IsUp P.promised store.now (station_of settings.now) W.may (W.past watcher.old) self.old.bot
            self.old.others.mail.account.told }
        ensures again { IfOk result (λ turned. BeginsWithout turned self.new.bot) }
        ensures moves { IfOk result (λ turned. MovesAsTold turned self.new.others.mail.links) }
        ensures up { IfOk result (λ turned. ByEnd turned
            (IsUp P.promised store.now (station_of settings.now) W.may (W.past watcher.new) self.new.bot
            self.new.others.mail.account.told)
            (IsAt P.promised store.now (station_of settings.now) W.may (W.past watcher.new) self.new.bot)) }
    {
        let now = seconds.wall;
        let mut is_busy = is_busy || heard.is_busy;
        is_busy |= self.obey_all(rt, log, store, settings, now, watcher)?;
        self.hand_over(rt, log, settings, now)?;
        let (uplink, links) = (&mut self.uplink, &mut self.others.mail.links);
        is_busy |= send(rt, log, uplink, &mut self.admins, links, settings, now)?;
        stay_up(&self.bot)?;
        let has_ended = self.has_ended(now);
        let (kept, sums) = (&mut self.kept_sum, &mut self.sums);
        tell_sum(rt, log, &self.bot, kept, sums, has_ended, now)?;
        if has_ended {
            return Ok(Turned::Ended);
        }
        if is_busy {
            self.rested = None;
            return Ok(Turned::Busy);
        }
        self.rested = if heard.is_quiet { Some(seconds) } else { None };
        Ok(Turned::Rests)
    }

    // Unless the process is to end, returns the number above which a leaf without records has to begin again, if it has
    // to.
    fn to_begin_after(&self) -> Option<u32>
        ensures { IfSome result (λ _. HasNoRecords self.now.bot) }
    {
        if self.until.is_some() || self.bot.version() > 0 {
            return None;
        }
        self.others.mail.links.to_begin_after()
    }

    // Whether the bot is a leaf that has to leave its net, unless the process is to end.
    fn is_to_move(&self) -> bool
        ensures { result ≡ true → is_to_move self.now.others.mail.links ≡ true }
    {
        self.until.is_none() && self.others.mail.links.is_to_move()
    }

    // Ends all connections, and returns the bot's folder.
    pub(crate) fn into_folder(self) -> BotFolder {
        let Process {
            folder,
            bot: _,
            lines: _,
            uplink: _,
            floods: _,
            admins: _,
            others: _,
            bases: _,
            kept_sum: _,
            sums: _,
            space: _,
            until: _,
            reloading: _,
            obeyed: _,
            nick: _,
            rested: _,
        } = self;
        folder
    }

    // Whether the process is to end, and either the wait is over, or the server is gone and the admins have their
    // answers.
    fn has_ended(&self, now: u64) -> bool {
        match self.until {
            Some(until) => {
                now >= until || (self.uplink.session().is_none() && self.admins.are_answered())
            }
            None => false,
        }
    }
}

// A bot whose disk failed does not go on: when its journal is opened again, the journal shows what counts.
fn stay_up(bot: &Bot<FileDisk>) -> Result<(), RunError> {
    if bot.is_down() {
        Err(RunError::DiskFailed {
            change: u64::from(bot.version()) + 1,
        })
    } else {
        Ok(())
    }
}
