// What a bot does for an admin by its steps, what it shows, and how it answers.
ghost use Rattle.std.specs.Prelude.{IfOk, OnOk};
ghost use Rattle.recordjson.specs.Words.{IsPlainLine};
ghost use Rattle.watching.specs.Following.{IsUp, IsWatched, StepsQuietly};
ghost use Rattle.botrun.specs.Watched.{IsOfBinds, station_of};

use crate::binding::{bind_answer, new_bind, old_bind};
use crate::process::Process;
use administrators::{ChangeOutcome, asked_answer, change_answer, looseness_in};
use botcore::{Bot, BotEvent};
use bytetext::NoMemory;
use control::UnbindWords;
use disks::FileDisk;
use net::Log;
use procs::{ProcStore, Promise, Run};
use recordjson::json_of;
use recordtext::put_records;
use settings::{BindWords, Settings};
use std::alloc::Global;
use turns::watched_step;
use upkeep::{RunError, no_bind_answer, status_json, status_of, tell_changes};
use userfile::Change;
use watching::Watcher;

impl Process {
    // Asks for a change. At a leaf the hub answers it later.
    pub(crate) fn change<R: AllocGlobal, P: Promise, B: Run, W: Watcher>(
        &mut self,
        rt: &R,
        log: &mut Log,
        store: &ProcStore<P, B>,
        settings: &Settings,
        change: Change,
        now: u64,
        watcher: &mut W,
    ) -> Result<Vec<u8>, RunError>
        requires up { IsUp P.promised store.now (station_of settings.now) W.may (W.past watcher.old) self.old.bot
            self.old.others.mail.account.told }
        ensures up { OnOk result
            (IsUp P.promised store.now (station_of settings.now) W.may (W.past watcher.new) self.new.bot
            self.new.others.mail.account.told) }
    {
        let looseness = looseness_in(&change);
        let changes = vec![in rt.alloc(); change]?;
        let outcome = self.take(rt, log, store, settings, changes, false, now, watcher)?;
        Ok(asked_answer(rt.alloc(), outcome, looseness)?)
    }

    pub(crate) fn compact_now<R: AllocGlobal, P: Promise, B: Run, W: Watcher>(
        &mut self,
        rt: &R,
        log: &mut Log,
        store: &ProcStore<P, B>,
        settings: &Settings,
        now: u64,
        watcher: &mut W,
    ) -> Result<Vec<u8>, RunError>
        requires up { IsUp P.promised store.now (station_of settings.now) W.may (W.past watcher.old) self.old.bot
            self.old.others.mail.account.told }
        ensures up { OnOk result
            (IsUp P.promised store.now (station_of settings.now) W.may (W.past watcher.new) self.new.bot
            self.new.others.mail.account.told) }
    {
        match self.compact(rt, log, store, settings, now, watcher)? {
            ChangeOutcome::Nothing => Ok(Vec::from_slice(rt.alloc(), b"compacted\n")?),
            outcome => Ok(change_answer(rt.alloc(), outcome)?),
        }
    }

    // The accepted changes that the journal holds, from number `from` on.
    pub(crate) fn changes(
        &self,
        alloc: Global,
        settings: &Settings,
        from: u32,
    ) -> Result<Vec<u8>, RunError> {
        let (held, version) = (self.bot.accepted(), self.bot.version());
        Ok(tell_changes(alloc, settings, held, version, from)?)
    }

    // The bot's status.
    pub(crate) fn status(
        &self,
        alloc: Global,
        settings: &Settings,
        now: u64,
    ) -> Result<Vec<u8>, RunError> {
        let (version, nick) = (self.bot.version(), self.bot.own_nick());
        let (links, asks) = (&self.others.mail.links, &self.others.asks);
        let (uplink, admins, floods) = (&self.uplink, &self.admins, &self.floods);
        Ok(status_of(
            alloc, version, nick, uplink, links, asks, admins, floods, settings, now,
        )?)
    }

    // The bot's status, as a line of JSON.
    pub(crate) fn status_json(
        &self,
        alloc: Global,
        settings: &Settings,
        now: u64,
    ) -> Result<Vec<u8>, RunError> {
        let (version, nick) = (self.bot.version(), self.bot.own_nick());
        let (links, asks) = (&self.others.mail.links, &self.others.asks);
        let (uplink, admins, floods) = (&self.uplink, &self.admins, &self.floods);
        Ok(status_json(
            alloc, version, nick, uplink, links, asks, admins, floods, settings, now,
        )?)
    }
}

// Returns the version and the records of `bot`, as a transcript has them.
pub(crate) fn show(
    alloc: Global,
    bot: &Bot<FileDisk>,
    settings: &Settings,
) -> Result<Vec<u8>, RunError> {
    let mut text = Vec::new(alloc);
    let version = Some(bot.version());
    put_records(
        alloc,
        &mut text,
        settings.station.number,
        version,
        Some(bot.userfile()),
    )?;
    Ok(text)
}

// The version and the records of `bot`, as a line of JSON.
pub(crate) fn show_json(
    alloc: Global,
    bot: &Bot<FileDisk>,
    settings: &Settings,
) -> Result<Vec<u8>, NoMemory>
    ensures plain { IfOk result (λ text. IsPlainLine text.items) }
{
    json_of(
        alloc,
        settings.station.number,
        bot.version(),
        bot.userfile(),
    )
}

// Makes a bind of `bot`, which lasts until the bot ends.
pub(crate) fn bind<P: Promise, B: Run, W: Watcher>(
    alloc: Global,
    bot: &mut Bot<FileDisk>,
    store: &ProcStore<P, B>,
    words: &BindWords,
    watcher: &mut W,
) -> Result<Vec<u8>, RunError>
    requires watched { IsWatched P.promised store.now W.may (W.past watcher.old) bot.old }
    ensures { StepsQuietly P.promised store.now W.may (W.past watcher.old) (W.past watcher.new) bot.new }
{
    match new_bind(alloc, store, words) {
        Ok(asked) => step_bind(alloc, bot, store, BotEvent::Bind(asked), watcher),
        Err(why) => Ok(no_bind_answer(alloc, why)?),
    }
}

// Removes a bind of `bot`.
pub(crate) fn unbind<P: Promise, B: Run, W: Watcher>(
    alloc: Global,
    bot: &mut Bot<FileDisk>,
    store: &ProcStore<P, B>,
    words: UnbindWords,
    watcher: &mut W,
) -> Result<Vec<u8>, RunError>
    requires watched { IsWatched P.promised store.now W.may (W.past watcher.old) bot.old }
    ensures { StepsQuietly P.promised store.now W.may (W.past watcher.old) (W.past watcher.new) bot.new }
{
    match old_bind(words) {
        Ok(gone) => step_bind(alloc, bot, store, BotEvent::Unbind(gone), watcher),
        Err(why) => Ok(no_bind_answer(alloc, why)?),
    }
}

// Makes or removes a bind, which says nothing to the other bots.
fn step_bind<P: Promise, B: Run, W: Watcher>(
    alloc: Global,
    bot: &mut Bot<FileDisk>,
    store: &ProcStore<P, B>,
    event: BotEvent,
    watcher: &mut W,
) -> Result<Vec<u8>, RunError>
    requires bind { IsOfBinds event }
    requires watched { IsWatched P.promised store.now W.may (W.past watcher.old) bot.old }
    ensures { StepsQuietly P.promised store.now W.may (W.past watcher.old) (W.past watcher.new) bot.new }
{
    let report = watched_step(alloc, bot, store, event, watcher);
    Ok(bind_answer(alloc, &report)?)
}
