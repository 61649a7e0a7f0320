// The commands of admins.
ghost use Rattle.std.specs.Prelude.{◌<◌, OnOk};
ghost use Rattle.bytetext.specs.declared.moment.TheConstants.{MOMENTS_END};
ghost use Rattle.watching.specs.Following.{IsUp};
ghost use Rattle.botrun.specs.Watched.{station_of};

use crate::deeds::{bind, show, show_json, unbind};
use crate::process::Process;
use crate::reloading::reload;
use administrators::{LogEntry, advice_answer};
use bytetext::Failure;
use control::{AdminCommand, ChannelWords};
use net::Log;
use procs::{ProcStore, Promise, Run};
use recordtext::first_word;
use settings::Settings;
use std::fs::File;
use std::net::Net;
use std::rt::Files;
use upkeep::{RunError, backup, die, join, jump, part, refusal, renew, reopen, say, trust};
use watching::Watcher;

// The most commands of each admin that one turn executes. The changes of a turn go to each other bot in one write,
// and 16 changes are all that a hub sends in answer to one hello. For all admins a turn executes at most 128
// commands, half as many as it takes packets: so the server and the other bots wait no longer for admins than for
// each other.
const MAX_COMMANDS: usize = 16;

impl Process {
    // Executes the admins' commands, in rounds of one command of each, so that no admin waits for all commands
    // of another. Begins no further round once the bot is to end or is down. Returns whether there was a command.
    pub(crate) fn obey_all<
        R: AllocGlobal + Net + Files<File = File> + Print,
        P: Promise,
        B: Run,
        W: Watcher,
    >(
        &mut self,
        rt: &R,
        log: &mut Log,
        store: &ProcStore<P, B>,
        settings: &Settings,
        now: u64,
        watcher: &mut W,
    ) -> Result<bool, RunError>
        requires moment { now < MOMENTS_END }
        requires up { IsUp P.promised store.now (station_of settings.now) W.may (W.past watcher.old) self.old.bot
            self.old.others.mail.account.told }
        ensures up { OnOk result
            (IsUp P.promised store.now (station_of settings.now) W.may (W.past watcher.new) self.new.bot
            self.new.others.mail.account.told) }
    {
        for round in 0..MAX_COMMANDS {
            if !self.obey_each(rt, log, store, settings, now, watcher)? {
                return Ok(round > 0);
            }
            if self.until.is_some() || self.bot.is_down() {
                return Ok(true);
            }
        }
        Ok(true)
    }

    // Executes one command of each admin. Returns whether there was one.
    fn obey_each<R: AllocGlobal + Net + Files<File = File> + Print, P: Promise, B: Run, W: Watcher>(
        &mut self,
        rt: &R,
        log: &mut Log,
        store: &ProcStore<P, B>,
        settings: &Settings,
        now: u64,
        watcher: &mut W,
    ) -> Result<bool, RunError>
        requires moment { now < MOMENTS_END }
        requires up { IsUp P.promised store.now (station_of settings.now) W.may (W.past watcher.old) self.old.bot
            self.old.others.mail.account.told }
        ensures up { OnOk result
            (IsUp P.promised store.now (station_of settings.now) W.may (W.past watcher.new) self.new.bot
            self.new.others.mail.account.told) }
    {
        let is_leaf = self.others.mail.links.is_leaf();
        let mut obeyed = false;
        for place in 0..self.admins.len() {
            if let Some(command) = self.admins.take_command(rt.alloc(), place)? {
                // At a leaf, changes are answered later, since the hub accepts them.
                self.others.asks.asker = if is_leaf { Some(command.number) } else { None };
                self.obeyed = Some(command.number);
                let line = command.line.as_slice();
                let answer = self.obey(rt, log, store, settings, line, now, watcher)?;
                self.others.asks.asker = None;
                if self.obeyed.is_some() {
                    self.admins.tell(command.number, answer.as_slice())?;
                }
                obeyed = true;
            }
        }
        Ok(obeyed)
    }

    // Executes the command in a line, and returns the answer.
    fn obey<R: AllocGlobal + Net + Files<File = File> + Print, P: Promise, B: Run, W: Watcher>(
        &mut self,
        rt: &R,
        log: &mut Log,
        store: &ProcStore<P, B>,
        settings: &Settings,
        line: &[u8],
        now: u64,
        watcher: &mut W,
    ) -> Result<Vec<u8>, RunError>
        requires moment { now < MOMENTS_END }
        requires up { IsUp P.promised store.now (station_of settings.now) W.may (W.past watcher.old) self.old.bot
            self.old.others.mail.account.told }
        ensures up { OnOk result
            (IsUp P.promised store.now (station_of settings.now) W.may (W.past watcher.new) self.new.bot
            self.new.others.mail.account.told) }
    {
        let alloc = rt.alloc();
        let command = match AdminCommand::read(alloc, line) {
            Ok(command) => command,
            Err(Failure::Refused(advice)) => return Ok(advice_answer(alloc, advice)?),
            Err(Failure::NoMemory) => return Err(RunError::NoMemory),
        };
        log_command(log, &command, line, now);
        let hands_over = self.others.hands_over();
        let links = &self.others.mail.links;
        if let Some(refusal) = refusal(alloc, links, &self.space, hands_over, &command)? {
            return Ok(refusal);
        }
        self.execute(rt, log, store, settings, command, now, watcher)
    }

    // Executes a command that is not refused, and returns the answer.
    fn execute<R: AllocGlobal + Net + Files<File = File> + Print, P: Promise, B: Run, W: Watcher>(
        &mut self,
        rt: &R,
        log: &mut Log,
        store: &ProcStore<P, B>,
        settings: &Settings,
        command: AdminCommand,
        now: u64,
        watcher: &mut W,
    ) -> Result<Vec<u8>, RunError>
        requires moment { now < MOMENTS_END }
        requires up { IsUp P.promised store.now (station_of settings.now) W.may (W.past watcher.old) self.old.bot
            self.old.others.mail.account.told }
        ensures up { OnOk result
            (IsUp P.promised store.now (station_of settings.now) W.may (W.past watcher.new) self.new.bot
            self.new.others.mail.account.told) }
    {
        let alloc = rt.alloc();
        match command {
            AdminCommand::Change(change) => {
                self.change(rt, log, store, settings, change, now, watcher)
            }
            AdminCommand::Show => show(alloc, &self.bot, settings),
            AdminCommand::ShowJson => Ok(show_json(alloc, &self.bot, settings)?),
            AdminCommand::Changes(from) => self.changes(alloc, settings, from),
            AdminCommand::Status => self.status(alloc, settings, now),
            AdminCommand::StatusJson => self.status_json(alloc, settings, now),
            AdminCommand::Bind(words) => bind(alloc, &mut self.bot, store, &words, watcher),
            AdminCommand::Unbind(words) => unbind(alloc, &mut self.bot, store, words, watcher),
            AdminCommand::Say(line) => say(alloc, &mut self.uplink, line),
            AdminCommand::Compact => self.compact_now(rt, log, store, settings, now, watcher),
            AdminCommand::Jump => jump(rt, log, &mut self.uplink, settings, now),
            AdminCommand::Renew(leaf) => {
                let links = &mut self.others.mail.links;
                renew(rt, log, &self.folder, links, settings, leaf, now)
            }
            AdminCommand::Trust => trust(rt, &self.folder, &mut self.others.mail.links, settings),
            AdminCommand::HandOver(leaf) => self.begin_hand_over(rt, log, settings, leaf, now),
            AdminCommand::Reload => {
                let (bot, uplink) = (&mut self.bot, &mut self.uplink);
                let reloading = &mut self.reloading;
                reload(
                    rt, log, bot, uplink, reloading, store, settings, now, watcher,
                )
            }
            AdminCommand::Reopen => reopen(rt, log, settings, now),
            AdminCommand::Backup(folder) => {
                backup(rt, &self.folder, self.bot.version(), &folder)
            }
            AdminCommand::Join(words) => join(alloc, &mut self.uplink, words, settings, now),
            AdminCommand::Part(channel) => part(alloc, &mut self.uplink, &channel),
            AdminCommand::Unignore(key) => Ok(self.floods.forgive(alloc, &key, now)?),
            AdminCommand::Die(text) => {
                let until = &mut self.until;
                die(rt, log, &mut self.uplink, until, settings, &text, now)
            }
        }
    }
}

// Logs the line of a command, unless it only asks for the bot's state. Of `say`, whose line may hold a password, and of
// `+chan` with a key, the first word alone is logged.
fn log_command(log: &mut Log, command: &AdminCommand, line: &[u8], now: u64) {
    match command {
        AdminCommand::Show
        | AdminCommand::ShowJson
        | AdminCommand::Changes(_)
        | AdminCommand::Status
        | AdminCommand::StatusJson => {}
        AdminCommand::Say(_)
        | AdminCommand::Join(
            ChannelWords {
                channel: _,
                key: Some(_),
            },
        ) => {
            let (word, _rest) = first_word(line);
            log.note(now, &LogEntry::Asked(word));
        }
        AdminCommand::Change(_)
        | AdminCommand::Bind(_)
        | AdminCommand::Unbind(_)
        | AdminCommand::Compact
        | AdminCommand::Jump
        | AdminCommand::Renew(_)
        | AdminCommand::Trust
        | AdminCommand::HandOver(_)
        | AdminCommand::Reload
        | AdminCommand::Reopen
        | AdminCommand::Backup(_)
        | AdminCommand::Join(
            ChannelWords {
                channel: _,
                key: None,
            },
        )
        | AdminCommand::Part(_)
        | AdminCommand::Unignore(_)
        | AdminCommand::Die(_) => log.note(now, &LogEntry::Asked(line)),
    }
}
