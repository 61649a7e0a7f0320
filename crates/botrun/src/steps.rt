// The steps of a bot in one turn of its process.
ghost use Rattle.std.specs.Prelude.{◌≡◌, ◌<◌, IfOk, OnOk, is_some, true};
ghost use Rattle.bytetext.specs.declared.moment.TheConstants.{MOMENTS_END};
ghost use Rattle.serverlink.specs.Tagging.{untagged_in};
ghost use Rattle.serverlink.specs.Talks.{talk_in};
ghost use Rattle.upkeep.specs.Flooding.{begun_with, heard_lines};
ghost use Rattle.botrun.specs.Trusting.{trusts};
ghost use Rattle.watching.specs.Acts.{sent_by};
ghost use Rattle.watching.specs.Following.{IsEven, IsUp, LetsSend, after_sends};
ghost use Rattle.turns.specs.Queues.{packets_in};
ghost use Rattle.turns.specs.Turns.{AllGood};
ghost use Rattle.turns.specs.declared.turn.TurnEnd.TheVariants.{Done};
ghost use Rattle.botrun.specs.Taking.{GoesOn, Hears, TakesChanges, TellsNothing};
ghost use Rattle.botrun.specs.Watched.{station_of};

use crate::looking::look_at_all;
use crate::outcome::outcome_of;
use crate::passing::pass;
use crate::process::Process;
use crate::quiet::tells_nothing;
use crate::trusting::sift;
use administrators::{ChangeOutcome, LogEntry};
use botcore::Bot;
use bytetext::NoMemory;
use disks::FileDisk;
use net::Log;
use procs::{ProcStore, Promise, Run};
use settings::Settings;
use sharelink::MAX_ASKS;
use turns::{Heard, Told, take_turn, watched_packets};
use upkeep::{RunError, taken_requests};
use userfile::Change;
use watching::Watcher;

// What the steps of a turn leave to do.
#[derive(Clone, Copy)]
pub(crate) struct Hearing {
    // Whether there may be more at once: another bot sent something, or a hello got due.
    pub(crate) is_busy: bool,
    // Whether the steps said nothing, and no change waits.
    pub(crate) is_quiet: bool,
}

impl Process {
    // Has the bot take what its server and the other bots sent, in one turn. Then the connection to the server looks at
    // the server's lines, before the bot's lines are queued. Then the bot takes all that waits, and the journal is
    // rewritten if that is due. If there is no room, the bot takes nothing of the other bots; procs may still change
    // records, so the journal is lent the space that is set aside. A hub that is being handed over takes no request. In a
    // `short` turn whose steps say nothing, nothing follows that first turn of the bot.
    pub(crate) fn hear<R: AllocGlobal, P: Promise, B: Run, W: Watcher>(
        &mut self,
        rt: &R,
        log: &mut Log,
        store: &ProcStore<P, B>,
        settings: &Settings,
        connected: bool,
        short: bool,
        now: u64,
        watcher: &mut W,
    ) -> Result<Hearing, RunError>
        requires moment { now < MOMENTS_END }
        requires even { IsEven P.promised store.now (station_of settings.now) W.may (W.past watcher.old) self.old.bot
            self.old.others.mail.account.told }
        // The first turn takes the lines that pass the sieve, of those that were read from the server, without their tags,
        // a line for each ignore that begins, and packets that wait: none if there is no room, and no request while the hub is being handed over. The bot goes
        // on from it by turns in which it hears nothing.
        ensures hears { OnOk result (Hears P.promised store.now self.old.bot self.old.lines
            (heard_lines (trusts self.old.bot) now (begun_with settings.now.floods connected self.old.floods)
            (untagged_in self.old.uplink.session)) self.old.space.room (is_some self.old.others.handing)
            self.old.others.mail.links self.new.bot self.new.lines) }
        ensures up { OnOk result
            (IsUp P.promised store.now (station_of settings.now) W.may (W.past watcher.new) self.new.bot
            self.new.others.mail.account.told) }
    {
        let alloc = rt.alloc();
        let heard = self.uplink.take_heard(alloc);
        let sent = heard.as_slice();
        let (floods, bot) = (&mut self.floods, &self.bot);
        let bytes = sift(alloc, log, floods, bot, settings, connected, sent, now)?;
        let hands_over = self.others.hands_over();
        let waiting = watched_packets(alloc, &self.bot, store, &mut self.others, watcher)?;
        let said = !waiting.is_empty();
        let granted = taken_requests(waiting, hands_over);
        let packets = self.space.admit(alloc, granted);
        let pumps = self.others.is_pump_due(self.bot.ask_count(), now);
        note_nick(&mut self.nick, &self.bot, connected)?;
        let changes = Vec::new(alloc);
        let heard = Heard {
            connected,
            bytes,
            packets,
            changes,
            now,
            pump: pumps,
            compact: false,
        };
        self.space.lend_if_full();
        let told = take_turn(alloc, &mut self.bot, store, &mut self.lines, heard, watcher);
        let is_quiet = self.is_quiet(settings, &told);
        if short && is_quiet {
            self.space.look_if_full(log, now);
            return Ok(Hearing {
                is_busy: said,
                is_quiet,
            });
        }
        self.follow(rt, log, store, settings, &told, pumps, now, watcher)?;
        self.space.look_if_full(log, now);
        // A proc may have had a leaf ask for a change. If this turn pumped and more is due at once, the link took
        // bytes, so the next turn comes at once too.
        let is_busy = said || (!pumps && self.others.is_pump_due(self.bot.ask_count(), now));
        Ok(Hearing { is_busy, is_quiet })
    }

    // Goes on from the first turn of `hear`, which `told` this: the connection to the server looks at its lines, and what
    // the steps say is passed on. Then the bot takes all that waits, and the journal is rewritten if that is due. `pumped`
    // says whether that first turn pumped.
    fn follow<R: AllocGlobal, P: Promise, B: Run, W: Watcher>(
        &mut self,
        rt: &R,
        log: &mut Log,
        store: &ProcStore<P, B>,
        settings: &Settings,
        told: &Told,
        pumped: bool,
        now: u64,
        watcher: &mut W,
    ) -> Result<(), RunError>
        requires moment { now < MOMENTS_END }
        requires good { AllGood told.now.reports }
        requires lets { LetsSend W.may (W.past watcher.old) (packets_in told.now.reports) }
        requires told { self.old.others.mail.account.told ≡ sent_by (W.past watcher.old) }
        // Once the packets of all steps are queued, the bot may go on.
        requires up { told.now.end ≡ Done → IsUp P.promised store.now (station_of settings.now) W.may
            (after_sends (packets_in told.now.reports) (W.past watcher.old)) self.old.bot
            (sent_by (after_sends (packets_in told.now.reports) (W.past watcher.old))) }
        ensures goes_on { OnOk result (GoesOn P.promised store.now self.old.bot self.old.lines self.new.bot self.new.lines) }
        ensures up { OnOk result
            (IsUp P.promised store.now (station_of settings.now) W.may (W.past watcher.new) self.new.bot
            self.new.others.mail.account.told) }
    {
        let lines = told.lines.as_slice();
        let nick = self.nick.as_slice();
        look_at_all(rt, log, &mut self.uplink, settings, nick, lines, now)?;
        let (others, admins, uplink) = (&mut self.others, &mut self.admins, &mut self.uplink);
        pass(
            rt, log, others, admins, uplink, settings, told, pumped, now, watcher,
        )?;
        let more = is_settled(outcome_of(told.reports.as_slice())) || !pumped;
        self.pump(rt, log, store, settings, more, now, watcher)?;
        self.compact_if_due(rt, log, store, settings, now, watcher)?;
        Ok(())
    }

    // Whether what was told of a turn leaves nothing to do: no step says anything, no change waits, and the lines are what
    // people say, which means nothing to the connection, and which is not logged.
    fn is_quiet(&self, settings: &Settings, told: &Told) -> bool
        ensures { result ≡ true → TellsNothing told.now }
    {
        !settings.log_lines && self.bot.ask_count() == 0 && tells_nothing(told)
    }

    // Unless the bot is a leaf, or a hub that accepts no change, pumps until nothing waits, or the link refuses. `more` says
    // whether a change may wait that the turn before did not take.
    fn pump<R: AllocGlobal, P: Promise, B: Run, W: Watcher>(
        &mut self,
        rt: &R,
        log: &mut Log,
        store: &ProcStore<P, B>,
        settings: &Settings,
        more: bool,
        now: u64,
        watcher: &mut W,
    ) -> Result<(), RunError>
        requires up { IsUp P.promised store.now (station_of settings.now) W.may (W.past watcher.old) self.old.bot
            self.old.others.mail.account.told }
        ensures goes_on { OnOk result (GoesOn P.promised store.now self.old.bot self.old.lines self.new.bot self.new.lines) }
        ensures up { OnOk result
            (IsUp P.promised store.now (station_of settings.now) W.may (W.past watcher.new) self.new.bot
            self.new.others.mail.account.told) }
    {
        let most = if self.others.mail.links.is_leaf() || self.others.accepts_none() {
            0
        } else {
            MAX_ASKS
        };
        let mut more = more;
        for _ask in 0..most {
            if !more || self.bot.ask_count() == 0 {
                return Ok(());
            }
            let changes = Vec::new(rt.alloc());
            let outcome = self.take(rt, log, store, settings, changes, false, now, watcher)?;
            more = is_settled(outcome);
        }
        Ok(())
    }

    // Has the journal rewritten if that is due and there is room.
    #[tactic(auto, using(crate::proofs::TakingLemmas::stays))]
    fn compact_if_due<R: AllocGlobal, P: Promise, B: Run, W: Watcher>(
        &mut self,
        rt: &R,
        log: &mut Log,
        store: &ProcStore<P, B>,
        settings: &Settings,
        now: u64,
        watcher: &mut W,
    ) -> Result<(), RunError>
        requires up { IsUp P.promised store.now (station_of settings.now) W.may (W.past watcher.old) self.old.bot
            self.old.others.mail.account.told }
        ensures goes_on { OnOk result (GoesOn P.promised store.now self.old.bot self.old.lines self.new.bot self.new.lines) }
        ensures up { OnOk result
            (IsUp P.promised store.now (station_of settings.now) W.may (W.past watcher.new) self.new.bot
            self.new.others.mail.account.told) }
    {
        self.bases.see(self.bot.version(), now);
        if !self.space.has_room() || !self.bases.is_due(now) {
            return Ok(());
        }
        self.compact(rt, log, store, settings, now, watcher)?;
        Ok(())
    }

    // Has the journal rewritten, for which it is lent the space that is set aside.
    pub(crate) fn compact<R: AllocGlobal, P: Promise, B: Run, W: Watcher>(
        &mut self,
        rt: &R,
        log: &mut Log,
        store: &ProcStore<P, B>,
        settings: &Settings,
        now: u64,
        watcher: &mut W,
    ) -> Result<ChangeOutcome, RunError>
        requires up { IsUp P.promised store.now (station_of settings.now) W.may (W.past watcher.old) self.old.bot
            self.old.others.mail.account.told }
        ensures goes_on { IfOk result (λ _. GoesOn P.promised store.now self.old.bot self.old.lines self.new.bot self.new.lines) }
        ensures up { OnOk result
            (IsUp P.promised store.now (station_of settings.now) W.may (W.past watcher.new) self.new.bot
            self.new.others.mail.account.told) }
    {
        self.bases.write(self.bot.version());
        self.space.lend();
        let changes = Vec::new(rt.alloc());
        let outcome = self.take(rt, log, store, settings, changes, true, now, watcher)?;
        self.space.look(log, now);
        log.note(now, &LogEntry::Compacted);
        Ok(outcome)
    }

    // Has the bot take `changes` in a turn in which it hears nothing. The turn pumps, or has the journal rewritten if
    // it `compacts`. Queues the bot's lines for the server. Returns what the turn says about changes.
    pub(crate) fn take<R: AllocGlobal, P: Promise, B: Run, W: Watcher>(
        &mut self,
        rt: &R,
        log: &mut Log,
        store: &ProcStore<P, B>,
        settings: &Settings,
        changes: Vec<Change>,
        compacts: bool,
        now: u64,
        watcher: &mut W,
    ) -> Result<ChangeOutcome, RunError>
        requires up { IsUp P.promised store.now (station_of settings.now) W.may (W.past watcher.old) self.old.bot
            self.old.others.mail.account.told }
        // The bot takes one turn in which these changes alone are asked for, and this is what the turn says about them.
        // Only its lines are queued for the server.
        ensures turn { IfOk result (λ outcome. TakesChanges P.promised store.now self.old.bot self.old.lines
            changes.items compacts self.new.bot self.new.lines outcome
            (talk_in self.old.uplink.session) (talk_in self.new.uplink.session)) }
        ensures up { OnOk result
            (IsUp P.promised store.now (station_of settings.now) W.may (W.past watcher.new) self.new.bot
            self.new.others.mail.account.told) }
    {
        let alloc = rt.alloc();
        let bytes = Vec::new(alloc);
        let packets = Vec::new(alloc);
        let heard = Heard {
            connected: false,
            bytes,
            packets,
            changes,
            now,
            pump: !compacts,
            compact: compacts,
        };
        let told = take_turn(alloc, &mut self.bot, store, &mut self.lines, heard, watcher);
        let (others, admins, uplink) = (&mut self.others, &mut self.admins, &mut self.uplink);
        let pumped = !compacts;
        pass(
            rt, log, others, admins, uplink, settings, &told, pumped, now, watcher,
        )?;
        Ok(outcome_of(told.reports.as_slice()))
    }
}

// Notes the nick of `bot` before the lines of a turn. On a new connection it is that of the configuration.
fn note_nick(nick: &mut Vec<u8>, bot: &Bot<FileDisk>, connected: bool) -> Result<(), NoMemory> {
    nick.clear();
    let before = if connected {
        bot.config().nick.as_bytes()
    } else {
        bot.own_nick()
    };
    nick.extend_from_slice(before)?;
    Ok(())
}

// Whether a change was accepted or refused, so that another may wait.
fn is_settled(outcome: ChangeOutcome) -> bool {
    match outcome {
        ChangeOutcome::Nothing | ChangeOutcome::Barred(_) => false,
        ChangeOutcome::Accepted(_) | ChangeOutcome::Refused(_) => true,
    }
}
