// What the bot sends to its server and to the other bots, and answers.
ghost use Rattle.std.specs.Prelude.{◌≡◌, Bool, OnOk};
ghost use Rattle.serverlink.specs.Talks.{talk_in};
ghost use Rattle.watching.specs.Acts.{sent_by};
ghost use Rattle.watching.specs.Following.{LetsSend, after_sends};
ghost use Rattle.turns.specs.Queues.{packets_in};
ghost use Rattle.turns.specs.Turns.{AllGood};
ghost use Rattle.turns.specs.declared.turn.TurnEnd.TheVariants.{Done};
ghost use Rattle.botrun.specs.Askers.{turn_askers};
ghost use Rattle.botrun.specs.Passing.{hub_takes, told_all, told_of};

use crate::others::Others;
use crate::outcome::told_by;
use crate::proc_asks::refused_in;
use administrators::{Admins, HubTakes, LogEntry, answer_oldest, log_changes, notice_callers};
use botcore::{Faults, Report};
use bytetext::NoMemory;
use net::Log;
use peers::Links;
use serverlink::IrcConnection;
use settings::Settings;
use std::alloc::Global;
use turns::{Told, TurnEnd};
use upkeep::RunError;
use watching::Watcher;

// Passes on what each step of a turn says, in order: its lines to the server, its packets to the other bots, a notice to
// whoever asked for a change that waits, and its answer to whoever asked for the change that it accepted or refused.
// `pumped` says whether the last step is a pump.
pub(crate) fn pass<R: AllocGlobal, W: Watcher>(
    rt: &R,
    log: &mut Log,
    others: &mut Others,
    admins: &mut Admins,
    uplink: &mut IrcConnection,
    settings: &Settings,
    told: &Told,
    pumped: bool,
    now: u64,
    watcher: &mut W,
) -> Result<(), RunError>
    requires good { AllGood told.now.reports }
    requires lets { LetsSend W.may (W.past watcher.old) (packets_in told.now.reports) }
    requires told { others.old.mail.account.told ≡ sent_by (W.past watcher.old) }
    // All packets are queued, in order, each once, and nothing else.
    ensures past { OnOk result (W.past watcher.new ≡ after_sends (packets_in told.now.reports) (W.past watcher.old)) }
    ensures told { OnOk result (others.new.mail.account.told ≡ sent_by (W.past watcher.new)) }
    ensures server { OnOk result (talk_in uplink.new.session ≡ told_of told.now.reports (talk_in uplink.old.session)) }
    // At a leaf as at a hub, the reports determine who still waits.
    ensures asks { OnOk result ((leaf : Bool) × (others.new.asks.askers.items
        ≡ turn_askers leaf pumped others.old.asks.asker others.old.asks.askers.items told.now.reports)) }
    ensures done { OnOk result (told.now.end ≡ Done) }
{
    let is_leaf = others.mail.links.is_leaf();
    // Whether a change that is asked for is decided on later.
    let waits = is_leaf || others.accepts_none();
    let takes = hub_takes(&others.mail.links);
    let mut rest = told.reports.as_slice();
    while let Some((report, behind)) = rest.split_first() {
        pass_lines(log, uplink, settings, report, now)?;
        log_changes(log, &report.calls, report.packets.as_slice(), now);
        others.pass(rt, log, report, now, watcher)?;
        if waits {
            notice_waiting(rt.alloc(), uplink, report, takes)?;
        }
        let outcome = told_by(report);
        let settles = is_leaf || (pumped && behind.is_empty());
        let asks = &mut others.asks;
        answer_oldest(
            rt, log, asks, admins, uplink, is_leaf, outcome, settles, now,
        )?;
        rest = behind;
    }
    match told.end {
        TurnEnd::Done => Ok(()),
        TurnEnd::NoMemory => Err(RunError::NoMemory),
    }
}

// Which changes the hub takes from this bot. A leaf that was never linked doesn't know yet: it asks once it is linked.
fn hub_takes(links: &Links) -> HubTakes
    ensures { result ≡ hub_takes links.now }
{
    if links.is_new_leaf() || links.may_ask_nameless() {
        HubTakes::All
    } else if links.may_ask() {
        HubTakes::OfPersons
    } else {
        HubTakes::Nothing
    }
}

// Queues a notice to each person whose words made a proc ask for a change in this step: it waits for the hub, which
// `takes` these changes from this bot. If the link did not take all changes, it is unknown which ones wait, and nobody
// gets a notice.
fn notice_waiting(
    alloc: Global,
    uplink: &mut IrcConnection,
    report: &Report,
    takes: HubTakes,
) -> Result<(), NoMemory>
    ensures { uplink.new.session ≡ uplink.old.session }
{
    if refused_in(&report.faults) > 0 {
        return Ok(());
    }
    notice_callers(alloc, uplink, &report.calls, takes)
}

// Queues the lines of a step for the server, in order, and logs what the step left out.
pub(crate) fn pass_lines(
    log: &mut Log,
    uplink: &mut IrcConnection,
    settings: &Settings,
    report: &Report,
    now: u64,
) -> Result<(), NoMemory>
    ensures { OnOk result (talk_in uplink.new.session ≡ told_all report.now.lines (talk_in uplink.old.session)) }
{
    for line in report.lines.as_slice() {
        uplink.tell(log, settings, line.as_bytes(), now)?;
    }
    log_faults(log, &report.faults, now);
    Ok(())
}

// Logs what a step left out.
fn log_faults(log: &mut Log, faults: &Faults, now: u64) {
    for fault in faults.as_slice() {
        log.note(
            now,
            &LogEntry::LeftOut(fault.word(), fault.proc().unwrap_or(b"")),
        );
    }
}
