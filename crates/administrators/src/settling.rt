// The answer to whoever asked for the oldest change.
ghost use Rattle.std.specs.Prelude.{◌≡◌, OnOk};
ghost use Rattle.administrators.specs.Askers.{settled};

use crate::admins::Admins;
use crate::answers::change_answer;
use crate::asks::{Asks, Recipient};
use crate::change_outcome::ChangeOutcome;
use crate::log_entry::LogEntry;
use crate::noticing::notice;
use bytetext::NoMemory;
use net::Log;
use serverlink::IrcConnection;

/// Logs the `outcome` of a step at second `now`, which counts from 1970-01-01 UTC: at a leaf, of one that `settles`
/// changes. If it settles changes, and one was accepted or refused, answers whoever asked for the oldest.
///
/// # Errors
/// `NoMemory` if an allocation fails.
pub fn answer_oldest<R: AllocGlobal>(
    rt: &R,
    log: &mut Log,
    asks: &mut Asks,
    admins: &mut Admins,
    uplink: &mut IrcConnection,
    is_leaf: bool,
    outcome: ChangeOutcome,
    settles: bool,
    now: u64,
) -> Result<(), NoMemory>
    ensures asks { OnOk result (asks.new.askers.items ≡ settled settles outcome asks.old.askers.items) }
    ensures asker { OnOk result (asks.new.asker ≡ asks.old.asker) }
    ensures server { uplink.new.session ≡ uplink.old.session }
{
    if !settles {
        if !is_leaf {
            log_outcome(log, outcome, b"", asks.asker.is_some(), now);
        }
        return Ok(());
    }
    match outcome {
        ChangeOutcome::Nothing | ChangeOutcome::Barred(_) => {
            log_outcome(log, outcome, b"", asks.asker.is_some(), now);
            return Ok(());
        }
        ChangeOutcome::Accepted(_) | ChangeOutcome::Refused(_) => {}
    }
    let asker = asks.settle();
    log_outcome(log, outcome, nick_of(&asker), false, now);
    match asker {
        Recipient::Nobody => Ok(()),
        Recipient::Admin(number) => {
            let answer = change_answer(rt.alloc(), outcome)?;
            admins.tell(number, answer.as_slice())
        }
        Recipient::Person(nick) => notice(rt.alloc(), uplink, nick.as_bytes(), outcome),
    }
}

// The nick of who asked, if a person did.
fn nick_of(asker: &Recipient) -> &[u8] {
    match asker {
        Recipient::Person(nick) => nick.as_bytes(),
        Recipient::Nobody | Recipient::Admin(_) => b"",
    }
}

// Logs that a change was accepted or refused, with the `nick` of who asked if it is not empty. `is_obeying` says whether a leaf executes an admin's command: then it does
// not log what its link refuses at once, since the answer to the command says so. A hub logs that too, and so does a bot
// that is alone.
fn log_outcome(log: &mut Log, outcome: ChangeOutcome, nick: &[u8], is_obeying: bool, now: u64) {
    match outcome {
        ChangeOutcome::Nothing => {}
        ChangeOutcome::Barred(fault) => {
            if !is_obeying {
                log.note(now, &LogEntry::NotDone(fault.code(), nick));
            }
        }
        ChangeOutcome::Accepted(number) => log.note(now, &LogEntry::Accepted(number, nick)),
        ChangeOutcome::Refused(fault) => log.note(now, &LogEntry::NotDone(fault.code(), nick)),
    }
}
