// The lines of the log that say who asked for a change on IRC, and what a hub accepted.
use crate::log_entry::LogEntry;
use net::Log;
use procs::{Action, CallKind, MadeCall, MadeCalls};
use sharelink::Outgoing;
use sharewire::Packet;

/// Who asked a proc for a change: the event's first three arguments, if they name a person.
#[derive(Clone, Copy)]
pub struct IrcCaller<'a> {
    /// The nick.
    pub nick: &'a [u8],
    /// `user@host`.
    pub host: &'a [u8],
    /// The handle, or `*` for a person whom the userfile doesn't know.
    pub handle: &'a [u8],
}

impl IrcCaller<'_> {
    // Whether this is the person, who is written as `nick!user@host`.
    pub(crate) fn is_person(&self, person: &[u8]) -> bool {
        let Some([b'!', host @ ..]) = person.strip_prefix(self.nick) else {
            return false;
        };
        host == self.host
    }
}

/// Logs the changes that the `calls` of a step asked for, each with who asked, and the change that a hub accepted in it, with
/// the bot that asked: that of the step's `packets`. The step is made at second `now`, which counts from 1970-01-01 UTC.
pub fn log_changes(log: &mut Log, calls: &MadeCalls, packets: &[Outgoing], now: u64) {
    for call in calls.as_slice() {
        log_call(log, call, now);
    }
    log_accepted(log, packets, now);
}

// Logs the changes that a call asks for.
fn log_call(log: &mut Log, call: &MadeCall, now: u64) {
    for action in call.reply.actions.as_slice() {
        if let Action::Ask(change) = action {
            match requester_of(call) {
                Some(requester) => log.note(now, &LogEntry::AskedOnIrc(requester, change)),
                None => log.note(now, &LogEntry::AskedByProc(call.proc.as_bytes(), change)),
            }
        }
    }
}

// Logs the accepted change that goes to a leaf among these packets. Each leaf gets the same one, so the first is enough.
fn log_accepted(log: &mut Log, packets: &[Outgoing], now: u64) {
    for outgoing in packets {
        if let Packet::Change {
            number,
            origin,
            request: _,
            change,
        } = &outgoing.packet
        {
            log.note(now, &LogEntry::Change(*number, *origin, change));
            return;
        }
    }
}

// Returns who caused a call, if a person did.
fn requester_of(call: &MadeCall) -> Option<IrcCaller<'_>> {
    if !names_person(call.call.kind) {
        return None;
    }
    match call.call.args.as_slice() {
        [nick, host, handle, ..] => Some(IrcCaller {
            nick: nick.as_bytes(),
            host: host.as_bytes(),
            handle: handle.as_bytes(),
        }),
        [] | [_] | [_, _] => None,
    }
}

// Whether the first three arguments of a call of this kind are a nick, `user@host` and a handle.
fn names_person(kind: CallKind) -> bool {
    match kind {
        CallKind::Msg
        | CallKind::Msgm
        | CallKind::Pub
        | CallKind::Pubm
        | CallKind::Notc
        | CallKind::Join
        | CallKind::Part
        | CallKind::Sign
        | CallKind::Kick
        | CallKind::Nick
        | CallKind::Mode
        | CallKind::Topc
        | CallKind::Account => true,
        CallKind::Raw | CallKind::Bot | CallKind::Time | CallKind::Cron | CallKind::Timer => false,
    }
}
