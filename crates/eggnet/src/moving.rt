// A leaf whose hub is the heir of its net: it begins again, as a new leaf of the heir's net.
use crate::configuration::told;
use crate::lost_hub::{digits, refused};
use administrators::ChangeWords;
use botrun::RunError;
use net::Log;
use promotion::Leaving;
use settings::Settings;
use std::fmt::Display;
use std::fs::File;
use std::net::Net;
use std::rt::Files;
use std::time::{Clock, Duration};
use std::{fmt, str, thread};
use upkeep::log_of;
use userfile::Change;

// A leaf that moved less than this many seconds ago waits before it moves again.
const APART: u64 = 60;

/// What the log says of a move.
#[derive(Drop)]
enum MoveEntry<'a> {
    /// Nobody knows whether the hub of the net before accepted this.
    NotHeard(&'a Change),
    /// The journal is put aside, with the number of the net in its name.
    Aside(&'a str),
    /// The leaf waits for this many seconds, since it has just moved.
    Waits(u64),
}

impl Display for MoveEntry<'_> {
    fn fmt<W: fmt::Write>(&self, f: &mut fmt::Formatter<W>) -> fmt::Result {
        match *self {
            MoveEntry::NotHeard(change) => {
                f.write_str("asked and not heard: ")?;
                ChangeWords(change).fmt(f)
            }
            MoveEntry::Aside(net) => {
                f.write_str("moving: the journal is in journal.")?;
                f.write_str(net)?;
                f.write_str(" now, and this leaf begins as a new leaf of the hub's net")
            }
            MoveEntry::Waits(seconds) => {
                f.write_str("moving again within a minute: this leaf waits for ")?;
                seconds.fmt(f)?;
                f.write_str(" seconds")
            }
        }
    }
}

/// Has the stopped leaf of `settings` leave its net: logs what it had asked and not heard, and puts its journal aside, so
/// that its next run is that of a new leaf. `moved` is the second of the monotonic clock at which this process last did so;
/// within a minute after that it waits first. A crash in the midst leaves the journal whole, under its own name or aside.
///
/// # Errors
/// The exit status, once standard error says why: the folder can't be used, holds no leaf of a net, or holds a journal
/// that was put aside before; the log can't be opened; or memory runs out.
pub fn move_leaf<R: Print + Eprint + AllocGlobal + Net + Clock + Files<File = File>>(
    rt: &R,
    file: &str,
    settings: &Settings,
    moved: &mut Option<u64>,
) -> Result<(), u8> {
    let mut log = match log_of(rt, settings) {
        Ok(log) => log,
        Err(error) => return Err(told(rt, file, settings, error)),
    };
    let now = match pause(rt, &mut log, moved) {
        Ok(now) => now,
        Err(error) => return Err(told(rt, file, settings, error)),
    };
    let folder = str::from_utf8(settings.folder.as_bytes()).unwrap_or("");
    let leaving = match Leaving::take(rt, folder) {
        Ok(leaving) => leaving,
        Err(error) => return Err(refused(rt, folder, folder, error)),
    };
    // Said before it is moved: after a crash in between, the next start says it again.
    note_asked(&mut log, &leaving, now);
    log.flush(rt);
    if let Err(error) = leaving.start_over(rt) {
        return Err(refused(rt, folder, folder, error));
    }
    log.note(now, &MoveEntry::Aside(digits(leaving.net.as_bytes())));
    log.flush(rt);
    Ok(())
}

// Logs what the leaf had asked and not heard.
fn note_asked(log: &mut Log, leaving: &Leaving, now: u64) {
    if let Some(leaf) = &leaving.leaf {
        for request in leaf.asked() {
            log.note(now, &MoveEntry::NotHeard(&request.change));
        }
    }
}

// Waits if the leaf has just moved, and notes that it moves now. Returns the second, from 1970-01-01 UTC.
fn pause<R: Clock + Print>(
    rt: &R,
    log: &mut Log,
    moved: &mut Option<u64>,
) -> Result<u64, RunError> {
    let now = rt.since_1970()?.as_secs();
    let steady = rt.monotonic()?.as_secs();
    if let Some(before) = *moved {
        let passed = steady.saturating_sub(before);
        if passed < APART {
            log.note(now, &MoveEntry::Waits(APART - passed));
            log.flush(rt);
            thread::sleep(rt, Duration::from_secs(APART - passed));
        }
    }
    *moved = Some(rt.monotonic()?.as_secs());
    Ok(rt.since_1970()?.as_secs())
}
