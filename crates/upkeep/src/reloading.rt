// The configuration file and the log of a bot that reads its settings again.
ghost use Rattle.std.specs.Prelude.{◌≡◌, ◌<◌, length};

use crate::ending::RunError;
use crate::fixed_words::same_text;
use crate::log_opening::log_of;
use bytetext::NoMemory;
use net::{Log, LogForm};
use settings::Settings;
use std::alloc::Global;
use std::fs::File;
use std::net::Net;
use std::rt::Files;

/// The configuration file, and the settings that count from the next turn on, if it was read again in this one.
pub struct Reloading {
    /// The file's name.
    pub file: String,
    /// The settings that count from the next turn on.
    pub next: Option<Settings>,
}

// By hand, so that this is proved once.
impl Drop for Reloading {
    fn drop(self) {
        let Reloading { file: _, next: _ } = self;
    }
}

impl Reloading {
    ghost use Rattle.std.specs.Prelude.{◌≡◌, ◌<◌, ◌⊎◌, None, Some, length};

    /// The file was read just now.
    ///
    /// # Errors
    /// `NoMemory` if an allocation fails.
    pub fn new(alloc: Global, file: &str) -> Result<Reloading, NoMemory> {
        Ok(Reloading {
            file: String::from_str(alloc, file)?,
            next: None,
        })
    }

    /// Between two turns: what was read counts from now on.
    pub fn settle(&mut self, settings: &mut Settings)
        // All or nothing.
        ensures whole { (settings.new ≡ settings.old) ⊎ (self.old.next ≡ Some settings.new) }
        ensures station { settings.new.station ≡ settings.old.station }
        ensures some { 0 < length settings.old.servers → 0 < length settings.new.servers }
    {
        if let Some(next) = self.next.take() {
            if next.station == settings.station && !next.servers.is_empty() {
                *settings = next;
            }
        }
    }
}

/// Opens the log of the `new` settings, if its lines go elsewhere than those of the `old`.
///
/// # Errors
/// Those of [`log_of`].
pub fn other_log<R: AllocGlobal + Net + Files<File = File>>(
    rt: &R,
    old: &Settings,
    new: &Settings,
) -> Result<Option<Log>, RunError> {
    if same_text(&old.log_file, &new.log_file) {
        return Ok(None);
    }
    Ok(Some(log_of(rt, new)?))
}

/// Writes what waits in the old log, and goes on in the other one, if there is one.
pub fn use_log<R: Print>(rt: &R, log: &mut Log, other: Option<Log>, new: &Settings) {
    if let Some(other) = other {
        log.flush(rt);
        *log = other;
    }
    log.set_form(if new.log_json {
        LogForm::Json
    } else {
        LogForm::Text
    });
}
