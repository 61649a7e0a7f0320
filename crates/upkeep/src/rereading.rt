// What the configuration file says now, and why a running bot does not take it.
ghost use Rattle.std.specs.Prelude.{◌≡◌, ◌<◌, None, IfOk, length};
ghost use Rattle.upkeep.specs.Reloading.{changed_word};

use crate::checking::check;
use crate::ending::RunError;
use crate::fixed_words::changed_word;
use bottimers::Zone;
use bytetext::{Failure, NoMemory};
use procs::{ProcStore, Promise, Run};
use settings::{MAX_FILE, SettingWord, Settings, SettingsFault};
use std::alloc::Global;
use std::fs::File;
use std::rt::Files;
use streams::{Duplex, ReadError, read_up_to};

/// Why a running bot does not take its configuration file, in the order of the checks.
#[derive(Clone, Copy)]
pub enum NoReload {
    /// It was read again in this turn already.
    Twice,
    /// The file can't be read.
    Unreadable,
    /// The file is faulty.
    Fault(SettingsFault),
    /// No bot can run by it, or the process has no memory.
    Run(RunError),
    /// A word can't change while the bot runs.
    Word(SettingWord),
}

impl From<RunError> for NoReload {
    fn from(error: RunError) -> NoReload {
        NoReload::Run(error)
    }
}

impl From<NoMemory> for NoReload {
    fn from(_refused: NoMemory) -> NoReload {
        NoReload::Run(RunError::NoMemory)
    }
}

/// Returns what `file` says, if a bot that runs by `old` can go on by it, with the procs of `store`.
///
/// # Errors
/// Why it cannot: the first of [`NoReload`] that holds.
pub fn settings_in<R: AllocGlobal + Files<File = File>, P: Promise, B: Run>(
    rt: &R,
    store: &ProcStore<P, B>,
    old: &Settings,
    file: &str,
) -> Result<Settings, NoReload>
    ensures some { IfOk result (λ new. 0 < length new.servers) }
    // A word that can't change, and whose lines differ, is refused.
    ensures fixed { IfOk result (λ new. changed_word old.now new ≡ None) }
{
    let new = read_settings(rt, file)?;
    check(rt.alloc(), store, &new)?;
    if let Some(word) = changed_word(old, &new) {
        return Err(NoReload::Word(word));
    }
    if !is_same_zone(rt.alloc(), &old.zone, &new.zone)? {
        return Err(NoReload::Word(SettingWord::Zone));
    }
    Ok(new)
}

// Returns what `file` says.
fn read_settings<R: AllocGlobal + Files<File = File>>(
    rt: &R,
    file: &str,
) -> Result<Settings, NoReload> {
    let bytes = match file_bytes(rt, file) {
        Ok(bytes) => bytes,
        Err(ReadError::Fault) => return Err(NoReload::Unreadable),
        Err(ReadError::NoMemory) => return Err(NoReload::Run(RunError::NoMemory)),
    };
    match Settings::read(rt.alloc(), bytes.as_slice()) {
        Ok(settings) => Ok(settings),
        Err(Failure::Refused(fault)) => Err(NoReload::Fault(fault)),
        Err(Failure::NoMemory) => Err(NoReload::Run(RunError::NoMemory)),
    }
}

/// Returns the bytes of a configuration file, at most one more than it may have.
///
/// # Errors
/// `Fault` if the file can't be opened or read; `NoMemory` if an allocation fails.
pub fn file_bytes<R: AllocGlobal + Files<File = File>>(
    rt: &R,
    file: &str,
) -> Result<Vec<u8>, ReadError> {
    let Ok(opened) = File::open(rt, file) else {
        return Err(ReadError::Fault);
    };
    let mut stream = Duplex::new(opened, Vec::new(rt.alloc()));
    read_up_to(rt.alloc(), &mut stream, MAX_FILE + 1)
}

// Whether two zones have the same rule, as both are shown.
fn is_same_zone(alloc: Global, old: &Zone, new: &Zone) -> Result<bool, NoMemory> {
    let old = format!(in alloc; "{:?}", *old)?;
    let new = format!(in alloc; "{:?}", *new)?;
    Ok(old.as_str() == new.as_str())
}

/// Returns the answer to an admin whose reload of `file` is refused. Without memory the process ends.
///
/// # Errors
/// `NoMemory` if an allocation fails, or has failed before.
pub fn reload_answer(alloc: Global, file: &str, why: NoReload) -> Result<Vec<u8>, RunError> {
    let line = match why {
        NoReload::Twice => format!(in alloc;
            "refused reload: the file was read just now: say it again\n"
        )?,
        NoReload::Unreadable => {
            format!(in alloc;
                "refused {file} can't be read: give this user the right to read it\n"
            )?
        }
        NoReload::Fault(fault) => format!(in alloc; "refused {file}: {fault}\n")?,
        NoReload::Run(RunError::NoMemory) => return Err(RunError::NoMemory),
        NoReload::Run(error) => format!(in alloc; "refused {file}: {error}\n")?,
        NoReload::Word(word) => {
            let word = word.spelling();
            format!(in alloc;
                "refused reload: '{word}' can't change while the bot runs: restart it\n"
            )?
        }
    };
    Ok(line.into_bytes())
}
