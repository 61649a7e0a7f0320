// The bot of a configuration file.
use crate::moving::move_leaf;
use botrun::{RunEnd, RunError, Subject, check, file_bytes, run};
use bytetext::Failure;
use doctor::{DoctorFault, examine};
use eggprocs::Ours;
use procs::{ProcStore, Run};
use replaying::{FAULT, STREAM_FAULT, not_written, out_of_memory};
use settings::Settings;
use std::fs::File;
use std::net::Net;
use std::random::RandomSource;
use std::rt::Files;
use std::str;
use std::time::Clock;
use streams::ReadError;
use watching::NoWatcher;

/// Runs the bot of the configuration file `file`, with the procs in `store`, until it is asked to end. A leaf whose hub is
/// the heir of its net moves there, and goes on. Returns the exit status.
pub fn run_file<
    R: Print + Eprint + AllocGlobal + Net + Clock + Files<File = File> + RandomSource,
    B: Run,
>(rt: &R, store: &ProcStore<Ours, B>, file: &str) -> u8 {
    let mut settings = match settings_of(rt, file) {
        Ok(settings) => settings,
        Err(status) => return status,
    };
    let mut moved = None;
    for _net in 0..u64::MAX {
        let mut watcher = NoWatcher::new();
        match run(rt, store, &mut settings, file, &mut watcher) {
            Ok(RunEnd::Ended) => return 0,
            Ok(RunEnd::Moves) => {}
            Err(error) => return told(rt, file, &settings, error),
        }
        if let Err(status) = move_leaf(rt, file, &settings, &mut moved) {
            return status;
        }
    }
    0
}

/// Says whether a bot can run by the configuration file `file`, with the procs in `store`. Opens nothing else. Returns
/// the exit status.
pub fn check_file<R: Eprint + AllocGlobal + Files<File = File>, B: Run>(
    rt: &R,
    store: &ProcStore<Ours, B>,
    file: &str,
) -> u8 {
    let settings = match settings_of(rt, file) {
        Ok(settings) => settings,
        Err(status) => return status,
    };
    match check(rt.alloc(), store, &settings) {
        Ok(()) => 0,
        Err(error) => told(rt, file, &settings, error),
    }
}

/// Looks at what the bot of the configuration file `file` needs, and prints what to change, with the procs in `store`.
/// Changes nothing. Returns the exit status: that of [`check_file`] if the file is faulty.
pub fn doctor_file<
    R: Print + Eprint + AllocGlobal + Net + Clock + Files<File = File> + RandomSource,
    B: Run,
>(rt: &R, store: &ProcStore<Ours, B>, file: &str) -> u8 {
    let settings = match settings_of(rt, file) {
        Ok(settings) => settings,
        Err(status) => return status,
    };
    if let Err(error) = check(rt.alloc(), store, &settings) {
        return told(rt, file, &settings, error);
    }
    match examine(rt, file, &settings) {
        Ok(status) => status,
        Err(DoctorFault::Write) => not_written(rt),
        Err(DoctorFault::NoMemory) => out_of_memory(rt),
    }
}

/// Returns what the configuration file `file` says. If something is wrong with it, reports that and returns the status.
pub fn settings_of<R: Eprint + AllocGlobal + Files<File = File>>(
    rt: &R,
    file: &str,
) -> Result<Settings, u8> {
    let bytes = match file_bytes(rt, file) {
        Ok(bytes) => bytes,
        Err(ReadError::NoMemory) => return Err(out_of_memory(rt)),
        Err(ReadError::Fault) => {
            let _told = eprintln!(rt;
                "eggnet: {file} can't be read: give a file that this user may read"
            );
            return Err(STREAM_FAULT);
        }
    };
    match Settings::read(rt.alloc(), bytes.as_slice()) {
        Ok(settings) => Ok(settings),
        Err(Failure::Refused(fault)) => {
            let _told = eprintln!(rt; "eggnet: {file}: {fault}");
            Err(FAULT)
        }
        Err(Failure::NoMemory) => Err(out_of_memory(rt)),
    }
}

/// Reports why a bot does not run, or no longer runs. Returns the exit status.
pub fn told<R: Eprint>(rt: &R, file: &str, settings: &Settings, error: RunError) -> u8 {
    let folder = str::from_utf8(settings.folder.as_bytes()).unwrap_or("the folder");
    let _told = match error.subject() {
        Subject::File => eprintln!(rt; "eggnet: {file}: {error}"),
        Subject::Folder => eprintln!(rt; "eggnet: {folder} {error}"),
        Subject::Control => eprintln!(rt; "eggnet: {folder}/control {error}"),
        Subject::Nothing => eprintln!(rt; "eggnet: {error}"),
    };
    error.status()
}
