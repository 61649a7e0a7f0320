// The log of a bot, as its settings have it.
use crate::ending::RunError;
use net::{Log, LogForm};
use settings::Settings;
use std::fs::File;
use std::io::ErrorKind;
use std::net::Net;
use std::rt::Files;
use std::str;

/// Opens the log of a bot with these settings. If a page is served, it keeps its last lines in memory.
///
/// # Errors
/// `LogFile` if its file cannot be opened; `System`; `NoMemory` if an allocation fails.
pub fn log_of<R: AllocGlobal + Net + Files<File = File>>(
    rt: &R,
    settings: &Settings,
) -> Result<Log, RunError> {
    let mut log = match &settings.log_file {
        Some(path) => log_in(rt, path.as_bytes())?,
        None => Log::open(rt)?,
    };
    if settings.log_json {
        log.set_form(LogForm::Json);
    }
    if settings.page.is_some() {
        log.keep_tail()?;
    }
    Ok(log)
}

// Opens the log in the file at `path`.
fn log_in<R: AllocGlobal + Files<File = File>>(rt: &R, path: &[u8]) -> Result<Log, RunError> {
    let Ok(path) = str::from_utf8(path) else {
        return Err(RunError::LogFile);
    };
    match Log::open_file(rt, path) {
        Ok(log) => Ok(log),
        Err(error) => match error.kind() {
            ErrorKind::OutOfMemory => Err(RunError::NoMemory),
            _ => Err(RunError::LogFile),
        },
    }
}
