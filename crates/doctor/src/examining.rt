// All that the configuration of a bot names, one thing after another.
use crate::config::config_verdict;
use crate::dialling::dial_verdict;
use crate::door::door_verdict;
use crate::fault::DoctorFault;
use crate::files::files_verdict;
use crate::folder::look_at_folder;
use crate::journal::journal_verdict;
use crate::report::Report;
use crate::secret::{look_at_password, look_at_secret, open_mode};
use crate::subject::{FOLDER, Subject};
use crate::user::User;
use crate::verdict::{Bad, Note, Verdict};
use botfolder::FolderFault;
use bytetext::NoMemory;
use settings::{Settings, Station};
use std::fs::File;
use std::net::Net;
use std::random::RandomSource;
use std::rt::Files;
use std::str;
use std::time::Clock;
use tunnels::Target;

/// Looks at what the bot of these `settings` needs, which `file` says, and prints a line for each finding. Changes
/// nothing: it writes no file, locks a journal only while it reads it, and connects only to the servers and the hub of
/// the settings, or to their tunnels, to which it sends nothing. At the address at which a hub listens it listens for a moment itself, unless
/// a bot runs on the folder. Returns the exit status: 1 if a finding is bad, else 0.
///
/// # Errors
/// `Write` if a line can't be printed, and `NoMemory` if an allocation fails. The lines before stand.
pub fn examine<R: Print + AllocGlobal + Net + Clock + Files<File = File> + RandomSource>(
    rt: &R,
    file: &str,
    settings: &Settings,
) -> Result<u8, DoctorFault> {
    let mut report = Report::new(rt.alloc());
    look_at_all(rt, &mut report, file, settings);
    report.status()
}

fn look_at_all<R: Print + AllocGlobal + Net + Clock + Files<File = File> + RandomSource>(
    rt: &R,
    report: &mut Report,
    file: &str,
    settings: &Settings,
) {
    let config = config_verdict(settings, open_mode(rt, file));
    report.tell(
        rt,
        Subject::Named("configuration ", file.as_bytes()),
        config,
    );
    let runs = look_at_data(rt, report, settings);
    report.tell_found(
        rt,
        Subject::Named("the limit of open files", b""),
        files_verdict(rt, settings.station),
    );
    look_at_passwords(rt, report, settings);
    look_at_servers(rt, report, settings);
    look_at_hubs(rt, report, settings);
    look_at_door(rt, report, settings, runs);
}

// Looks at the folder, and at the journal in it. Returns whether a bot runs on it.
fn look_at_data<R: Print + AllocGlobal + Files<File = File>>(
    rt: &R,
    report: &mut Report,
    settings: &Settings,
) -> bool {
    let name = settings.folder.as_bytes();
    let Ok(path) = str::from_utf8(name) else {
        let fault = Bad::Folder(FolderFault::Unusable);
        report.tell(rt, Subject::Named(FOLDER, name), Verdict::Bad(fault));
        return false;
    };
    match User::of_process(rt) {
        Ok(user) => {
            look_at_folder(rt, report, path, &user)
                && look_at_journal(rt, report, path, settings.station)
        }
        Err(NoMemory) => {
            report.lack_memory();
            false
        }
    }
}

// Looks at the journal in the folder at `path`. Returns whether a bot runs on it.
fn look_at_journal<R: Print + AllocGlobal + Files<File = File>>(
    rt: &R,
    report: &mut Report,
    path: &str,
    station: Station,
) -> bool {
    let folder = Subject::Named(FOLDER, path.as_bytes());
    match journal_verdict(rt, path, station) {
        Ok(Some(verdict)) => report.tell(rt, folder, verdict),
        Ok(None) => {
            report.tell(rt, folder, Verdict::Note(Note::Runs));
            return true;
        }
        Err(NoMemory) => report.lack_memory(),
    }
    false
}

// Looks at the file of the secret, if the bot is in a net, and at that of the account's password.
fn look_at_passwords<R: Print + Files<File = File>>(
    rt: &R,
    report: &mut Report,
    settings: &Settings,
) {
    let Station { number, leaves } = settings.station;
    match &settings.secret {
        Some(name) if leaves > 0 => look_at_secret(rt, report, name.as_bytes(), number),
        Some(_) | None => {}
    }
    if let Some(account) = &settings.account {
        look_at_password(rt, report, account.file.as_bytes());
    }
}

// Looks whether each server answers.
fn look_at_servers<R: Print + AllocGlobal + Net + Clock + Files<File = File> + RandomSource>(
    rt: &R,
    report: &mut Report,
    settings: &Settings,
) {
    let folder = settings.folder.as_bytes();
    for server in settings.servers.as_slice() {
        let address = &server.address;
        look_at_address(rt, report, "server ", Target { folder, address });
    }
}

// Looks whether each of a leaf's hubs answers.
fn look_at_hubs<R: Print + AllocGlobal + Net + Clock + Files<File = File> + RandomSource>(
    rt: &R,
    report: &mut Report,
    settings: &Settings,
) {
    let folder = settings.folder.as_bytes();
    for address in settings.hubs.as_slice() {
        look_at_address(rt, report, "hub ", Target { folder, address });
    }
}

// Looks whether somebody answers at an address, unless nothing more is printed. `words` say whose it is.
fn look_at_address<R: Print + AllocGlobal + Net + Clock + Files<File = File> + RandomSource>(
    rt: &R,
    report: &mut Report,
    words: &'static str,
    target: Target<'_>,
) {
    if !report.has_fault() {
        report.tell_found(
            rt,
            Subject::At(words, target.address),
            dial_verdict(rt, target),
        );
    }
}

// Looks whether a hub that does not run can listen. Where a tunnel comes in, the hub listens in its own folder.
fn look_at_door<R: Print + AllocGlobal + Net>(
    rt: &R,
    report: &mut Report,
    settings: &Settings,
    runs: bool,
) {
    match &settings.listen {
        Some(address) if settings.station.leaves > 0 && !runs && !address.tls => {
            report.tell_found(
                rt,
                Subject::At("listen ", address),
                door_verdict(rt, address),
            );
        }
        Some(_) | None => {}
    }
}
