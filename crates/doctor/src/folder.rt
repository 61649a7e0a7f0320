// The bot's folder.
use crate::modes::{Seen, verdict_above, verdict_of_mode, verdict_of_owner};
use crate::report::Report;
use crate::subject::{FOLDER, Subject};
use crate::user::User;
use crate::verdict::{Bad, Fine, Verdict};
use botfolder::{FolderFault, MAX_PATH};
use std::fs::Metadata;
use std::io::ErrorKind;
use std::path::Path;
use std::rt::Files;
use std::{fs, io};

// Looks at the folder at `path`, and tells what it finds. Returns whether the folder exists.
pub(crate) fn look_at_folder<R: Print + Files>(
    rt: &R,
    report: &mut Report,
    path: &str,
    user: &User,
) -> bool {
    let verdict = if path.len() > MAX_PATH {
        Verdict::Bad(Bad::Folder(FolderFault::LongName))
    } else {
        match entry_of(fs::symlink_metadata(rt, path)) {
            Entry::Link => Verdict::Bad(Bad::Folder(FolderFault::IsLink)),
            Entry::Folder(_) | Entry::Other => return look_inside(rt, report, path, user),
            Entry::Missing(_) => verdict_of_missing(rt, above(path), user),
            Entry::Unknown(fault) => Verdict::Bad(Bad::Folder(fault)),
        }
    };
    report.tell(rt, Subject::Named(FOLDER, path.as_bytes()), verdict);
    false
}

// What a path names.
#[derive(Clone, Copy)]
enum Entry {
    Folder(Seen),
    Link,
    // A file of another kind.
    Other,
    // Nothing, for this reason.
    Missing(FolderFault),
    // The system does not say it, for this reason.
    Unknown(FolderFault),
}

fn entry_of(found: io::Result<Metadata>) -> Entry {
    match found {
        Ok(found) if found.is_symlink() => Entry::Link,
        Ok(found) if found.is_dir() => Entry::Folder(Seen::of(&found)),
        Ok(_) => Entry::Other,
        Err(error) => match error.kind() {
            ErrorKind::NotFound => Entry::Missing(fault_of(&error)),
            _ => Entry::Unknown(fault_of(&error)),
        },
    }
}

// Looks at what `path` names.
fn look_inside<R: Print + Files>(rt: &R, report: &mut Report, path: &str, user: &User) -> bool {
    let fault = match entry_of(fs::metadata(rt, path)) {
        Entry::Folder(seen) => {
            look_at_rights(rt, report, path, seen, user);
            return true;
        }
        Entry::Link | Entry::Other => FolderFault::NotAFolder,
        Entry::Missing(fault) | Entry::Unknown(fault) => fault,
    };
    report.tell(
        rt,
        Subject::Named(FOLDER, path.as_bytes()),
        Verdict::Bad(Bad::Folder(fault)),
    );
    false
}

// Tells who owns the folder and what others may do there.
fn look_at_rights<R: Print>(rt: &R, report: &mut Report, path: &str, seen: Seen, user: &User) {
    let folder = Subject::Named(FOLDER, path.as_bytes());
    let owner = match user.number {
        Some(number) => verdict_of_owner(seen.owner, number),
        None => None,
    };
    let mode = verdict_of_mode(seen.mode);
    if owner.is_none() && mode.is_none() {
        report.tell(rt, folder, Verdict::Fine(Fine::Folder));
    }
    report.tell_some(rt, folder, owner);
    report.tell_some(rt, folder, mode);
}

// Whether a missing folder can be made in the folder at `path`.
fn verdict_of_missing<R: Files>(rt: &R, path: &str, user: &User) -> Verdict {
    match entry_of(fs::metadata(rt, path)) {
        Entry::Folder(seen) => verdict_above(true, user.may_make_in(seen)),
        Entry::Link | Entry::Other => verdict_above(false, false),
        Entry::Missing(_) => Verdict::Bad(Bad::Folder(FolderFault::NoParent)),
        Entry::Unknown(fault) => Verdict::Bad(Bad::Folder(fault)),
    }
}

// The folder that holds the file or folder at `path`.
fn above(path: &str) -> &str {
    match Path::new(path).parent() {
        Some(folder) if !folder.as_str().is_empty() => folder.as_str(),
        Some(_) => ".",
        None => path,
    }
}

// Why the system says nothing of a folder.
fn fault_of(error: &io::Error) -> FolderFault {
    match error.kind() {
        ErrorKind::NotADirectory => FolderFault::NotAFolder,
        ErrorKind::PermissionDenied => FolderFault::Unusable,
        _ => match error.raw_os_error() {
            Some(code) => FolderFault::System(code.unsigned_abs()),
            None => FolderFault::Unusable,
        },
    }
}
