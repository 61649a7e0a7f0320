// Whose a folder is.
ghost use Rattle.std.specs.Prelude.{◌≡◌, ◌≢◌, Err, IfSome};
ghost use Rattle.bytetext.specs.declared.failure.Failure.TheVariants.{Refused};
ghost use Rattle.botfolder.specs.declared.fault.FolderFault.TheVariants.{LongName};
ghost use Rattle.botfolder.specs.Owners.{barred_by};

use crate::fault::{FolderError, FolderFault, system_error};
use bytetext::Failure;
use std::fs;
use std::io::ErrorKind;
use std::os::unix::fs::MetadataExt as _;
use std::rt::Files;

// What the system calls this process. The user of this file is that of the process.
const PROCESS: &str = "/proc/self";

// Who may do something with a folder besides its owner.
#[derive(Clone, Copy, PartialEq, Eq)]
pub(crate) enum Besides {
    // Nobody: who runs a bot makes files there.
    Nobody,
    // Root, who may read everything anyway.
    Root,
}

/// Refuses `folder` if it is a symbolic link or belongs to another user, unless this process is root's. It may be
/// missing, and its owner is not known where the system has no `/proc`: then it is not refused.
///
/// # Errors
/// `IsLink` and `OtherUser`, and what the system gives, as [`FolderFault`] describes them; `NoMemory` if the system is
/// out of memory.
pub fn check_owner<R: Files>(rt: &R, folder: &str) -> Result<(), FolderError> {
    keep_to_owner(rt, folder, Besides::Root)
}

// Refuses a folder that is a link or belongs to another user.
pub(crate) fn keep_to_owner<R: Files>(
    rt: &R,
    folder: &str,
    besides: Besides,
) -> Result<(), FolderError>
    ensures { result ≢ Err (Refused LongName) }
{
    // With a slash after it, a link's name is that of the folder to which it leads.
    let found = match fs::symlink_metadata(rt, without_slash(folder)) {
        Ok(found) => found,
        Err(error) => {
            return match error.kind() {
                ErrorKind::NotFound => Ok(()),
                _ => Err(system_error(&error)),
            };
        }
    };
    match barred_by(found.is_symlink(), found.uid(), user_of(rt), besides) {
        Some(fault) => Err(Failure::Refused(fault)),
        None => Ok(()),
    }
}

// Why a user may not use a folder of this owner, if the user is known.
fn barred_by(is_link: bool, owner: u32, user: Option<u32>, besides: Besides) -> Option<FolderFault>
    ensures value { result ≡ barred_by is_link owner user besides }
    ensures not_long { IfSome result (λ fault. fault ≢ LongName) }
{
    if is_link {
        return Some(FolderFault::IsLink);
    }
    match user {
        Some(user) if user != owner && !(user == 0 && besides == Besides::Root) => {
            Some(FolderFault::OtherUser)
        }
        Some(_) | None => None,
    }
}

// The number of this process's user, if the system says it.
fn user_of<R: Files>(rt: &R) -> Option<u32> {
    match fs::metadata(rt, PROCESS) {
        Ok(found) => Some(found.uid()),
        Err(_) => None,
    }
}

// A folder's name without slashes at its end; `/` stays.
pub(crate) fn without_slash(folder: &str) -> &str {
    let name = folder.trim_end_matches('/');
    if name.is_empty() { folder } else { name }
}
