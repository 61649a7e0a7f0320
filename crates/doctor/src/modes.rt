// Who may do what with a file or a folder.
ghost use Rattle.std.specs.Prelude.{◌≡◌, ◌↔◌, None, bit_and};
ghost use Rattle.doctor.specs.Modes.{is_open, may_make, mode_to_give, verdict_above, verdict_of_mode, verdict_of_owner};

use crate::verdict::{Bad, Fine, Note, Verdict};
use botfolder::FolderFault;
use std::fmt;
use std::fmt::Display;
use std::fs::Metadata;
use std::os::unix::fs::MetadataExt as _;

// The mode of a file or a folder, as `chmod` sets it, and the numbers of its user, which is 0 for root, and of its group.
#[derive(Clone, Copy)]
pub(crate) struct Seen {
    pub(crate) mode: u32,
    pub(crate) owner: u32,
    pub(crate) group: u32,
}

impl Seen {
    // What is known of a file or a folder.
    pub(crate) fn of(metadata: &Metadata) -> Seen {
        Seen {
            mode: metadata.mode(),
            owner: metadata.uid(),
            group: metadata.gid(),
        }
    }
}

// A mode for a file that holds a secret: its owner alone may read it, or the group of the bot's user if root owns it.
#[derive(Clone, Copy)]
pub(crate) enum FileMode {
    Owner,
    Group,
}

impl Display for FileMode {
    fn fmt<W: fmt::Write>(&self, f: &mut fmt::Formatter<W>) -> fmt::Result {
        f.write_str(match *self {
            FileMode::Owner => "take that right away, as chmod 600 does",
            FileMode::Group =>
                "give it the group of the bot's user, as chgrp does, and then the mode 640, as chmod does",
        })
    }
}

// The mode that a file is to get which holds a secret and which others may read. The group of a file that root owns is
// that of the bot's user, and may read it.
pub(crate) fn mode_to_give(file: Seen) -> Option<FileMode>
    ensures { result ≡ mode_to_give file }
{
    if !is_open(file) {
        None
    } else if file.owner == 0 {
        Some(FileMode::Group)
    } else {
        Some(FileMode::Owner)
    }
}

fn is_open(file: Seen) -> bool
    ensures { result ≡ is_open file }
{
    file.mode & 0o004 != 0 || (file.mode & 0o040 != 0 && file.owner != 0)
}

// What the mode of a bot's folder lets others do, or bars its owner from. `None`: it is its owner's alone.
pub(crate) fn verdict_of_mode(mode: u32) -> Option<Verdict>
    ensures value { result ≡ verdict_of_mode mode }
    ensures own { (result ≡ None) ↔ ((bit_and mode 0o700 ≡ 0o700) × (bit_and mode 0o077 ≡ 0)) }
{
    if mode & 0o700 != 0o700 {
        Some(Verdict::Bad(Bad::Folder(FolderFault::BarsOwner)))
    } else if mode & 0o077 == 0 {
        None
    } else if mode & 0o022 != 0 {
        Some(Verdict::Bad(Bad::OpenFolder))
    } else if mode & 0o011 != 0 {
        Some(Verdict::Bad(Bad::Folder(FolderFault::LetsOthersIn)))
    } else {
        Some(Verdict::Note(Note::OpenFolder))
    }
}

// What it means that a folder of this owner is used by a process of this user.
pub(crate) fn verdict_of_owner(owner: u32, user: u64) -> Option<Verdict>
    ensures { result ≡ verdict_of_owner owner user }
{
    if u64::from(owner) == user {
        None
    } else {
        Some(Verdict::Bad(Bad::OthersFolder { owner, user }))
    }
}

// What it means that a folder is missing: whether what is above it is a folder, and whether this user may make one there.
pub(crate) fn verdict_above(is_folder: bool, may_make: bool) -> Verdict
    ensures { result ≡ verdict_above is_folder may_make }
{
    if !is_folder {
        Verdict::Bad(Bad::Folder(FolderFault::NotAFolder))
    } else if !may_make {
        Verdict::Bad(Bad::NoFolder)
    } else {
        Verdict::Fine(Fine::NoFolder)
    }
}

// Whether a user of this number may make a folder in `folder`, and whether the user is a member of its group.
pub(crate) fn may_make(user: u64, is_member: bool, folder: Seen) -> bool
    ensures { result ≡ may_make user is_member folder }
{
    let rights = if u64::from(folder.owner) == user {
        0o300
    } else if is_member {
        0o030
    } else {
        0o003
    };
    user == 0 || folder.mode & rights == rights
}
