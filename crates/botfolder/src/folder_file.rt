// The files of a bot's folder, and how one is opened.
ghost use Rattle.std.specs.Prelude.{◌≢◌, ◌≤◌, Err, IfOk, IfSome, vec_len};
ghost use Rattle.bytetext.specs.declared.failure.Failure.TheVariants.{Refused};
ghost use Rattle.botfolder.specs.declared.fault.FolderFault.TheVariants.{LongName};

use crate::fault::{FolderError, FolderFault, system_error};
use crate::paths::below;
use bytetext::Failure;
use std::fmt::Display;
use std::fs::{File, OpenOptions};
use std::io::ErrorKind;
use std::os::unix::fs::FileExt as _;
use std::rt::Files;
use std::{fmt, fs};

/// A file in a bot's folder.
#[derive(Clone, Copy, Debug, PartialEq, Eq)]
pub enum FolderFile {
    /// `lock`
    Lock,
    /// `journal/first`
    First,
    /// `journal/second`
    Second,
    /// `new/first`
    NewFirst,
    /// `new/second`
    NewSecond,
    /// `net`
    Net,
    /// `net.new`
    NewNet,
    /// `made`
    Made,
    /// `made.new`
    NewMade,
    /// `leaves`
    Leaves,
    /// `leaves.new`
    NewLeaves,
    /// `doubt`
    Doubt,
    /// `doubt.new`
    NewDoubt,
    /// `parent`
    Parent,
    /// `parent.new`
    NewParent,
    /// `room`
    Room,
    /// `control`
    Control,
}

impl FolderFile {
    /// Returns the file's name in the folder.
    pub fn name(self) -> &'static str {
        match self {
            FolderFile::Lock => "lock",
            FolderFile::First => "journal/first",
            FolderFile::Second => "journal/second",
            FolderFile::NewFirst => "new/first",
            FolderFile::NewSecond => "new/second",
            FolderFile::Net => "net",
            FolderFile::NewNet => "net.new",
            FolderFile::Made => "made",
            FolderFile::NewMade => "made.new",
            FolderFile::Leaves => "leaves",
            FolderFile::NewLeaves => "leaves.new",
            FolderFile::Doubt => "doubt",
            FolderFile::NewDoubt => "doubt.new",
            FolderFile::Parent => "parent",
            FolderFile::NewParent => "parent.new",
            FolderFile::Room => "room",
            FolderFile::Control => "control",
        }
    }
}

impl Display for FolderFile {
    fn fmt<W: fmt::Write>(&self, f: &mut fmt::Formatter<W>) -> fmt::Result {
        f.write_str(self.name())
    }
}

// Opens `file`, whose path is `path`, with these options. Returns `None` if it is missing, or its folder is. A file
// that is not regular is not opened: opening a FIFO would wait for a writer.
pub(crate) fn open_file<R: Files<File = File>>(
    rt: &R,
    path: &str,
    file: FolderFile,
    options: &OpenOptions,
) -> Result<Option<File>, FolderError>
    ensures { result ≢ Err (Refused LongName) }
{
    keep_regular(rt, path, file)?;
    match options.open(rt, path) {
        Ok(opened) => Ok(Some(opened)),
        Err(error) => match error.kind() {
            ErrorKind::NotFound => Ok(None),
            _ => Err(system_error(&error)),
        },
    }
}

// Refuses a path at which something else stands than a regular file.
fn keep_regular<R: Files>(rt: &R, path: &str, file: FolderFile) -> Result<(), FolderError>
    ensures { result ≢ Err (Refused LongName) }
{
    match fs::metadata(rt, path) {
        Ok(found) => {
            if found.is_file() {
                Ok(())
            } else {
                Err(Failure::Refused(FolderFault::NotRegular(file)))
            }
        }
        Err(error) => match error.kind() {
            ErrorKind::NotFound => Ok(()),
            _ => Err(system_error(&error)),
        },
    }
}

// Returns how many bytes a file has.
pub(crate) fn len_of(file: &File) -> Result<usize, FolderError> {
    match file.metadata() {
        Ok(metadata) => Ok(metadata.len() as usize),
        Err(error) => Err(system_error(&error)),
    }
}

// Fills `bytes` from the front of a file.
pub(crate) fn read_file(file: &File, bytes: &mut [u8]) -> Result<(), FolderError> {
    match file.read_exact_at(bytes, 0) {
        Ok(()) => Ok(()),
        Err(error) => Err(system_error(&error)),
    }
}

// Reads the first bytes of this file of a folder, at most `most`, or returns `None` if it is missing.
pub(crate) fn front_of<R: AllocGlobal + Files<File = File>>(
    rt: &R,
    folder: &str,
    file: FolderFile,
    most: usize,
) -> Result<Option<Vec<u8>>, FolderError>
    ensures most { IfOk result (λ found. IfSome found (λ front. vec_len front ≤ most)) }
{
    let path = below(rt.alloc(), folder, file.name())?;
    let mut options = OpenOptions::new();
    options.read(true);
    let Some(opened) = open_file(rt, path.as_str(), file, &options)? else {
        return Ok(None);
    };
    let len = len_of(&opened)?.min(most);
    let mut front = vec![in rt.alloc(); 0; len]?;
    read_file(&opened, &mut front)?;
    Ok(Some(front))
}

// Removes `file`, whose path is `path`, if it exists.
pub(crate) fn remove_file<R: Files>(rt: &R, path: &str, file: FolderFile) -> Result<(), FolderError>
    ensures { result ≢ Err (Refused LongName) }
{
    match fs::remove_file(rt, path) {
        Ok(()) => Ok(()),
        Err(error) => match error.kind() {
            ErrorKind::NotFound => Ok(()),
            ErrorKind::IsADirectory => Err(Failure::Refused(FolderFault::NotRegular(file))),
            _ => Err(system_error(&error)),
        },
    }
}
