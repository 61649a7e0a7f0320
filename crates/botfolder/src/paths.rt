// The paths of what a folder holds.
use bytetext::NoMemory;
use std::alloc::Global;
use std::path::Path;

/// The most bytes of a folder's name. With `/control` after it, it is a socket's path, and the system takes at most 107
/// bytes of one.
pub const MAX_PATH: usize = 99;

// The folder of the journal, and the same while it is made.
pub(crate) const JOURNAL: &str = "journal";

pub(crate) const NEW: &str = "new";

// The path of `name` in a folder.
pub(crate) fn below(alloc: Global, folder: &str, name: &str) -> Result<String, NoMemory> {
    Ok(format!(in alloc; "{folder}/{name}")?)
}

// The folder that holds the file or folder at `path`.
pub(crate) fn above(path: &str) -> &str {
    match Path::new(path).parent() {
        Some(folder) if !folder.as_str().is_empty() => folder.as_str(),
        Some(_) => ".",
        None => path,
    }
}

/// Returns the path of the socket at which the bot that runs on `folder` takes commands.
///
/// # Errors
/// `NoMemory` if an allocation fails.
pub fn control_of(alloc: Global, folder: &str) -> Result<String, NoMemory> {
    below(alloc, folder, "control")
}
