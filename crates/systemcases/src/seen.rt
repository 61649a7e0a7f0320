// What was seen, a line each.
use bytetext::{Failure, NoMemory};
use disks::{FileDiskError, FileFault};
use std::alloc::Global;

/// The lines so far. A failed allocation is remembered and reported at the end.
#[derive(Drop)]
pub struct Seen {
    bytes: Vec<u8>,
    refused: bool,
}

impl Seen {
    /// Starts with no line. Allocates nothing.
    pub fn new(alloc: Global) -> Seen {
        Seen {
            bytes: Vec::new(alloc),
            refused: false,
        }
    }

    /// Notes `what` was looked at, and the `word` for what was seen.
    pub fn note(&mut self, what: &str, word: &str) {
        self.put(what.as_bytes());
        self.put(b": ");
        self.put(word.as_bytes());
        self.put(b"\n");
    }

    /// Returns all lines.
    ///
    /// # Errors
    /// `NoMemory` if an allocation failed.
    pub fn into_bytes(self) -> Result<Vec<u8>, NoMemory> {
        match self.refused {
            true => Err(NoMemory),
            false => Ok(self.bytes),
        }
    }

    fn put(&mut self, bytes: &[u8]) {
        if self.bytes.extend_from_slice(bytes).is_err() {
            self.refused = true;
        }
    }
}

/// Returns `yes` if `is`, else `no`.
pub fn yes(is: bool) -> &'static str {
    if is { "yes" } else { "no" }
}

/// Returns `done` if `is`, else `refused`.
pub fn done(is: bool) -> &'static str {
    if is { "done" } else { "refused" }
}

/// Returns the word for how an opening `ended`.
pub fn word_of<T>(ended: &Result<T, FileDiskError>) -> &'static str {
    match ended {
        Ok(_) => "done",
        Err(Failure::Refused(fault)) => word_of_fault(*fault),
        Err(Failure::NoMemory) => "out of memory",
    }
}

fn word_of_fault(fault: FileFault) -> &'static str {
    match fault {
        FileFault::Missing => "missing",
        FileFault::InUse => "in use",
        FileFault::Unreadable => "unreadable",
        FileFault::NotKept => "not kept",
    }
}
