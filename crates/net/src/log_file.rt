// The file of a log.
use std::alloc::Global;
use std::fs::{File, OpenOptions};
use std::io;
use std::os::unix::fs::OpenOptionsExt as _;
use std::rt::Files;

// A file to which lines are appended, and the path at which it was opened.
pub(crate) struct LogFile {
    pub(crate) file: File,
    path: String,
}

// By hand, so that this is proved once.
impl Drop for LogFile {
    fn drop(self) {
        let LogFile { file: _, path: _ } = self;
    }
}

impl LogFile {
    // Opens the file at `path`, which is created if it is missing, for its owner alone.
    pub(crate) fn open<R: Files<File = File>>(
        rt: &R,
        alloc: Global,
        path: &str,
    ) -> io::Result<LogFile> {
        let file = open_at(rt, path)?;
        let path = format!(in alloc; "{path}")?;
        Ok(LogFile { file, path })
    }

    // Opens the file at the same path again. If that fails, the old one stays.
    pub(crate) fn reopen<R: Files<File = File>>(&mut self, rt: &R) -> io::Result<()> {
        self.file = open_at(rt, &self.path)?;
        Ok(())
    }
}

// Opens the file at `path` to append to it.
fn open_at<R: Files<File = File>>(rt: &R, path: &str) -> io::Result<File> {
    let mut options = OpenOptions::new();
    options.append(true).create(true).mode(0o600);
    options.open(rt, path)
}
