// Standard output, written without blocking.
use mio::unix::SourceFd;
use mio::{Events, Interest, Poll, Token};
use std::io;
use std::net::Net;
use std::time::Duration;

// Standard output, which the system watches if a write to it may block.
pub(crate) struct StandardOutput {
    poll: Poll,
    events: Events,
    is_watched: bool,
}

// By hand, so that this is proved once.
impl Drop for StandardOutput {
    fn drop(self) {
        let StandardOutput {
            poll: _,
            events: _,
            is_watched: _,
        } = self;
    }
}

impl StandardOutput {
    // Has the system watch standard output. It refuses to watch a regular file and `/dev/null` (`EPERM`), which never
    // block, and a closed descriptor (`EBADF`), to which each write fails at once.
    pub(crate) fn watch(rt: &(impl Net + AllocGlobal)) -> io::Result<StandardOutput> {
        let poll = Poll::new(rt)?;
        let number = libc::STDOUT_FILENO;
        let mut source = SourceFd(&number);
        let watched = poll
            .registry()
            .register(&mut source, Token(0), Interest::WRITABLE);
        Ok(StandardOutput {
            poll,
            events: Events::with_capacity(rt.alloc(), 1)?,
            is_watched: is_watched(watched)?,
        })
    }

    // Returns whether a write of a piece returns at once: standard output takes them, or the write fails.
    // If the system can't say it, the answer is false. The watch tells of changes alone, so it begins again here.
    pub(crate) fn is_writable(&mut self) -> bool {
        if !self.is_watched {
            return true;
        }
        let number = libc::STDOUT_FILENO;
        let mut source = SourceFd(&number);
        let watched = self
            .poll
            .registry()
            .reregister(&mut source, Token(0), Interest::WRITABLE);
        watched.is_ok()
            && self
                .poll
                .poll(&mut self.events, Some(Duration::ZERO))
                .is_ok()
            && !self.events.is_empty()
    }
}

// Returns whether the system watches a file, by what it answered when it was to.
fn is_watched(answer: io::Result<()>) -> io::Result<bool> {
    match answer {
        Ok(()) => Ok(true),
        Err(error) => match error.raw_os_error() {
            Some(libc::EPERM | libc::EBADF) => Ok(false),
            _ => Err(error),
        },
    }
}
