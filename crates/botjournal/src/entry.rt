// What is appended to a journal.
use bytetext::{NoMemory, TryCopy};
use std::alloc::Global;
use userfile::{Change, ChangeFault};

/// One entry of a bot's journal. Bot 0 is the hub, and leaves are numbered from 1.
#[derive(Debug)]
pub enum Entry {
    /// The hub accepted a change, which makes its next version.
    Accepted {
        /// The bot that asked for it: 0 for the hub.
        origin: u16,
        /// The asking leaf's request number: 0 for the hub's own.
        request: u32,
        /// The change itself.
        change: Change,
    },
    /// The hub rejected a leaf's request.
    Settled {
        /// The leaf's number.
        leaf: u16,
        /// The leaf's number for the request.
        request: u32,
        /// Why the userfile refused the change.
        fault: ChangeFault,
    },
    /// A leaf applied a change that the hub sent.
    Applied {
        /// The change's number, from 1.
        number: u32,
        /// The change itself.
        change: Change,
    },
    /// A leaf sends a request.
    ReqOut {
        /// The leaf's number for the request.
        request: u32,
        /// The change that it asks for.
        change: Change,
    },
    /// A leaf's outstanding request got its reply.
    ReqDone {
        /// The leaf's number for the request.
        request: u32,
    },
}

// By hand, so that this is proved once, and not in each function in which an entry ends.
impl Drop for Entry {
    fn drop(self) {
        match self {
            Entry::Accepted {
                origin: _,
                request: _,
                change: _,
            } => {}
            Entry::Settled {
                leaf: _,
                request: _,
                fault: _,
            } => {}
            Entry::Applied {
                number: _,
                change: _,
            } => {}
            Entry::ReqOut {
                request: _,
                change: _,
            } => {}
            Entry::ReqDone { request: _ } => {}
        }
    }
}

impl TryCopy for Entry {
    fn copy(&self, alloc: Global) -> Result<Entry, NoMemory> {
        match self {
            Entry::Accepted {
                origin,
                request,
                change,
            } => Ok(Entry::Accepted {
                origin: *origin,
                request: *request,
                change: change.copy(alloc)?,
            }),
            Entry::Settled {
                leaf,
                request,
                fault,
            } => Ok(Entry::Settled {
                leaf: *leaf,
                request: *request,
                fault: *fault,
            }),
            Entry::Applied { number, change } => Ok(Entry::Applied {
                number: *number,
                change: change.copy(alloc)?,
            }),
            Entry::ReqOut { request, change } => Ok(Entry::ReqOut {
                request: *request,
                change: change.copy(alloc)?,
            }),
            Entry::ReqDone { request } => Ok(Entry::ReqDone { request: *request }),
        }
    }
}
