// A leaf's outstanding request.
use bytetext::{NoMemory, TryCopy};
use std::alloc::Global;
use userfile::Change;

/// A leaf's request that has no reply yet.
#[derive(Debug)]
pub struct Request {
    /// The leaf's number for the request.
    pub number: u32,
    /// The change that it asks for.
    pub change: Change,
}

// By hand, so that this is proved once, and not in each function in which a request ends.
impl Drop for Request {
    fn drop(self) {
        let Request {
            number: _,
            change: _,
        } = self;
    }
}

impl TryCopy for Request {
    fn copy(&self, alloc: Global) -> Result<Request, NoMemory> {
        Ok(Request {
            number: self.number,
            change: self.change.copy(alloc)?,
        })
    }
}
