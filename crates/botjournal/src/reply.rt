// A reply to a leaf that the hub keeps.
use bytetext::{NoMemory, TryCopy};
use std::alloc::Global;
use userfile::ChangeFault;

/// What became of a leaf's request.
#[derive(Clone, Copy, Debug)]
pub enum Verdict {
    /// The hub accepted the change, which has this number.
    Taken(u32),
    /// The userfile rejected the change.
    Refused(ChangeFault),
}

/// One of the hub's last replies to a leaf.
#[derive(Clone, Copy, Debug)]
pub struct Reply {
    /// The leaf's number, from 1.
    pub leaf: u16,
    /// The leaf's number for its request.
    pub request: u32,
    /// What became of it.
    pub answer: Verdict,
}

// What the unused places of a fixed-size list hold.
impl Default for Reply {
    fn default() -> Reply {
        Reply {
            leaf: 0,
            request: 0,
            answer: Verdict::Taken(0),
        }
    }
}

impl TryCopy for Reply {
    fn copy(&self, _alloc: Global) -> Result<Reply, NoMemory> {
        Ok(*self)
    }
}
