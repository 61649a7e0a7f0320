// One bind, as it was made.
use crate::bind_kind::BindKind;
use bytetext::{NoMemory, Seq, Text, TryCopy};
use std::alloc::Global;

/// A bind: a proc, and the events for which it is called.
#[derive(Debug)]
pub struct Bind {
    /// The bind's number: from 1, rising in the order in which binds are made. A number is never used again.
    pub number: u32,
    /// The kind of event.
    pub kind: BindKind,
    /// The flag expression that a person must meet, as it was given last. Binds of raw, time, cron and bot ignore it.
    pub flags: Text,
    /// The keyword of a msg, pub or bot bind, or else the mask, as it was first given.
    pub mask: Text,
    /// The name of the proc.
    pub proc: Text,
}

// Written by hand, so that it is proved once and not in each function that drops one.
impl Drop for Bind {
    fn drop(self) {
        let Bind {
            number: _,
            kind: _,
            flags: _,
            mask: _,
            proc: _,
        } = self;
    }
}

impl TryCopy for Bind {
    fn copy(&self, alloc: Global) -> Result<Bind, NoMemory> {
        let flags = self.flags.copy(alloc)?;
        let mask = self.mask.copy(alloc)?;
        let proc = self.proc.copy(alloc)?;
        Ok(Bind {
            number: self.number,
            kind: self.kind,
            flags,
            mask,
            proc,
        })
    }
}

/// A list of binds.
pub type Binds = Seq<Bind>;
