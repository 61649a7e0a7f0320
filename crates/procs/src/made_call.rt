// A call that was made, and a bind that was left out.
use crate::call::Call;
use crate::reply::ProcReply;
use bytetext::{NoMemory, Seq, Text, TryCopy};
use std::alloc::Global;

/// A call that was made, and its reply.
#[derive(Debug)]
pub struct MadeCall {
    /// The number of the bind; 0 for a due timer.
    pub bind: u32,
    /// The name of the proc.
    pub proc: Text,
    /// The kind and the arguments of the call.
    pub call: Call,
    /// The proc's reply.
    pub reply: ProcReply,
}

// Written by hand, so that it is proved once and not in each function that drops one.
impl Drop for MadeCall {
    fn drop(self) {
        let MadeCall {
            bind: _,
            proc: _,
            call: _,
            reply: _,
        } = self;
    }
}

/// The calls that were made, in order.
pub type MadeCalls = Seq<MadeCall>;

impl TryCopy for MadeCall {
    fn copy(&self, alloc: Global) -> Result<MadeCall, NoMemory> {
        let proc = self.proc.copy(alloc)?;
        let call = self.call.copy(alloc)?;
        let reply = self.reply.copy(alloc)?;
        Ok(MadeCall {
            bind: self.bind,
            proc,
            call,
            reply,
        })
    }
}

/// A bind or a due timer that was left out because the store lacks its proc.
#[derive(Debug)]
pub struct Unbound {
    /// The number of the bind; 0 for a due timer.
    pub bind: u32,
    /// The name of the proc.
    pub proc: Text,
}

// Written by hand, so that it is proved once and not in each function that drops one.
impl Drop for Unbound {
    fn drop(self) {
        let Unbound { bind: _, proc: _ } = self;
    }
}

impl TryCopy for Unbound {
    fn copy(&self, alloc: Global) -> Result<Unbound, NoMemory> {
        let proc = self.proc.copy(alloc)?;
        Ok(Unbound {
            bind: self.bind,
            proc,
        })
    }
}
