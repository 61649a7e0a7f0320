// The reply of a proc.
use crate::actions::Actions;
use bytetext::{NoMemory, TryCopy};
use std::alloc::Global;

/// What a proc's answer says about the rest of its event, as the return value of a proc does in Eggdrop. After `One`
/// from a `raw` proc only the other `raw` procs see the line. After `One` from a `msgm`, `pubm` or `notc` proc the
/// line is not logged. For other kinds both codes mean the same.
#[derive(Clone, Copy, Debug, PartialEq, Eq)]
pub enum Code {
    /// 0: the event continues as if the proc did not exist.
    Zero,
    /// 1: the proc has dealt with the event.
    One,
}

/// The reply of a proc.
#[derive(Debug)]
pub struct ProcReply {
    /// The code.
    pub code: Code,
    /// What the proc asks its bot to do, in order.
    pub actions: Actions,
}

// Written by hand, so that it is proved once and not in each function that drops one.
impl Drop for ProcReply {
    fn drop(self) {
        let ProcReply {
            code: _,
            actions: _,
        } = self;
    }
}

impl TryCopy for ProcReply {
    fn copy(&self, alloc: Global) -> Result<ProcReply, NoMemory> {
        let actions = self.actions.copy(alloc)?;
        Ok(ProcReply {
            code: self.code,
            actions,
        })
    }
}
