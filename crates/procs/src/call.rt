// The arguments of a proc's call.
use crate::call_kind::CallKind;
use bytetext::{NoMemory, Texts, TryCopy};
use std::alloc::Global;

/// The arguments of a proc's call.
#[derive(Debug)]
pub struct Call {
    /// The kind of the event.
    pub kind: CallKind,
    /// The event's arguments, in the order that its bind type has: for `pub`, the nick, `user@host`, the handle, the
    /// channel and the text.
    pub args: Texts,
}

// Written by hand, so that it is proved once and not in each function that drops one.
impl Drop for Call {
    fn drop(self) {
        let Call { kind: _, args: _ } = self;
    }
}

impl TryCopy for Call {
    fn copy(&self, alloc: Global) -> Result<Call, NoMemory> {
        let args = self.args.copy(alloc)?;
        Ok(Call {
            kind: self.kind,
            args,
        })
    }
}
