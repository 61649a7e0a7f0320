// The status of a timer.
use crate::timer::TimerKind;
use bytetext::{NoMemory, Text, TryCopy};
use std::alloc::Global;

/// The status of a timer, as Eggdrop's `timers` and `utimers` show it: the time until it is due, and how often it will
/// be due.
#[derive(Debug)]
pub struct TimerStatus {
    /// What `left` counts.
    pub kind: TimerKind,
    /// Minutes from the last minute given, or seconds from the last second given, to the next occurrence.
    pub left: u32,
    /// The proc that it calls.
    pub proc: Text,
    /// The argument of its calls.
    pub text: Text,
    /// Its id.
    pub id: u32,
    /// The number of occurrences to come, or 0 for ever.
    pub repeats: u32,
}

// Written by hand, so that it is proved once and not in each function that drops one.
impl Drop for TimerStatus {
    fn drop(self) {
        let TimerStatus {
            kind: _,
            left: _,
            proc: _,
            text: _,
            id: _,
            repeats: _,
        } = self;
    }
}

impl TryCopy for TimerStatus {
    fn copy(&self, alloc: Global) -> Result<TimerStatus, NoMemory> {
        Ok(TimerStatus {
            kind: self.kind,
            left: self.left,
            proc: self.proc.copy(alloc)?,
            text: self.text.copy(alloc)?,
            id: self.id,
            repeats: self.repeats,
        })
    }
}
