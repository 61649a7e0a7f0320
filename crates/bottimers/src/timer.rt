// One timer, as it was made.
ghost use Rattle.std.specs.Prelude.{◌≡◌, IfOk};
ghost use Rattle.bottimers.specs.Occurrences.{is_same_kind};

use crate::call::TimerCall;
use bytetext::{NoMemory, Text, TryCopy};
use std::alloc::Global;

/// Whether a timer counts minutes or seconds.
#[derive(Clone, Copy, Debug, PartialEq, Eq)]
pub enum TimerKind {
    /// A timer, which counts minutes of the clock, whichever second of its minute it was made in.
    Minutes,
    /// A utimer, which counts seconds.
    Seconds,
}

impl TimerKind {
    // Whether both kinds are the same.
    pub(crate) fn is_same(self, other: TimerKind) -> bool
        ensures { result ≡ is_same_kind self other }
    {
        match self {
            TimerKind::Minutes => matches!(other, TimerKind::Minutes),
            TimerKind::Seconds => matches!(other, TimerKind::Seconds),
        }
    }
}

/// A timer as it was made. It is due `interval` units after `made`, then every `interval` units, `count` times in all.
#[derive(Debug)]
pub struct Timer {
    /// Its number among the timers of one [`Timers`](crate::Timers), from 1 on.
    pub id: u32,
    /// What `interval` counts.
    pub kind: TimerKind,
    /// The second at which it was made.
    pub made: u64,
    /// Minutes or seconds from one occurrence to the next.
    pub interval: u32,
    /// The number of occurrences, or 0 for occurrences without end.
    pub count: u32,
    /// The proc that it calls.
    pub proc: Text,
    /// The argument of its calls.
    pub text: Text,
}

// Written by hand, so that it is proved once and not in each function that drops one.
impl Drop for Timer {
    fn drop(self) {
        let Timer {
            id: _,
            kind: _,
            made: _,
            interval: _,
            count: _,
            proc: _,
            text: _,
        } = self;
    }
}

impl Timer {
    ghost use Rattle.bottimers.specs.Held.{call_of, is_named};

    // Returns what the timer calls.
    pub(crate) fn call(&self, alloc: Global) -> Result<TimerCall, NoMemory>
        ensures { IfOk result (λ call. call ≡ call_of self.now) }
    {
        Ok(TimerCall {
            id: self.id,
            proc: self.proc.copy(alloc)?,
            text: self.text.copy(alloc)?,
        })
    }

    // Whether the timer calls `proc` with `text`.
    pub(crate) fn is_named(&self, proc: &[u8], text: &[u8]) -> bool
        ensures { result ≡ is_named proc.now text.now self.now }
    {
        self.proc.is_same(proc) && self.text.is_same(text)
    }
}

impl TryCopy for Timer {
    fn copy(&self, alloc: Global) -> Result<Timer, NoMemory> {
        Ok(Timer {
            id: self.id,
            kind: self.kind,
            made: self.made,
            interval: self.interval,
            count: self.count,
            proc: self.proc.copy(alloc)?,
            text: self.text.copy(alloc)?,
        })
    }
}
