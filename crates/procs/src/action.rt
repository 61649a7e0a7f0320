// One thing that a proc asks its bot to do.
use bytetext::{NoMemory, Text, TryCopy};
use outqueue::Queue;
use std::alloc::Global;
use userfile::Change;

/// One thing that a proc asks its bot to do. The bot does it once all procs of the event have returned.
#[derive(Debug, Drop)]
pub enum Action {
    /// Asks for a change of the userfile, which waits at the bot until the bot is pumped.
    Ask(Change),
    /// Makes a timer, which counts minutes.
    Timer(TimerWish),
    /// Makes a utimer, which counts seconds.
    Utimer(TimerWish),
    /// Removes the oldest timer or utimer with this proc and text.
    KillTimer(TimerName),
    /// Sends a text to another bot.
    SendBot(BotWish),
    /// Puts a line for the server into a queue.
    Put(PutWish),
}

impl TryCopy for Action {
    fn copy(&self, alloc: Global) -> Result<Action, NoMemory> {
        match self {
            Action::Ask(change) => Ok(Action::Ask(change.copy(alloc)?)),
            Action::Timer(wish) => Ok(Action::Timer(wish.copy(alloc)?)),
            Action::Utimer(wish) => Ok(Action::Utimer(wish.copy(alloc)?)),
            Action::KillTimer(name) => Ok(Action::KillTimer(name.copy(alloc)?)),
            Action::SendBot(wish) => Ok(Action::SendBot(wish.copy(alloc)?)),
            Action::Put(wish) => Ok(Action::Put(wish.copy(alloc)?)),
        }
    }
}

/// The timer or utimer that a proc asks for. It counts from the last second that the bot's clock has seen.
#[derive(Debug)]
pub struct TimerWish {
    /// Minutes, or seconds of a utimer, from one call to the next.
    pub interval: u32,
    /// The number of calls, or 0 for calls without end.
    pub count: u32,
    /// The name of the proc that it calls.
    pub proc: Text,
    /// The argument of its calls.
    pub text: Text,
}

// Written by hand, so that it is proved once and not in each function that drops one.
impl Drop for TimerWish {
    fn drop(self) {
        let TimerWish {
            interval: _,
            count: _,
            proc: _,
            text: _,
        } = self;
    }
}

impl TryCopy for TimerWish {
    fn copy(&self, alloc: Global) -> Result<TimerWish, NoMemory> {
        let proc = self.proc.copy(alloc)?;
        let text = self.text.copy(alloc)?;
        Ok(TimerWish {
            interval: self.interval,
            count: self.count,
            proc,
            text,
        })
    }
}

/// Names a timer by the proc that it calls and the text that it passes.
#[derive(Debug)]
pub struct TimerName {
    /// The name of the proc that it calls.
    pub proc: Text,
    /// The argument of its calls.
    pub text: Text,
}

// Written by hand, so that it is proved once and not in each function that drops one.
impl Drop for TimerName {
    fn drop(self) {
        let TimerName { proc: _, text: _ } = self;
    }
}

impl TryCopy for TimerName {
    fn copy(&self, alloc: Global) -> Result<TimerName, NoMemory> {
        let proc = self.proc.copy(alloc)?;
        let text = self.text.copy(alloc)?;
        Ok(TimerName { proc, text })
    }
}

/// A text for another bot.
#[derive(Debug, Drop)]
pub struct BotWish {
    /// The number of the bot that receives it.
    pub to: u16,
    /// The text.
    pub text: Text,
}

impl TryCopy for BotWish {
    fn copy(&self, alloc: Global) -> Result<BotWish, NoMemory> {
        let text = self.text.copy(alloc)?;
        Ok(BotWish { to: self.to, text })
    }
}

/// A line for the server.
#[derive(Debug, Drop)]
pub struct PutWish {
    /// The queue to which it is added.
    pub queue: Queue,
    /// The line, without its CR LF.
    pub line: Text,
}

impl TryCopy for PutWish {
    fn copy(&self, alloc: Global) -> Result<PutWish, NoMemory> {
        let line = self.line.copy(alloc)?;
        Ok(PutWish {
            queue: self.queue,
            line,
        })
    }
}
