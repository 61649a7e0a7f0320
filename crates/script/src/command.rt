// The commands of a script.
use botworld::Step;
use bytetext::{NoMemory, Seq, TryCopy};
use std::alloc::Global;

/// One command after the number of leaves. Whether its bot or packet exists is checked when the command is done.
#[derive(Drop)]
pub enum Command {
    /// The botnet makes these steps, in order. A `line` has a step for each line of its text, so none if its text is
    /// carriage returns alone; every other command has one step.
    Steps(Steps),
    /// Shows the version and the records of this bot: 0 is the hub, and leaves are numbered from 1.
    Show(u16),
}

impl TryCopy for Command {
    fn copy(&self, alloc: Global) -> Result<Command, NoMemory> {
        match self {
            Command::Steps(steps) => Ok(Command::Steps(steps.copy(alloc)?)),
            Command::Show(bot) => Ok(Command::Show(*bot)),
        }
    }
}

/// Steps, in order.
pub type Steps = Seq<Step>;

/// Commands, in order.
pub type Commands = Seq<Command>;
