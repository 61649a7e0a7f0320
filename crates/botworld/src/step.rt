// The steps of a world.
use botcore::BotEvent;
use bytetext::{NoMemory, TryCopy};
use std::alloc::Global;

/// One step of a world.
#[derive(Drop)]
pub enum Step {
    /// An event at a bot: 0 is the hub, and leaves are numbered from 1. A packet reaches a bot only by a delivery: as
    /// an event here it is O3.
    At {
        /// The bot's number.
        bot: u16,
        /// The event that the bot handles.
        event: BotEvent,
    },
    /// Delivers the packet with this number, from 1 in the order of sending, to its addressee, perhaps not for the
    /// first time.
    Deliver {
        /// The packet's number.
        packet: u64,
    },
}

impl TryCopy for Step {
    fn copy(&self, alloc: Global) -> Result<Step, NoMemory> {
        match self {
            Step::At { bot, event } => Ok(Step::At {
                bot: *bot,
                event: event.copy(alloc)?,
            }),
            Step::Deliver { packet } => Ok(Step::Deliver { packet: *packet }),
        }
    }
}

// A bot's part in a step.
#[derive(Drop)]
pub(crate) struct Part {
    // The bot's number.
    pub bot: u16,
    // The event that the bot handles.
    pub event: BotEvent,
}
