// What one line reads as.
use crate::fault::LineFault;
use crate::message::Message;
use bytetext::{NoMemory, TryCopy};
use std::alloc::Global;

/// One line of a stream.
#[derive(Debug, Drop)]
pub enum Line {
    /// A message.
    Message(Message),
    /// Not a message: the first fault of the line. The line is dropped.
    Bad(LineFault),
}

impl TryCopy for Line {
    fn copy(&self, alloc: Global) -> Result<Line, NoMemory> {
        match self {
            Line::Message(message) => Ok(Line::Message(message.copy(alloc)?)),
            Line::Bad(fault) => Ok(Line::Bad(*fault)),
        }
    }
}
