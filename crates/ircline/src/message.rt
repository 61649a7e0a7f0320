// One message.
use bytetext::{NoMemory, Text, Texts, TryCopy};
use std::alloc::Global;

/// A message (RFC 2812 section 2.3.1), either read or to print.
#[derive(Debug)]
pub struct Message {
    /// The sender, as written, without the colon before it; empty if the line has no prefix. [`crate::source`] splits
    /// it.
    pub prefix: Text,
    /// The command: letters in upper case, or three digits.
    pub command: Text,
    /// The parameters, at most 15, without the colon before the last one.
    pub params: Texts,
    /// The line after the command and the spaces that follow it, as written.
    pub rest: Text,
}

impl Message {
    ghost use Rattle.std.specs.Prelude.{◌≡◌};
    ghost use Rattle.ircline.specs.Said.{is_said};

    /// Returns whether somebody says the message: whether it is a PRIVMSG (RFC 2812 section 3.3.1).
    pub fn is_said(&self) -> bool
        ensures { result ≡ is_said self.now }
    {
        self.command.as_bytes() == b"PRIVMSG".as_slice()
    }
}

// By hand, so that the drop is proved once, and not in each function that drops a message.
impl Drop for Message {
    fn drop(self) {
        let Message {
            prefix: _,
            command: _,
            params: _,
            rest: _,
        } = self;
    }
}

impl TryCopy for Message {
    fn copy(&self, alloc: Global) -> Result<Message, NoMemory> {
        Ok(Message {
            prefix: self.prefix.copy(alloc)?,
            command: self.command.copy(alloc)?,
            params: self.params.copy(alloc)?,
            rest: self.rest.copy(alloc)?,
        })
    }
}
