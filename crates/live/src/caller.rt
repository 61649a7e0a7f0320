// One connection to the small server.
use crate::peer::Peer;
use bytetext::{NoMemory, Text};
use miniircd::{Client, Pulse};
use std::alloc::Global;
use std::mem;

// The maximum length of a line that is kept, in bytes. The server takes no line longer than 510 bytes.
const MAX_LINE: usize = 512;

/// A connection to the server, and the client that the server knows it by.
#[derive(Drop)]
pub struct Caller {
    pub client: Client,
    pub peer: Peer,
    /// How long the server waits for the client.
    pub pulse: Pulse,
    // The part of a line that was read before the line's end arrived.
    line: Vec<u8>,
}

impl Caller {
    /// Creates the caller that is `client` to the server, over the connection `peer`, which was accepted at the second
    /// `now`. Never allocates.
    pub fn new(alloc: Global, client: Client, peer: Peer, now: u64) -> Caller {
        Caller {
            client,
            peer,
            pulse: Pulse::new(now),
            line: Vec::new(alloc),
        }
    }

    /// Returns the lines that have arrived whole since the last call, in order.
    ///
    /// # Errors
    /// `NoMemory` if memory cannot be allocated.
    pub fn take_lines(&mut self, alloc: Global) -> Result<Vec<Text>, NoMemory> {
        let heard = self.peer.connection.take_heard(alloc);
        cut(alloc, &mut self.line, heard.as_slice())
    }

    /// Queues `line`, with CR and LF after it.
    ///
    /// # Errors
    /// `NoMemory` if memory cannot be allocated.
    pub fn tell(&mut self, line: &[u8]) -> Result<(), NoMemory> {
        let _fits = self.peer.connection.tell(line, b"\r\n")?;
        Ok(())
    }

    /// Queues a last `line`, and marks the connection to be closed.
    ///
    /// # Errors
    /// `NoMemory` if memory cannot be allocated.
    pub fn dismiss(&mut self, line: &[u8]) -> Result<(), NoMemory> {
        self.tell(line)?;
        self.peer.connection.is_over = true;
        Ok(())
    }
}

// The lines that end in these bytes. The first of them begins with what was read of it before.
fn cut(alloc: Global, begun: &mut Vec<u8>, bytes: &[u8]) -> Result<Vec<Text>, NoMemory> {
    let mut lines = Vec::new(alloc);
    for byte in bytes {
        if *byte == b'\n' {
            let line = mem::replace(begun, Vec::new(alloc));
            lines.push(Text::new(line))?;
        } else if begun.len() < MAX_LINE {
            begun.push(*byte)?;
        }
    }
    Ok(lines)
}
