// A scripted stream.
ghost use Rattle.std.specs.Prelude.{None};

use streams::{Account, Given, Stream, Taken, WriteFault};

/// What a puppet answers when it has no bytes to give.
#[derive(Clone, Copy)]
pub enum Silence {
    /// The end.
    End,
    /// That it would block.
    Stall,
    /// That it failed.
    Fault,
}

/// A scripted stream: it gives the bytes that are set, and takes as many as are set.
#[derive(Drop)]
pub struct Puppet {
    /// What it gives next.
    pub bytes: Vec<u8>,
    /// What it answers after these.
    pub silence: Silence,
    /// How many bytes it takes next.
    pub room: usize,
    /// Whether it fails when it is asked to take bytes.
    pub is_broken: bool,
    account: Account,
}

impl Puppet {
    /// Creates a stream that gives `bytes` and then stalls, and takes none.
    pub fn new(bytes: Vec<u8>) -> Puppet {
        Puppet {
            bytes,
            silence: Silence::Stall,
            room: 0,
            is_broken: false,
            account: Account::new(),
        }
    }
}

impl Stream for Puppet {
    ghost use Rattle.std.specs.Prelude.{None};

    ghost source = { λ stream. record { left = None; past = stream.account.past.giving } };

    ghost sink = { λ stream. record { holds = None; past = stream.account.past.taking } };

    fn give(&mut self, buffer: &mut [u8]) -> Given {
        let count = self.bytes.len().min(buffer.len());
        let answer = if count > 0 {
            Given::Bytes(count)
        } else {
            match self.silence {
                Silence::End => Given::End,
                Silence::Stall => Given::Stall,
                Silence::Fault => Given::Fault,
            }
        };
        buffer[..count].copy_from_slice(&self.bytes[..count]);
        let _given = self.bytes.drain(..count);
        self.account.note_given(answer, buffer);
        answer
    }

    fn take(&mut self, bytes: &[u8]) -> Taken {
        let count = self.room.min(bytes.len());
        let answer = if self.is_broken {
            Taken::Fault
        } else if count > 0 {
            Taken::Bytes(count)
        } else {
            Taken::Nothing
        };
        self.account.note_taken(answer, bytes);
        answer
    }

    fn flush(&mut self) -> Result<(), WriteFault> {
        self.account.note_flush(Ok(()));
        Ok(())
    }
}
