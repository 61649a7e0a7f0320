// A reader and a writer as one stream.
ghost use Rattle.std.specs.Prelude.{◌≡◌};
ghost use Rattle.streams.specs.Accounts.{nothing_yet};

use crate::account::Account;
use crate::answers::{ask, offer};
use crate::stream::{Given, Stream, Taken, WriteFault};
use std::io::{Read, Write};

/// Any reader and any writer as one stream. Either may be borrowed: `Duplex::new(&mut reader, &mut writer)`.
///
/// A reader's `WouldBlock` or `NotConnected` becomes a [`Given::Stall`]. A writer's `WouldBlock` or `NotConnected`, or a
/// write of no bytes, becomes [`Taken::Nothing`]. After `Interrupted` the call is made again. Any other error is a fault,
/// and so is any error of a flush.
///
/// ```text
/// let mut stream = Duplex::new(file, Vec::new(alloc));
/// ```
#[derive(Drop)]
pub struct Duplex<R, W> {
    /// The side that gives bytes.
    pub reader: R,
    /// The side that takes bytes.
    pub writer: W,
    account: Account,
}

impl<R: Read, W: Write> Duplex<R, W> {
    /// Creates a stream that reads from `reader` and writes to `writer`. Allocates nothing.
    pub fn new(reader: R, writer: W) -> Duplex<R, W>
        ensures reader { result.reader ≡ reader }
        ensures writer { result.writer ≡ writer }
        ensures past { result.account.past ≡ nothing_yet }
    {
        Duplex {
            reader,
            writer,
            account: Account::new(),
        }
    }
}

impl<R: Read, W: Write> Stream for Duplex<R, W> {
    ghost source = { λ stream. record { left = R.remaining stream.reader; past = stream.account.past.giving } };

    ghost sink = { λ stream. record { holds = W.contents stream.writer; past = stream.account.past.taking } };

    fn give(&mut self, buffer: &mut [u8]) -> Given {
        let answer = ask(&mut self.reader, buffer);
        self.account.note_given(answer, buffer);
        answer
    }

    fn take(&mut self, bytes: &[u8]) -> Taken {
        let answer = offer(&mut self.writer, bytes);
        self.account.note_taken(answer, bytes);
        answer
    }

    fn flush(&mut self) -> Result<(), WriteFault> {
        let answer = match self.writer.flush() {
            Ok(()) => Ok(()),
            Err(_) => Err(WriteFault),
        };
        self.account.note_flush(answer);
        answer
    }
}
