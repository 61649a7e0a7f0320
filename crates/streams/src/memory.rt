// Bytes in memory as a stream.
ghost use Rattle.std.specs.Prelude.{◌≡◌, Some};
ghost use Rattle.streams.specs.Accounts.{nothing_yet};

use crate::account::Account;
use crate::stream::{Given, Stream, Taken, WriteFault};

/// A stream that gives the bytes of a slice, and appends the bytes that it takes to a `Vec`. It never stalls, never
/// fails to give bytes and never answers [`Taken::Nothing`]. It fails to take bytes only if memory runs out.
///
/// ```text
/// let mut stream = Memory::new(b"PING :a\r\n", &mut unsent);
/// ```
#[derive(Drop)]
pub struct Memory<'a> {
    /// The bytes that are left to give.
    pub bytes: &'a [u8],
    /// The bytes that it holds.
    pub taken: &'a mut Vec<u8>,
    account: Account,
}

impl<'a> Memory<'a> {
    /// Creates a stream that gives `bytes` and appends what it takes to `taken`. Allocates nothing.
    pub fn new(bytes: &'a [u8], taken: &'a mut Vec<u8>) -> Memory<'a>
        ensures bytes { result.bytes.now ≡ bytes.now }
        ensures past { result.account.past ≡ nothing_yet }
    {
        Memory {
            bytes,
            taken,
            account: Account::new(),
        }
    }
}

impl Stream for Memory<'_> {
    ghost use Rattle.std.specs.Prelude.{Some};

    // A `Memory` never stalls and never fails to give.
    ghost source = { λ stream. record {
      left = Some stream.bytes.now;
      past = record stream.account.past.giving { stalls = 0; failures = 0 };
    } };

    ghost sink = { λ stream. record { holds = Some stream.taken.now.items; past = stream.account.past.taking } };

    fn give(&mut self, buffer: &mut [u8]) -> Given {
        let count = self.bytes.len().min(buffer.len());
        let answer = if count == 0 {
            Given::End
        } else {
            Given::Bytes(count)
        };
        let (front, rest) = self.bytes.split_at(count);
        buffer[..count].copy_from_slice(front);
        self.bytes = rest;
        self.account.note_given(answer, buffer);
        answer
    }

    fn take(&mut self, bytes: &[u8]) -> Taken {
        let answer = match self.taken.extend_from_slice(bytes) {
            Ok(()) => Taken::Bytes(bytes.len()),
            Err(_) => Taken::Fault,
        };
        self.account.note_taken(answer, bytes);
        answer
    }

    fn flush(&mut self) -> Result<(), WriteFault> {
        self.account.note_flush(Ok(()));
        Ok(())
    }
}
