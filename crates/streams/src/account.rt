// What a stream was asked and answered, for contracts alone.
ghost use Rattle.std.specs.Prelude.{◌≡◌, ◌≤◌, length};
ghost use Rattle.std.specs.Borrow.{ftrue};
ghost use Rattle.streams.specs.Accounts.{Past, nothing_yet, noted, with_given, with_taken, with_flush};

use crate::stream::{Given, Taken, WriteFault};
use std::marker::{Model, PhantomData};

/// A record of what a stream was asked and what it answered since it was created, for implementers of
/// [`Stream`](crate::Stream).
///
/// Only contracts see it. At run time it is empty, so it allocates nothing.
#[derive(Drop)]
pub struct Account {
    marker: PhantomData<u8>,
    pub ghost past: { Past },
}

impl Model for Account {
    ghost also_owns = { λ _. ftrue };
}

impl Account {
    /// Creates the account of a stream that was asked nothing yet.
    pub fn new() -> Account
        ensures { result.past ≡ nothing_yet }
    {
        Account {
            marker: PhantomData,
        }
    }

    /// Notes `answer`, the stream's answer when it was asked for bytes. The bytes that it gave are at the front of
    /// `buffer`.
    pub fn note_given(&mut self, answer: Given, buffer: &[u8])
        ensures { self.new.past ≡ with_given self.old.past answer buffer.now }
    {
        match answer {
            Given::Bytes(count) => self.note(&[0, count as u64], buffer),
            Given::End => self.note(&[1, 0], buffer),
            Given::Stall => self.note(&[2, 0], buffer),
            Given::Fault => self.note(&[3, 0], buffer),
        }
    }

    /// Notes `answer`, the stream's answer when it was offered `bytes`.
    pub fn note_taken(&mut self, answer: Taken, bytes: &[u8])
        ensures { self.new.past ≡ with_taken self.old.past answer bytes.now }
    {
        match answer {
            Taken::Bytes(count) => self.note(&[4, count as u64], bytes),
            Taken::Nothing => self.note(&[5, 0], bytes),
            Taken::Fault => self.note(&[6, 0], bytes),
        }
    }

    /// Notes `answer`, the outcome of a flush.
    pub fn note_flush(&mut self, answer: Result<(), WriteFault>)
        ensures { self.new.past ≡ with_flush self.old.past answer }
    {
        match answer {
            Ok(()) => self.note(&[7, 0], &[]),
            Err(WriteFault) => self.note(&[8, 0], &[]),
        }
    }

    // Notes an event. The first of `_numbers` is its kind: 0 to 3 for the answers when a stream is asked for bytes, 4
    // to 6 when it is offered bytes, 7 and 8 for a flush. The second is how many of `_bytes` the stream gave or took.
    fn note(&mut self, _numbers: &[u64], _bytes: &[u8])
        ensures { self.new.past ≡ noted _numbers.now _bytes.now self.old.past }
    {}
}
