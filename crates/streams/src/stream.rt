// A stream: it gives bytes and takes bytes.
ghost use Rattle.std.specs.Prelude.{◌≡◌, ◌<◌, length};
ghost use Rattle.streams.specs.State.{Source, Sink};
ghost use Rattle.streams.specs.Calls.{Gives, Takes, Flushes};

use thiserror::Error;

/// What a stream answers when it is asked for bytes.
#[derive(Clone, Copy, Debug, PartialEq, Eq)]
pub enum Given {
    /// This many bytes, at least one, at the front of the buffer.
    Bytes(usize),
    /// No bytes: the stream is at its end.
    End,
    /// No bytes yet: the stream would block.
    Stall,
    /// No bytes: the stream failed.
    Fault,
}

/// What a stream answers when it is offered bytes.
#[derive(Clone, Copy, Debug, PartialEq, Eq)]
pub enum Taken {
    /// The stream took this many bytes from the front, at least one.
    Bytes(usize),
    /// The stream took no bytes and did not fail: it has no room, or would block.
    Nothing,
    /// The stream took no bytes: it failed.
    Fault,
}

/// A stream failed, or took none of the bytes that it was offered.
#[derive(Clone, Copy, Debug, PartialEq, Eq, Error)]
#[error("the stream takes no more: connect again")]
pub struct WriteFault;

/// A source and a sink of bytes, with an account of both.
///
/// The two sides are independent: giving bytes changes nothing on the side that takes, and taking changes nothing on
/// the side that gives.
pub trait Stream {
    /// What the stream has left to give, if that is known, and what it was asked for and gave so far.
    ghost source: { Self → Source };
    /// What the destination holds, if that is known, and what the stream was offered and took so far.
    ghost sink: { Self → Sink };

    /// Asks the stream once for bytes, and puts them at the front of `buffer`. An interruption is no answer: an
    /// implementation must ask again.
    fn give(&mut self, buffer: &mut [u8]) -> Given
        requires { 0 < length buffer.old }
        ensures gives { Gives (source self.old) result buffer.new (source self.new) }
        ensures other { sink self.new ≡ sink self.old };

    /// Offers `bytes` to the stream once. An interruption is no answer: an implementation must offer them again.
    fn take(&mut self, bytes: &[u8]) -> Taken
        requires { 0 < length bytes.now }
        ensures takes { Takes (sink self.old) result bytes.now (sink self.new) }
        ensures other { source self.new ≡ source self.old };

    /// Sends the bytes that the stream took on to their destination.
    ///
    /// # Errors
    /// Returns `WriteFault` if the stream fails. The bytes may or may not have been sent on.
    fn flush(&mut self) -> Result<(), WriteFault>
        ensures flushes { Flushes (sink self.old) result (sink self.new) }
        ensures other { source self.new ≡ source self.old };
}
