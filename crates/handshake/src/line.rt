// A line to be sent.
use crate::MAX_LINE;
use arrayvec::ArrayVec;
use std::marker::Model;

/// A line that a side sends, with its line feed: at most 200 bytes, without an allocation. Contracts see its bytes.
#[derive(Drop)]
pub struct HandshakeLine {
    bytes: ArrayVec<u8, MAX_LINE>,
}

impl Model for HandshakeLine {
    ghost use Rattle.std.specs.Prelude.{List, ℕ};

    ghost Value = { List ℕ };

    ghost view = { λ line. line.bytes.items };
}

impl HandshakeLine {
    ghost use Rattle.std.specs.Prelude.{◌≡◌, ◌≤◌, ◌+◌, ◌++◌, [], length};

    /// Creates a line without any bytes.
    pub fn empty() -> HandshakeLine
        ensures { result ≡ [] }
    {
        HandshakeLine {
            bytes: ArrayVec::new(),
        }
    }

    /// Returns the bytes.
    pub fn as_bytes(&self) -> &[u8]
        ensures { result.now ≡ self.now }
    {
        self.bytes.as_slice()
    }

    /// Appends `bytes`.
    pub fn put(&mut self, bytes: &[u8])
        requires { length self.old + length bytes.now ≤ MAX_LINE }
        ensures all { self.new ≡ self.old ++ bytes.now }
        ensures len { length self.new ≡ length self.old + length bytes.now }
    {
        self.bytes.try_extend_from_slice(bytes).unwrap();
    }
}
