// Where answers are written.
ghost use Rattle.std.specs.Prelude.{◌≡◌, true, IfOk, OnErr};

use bytetext::NoMemory;
use flagexpr::Flags;
use itoa::Buffer;
use std::alloc::Global;

/// The answers so far. If an allocation fails, [`Sink::into_bytes`] reports it at the end.
#[derive(Drop)]
pub struct Sink {
    bytes: Vec<u8>,
    refused: bool,
}

impl Sink {
    /// Creates a sink without an answer. Does not allocate.
    pub fn new(alloc: Global) -> Sink {
        Sink {
            bytes: Vec::new(alloc),
            refused: false,
        }
    }

    /// Writes `text`: printable ASCII as it is, and each other byte as `\x` and two hexadecimal digits.
    pub fn put(&mut self, text: &[u8]) {
        for byte in text {
            match *byte {
                b' '..=b'~' => self.push(*byte),
                other => self.push_hex(other),
            }
        }
    }

    /// Writes a space, and `text` between single quotes.
    pub fn quoted(&mut self, text: &[u8]) {
        self.put(b" '");
        self.put(text);
        self.put(b"'");
    }

    /// Writes `value` in decimal digits.
    pub fn number(&mut self, value: u64) {
        let mut buffer = Buffer::new();
        self.put(buffer.format(value).as_bytes());
    }

    /// Writes each of `bytes` as two hexadecimal digits.
    pub fn hex(&mut self, bytes: &[u8]) {
        for byte in bytes {
            self.push_digits(*byte);
        }
    }

    /// Writes `flags` as letters, or `-` if there are none.
    pub fn flags(&mut self, alloc: Global, flags: Flags) {
        match flags.text(alloc) {
            Ok(letters) => self.put(letters.as_bytes()),
            Err(NoMemory) => self.refused = true,
        }
    }

    /// Writes `text` if `holds`.
    pub fn put_if(&mut self, holds: bool, text: &[u8]) {
        if holds {
            self.put(text);
        }
    }

    /// Writes `text` before the part of a list at `place`, unless that is 0, the first.
    pub fn between(&mut self, text: &[u8], place: usize) {
        self.put_if(place > 0, text);
    }

    /// Ends a line.
    pub fn end_line(&mut self) {
        self.push(b'\n');
    }

    /// Returns all that was written.
    ///
    /// # Errors
    /// `NoMemory` if an allocation failed, and never otherwise.
    pub fn into_bytes(self) -> Result<Vec<u8>, NoMemory>
        ensures all { IfOk result (λ bytes. bytes ≡ self.bytes) }
        ensures memory { OnErr result (self.refused ≡ true) }
    {
        match self.refused {
            true => Err(NoMemory),
            false => Ok(self.bytes),
        }
    }

    fn push_hex(&mut self, byte: u8) {
        self.push(b'\\');
        self.push(b'x');
        self.push_digits(byte);
    }

    fn push_digits(&mut self, byte: u8) {
        self.push(digit(byte / 16));
        self.push(digit(byte % 16));
    }

    fn push(&mut self, byte: u8) {
        if self.bytes.push(byte).is_err() {
            self.refused = true;
        }
    }
}

fn digit(value: u8) -> u8 {
    match value {
        0..=9 => b'0' + value,
        _ => b'a' + value % 16 - 10,
    }
}
