// Random texts of digits.
use crate::digits::are_digits;
use hex::encode_to_slice;
use std::io;
use std::marker::Model;
use std::random::RandomSource;

/// A text that is sent once: 16 random bytes as 32 hexadecimal digits. Contracts see the digits.
#[derive(Clone, Copy)]
pub struct Nonce {
    digits: [u8; 32],
}

impl Model for Nonce {
    ghost use Rattle.std.specs.Prelude.{List, ℕ};

    ghost Value = { List ℕ };

    ghost view = { λ nonce. nonce.digits };

    ghost inverse = { λ digits. record { digits = digits } };
}

impl Nonce {
    ghost use Rattle.std.specs.Prelude.{◌≡◌, length};
    ghost use Rattle.hex.specs.Hex.{encode_lower};
    ghost use Rattle.handshake.specs.Digits.{digits_in};

    /// Draws a nonce from random bytes of the system, which `rt` gives.
    ///
    /// # Errors
    /// The system's error, if it gives no random bytes.
    pub fn draw(rt: &impl RandomSource) -> io::Result<Nonce> {
        let mut bytes = [0; 16];
        rt.fill_bytes(&mut bytes)?;
        Ok(Nonce::of(bytes))
    }

    /// Creates the nonce from `bytes`.
    pub fn of(bytes: [u8; 16]) -> Nonce
        ensures { result ≡ encode_lower bytes }
    {
        let mut digits = [0; 32];
        encode_to_slice(bytes, &mut digits).unwrap();
        Nonce { digits }
    }

    /// Parses `word`, which must be 32 digits.
    pub fn read(word: &[u8]) -> Option<Nonce>
        ensures { result ≡ digits_in 32 word.now }
    {
        if !are_digits(32, word) {
            return None;
        }
        let mut digits = [0; 32];
        digits.copy_from_slice(word);
        Some(Nonce { digits })
    }

    /// Returns the digits.
    pub fn as_bytes(&self) -> &[u8]
        ensures digits { result.now ≡ self.now }
        ensures len { length result.now ≡ 32 }
    {
        &self.digits
    }
}
