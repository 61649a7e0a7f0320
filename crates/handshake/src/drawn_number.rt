// Numbers that are drawn once and kept.
ghost use Rattle.std.specs.Prelude.{◌≡◌};
ghost use Rattle.handshake.specs.Nets.{may_be_of};

use crate::digits::are_digits;
use hex::encode_to_slice;
use std::io;
use std::marker::Model;
use std::random::RandomSource;

/// The number of a net or of a bot's folder, as 16 hexadecimal digits. Contracts see the digits.
///
/// A net's number is drawn when its hub is created, and each leaf keeps the number of its first hub. So a leaf does not
/// take a hub that was created again for the earlier one, whose changes the new hub lacks. A folder's number is drawn
/// when the folder is created. By it the hub tells one machine from another that shows the same leaf's number.
#[derive(Clone, Copy)]
pub struct DrawnNumber {
    digits: [u8; 16],
}

impl Model for DrawnNumber {
    ghost use Rattle.std.specs.Prelude.{List, ℕ};

    ghost Value = { List ℕ };

    ghost view = { λ number. number.digits };

    ghost inverse = { λ digits. record { digits = digits } };
}

impl DrawnNumber {
    ghost use Rattle.std.specs.Prelude.{◌≡◌, ◌↔◌, IsTrue, length};
    ghost use Rattle.hex.specs.Hex.{encode_lower};
    ghost use Rattle.handshake.specs.Digits.{digits_in};

    /// Draws a number from random bytes of the system, which `rt` gives.
    ///
    /// # Errors
    /// The system's error, if it gives no random bytes.
    pub fn draw(rt: &impl RandomSource) -> io::Result<DrawnNumber> {
        let mut bytes = [0; 8];
        rt.fill_bytes(&mut bytes)?;
        Ok(DrawnNumber::of(bytes))
    }

    /// Creates the number from `bytes`.
    pub fn of(bytes: [u8; 8]) -> DrawnNumber
        ensures { result ≡ encode_lower bytes }
    {
        let mut digits = [0; 16];
        encode_to_slice(bytes, &mut digits).unwrap();
        DrawnNumber { digits }
    }

    /// Parses `word`, which must be 16 digits.
    pub fn read(word: &[u8]) -> Option<DrawnNumber>
        ensures { result ≡ digits_in 16 word.now }
    {
        if !are_digits(16, word) {
            return None;
        }
        let mut digits = [0; 16];
        digits.copy_from_slice(word);
        Some(DrawnNumber { digits })
    }

    /// Returns the digits.
    pub fn as_bytes(&self) -> &[u8]
        ensures digits { result.now ≡ self.now }
        ensures len { length result.now ≡ 16 }
    {
        &self.digits
    }

    /// Whether `other` is the same number.
    pub fn is_same(&self, other: &DrawnNumber) -> bool
        ensures { IsTrue result ↔ (self.now ≡ other.now) }
    {
        self.digits == other.digits
    }
}

/// Whether a bot that keeps the number `kept`, or none, may belong to `net`.
pub fn may_be_of(net: &DrawnNumber, kept: &Option<DrawnNumber>) -> bool
    ensures { result ≡ may_be_of net.now kept.now }
{
    match kept {
        Some(kept) => kept.is_same(net),
        None => true,
    }
}
