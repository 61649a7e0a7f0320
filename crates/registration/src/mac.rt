// The bytes that a hash or an HMAC gives.
ghost use Rattle.std.specs.Prelude.{◌≡◌, ◌≤◌, length};
ghost use Rattle.registration.specs.Macs.{combined};

use arrayvec::ArrayVec;
use std::marker::Model;

// The most bytes of a hash.
pub(crate) const MAX_MAC: usize = 64;

/// What a hash or an HMAC gives: at most 64 bytes, without an allocation. Contracts see the bytes.
#[derive(Drop)]
pub struct Mac {
    bytes: ArrayVec<u8, MAX_MAC>,
}

impl Model for Mac {
    ghost use Rattle.std.specs.Prelude.{List, ℕ};

    ghost Value = { List ℕ };

    ghost view = { λ mac. mac.bytes.items };
}

impl Mac {
    ghost use Rattle.std.specs.Prelude.{◌≡◌, ◌≤◌, length};

    // These bytes.
    pub(crate) fn of(bytes: &[u8]) -> Mac
        requires { length bytes.now ≤ MAX_MAC }
        ensures { result ≡ bytes.now }
    {
        let mut copy = ArrayVec::new();
        copy.try_extend_from_slice(bytes).unwrap();
        Mac { bytes: copy }
    }

    /// Returns the bytes.
    pub fn as_bytes(&self) -> &[u8]
        ensures { result.now ≡ self.now }
    {
        self.bytes.as_slice()
    }
}

// The exclusive or of two strings of one length, octet by octet.
pub(crate) fn combined(left: &[u8], right: &[u8]) -> Mac
    requires long { length left.now ≤ MAX_MAC }
    requires same { length right.now ≡ length left.now }
    ensures value { result ≡ combined left.now right.now }
    ensures len { length result ≡ length left.now }
{
    let mut bytes: ArrayVec<u8, MAX_MAC> = ArrayVec::new();
    for (i, byte) in left.iter().enumerate() {
        bytes.push(*byte ^ right[i]);
    }
    Mac { bytes }
}
