// The key by which a person is counted and ignored.
ghost use Rattle.std.specs.Prelude.{◌≡◌, []};
ghost use Rattle.floods.specs.Acts.{key_from, key_of, longer_key};

use arrayvec::ArrayVec;
use rfccase::{Casemapping, fold_by};
use std::marker::Model;

/// The most bytes of a key. Of a longer one the first bytes count. Servers allow some 63 bytes of a host, and fewer of
/// a user.
pub(crate) const MAX_KEY: usize = 127;

/// The key by which a person is counted and ignored: `user@host`, in the lower case of ASCII, and of that at most 127
/// bytes.
#[derive(Drop)]
pub struct FloodKey {
    bytes: ArrayVec<u8, MAX_KEY>,
}

impl Model for FloodKey {
    ghost use Rattle.std.specs.Prelude.{List, ℕ};

    ghost Value = { List ℕ };

    ghost view = { λ k. k.bytes.items };
}

impl FloodKey {
    // The key of a person with this user and host.
    pub(crate) fn new(user: &[u8], host: &[u8]) -> FloodKey
        ensures { result ≡ key_of user.now host.now }
    {
        let mut key = FloodKey {
            bytes: ArrayVec::new(),
        };
        key.extend(user);
        key.push(b'@');
        key.extend(host);
        key
    }

    /// Returns the bytes.
    pub fn as_bytes(&self) -> &[u8]
        ensures { result.now ≡ self.now }
    {
        self.bytes.as_slice()
    }

    // Appends the lower case of these bytes, as long as there is room.
    fn extend(&mut self, bytes: &[u8])
        ensures { self.new ≡ key_from self.old bytes.now }
    {
        for byte in bytes {
            self.push(*byte);
        }
    }

    // Appends the lower case of `byte` if there is room.
    fn push(&mut self, byte: u8)
        ensures { self.new ≡ longer_key self.old byte }
    {
        if self.bytes.len() < MAX_KEY {
            self.bytes.push(fold_by(Casemapping::Ascii, byte));
        }
    }
}
