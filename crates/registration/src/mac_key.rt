// H() and HMAC() of a SCRAM mechanism.
ghost use Rattle.std.specs.Prelude.{◌≡◌, length};
ghost use Rattle.registration.specs.Macs.{hash_len, hash_of, hmac, key_of, mac_len, mac_of};

use crate::mac::Mac;
use crate::scram_hash::ScramHash;
use crate::wide_key::WideKey;
use sealing::Key;
use sha2::{Digest as _, Sha256, Sha512};

/// A secret, prepared for the HMAC of a SCRAM mechanism.
#[derive(Clone, Copy)]
pub enum MacKey {
    /// For HMAC with SHA-256.
    Sha256(Key),
    /// For HMAC with SHA-512.
    Sha512(WideKey),
}

impl MacKey {
    // Creates the key of `secret`, which may have any length.
    pub(crate) fn new(hash: ScramHash, secret: &[u8]) -> MacKey
        ensures key { result ≡ key_of hash secret.now }
        ensures len { mac_len result ≡ hash_len hash }
    {
        match hash {
            ScramHash::Sha256 => MacKey::Sha256(Key::new(secret)),
            ScramHash::Sha512 => MacKey::Sha512(WideKey::new(secret)),
        }
    }

    // Returns the HMAC of `text` under this key.
    pub(crate) fn mac(&self, text: &[u8]) -> Mac
        ensures value { result ≡ mac_of self.now text.now }
        ensures len { length result ≡ mac_len self.now }
    {
        match self {
            MacKey::Sha256(key) => Mac::of(&key.mac(text)),
            MacKey::Sha512(key) => Mac::of(&key.mac(text)),
        }
    }
}

// Returns the HMAC of `text` under the key of `secret`.
pub(crate) fn hmac(hash: ScramHash, secret: &[u8], text: &[u8]) -> Mac
    ensures value { result ≡ hmac hash secret.now text.now }
    ensures len { length result ≡ hash_len hash }
{
    MacKey::new(hash, secret).mac(text)
}

// Returns the hash of `text`.
pub(crate) fn hash_of(hash: ScramHash, text: &[u8]) -> Mac
    ensures value { result ≡ hash_of hash text.now }
    ensures len { length result ≡ hash_len hash }
{
    match hash {
        ScramHash::Sha256 => Mac::of(&Sha256::digest(text)),
        ScramHash::Sha512 => Mac::of(&Sha512::digest(text)),
    }
}
