// A secret that both ends know, and the codes and tags made with it.
ghost use Rattle.std.specs.Prelude.{◌≡◌, ◌≤◌, ◌++◌, drop, length, take};
ghost use Rattle.sha2.specs.Sha256.{sha256};
ghost use Rattle.hex.specs.Hex.{encode_lower};
ghost use Rattle.sealing.specs.Hmac.{xored, padded};

use crate::limits::TAG;
use hex::encode_to_slice;
use sha2::{Digest as _, Sha256};
use std::marker::Model;

// The number of bytes in a block of SHA-256.
const BLOCK: usize = 64;

/// A secret that both ends know, prepared for computing codes and tags. Contracts see the block that RFC 2104 makes of
/// it.
#[derive(Clone, Copy)]
pub struct Key {
    block: [u8; BLOCK],
}

impl Model for Key {
    ghost use Rattle.std.specs.Prelude.{List, ℕ};

    ghost Value = { List ℕ };

    ghost view = { λ key. key.block };

    ghost inverse = { λ block. record { block = block } };
}

impl Key {
    ghost use Rattle.std.specs.Prelude.{◌≡◌};
    ghost use Rattle.hex.specs.Hex.{encode_lower};
    ghost use Rattle.sealing.specs.Hmac.{block_of, hmac_of};
    ghost use Rattle.sealing.specs.Records.{tag_of};

    /// Creates the key of `secret`, which may have any length. More than 64 bytes are no better than 32.
    pub fn new(secret: &[u8]) -> Key
        ensures { result ≡ block_of secret.now }
    {
        let block = if secret.len() > BLOCK {
            padded(&Sha256::digest(secret))
        } else {
            padded(secret)
        };
        Key { block }
    }

    /// Returns the HMAC of `text` with SHA-256 under this key (RFC 2104).
    #[tactic(auto, unfolding(crate::specs::Hmac::hmac_of))]
    pub fn mac(&self, text: &[u8]) -> [u8; 32]
        ensures { result ≡ hmac_of self.now text.now }
    {
        let mut inner = Sha256::new();
        inner.update(xored(&self.block, 0x36));
        inner.update(text);
        outer(&self.block, inner.finalize())
    }

    /// Returns the code of `text`: its HMAC under this key, as 64 hexadecimal digits.
    pub fn code(&self, text: &[u8]) -> [u8; 64]
        ensures { result ≡ encode_lower (hmac_of self.now text.now) }
    {
        digits_of(self.mac(text))
    }

    /// Returns the tag of the record of `count` with `body`: the first 16 bytes of the HMAC of both under this key. The
    /// count stands first, in 8 bytes, the most significant one first.
    #[tactic(auto, unfolding(crate::specs::Hmac::hmac_of))]
    pub fn tag(&self, count: u64, body: &[u8]) -> [u8; TAG]
        ensures { result ≡ tag_of self.now count body.now }
    {
        let mut inner = Sha256::new();
        inner.update(xored(&self.block, 0x36));
        inner.update(count.to_be_bytes());
        inner.update(body);
        front(&outer(&self.block, inner.finalize()))
    }
}

// The outer of the two digests: that of the block, combined with its byte, and the inner digest.
fn outer(block: &[u8; BLOCK], inner: [u8; 32]) -> [u8; 32]
    ensures { result ≡ sha256 (xored 0x5c block.now ++ inner) }
{
    let mut outer = Sha256::new();
    outer.update(xored(block, 0x5c));
    outer.update(inner);
    outer.finalize()
}

// The first bytes of a digest, as many as a tag has.
fn front(digest: &[u8; 32]) -> [u8; TAG]
    ensures { result ≡ take TAG digest.now }
{
    let mut tag = [0; TAG];
    tag.copy_from_slice(&digest[..TAG]);
    tag
}

// These bytes, followed by zeros.
fn padded(bytes: &[u8]) -> [u8; BLOCK]
    requires { length bytes.now ≤ BLOCK }
    ensures { result ≡ padded bytes.now }
{
    let mut block = [0; BLOCK];
    put_front(&mut block, bytes);
    block
}

// Overwrites the first bytes of `block` with `bytes`.
fn put_front(block: &mut [u8], bytes: &[u8])
    requires { length bytes.now ≤ length block.old }
    ensures { block.new ≡ bytes.now ++ drop (length bytes.now) block.old }
{
    block[..bytes.len()].copy_from_slice(bytes);
}

// The exclusive or of each byte of `block` with `byte`.
fn xored(block: &[u8; BLOCK], byte: u8) -> [u8; BLOCK]
    ensures { result ≡ xored byte block.now }
{
    let mut xored = *block;
    for place in xored.iter_mut() {
        *place ^= byte;
    }
    xored
}

// A digest as hexadecimal digits.
fn digits_of(digest: [u8; 32]) -> [u8; 64]
    ensures { result ≡ encode_lower digest }
{
    let mut digits = [0; 64];
    encode_to_slice(digest, &mut digits).unwrap();
    digits
}
