// A secret that both ends know, for HMAC with SHA-512. `sealing` has that for SHA-256.
ghost use Rattle.std.specs.Prelude.{◌≡◌, ◌≤◌, ◌++◌, drop, length};
ghost use Rattle.sha2.specs.Sha512.{sha512};
ghost use Rattle.sealing.specs.Hmac.{xored};
ghost use Rattle.registration.specs.WideHmac.{wide_padded};

use sha2::{Digest as _, Sha512};
use std::marker::Model;

// The number of bytes in a block of SHA-512.
const BLOCK: usize = 128;

/// A secret that both ends know, prepared for HMAC with SHA-512. Contracts see the block that RFC 2104 makes of it.
#[derive(Clone, Copy)]
pub struct WideKey {
    block: [u8; BLOCK],
}

impl Model for WideKey {
    ghost use Rattle.std.specs.Prelude.{List, ℕ};

    ghost Value = { List ℕ };

    ghost view = { λ key. key.block };

    ghost inverse = { λ block. record { block = block } };
}

impl WideKey {
    ghost use Rattle.std.specs.Prelude.{◌≡◌};
    ghost use Rattle.registration.specs.WideHmac.{wide_block_of, wide_hmac_of};

    // Creates the key of `secret`, which may have any length.
    pub(crate) fn new(secret: &[u8]) -> WideKey
        ensures { result ≡ wide_block_of secret.now }
    {
        let block = if secret.len() > BLOCK {
            padded(&Sha512::digest(secret))
        } else {
            padded(secret)
        };
        WideKey { block }
    }

    // Returns the HMAC of `text` with SHA-512 under this key (RFC 2104).
    #[tactic(auto, unfolding(crate::specs::WideHmac::wide_hmac_of))]
    pub(crate) fn mac(&self, text: &[u8]) -> [u8; 64]
        ensures { result ≡ wide_hmac_of self.now text.now }
    {
        let mut inner = Sha512::new();
        inner.update(xored(&self.block, 0x36));
        inner.update(text);
        outer(&self.block, inner.finalize())
    }
}

// The outer of the two digests: that of the block, combined with its byte, and the inner digest.
fn outer(block: &[u8; BLOCK], inner: [u8; 64]) -> [u8; 64]
    ensures { result ≡ sha512 (xored 0x5c block.now ++ inner) }
{
    let mut outer = Sha512::new();
    outer.update(xored(block, 0x5c));
    outer.update(inner);
    outer.finalize()
}

// These bytes, followed by zeros.
fn padded(bytes: &[u8]) -> [u8; BLOCK]
    requires { length bytes.now ≤ BLOCK }
    ensures { result ≡ wide_padded bytes.now }
{
    let mut block = [0; BLOCK];
    put_front(&mut block, bytes);
    block
}

// Overwrites the first bytes of `block` with `bytes`.
fn put_front(block: &mut [u8], bytes: &[u8])
    requires { length bytes.now ≤ length block.old }
    ensures { block.new ≡ bytes.now ++ drop (length bytes.now) block.old }
{
    block[..bytes.len()].copy_from_slice(bytes);
}

// The exclusive or of each byte of `block` with `byte`.
fn xored(block: &[u8; BLOCK], byte: u8) -> [u8; BLOCK]
    ensures { result ≡ xored byte block.now }
{
    let mut xored = *block;
    for place in xored.iter_mut() {
        *place ^= byte;
    }
    xored
}
