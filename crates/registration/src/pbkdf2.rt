// The salted password, derived in pieces.
ghost use Rattle.std.specs.Prelude.{◌≡◌, ◌≤◌, ◌<◌, length};
ghost use Rattle.registration.specs.Macs.{mac_len};
ghost use Rattle.registration.specs.Pbkdf2.{sum_after, u_after};

use crate::joining::joined;
use crate::mac::{Mac, combined};
use crate::mac_key::MacKey;
use crate::scram_hash::ScramHash;
use bytetext::NoMemory;
use std::alloc::Global;
use std::marker::Model;

/// A salted password that is being derived: `Hi(str, salt, i)` of RFC 5802 section 2.2, which is PBKDF2 with HMAC. Each
/// call does as many iterations as the caller says, so that a caller can spread them over its turns. An iteration takes
/// about a microsecond.
pub struct Pbkdf2 {
    key: MacKey,
    first: Mac,
    last: Mac,
    sum: Mac,
    iterations: u32,
    done: u32,
}

// Written by hand, so that the drop is proved once.
impl Drop for Pbkdf2 {
    fn drop(self) {
        let Pbkdf2 {
            key: _,
            first: _,
            last: _,
            sum: _,
            iterations: _,
            done: _,
        } = self;
    }
}

impl Model for Pbkdf2 {
    ghost use Rattle.std.specs.Prelude.{◌≡◌, ◌≤◌, ◌-◌, length};
    ghost use Rattle.registration.specs.Macs.{mac_len};
    ghost use Rattle.registration.specs.Pbkdf2.{Derivation, sum_after, u_after};

    ghost Value = { Derivation };

    ghost view = { λ d. record { key = d.key; first = d.first; iterations = d.iterations; done = d.done } };

    ghost invariant = { λ d. (1 ≤ d.done) × (d.done ≤ d.iterations) × (length d.last ≡ mac_len d.key) × (length d.sum ≡ mac_len d.key)
        × (d.last ≡ u_after d.key d.first (d.done - 1)) × (d.sum ≡ sum_after d.key d.first d.first (d.done - 1)) };
}

// The last U, and the sum of all.
#[derive(Drop)]
struct Stretched {
    last: Mac,
    sum: Mac,
}

impl Pbkdf2 {
    ghost use Rattle.std.specs.Prelude.{◌≡◌, ◌≤◌, ◌+◌, ◌==◌, IfOk, min};
    ghost use Rattle.registration.specs.Pbkdf2.{begun, sum_of};

    /// Begins to derive the salted password of `password` with `salt`, and does the first of its `iterations`.
    ///
    /// # Errors
    /// `NoMemory` if an allocation fails.
    #[tactic(auto, unfolding(crate::specs::Pbkdf2::sum_after, crate::specs::Pbkdf2::u_after))]
    pub fn new(
        alloc: Global,
        hash: ScramHash,
        password: &[u8],
        salt: &[u8],
        iterations: u32,
    ) -> Result<Pbkdf2, NoMemory>
        requires { 1 ≤ iterations }
        ensures { IfOk result (λ d. d ≡ begun hash password.now salt.now iterations) }
    {
        let key = MacKey::new(hash, password);
        let text = joined(alloc, &[salt, &[0, 0, 0, 1]])?;
        let first = key.mac(text.as_slice());
        Ok(Pbkdf2 {
            key,
            last: Mac::of(first.as_bytes()),
            sum: Mac::of(first.as_bytes()),
            first,
            iterations,
            done: 1,
        })
    }

    /// Does at most `rounds` more iterations. Allocates nothing.
    pub fn work(&mut self, rounds: u32)
        ensures { self.new ≡ record self.old { done = min (self.old.done + rounds) self.old.iterations } }
    {
        let rounds = rounds.min(self.iterations - self.done);
        let Stretched { last, sum } = stretch(
            &self.key,
            self.last.as_bytes(),
            self.sum.as_bytes(),
            rounds,
        );
        self.last = last;
        self.sum = sum;
        self.done += rounds;
    }

    /// Returns whether all iterations are done.
    pub fn is_over(&self) -> bool
        ensures { result ≡ (self.now.done == self.now.iterations) }
    {
        self.done == self.iterations
    }

    /// Returns what the iterations so far give: the salted password once all are done.
    pub fn sum(&self) -> &Mac
        ensures { result.now ≡ sum_of self.now }
    {
        &self.sum
    }
}

// Returns what `rounds` more iterations make of the `last` U and the `sum`.
#[tactic(auto, unfolding(crate::specs::Pbkdf2::sum_after, crate::specs::Pbkdf2::u_after))]
fn stretch(key: &MacKey, last: &[u8], sum: &[u8], rounds: u32) -> Stretched
    requires last { length last.now ≡ mac_len key.now }
    requires sum { length sum.now ≡ mac_len key.now }
    ensures last { result.last ≡ u_after key.now last.now rounds }
    ensures sum { result.sum ≡ sum_after key.now sum.now last.now rounds }
    ensures last_len { length result.last ≡ mac_len key.now }
    ensures sum_len { length result.sum ≡ mac_len key.now }
{
    let mut last = Mac::of(last);
    let mut sum = Mac::of(sum);
    for _round in 0..rounds {
        last = key.mac(last.as_bytes());
        sum = combined(sum.as_bytes(), last.as_bytes());
    }
    Stretched { last, sum }
}
