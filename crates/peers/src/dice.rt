// The nonces of a bot's handshakes, and which of them were rolled.
ghost use Rattle.std.specs.Prelude.{◌≡◌, ◌∷◌, ◌++◌, [], ℕ, List, IfOk, OnErr};
ghost use Rattle.std.specs.Borrow.{ftrue};

use handshake::Nonce;
use std::io;
use std::marker::Model;
use std::random::RandomSource;

/// Dice that roll nonces, with an account of all that they rolled, the newest last.
///
/// Only contracts see the account. At run time it is empty, so it allocates nothing.
#[derive(Drop)]
pub struct Dice {
    pub ghost rolled: { List (List ℕ) },
}

impl Model for Dice {
    ghost also_owns = { λ _. ftrue };
}

impl Dice {
    /// Creates dice that rolled nothing yet.
    pub fn new() -> Dice
        ensures { result.rolled ≡ [] }
    {
        Dice {}
    }

    /// Rolls a nonce: draws it from random bytes of the system, which `rt` gives.
    ///
    /// # Errors
    /// The system's error, if it gives no random bytes.
    pub fn roll<R: RandomSource>(&mut self, rt: &R) -> io::Result<Nonce>
        ensures rolled { IfOk result (λ nonce. self.new.rolled ≡ self.old.rolled ++ nonce ∷ []) }
        ensures none { OnErr result (self.new.rolled ≡ self.old.rolled) }
    {
        let nonce = Nonce::draw(rt)?;
        self.note(&nonce);
        Ok(nonce)
    }

    // Notes that `nonce` was rolled.
    fn note(&mut self, nonce: &Nonce)
        ensures { self.new.rolled ≡ self.old.rolled ++ nonce.now ∷ [] }
    {
        *self = self.after(nonce);
    }

    // The dice after one more roll.
    fn after<A>(&self, _nonce: &A) -> Dice
        ghost roll: { List ℕ }
        ensures { result.rolled ≡ self.now.rolled ++ roll ∷ [] }
    {
        Dice {}
    }
}
