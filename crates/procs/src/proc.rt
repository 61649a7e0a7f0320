// A body with a name, that keeps the promise of that name.
use crate::promise::Promise;
use crate::run::{Body, Run};
use bytetext::Text;
use std::marker::{Model, PhantomData};

/// A proc: a body with a name. Every answer of the body keeps what `P` promises for that name. Contracts see the name
/// and the body.
#[derive(Drop)]
pub struct Proc<P: Promise, B: Run = Body> {
    name: Text,
    pub(crate) body: B,
    promise: PhantomData<P>,
}

impl<P: Promise, B: Run> Model for Proc<P, B> {
    ghost use Rattle.procs.specs.Named.{Named};
    ghost use Rattle.procs.specs.Promises.{KeepsPromise};

    ghost Value = { Named B };

    ghost view = { λ p. record { name = p.name; body = p.body } };

    ghost invariant = { λ p. B.can_run p.body × KeepsPromise P.promised p.name (B.answers p.body) };
}

impl<P: Promise, B: Run> Proc<P, B> {
    ghost use Rattle.std.specs.Prelude.{◌≡◌};
    ghost use Rattle.procs.specs.Promises.{KeepsPromise};

    /// Creates the proc `name` with the given `body`. Any bytes are a name. Does not allocate.
    pub fn new(name: Text, body: B) -> Proc<P, B>
        // The body accepts every `Call`, whatever it sees.
        requires can_run { B.can_run body }
        // Each of its answers keeps what `P` promises for this name.
        requires keeps { KeepsPromise P.promised name (B.answers body) }
        ensures { result ≡ record { name = name; body = body } }
    {
        Proc {
            name,
            body,
            promise: PhantomData,
        }
    }

    /// Returns the name.
    pub fn name(&self) -> &[u8]
        ensures { result.now ≡ self.now.name }
    {
        self.name.as_bytes()
    }
}
