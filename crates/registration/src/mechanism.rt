// The mechanisms of a login.
ghost use Rattle.std.specs.Prelude.{◌≡◌};
ghost use Rattle.registration.specs.Sets.{mechanism_name};

use crate::lists::has_item;

/// A mechanism of a login by SASL, in the order in which they are tried.
#[derive(Clone, Copy, Debug, PartialEq, Eq)]
pub enum Mechanism {
    /// SCRAM-SHA-512: each side shows the other that it knows the password.
    ScramSha512,
    /// SCRAM-SHA-256 (RFC 7677).
    ScramSha256,
    /// EXTERNAL (RFC 4422): the client's certificate shows who it is.
    External,
    /// PLAIN (RFC 4616): the client says the password.
    Plain,
}

/// A set of mechanisms.
#[derive(Clone, Copy)]
pub struct Mechanisms {
    /// Whether SCRAM-SHA-512 is among them.
    pub scram_sha_512: bool,
    /// Whether SCRAM-SHA-256 is.
    pub scram_sha_256: bool,
    /// Whether EXTERNAL is.
    pub external: bool,
    /// Whether PLAIN is.
    pub plain: bool,
}

impl Mechanisms {
    ghost use Rattle.std.specs.Prelude.{◌≡◌};
    ghost use Rattle.registration.specs.Sets.{all_mechanisms, both_mechanisms, either_mechanisms, first_mechanism, mechanisms_in, without_mechanism};

    // All mechanisms.
    pub(crate) fn all() -> Mechanisms
        ensures { result ≡ all_mechanisms }
    {
        Mechanisms {
            scram_sha_512: true,
            scram_sha_256: true,
            external: true,
            plain: true,
        }
    }

    // The mechanisms of a list with commas, as servers write it.
    pub(crate) fn of(list: &[u8]) -> Mechanisms
        ensures { result ≡ mechanisms_in list.now }
    {
        Mechanisms {
            scram_sha_512: has_item(b',', b"SCRAM-SHA-512", list),
            scram_sha_256: has_item(b',', b"SCRAM-SHA-256", list),
            external: has_item(b',', b"EXTERNAL", list),
            plain: has_item(b',', b"PLAIN", list),
        }
    }

    // Those that are in both sets.
    pub(crate) fn both(&self, other: &Mechanisms) -> Mechanisms
        ensures { result ≡ both_mechanisms self.now other.now }
    {
        Mechanisms {
            scram_sha_512: self.scram_sha_512 && other.scram_sha_512,
            scram_sha_256: self.scram_sha_256 && other.scram_sha_256,
            external: self.external && other.external,
            plain: self.plain && other.plain,
        }
    }

    // Those that are in one of the sets.
    pub(crate) fn either(&self, other: &Mechanisms) -> Mechanisms
        ensures { result ≡ either_mechanisms self.now other.now }
    {
        Mechanisms {
            scram_sha_512: self.scram_sha_512 || other.scram_sha_512,
            scram_sha_256: self.scram_sha_256 || other.scram_sha_256,
            external: self.external || other.external,
            plain: self.plain || other.plain,
        }
    }

    // The first of them in the order in which they are tried.
    pub(crate) fn first(&self) -> Option<Mechanism>
        ensures { result ≡ first_mechanism self.now }
    {
        if self.scram_sha_512 {
            Some(Mechanism::ScramSha512)
        } else if self.scram_sha_256 {
            Some(Mechanism::ScramSha256)
        } else if self.external {
            Some(Mechanism::External)
        } else if self.plain {
            Some(Mechanism::Plain)
        } else {
            None
        }
    }

    // All of them but one.
    pub(crate) fn without(&self, mechanism: Mechanism) -> Mechanisms
        ensures { result ≡ without_mechanism self.now mechanism }
    {
        let mut rest = *self;
        match mechanism {
            Mechanism::ScramSha512 => rest.scram_sha_512 = false,
            Mechanism::ScramSha256 => rest.scram_sha_256 = false,
            Mechanism::External => rest.external = false,
            Mechanism::Plain => rest.plain = false,
        }
        rest
    }
}

// The name of a mechanism.
pub(crate) fn mechanism_name(mechanism: Mechanism) -> &'static [u8]
    ensures { result.now ≡ mechanism_name mechanism }
{
    match mechanism {
        Mechanism::ScramSha512 => b"SCRAM-SHA-512",
        Mechanism::ScramSha256 => b"SCRAM-SHA-256",
        Mechanism::External => b"EXTERNAL",
        Mechanism::Plain => b"PLAIN",
    }
}
