// An account at a network's services.
ghost use Rattle.std.specs.Prelude.{◌≡◌};
ghost use Rattle.registration.specs.Accounts.{are_printable, has_room};

use crate::limits::MAX_CREDENTIAL;
use bytetext::{NoMemory, Text, TryCopy};
use std::alloc::Global;
use thiserror::Error;

/// The name and the password of an account at a network's services. The type has no `Debug`, so that no log shows the password.
#[derive(Drop)]
pub struct Credentials {
    pub(crate) name: Text,
    pub(crate) password: Text,
}

/// Why a name and a password are no account that this crate can log in to. The variants are in the order in which they
/// are tested.
#[derive(Clone, Copy, Debug, PartialEq, Eq, Error)]
pub enum CredentialsFault {
    /// The name is empty, or has more than 255 bytes.
    #[error("the account's name must have 1 to 255 bytes")]
    NameLength,
    /// The name has a byte that is not printable ASCII.
    #[error("the account's name may have letters, digits, spaces and signs of ASCII alone")]
    NameBytes,
    /// The password is empty, or has more than 255 bytes.
    #[error("the account's password must have 1 to 255 bytes: choose another one at the network")]
    PasswordLength,
    /// The password has a byte that is not printable ASCII. SASLprep (RFC 4013) would change such a password.
    #[error("the account's password may have letters, digits, spaces and signs of ASCII alone: choose another one at the network")]
    PasswordBytes,
}

impl Credentials {
    ghost use Rattle.std.specs.Prelude.{◌≡◌, None, Some, MatchResult};
    ghost use Rattle.registration.specs.Accounts.{account_fault};

    /// Creates the credentials of the account `name`.
    ///
    /// # Errors
    /// As [`CredentialsFault`] describes them.
    pub fn new(name: Text, password: Text) -> Result<Credentials, CredentialsFault>
        ensures { MatchResult result
            (λ account. (account_fault name password ≡ None) × (account ≡ record { name = name; password = password }))
            (λ fault. account_fault name password ≡ Some fault) }
    {
        if !has_room(&name) {
            return Err(CredentialsFault::NameLength);
        }
        if !are_printable(name.as_bytes()) {
            return Err(CredentialsFault::NameBytes);
        }
        if !has_room(&password) {
            return Err(CredentialsFault::PasswordLength);
        }
        if !are_printable(password.as_bytes()) {
            return Err(CredentialsFault::PasswordBytes);
        }
        Ok(Credentials { name, password })
    }
}

impl TryCopy for Credentials {
    fn copy(&self, alloc: Global) -> Result<Credentials, NoMemory> {
        Ok(Credentials {
            name: self.name.copy(alloc)?,
            password: self.password.copy(alloc)?,
        })
    }
}

// Whether a text is neither empty nor too long.
fn has_room(text: &Text) -> bool
    ensures { result ≡ has_room text.now }
{
    1 <= text.len() && text.len() <= MAX_CREDENTIAL
}

// Whether each byte is printable ASCII.
fn are_printable(text: &[u8]) -> bool
    ensures { result ≡ are_printable text.now }
{
    text.iter().all(|byte| 32 <= *byte && *byte <= 126)
}
