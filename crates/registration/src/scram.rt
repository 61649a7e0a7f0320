// A SCRAM exchange, from message to message.
ghost use Rattle.std.specs.Prelude.{◌≡◌, IfOk};
ghost use Rattle.registration.specs.Messages.{client_final, verifier};
ghost use Rattle.registration.specs.Proofs.{client_proof, server_signature};

use crate::credentials::Credentials;
use crate::encoding::{base64_of, bytes_in, escaped};
use crate::joining::joined;
use crate::mac::{Mac, combined};
use crate::mac_key::{hash_of, hmac};
use crate::pbkdf2::Pbkdf2;
use crate::scram_fault::ScramFault;
use crate::scram_hash::ScramHash;
use crate::scram_nonce::ScramNonce;
use crate::scram_reading::{server_first, verifier_fault};
use bytetext::{Failure, NoMemory, Text};
use std::alloc::Global;

/// A SCRAM exchange that a client begins (RFC 5802): its hash function, and a nonce that is used in no other exchange.
///
/// ```text
/// let scram = Scram { hash: ScramHash::Sha256, nonce };
/// let first = scram.first(alloc, &account)?;                    // n,,n=user,r=rOprNGfwEbeRWgbNEkqO
/// let mut salting = scram.hear_first(alloc, &account, heard)?;  // r=rOprNGfwEbeRWgbNEkqO..,s=W22Z..,i=4096
/// while !salting.is_over() { salting.work(1_000); }             // over as many turns as the caller likes
/// let own = salting.finish(alloc)?;                             // own.message: c=biws,r=..,p=dHzb..
/// own.hear_final(alloc, heard)?                                 // v=6rri..
/// ```
#[derive(Clone, Copy)]
pub struct Scram {
    /// The hash function.
    pub hash: ScramHash,
    /// The client's nonce.
    pub nonce: ScramNonce,
}

/// An exchange in which the client derives the salted password.
pub struct Salting {
    pub(crate) hash: ScramHash,
    pub(crate) derivation: Pbkdf2,
    // The client's final message without its proof.
    pub(crate) front: Text,
    // What both sides sign.
    pub(crate) auth: Text,
}

// Written by hand, so that the drop is proved once.
impl Drop for Salting {
    fn drop(self) {
        let Salting {
            hash: _,
            derivation: _,
            front: _,
            auth: _,
        } = self;
    }
}

/// The client's final message, and the signature that it expects in the server's.
pub struct ClientFinal {
    /// The client's final message, with its proof.
    pub message: Text,
    /// The signature of a server that knows the password.
    pub signature: Mac,
}

// Written by hand, so that the drop is proved once.
impl Drop for ClientFinal {
    fn drop(self) {
        let ClientFinal {
            message: _,
            signature: _,
        } = self;
    }
}

impl Scram {
    ghost use Rattle.std.specs.Prelude.{◌≡◌, IfOk};
    ghost use Rattle.registration.specs.Exchange.{AnswersFirst};
    ghost use Rattle.registration.specs.Messages.{client_first, first_bare};

    /// Returns the client's first message: `n,,n=NAME,r=NONCE`.
    ///
    /// # Errors
    /// `NoMemory` if an allocation fails.
    pub fn first(&self, alloc: Global, account: &Credentials) -> Result<Text, NoMemory>
        ensures { IfOk result (λ message. message ≡ client_first account.now.name self.now.nonce) }
    {
        let bare = self.bare(alloc, account)?;
        Ok(Text::new(joined(alloc, &[b"n,,", bare.as_slice()])?))
    }

    /// Reads the server's first message, and begins to derive the salted password.
    ///
    /// # Errors
    /// - `Refused` with the first of the faults that [`ScramFault`] lists for this message.
    /// - `NoMemory` if an allocation fails.
    pub fn hear_first(
        &self,
        alloc: Global,
        account: &Credentials,
        message: &[u8],
    ) -> Result<Salting, Failure<ScramFault>>
        ensures { AnswersFirst self.now account.now message.now result }
    {
        let first = match server_first(self.nonce.as_bytes(), message) {
            Ok(first) => first,
            Err(fault) => return Err(Failure::Refused(fault)),
        };
        let Some(salt) = bytes_in(alloc, first.salt)? else {
            return Err(Failure::Refused(ScramFault::BadSalt));
        };
        let front = joined(alloc, &[b"c=biws,r=", first.nonce])?;
        let bare = self.bare(alloc, account)?;
        let auth = joined(
            alloc,
            &[bare.as_slice(), b",", message, b",", front.as_slice()],
        )?;
        Ok(Salting {
            hash: self.hash,
            derivation: Pbkdf2::new(
                alloc,
                self.hash,
                account.password.as_bytes(),
                salt.as_slice(),
                first.iterations,
            )?,
            front: Text::new(front),
            auth: Text::new(auth),
        })
    }

    // The client's first message without its header.
    fn bare(&self, alloc: Global, account: &Credentials) -> Result<Vec<u8>, NoMemory>
        ensures { IfOk result (λ text. text.items ≡ first_bare account.now.name self.now.nonce) }
    {
        let name = escaped(alloc, account.name.as_bytes())?;
        joined(
            alloc,
            &[b"n=", name.as_slice(), b",r=", self.nonce.as_bytes()],
        )
    }
}

impl Salting {
    ghost use Rattle.std.specs.Prelude.{◌≡◌, ◌==◌, ◌+◌, IfOk, min};
    ghost use Rattle.registration.specs.Exchange.{final_of};

    /// Does at most `rounds` more iterations. Allocates nothing.
    pub fn work(&mut self, rounds: u32)
        ensures { self.new ≡ record self.old {
          derivation =
              record self.old.derivation { done = min (self.old.derivation.done + rounds) self.old.derivation.iterations };
        } }
    {
        self.derivation.work(rounds);
    }

    /// Returns whether all iterations are done.
    pub fn is_over(&self) -> bool
        ensures { result ≡ (self.now.derivation.done == self.now.derivation.iterations) }
    {
        self.derivation.is_over()
    }

    /// Returns the client's final message, `c=biws,r=NONCE,p=PROOF`, and the signature that the server must show.
    ///
    /// # Errors
    /// `NoMemory` if an allocation fails.
    pub fn finish(&self, alloc: Global) -> Result<ClientFinal, NoMemory>
        requires { self.now.derivation.done ≡ self.now.derivation.iterations }
        ensures { IfOk result (λ own. own ≡ final_of self.now) }
    {
        let salted = self.derivation.sum().as_bytes();
        let proof = proof_of(self.hash, salted, self.auth.as_bytes());
        let message = final_message(alloc, self.front.as_bytes(), proof.as_bytes())?;
        Ok(ClientFinal {
            message: Text::new(message),
            signature: signature_of(self.hash, salted, self.auth.as_bytes()),
        })
    }
}

impl ClientFinal {
    ghost use Rattle.registration.specs.Exchange.{AnswersFinal};

    /// Returns `Ok` only if the server's final message, `v=SIGNATURE`, has the whole signature that the client expects.
    ///
    /// # Errors
    /// - `Refused` with `ServerError` if the message is an error of the server, `e=..`, and with `WrongSignature` if
    ///   it is anything else.
    /// - `NoMemory` if an allocation fails.
    pub fn hear_final(&self, alloc: Global, message: &[u8]) -> Result<(), Failure<ScramFault>>
        ensures { AnswersFinal self.now.signature message.now result }
    {
        let verifier = verifier_of(alloc, self.signature.as_bytes())?;
        match verifier_fault(verifier.as_slice(), message) {
            Some(fault) => Err(Failure::Refused(fault)),
            None => Ok(()),
        }
    }
}

// The client's proof.
fn proof_of(hash: ScramHash, salted: &[u8], auth: &[u8]) -> Mac
    ensures { result ≡ client_proof hash salted.now auth.now }
{
    let client_key = hmac(hash, salted, b"Client Key");
    let stored_key = hash_of(hash, client_key.as_bytes());
    let signature = hmac(hash, stored_key.as_bytes(), auth);
    combined(client_key.as_bytes(), signature.as_bytes())
}

// The server's signature.
fn signature_of(hash: ScramHash, salted: &[u8], auth: &[u8]) -> Mac
    ensures { result ≡ server_signature hash salted.now auth.now }
{
    let server_key = hmac(hash, salted, b"Server Key");
    hmac(hash, server_key.as_bytes(), auth)
}

// The client's final message, with this proof.
fn final_message(alloc: Global, front: &[u8], proof: &[u8]) -> Result<Vec<u8>, NoMemory>
    ensures { IfOk result (λ message. message.items ≡ client_final front.now proof.now) }
{
    let proof = base64_of(alloc, proof)?;
    joined(alloc, &[front, b",p=", proof.as_slice()])
}

// The server's signature, as its final message has it.
fn verifier_of(alloc: Global, signature: &[u8]) -> Result<Vec<u8>, NoMemory>
    ensures { IfOk result (λ text. text.items ≡ verifier signature.now) }
{
    let text = base64_of(alloc, signature)?;
    joined(alloc, &[b"v=", text.as_slice()])
}
