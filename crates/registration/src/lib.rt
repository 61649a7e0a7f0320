//! What a client says while it registers with a server: capabilities (IRCv3 capability negotiation 302), and a login to
//! an account by SASL (IRCv3 SASL 3.1 and 3.2). It has no socket and no clock: lines of the server go in, and lines to say
//! come out.
//!
//! - A [`Registration`] is a client's registration with one server. [`hear`](Registration::hear) takes each line of the
//!   server, and returns the lines to say, or the [`RegistrationFault`] for which the connection is to be closed.
//! - A [`Wish`] says what is wanted: the [`Credentials`] of an account or none, the [`Mechanisms`] that may be tried, whether the connection
//!   is private, and further [`Capabilities`].
//! - A [`Scram`] is one exchange of SCRAM-SHA-256 or SCRAM-SHA-512 (RFC 5802, RFC 7677), by itself.
//! - [`Pbkdf2`] derives a salted password in pieces, so that a caller can spread it over its turns.
//! - A [`Negotiation`] is a registration without its messages, on which the laws are stated.
//!
//! The mechanisms are tried in the order SCRAM-SHA-512, SCRAM-SHA-256, EXTERNAL, PLAIN. Each is tried at most once, where
//! it is allowed and the server offers it; PLAIN only on a private connection. After 902, 904, 905, 906 or 907 the next
//! one is tried. If an account is wanted, the registration ends well only after the login.
//!
//! ```text
//! client  CAP LS 302
//! server  :irc.example.net CAP * LS :multi-prefix sasl=PLAIN,SCRAM-SHA-256
//! client  CAP REQ :sasl
//! server  :irc.example.net CAP egg0 ACK :sasl
//! client  AUTHENTICATE SCRAM-SHA-256
//! server  AUTHENTICATE +
//! client  AUTHENTICATE biwsbj11c2VyLHI9ck9wck5HZndFYmVSV2diTkVrcU8=
//! server  AUTHENTICATE cj1yT3ByTkdmd0ViZVJXZ2JORWtxTyVodllEcFdVYTJSYVRDQWZ1eEZJbGopaE5sRiRrMCxzPVcyMlphSjBTTlk3c29Fc1VFamI2Z1E9PSxpPTQwOTY=
//! client  AUTHENTICATE Yz1iaXdzLHI9ck9wck5HZndFYmVSV2diTkVrcU8laHZZRHBXVWEyUmFUQ0FmdXhGSWxqKWhObEYkazAscD1kSHpiWmFwV0lrNGpVaE4rVXRlOXl0YWc5empmTUhnc3FtbWl6N0FuZFZRPQ==
//! server  AUTHENTICATE dj02cnJpVFJCaTIzV3BSUi93dHVwK21NaFVaVW4vZEI1bkxUSlJzamw5NUc0PQ==
//! client  AUTHENTICATE +
//! server  :irc.example.net 903 egg0 :SASL authentication successful
//! client  CAP END
//! ```
//!
//! In `specs/`, `Proofs` and `Messages` define SCRAM in the words of RFC 5802, `Pbkdf2` its `Hi`, `Steps` the steps of a
//! registration, `Hearings` what a line means for it, and `Registrations` the lines that the client says. `Runs` and
//! `Talks` define whole registrations, of which [`laws_of_the_lines`], [`laws_of_a_registration`] and
//! [`laws_of_a_login`] speak.
#![tactic(auto)]

mod capabilities;
mod credentials;
mod cue;
mod encoding;
mod hearing;
mod joining;
mod laws;
mod limits;
mod lists;
mod login_steps;
mod mac;
mod mac_key;
mod mechanism;
mod negotiation;
mod payload;
mod pbkdf2;
mod registration;
mod registration_event;
mod registration_fault;
mod saying;
mod scram;
mod scram_fault;
mod scram_hash;
mod scram_nonce;
mod scram_reading;
mod wide_key;

pub use crate::capabilities::{Capabilities, Offer};
pub use crate::credentials::{Credentials, CredentialsFault};
pub use crate::laws::{laws_of_a_login, laws_of_a_registration, laws_of_the_lines};
pub use crate::limits::{
    MAX_CHALLENGE, MAX_CREDENTIAL, MAX_ITERATIONS, MAX_LINE, MIN_ITERATIONS, PIECE,
};
pub use crate::mac::Mac;
pub use crate::mac_key::MacKey;
pub use crate::mechanism::{Mechanism, Mechanisms};
pub use crate::negotiation::{LoginStage, Negotiation, NegotiationStep, Stage};
pub use crate::pbkdf2::Pbkdf2;
pub use crate::registration::{FIRST_LINE, Registration, ScramNonces, Wish};
pub use crate::registration_event::{RegistrationEvent, Say};
pub use crate::registration_fault::RegistrationFault;
pub use crate::scram::{ClientFinal, Salting, Scram};
pub use crate::scram_fault::ScramFault;
pub use crate::scram_hash::ScramHash;
pub use crate::scram_nonce::ScramNonce;
pub use crate::wide_key::WideKey;
