// What a registration hears and says.
use crate::capabilities::{Capabilities, Offer};
use crate::mechanism::{Mechanism, Mechanisms};
use crate::registration_fault::RegistrationFault;
use crate::scram_hash::ScramHash;

/// What a client learns while it registers, mostly by a line of the server.
#[derive(Clone, Copy)]
pub enum RegistrationEvent {
    /// The server lists capabilities (CAP LS).
    Listed {
        /// What this line offers.
        offer: Offer,
        /// Whether it is the last line of the list.
        is_last: bool,
    },
    /// The server enables these capabilities (CAP ACK).
    Acknowledged(Offer),
    /// The server does not enable these capabilities (CAP NAK).
    Denied(Offer),
    /// The server does not know the command CAP (421).
    UnknownCommand,
    /// The server has registered the client (001).
    Welcomed,
    /// The server asks for the client's first message (`AUTHENTICATE +`).
    Go,
    /// The server's first message of a SCRAM exchange is not refused.
    FirstTaken,
    /// The salted password is derived.
    Derived,
    /// The server's final message of a SCRAM exchange has the right signature.
    FinalTaken,
    /// What the server says in a login is refused.
    Broken(RegistrationFault),
    /// The server says which mechanisms it has (908).
    Narrowed(Mechanisms),
    /// The login succeeded (903).
    LoggedIn,
    /// The login failed (902, 904, 905, 906, 907).
    LoginFailed,
    /// Anything else.
    Nothing,
}

/// What a client says while it registers.
#[derive(Clone, Copy)]
pub enum Say {
    /// It asks for these capabilities (CAP REQ).
    Request(Capabilities),
    /// It asks for `sasl`.
    RequestSasl,
    /// It names a mechanism (AUTHENTICATE).
    Name(Mechanism),
    /// Its first message of a SCRAM exchange.
    First(ScramHash),
    /// Its final message of a SCRAM exchange.
    Final,
    /// Its only message of PLAIN, with the password.
    Plain,
    /// An empty message, `AUTHENTICATE +`.
    Empty,
    /// The end of the negotiation (CAP END).
    End,
}
