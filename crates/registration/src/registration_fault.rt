// Why a registration ends.
use crate::scram_fault::ScramFault;
use thiserror::Error;

/// Why the client ends its registration. The connection is then to be closed.
#[derive(Clone, Copy, Debug, PartialEq, Eq, Error)]
pub enum RegistrationFault {
    /// The server does not know the command CAP, and an account is wanted.
    #[error("the server knows no logins: take the account out of the configuration, or use another server")]
    NoCapabilities,
    /// The server does not offer `sasl`, or denies it, and an account is wanted.
    #[error("the server offers no login now: its services may be down, so try again later")]
    NoSasl,
    /// The server offers no mechanism that may be tried on this connection.
    #[error("the server offers no login that this connection may use: connect by TLS, or see which mechanisms the network has")]
    NoMechanism,
    /// The server rejects the login by each mechanism that may be tried (902, 904, 905, 906, 907).
    #[error("the server rejects the login: see the account's name and password")]
    Rejected,
    /// The server welcomes the client (001) before the login.
    #[error("the server lets the bot in without its login: use another server")]
    Welcomed,
    /// The server says that the login succeeded (903) before the exchange was over.
    #[error("the server does not end the login as it should: tell the network's staff")]
    Unproven,
    /// The server's part of the exchange (AUTHENTICATE) cannot be read, or is too long.
    #[error("the server's part of the login cannot be read: tell the network's staff")]
    BadChallenge,
    /// A message of a SCRAM exchange is refused.
    #[error("{0}")]
    Scram(ScramFault),
}
