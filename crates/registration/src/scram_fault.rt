// Why a SCRAM exchange ends.
use thiserror::Error;

/// Why the client ends a SCRAM exchange. The first five are of the server's first message, in the order in which they
/// are tested, the last two of its final one.
#[derive(Clone, Copy, Debug, PartialEq, Eq, Error)]
pub enum ScramFault {
    /// The first message is not `r=NONCE,s=SALT,i=COUNT`, with a count from 1 to 4,294,967,295.
    #[error("the server's first message of the login cannot be read: tell the network's staff")]
    Unreadable,
    /// The server's nonce does not begin with the client's.
    #[error("the server answers another login than ours: see who stands between the bot and the network")]
    ForeignNonce,
    /// The server asks for fewer than 4,096 iterations.
    #[error("the server keeps the password with fewer than 4096 iterations: set the password again at the network")]
    TooFewIterations,
    /// The server asks for more than 600,000 iterations.
    #[error("the server keeps the password with more than 600000 iterations: tell the network's staff")]
    TooManyIterations,
    /// The salt is not Base64.
    #[error("the server's salt cannot be read: tell the network's staff")]
    BadSalt,
    /// The server's final message is an error, `e=..`.
    #[error("the server rejects the login: see the account's name and password")]
    ServerError,
    /// The server's final message does not have the signature that a server with the password computes.
    #[error("the server does not show that it knows the password: see who stands between the bot and the network")]
    WrongSignature,
}
