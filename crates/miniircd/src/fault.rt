// Why the server refuses a call.
ghost use Rattle.std.specs.Prelude.{◌≡◌};
ghost use Rattle.miniircd.specs.Server.{code_of};

use bytetext::Failure;
use thiserror::Error;

/// Why the server refuses a call.
#[derive(Clone, Copy, Debug, PartialEq, Eq, Error)]
pub enum ServerFault {
    /// The server has 64 clients.
    #[error("the server is full: let a client go first")]
    Full,
    /// No client has this number.
    #[error("no such client: use the number of one that is held")]
    NoSuchClient,
}

impl ServerFault {
    /// Returns the letters of this fault: `I1` and `I2`.
    pub fn code(self) -> &'static str
        ensures { result.now ≡ code_of self }
    {
        match self {
            ServerFault::Full => "I1",
            ServerFault::NoSuchClient => "I2",
        }
    }
}

/// Why a call changed nothing: a [`ServerFault`], or an allocation failed.
pub type IrcdError = Failure<ServerFault>;
