// Why the bot disconnects from a server.
use crate::vigil::Loss;
use registration::RegistrationFault;
use std::fmt;
use std::fmt::Display;

/// Why the bot disconnects from a server.
#[derive(Clone, Copy)]
pub enum Why {
    /// The server ended the connection, the connection was never established, or the server takes too little of what
    /// is sent.
    Over,
    /// The server was silent for 150 seconds, or did not welcome the bot within 60.
    Care(Loss),
    /// An operator wants another server.
    Jump,
    /// The login to the bot's account failed.
    Login(RegistrationFault),
}

impl Display for Why {
    fn fmt<W: fmt::Write>(&self, f: &mut fmt::Formatter<W>) -> fmt::Result {
        match *self {
            Why::Login(fault) => fault.fmt(f),
            Why::Over | Why::Care(_) | Why::Jump => f.write_str(why_text(*self)),
        }
    }
}

// The reason in words; empty for a login, whose fault has its own.
fn why_text(why: Why) -> &'static str {
    match why {
        Why::Over => "the connection ended",
        Why::Care(Loss::Silent) => "it was silent for 150 seconds",
        Why::Care(Loss::Unwelcomed) => "it did not welcome the bot for 60 seconds",
        Why::Jump => "an operator wants the next",
        Why::Login(_) => "",
    }
}
