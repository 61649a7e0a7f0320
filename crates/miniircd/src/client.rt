// A connection, and a line that goes to one.
use bytetext::Text;

/// The number of a client, as [`crate::Ircd::connect`] returned it. After a client has gone, its number may be used
/// again.
#[derive(Clone, Copy, Debug, PartialEq, Eq)]
pub struct Client(pub(crate) usize);

/// A line that the server sends to a client.
#[derive(Debug, Drop)]
pub struct SentLine {
    /// The client that gets it.
    pub to: Client,
    /// The line without CR and LF: 1 to 510 bytes, none of them NUL, CR or LF.
    pub line: Text,
}
