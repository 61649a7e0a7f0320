// Why nothing more is read from a connection.
use thiserror::Error;

/// Why an [`Opener`](crate::Opener) reads no further. The text is for a log, beside the name of the other bot.
#[derive(Clone, Copy, Debug, PartialEq, Eq, Error)]
pub enum SealFault {
    /// A record states a length of 0, or of more than 16,384 bytes.
    #[error("a record has a bad length: something between the bots changes what they send, so find out what is there")]
    BadLength,
    /// A record's tag is not the tag of its body at its count.
    #[error("a record is not the one that the other bot sent: something between the bots changes what they send, so find out what is there")]
    BadTag,
    /// The direction has carried 18,446,744,073,709,551,615 records, so no count is left.
    #[error("the connection has carried as many records as it can: nothing to do, since the bots connect again")]
    Spent,
    /// A piece came after another fault.
    #[error("the connection has failed already: see the fault that was logged before")]
    Failed,
}
