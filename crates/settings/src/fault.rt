// Why a configuration file is refused.
use crate::advice::SettingAdvice;
use bytetext::Failure;
use thiserror::Error;

/// Why a configuration file is refused: the first of these that holds.
#[derive(Clone, Copy, Debug, PartialEq, Eq, Error)]
pub enum SettingsFault {
    /// It has more than 65,536 bytes.
    #[error("write at most 65536 bytes")]
    TooLong,
    /// The first line that breaks a rule.
    #[error("line {line}: {advice}")]
    Line {
        /// The line's number, from 1.
        line: u64,
        /// What to say instead.
        advice: SettingAdvice,
    },
    /// Each line is right, but one is missing, or stands where it means nothing.
    #[error("{0}")]
    Lacks(Lack),
}

/// What a file of right lines lacks, or has too much, in the order of the checks.
#[derive(Clone, Copy, Debug, PartialEq, Eq, Error)]
pub enum Lack {
    /// No line `data`.
    #[error("a bot needs a line: data FOLDER")]
    Data,
    /// No line `nick`.
    #[error("a bot needs a line: nick NICK")]
    Nick,
    /// No line `server`.
    #[error("a bot needs a line: server HOST PORT")]
    Server,
    /// A leaf without a line `hub`.
    #[error("a leaf needs a line: hub HOST PORT")]
    Hub,
    /// A leaf with a line `listen`.
    #[error("a leaf has no line listen: take it out")]
    LeafListens,
    /// A hub with leaves and without a line `listen`.
    #[error("a hub with leaves needs a line: listen ADDRESS PORT")]
    Listen,
    /// A hub with a line `hub`.
    #[error("a hub has no line hub: take it out, or say bot NUMBER of LEAVES with a NUMBER above 0")]
    HubOfHub,
    /// A bot of a net of several without a line `secret`.
    #[error("a bot with others needs a line: secret FILE")]
    Secret,
    /// A folder and a host before `+PORT` of more than 96 bytes together ([`MAX_TUNNEL`](crate::MAX_TUNNEL)).
    #[error("FOLDER/tls/HOST_PORT is too long for a socket: say a FOLDER and a HOST before +PORT of at most 96 bytes together")]
    Tunnel,
}

/// Why [`Settings::read`](crate::Settings::read) returns no settings: the file is refused, or an allocation failed
/// before a fault was seen.
pub type SettingsError = Failure<SettingsFault>;
