// Why a live script cannot be read.
use crate::reason::LiveReason;
use bytetext::Failure;
use thiserror::Error;

/// Where a live script breaks a rule, and why. It prints as `line N: script fault`, with the reason on a line of its
/// own.
#[derive(Clone, Copy, Debug, PartialEq, Eq, Error)]
#[error("line {line}: script fault\n{reason}")]
pub struct LiveFault {
    /// The first line that breaks a rule, counted from 1. It is 0 if the whole script breaks a rule: it is too long or
    /// has no command.
    pub line: u64,
    /// Why the line, or the script, breaks a rule.
    pub reason: LiveReason,
}

/// Why [`LiveScript::read`](crate::LiveScript::read) returns no script: a rule is broken, or memory ran out before a
/// broken rule was found.
pub type LiveScriptError = Failure<LiveFault>;
