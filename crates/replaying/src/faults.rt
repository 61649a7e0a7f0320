// Why there is no picture.
use bytetext::Failure;
use script::ScriptFault;
use thiserror::Error;

/// Why a script has no picture.
#[derive(Clone, Copy, Debug, PartialEq, Eq, Error)]
pub enum PictureFault {
    /// The script breaks a rule.
    #[error("{0}")]
    Script(ScriptFault),
    /// The script has more bots or steps than a picture.
    #[error("a picture has at most 9 bots and 200 steps: cut the script short, or replay it")]
    TooLarge,
}

/// Why [`picture`](crate::picture) returns none: the script is refused, or memory ran out.
pub type PictureError = Failure<PictureFault>;
