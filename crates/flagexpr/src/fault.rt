// Why a text is not a set of flags, or not a flag expression.
ghost use Rattle.std.specs.Prelude.{◌≡◌};
ghost use Rattle.flagexpr.specs.Faults.{code_of};

use thiserror::Error;

/// Why a text is rejected. For an expression the faults are tested in this order.
#[derive(Clone, Copy, Debug, PartialEq, Eq, Error)]
pub enum FlagFault {
    /// The text has a byte that flags, or an expression, cannot have.
    #[error("use the letters a to z and A to Z, with + - | & in an expression or * alone")]
    BadLetter,
    /// The expression has both `|` and `&`.
    #[error("join the parts by | only or by & only")]
    MixedJoin,
    /// The expression has more than two joins.
    #[error("give at most three parts: global, channel and bot")]
    TooManyParts,
}

impl FlagFault {
    /// Returns the short code that transcripts print: `F1`, `F2` or `F3`.
    pub fn code(self) -> &'static str
        ensures { result.now ≡ code_of self }
    {
        match self {
            FlagFault::BadLetter => "F1",
            FlagFault::MixedJoin => "F2",
            FlagFault::TooManyParts => "F3",
        }
    }
}
