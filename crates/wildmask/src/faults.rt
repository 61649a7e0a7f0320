// Why a text is not a mask.
ghost use Rattle.std.specs.Prelude.{◌≡◌};
ghost use Rattle.wildmask.specs.Masks.{fault_code};

use bytetext::Failure;
use thiserror::Error;

/// Why a text is not a mask. The faults are tested in this order.
#[derive(Clone, Copy, Debug, PartialEq, Eq, Error)]
pub enum MaskFault {
    /// M2: the text is empty.
    #[error("the mask is empty: write at least one byte")]
    MaskEmpty,
    /// M1: the text has more than 120 bytes.
    #[error("the mask is too long: write at most 120 bytes")]
    MaskTooLong,
    /// M3: the text is neither `nick!user@host` nor `$a:account`, or a byte is a space or a control byte.
    #[error("not a hostmask: write it as nick!user@host or $a:account, without spaces or control bytes")]
    NotAHostmask,
}

impl MaskFault {
    /// Returns the fault's short code, as transcripts print it: M1, M2 or M3.
    pub fn code(self) -> &'static str
        ensures { result.now ≡ fault_code self }
    {
        match self {
            MaskFault::MaskEmpty => "M2",
            MaskFault::MaskTooLong => "M1",
            MaskFault::NotAHostmask => "M3",
        }
    }
}

/// Why no mask was made: `Refused` if the text is not a mask, or else `NoMemory` if a copy of it cannot be allocated.
pub type MaskError = Failure<MaskFault>;
