// Why bytes do not spell a value.
use bytetext::Failure;
use thiserror::Error;

/// Why bytes do not begin with a value. A read goes from left to right, field by field, and returns the first fault.
#[derive(Clone, Copy, Debug, PartialEq, Eq, Error)]
pub enum CodecFault {
    /// X1: the bytes end before the tag or a field is complete, and nothing before that is wrong.
    #[error("the bytes end too early: read the rest and try again")]
    Short,
    /// X2: the first byte is not a tag of this kind of value.
    #[error("the first byte is no tag of this kind of value")]
    BadTag,
    /// X3: a field is complete, and no value has it: a handle, mask, channel, comment, info text or person breaks its
    /// rule, flags have a bit above 51 set, a mark is neither 0 nor 1, a casemapping is above 2, the tag after a person
    /// is not one of an edit, a channel of a user has no flags, a count is above its limit, or a user has a mask or a
    /// channel twice. A text and its length byte are one field, so a text that is cut is X1; a count is a field of its
    /// own.
    #[error("a field breaks its rule: write the value again in its one spelling")]
    NotCanonical,
}

impl CodecFault {
    ghost use Rattle.std.specs.Prelude.{◌≡◌};
    ghost use Rattle.usercodec.specs.Codes.{fault_code};

    /// Returns the letter and number that transcripts print.
    pub fn code(self) -> &'static str
        ensures { result.now ≡ fault_code self }
    {
        match self {
            CodecFault::Short => "X1",
            CodecFault::BadTag => "X2",
            CodecFault::NotCanonical => "X3",
        }
    }
}

/// Why no value was read: `Refused` with the first fault of the bytes, and `NoMemory` if they have none and an
/// allocation failed.
pub type CodecError = Failure<CodecFault>;
