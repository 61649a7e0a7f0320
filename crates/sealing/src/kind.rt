// What the content of a record is.
ghost use Rattle.std.specs.Prelude.{◌≡◌};
ghost use Rattle.sealing.specs.Records.{kind_byte};

/// What the content of a record is.
#[derive(Clone, Copy, Debug, PartialEq, Eq)]
pub enum Kind {
    /// A piece of the stream of frames.
    Frames,
    /// A sign of life.
    Beat,
}

// The first byte of the body of a record of `kind`.
pub(crate) fn byte_of(kind: Kind) -> u8
    ensures { result ≡ kind_byte kind }
{
    match kind {
        Kind::Frames => 1,
        Kind::Beat => 2,
    }
}
