// Bytes as a log shows them.
use bstr::ByteSlice as _;
use std::fmt;
use std::fmt::Display;

/// Bytes from a server or an operator as a log shows them: spaces and letters as they are, control bytes and invalid
/// UTF-8 as a backslash and a number.
#[derive(Clone, Copy)]
pub struct Shown<'a>(
    /// The bytes.
    pub &'a [u8],
);

impl Display for Shown<'_> {
    fn fmt<W: fmt::Write>(&self, f: &mut fmt::Formatter<W>) -> fmt::Result {
        for (place, word) in self.0.split_str(b" ").enumerate() {
            if place > 0 {
                f.write_str(" ")?;
            }
            word.escape_bytes().fmt(f)?;
        }
        Ok(())
    }
}

/// Writes `words`, and then `shown`, to `f`.
///
/// # Errors
/// The formatter's.
pub fn put<W: fmt::Write, D: Display>(
    f: &mut fmt::Formatter<W>,
    words: &str,
    shown: &D,
) -> fmt::Result {
    f.write_str(words)?;
    shown.fmt(f)
}
