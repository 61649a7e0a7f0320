// Which lines can be sent (RFC 2812 section 2.3).
ghost use Rattle.std.specs.Prelude.{◌≡◌};
ghost use Rattle.std.specs.List.{list_any};
ghost use Rattle.outqueue.specs.Refusals.{is_break, is_bad_line};

use crate::limits::MAX_BYTES;

// Returns whether `line` can't be sent as one line.
pub(crate) fn is_bad_line(line: &[u8]) -> bool
    ensures { result ≡ is_bad_line line.now }
{
    line.is_empty() || line.len() > MAX_BYTES || has_break(line)
}

// Returns whether `line` holds a NUL, an LF or a CR.
fn has_break(line: &[u8]) -> bool
    ensures { result ≡ list_any is_break line.now }
{
    line.iter()
        .any(|byte| *byte == 0 || *byte == b'\n' || *byte == b'\r')
}
