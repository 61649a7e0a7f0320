// How long a line to a server may be, and when a journal is rewritten.
ghost use Rattle.std.specs.Prelude.{◌≡◌};
ghost use Rattle.serverlink.specs.Lines.{is_base_due};

/// The most bytes of a line for a server, without its CR and LF (RFC 2812 section 2.3).
pub const MAX_LINE: usize = 510;

/// A journal is rewritten after this many changes.
pub const A_BASE: u32 = 200;

/// Whether a journal that was last rewritten at version `base` is to be rewritten at `version`.
pub fn is_base_due(base: u32, version: u32) -> bool
    ensures { result ≡ is_base_due base version }
{
    version.saturating_sub(base) >= A_BASE
}
