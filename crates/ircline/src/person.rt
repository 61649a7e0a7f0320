// A person that a prefix names.

/// The parts of a person's prefix (RFC 2812 section 2.3.1). A part that is absent is empty.
#[derive(Clone, Copy, Debug)]
pub struct Person<'a> {
    /// The nick. Empty only if a prefix made by hand begins with `!` or `@`.
    pub nick: &'a [u8],
    /// The user name on that host.
    pub user: &'a [u8],
    /// The host.
    pub host: &'a [u8],
}
