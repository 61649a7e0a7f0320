// Limits of a registration.

/// The fewest iterations of PBKDF2 that a client does for a server (RFC 7677 section 4).
pub const MIN_ITERATIONS: u32 = 4_096;

/// The most iterations of PBKDF2 that a client does for a server: about half a second.
pub const MAX_ITERATIONS: u32 = 600_000;

/// The most bytes of an account's name, and of its password (RFC 4616 section 2).
pub const MAX_CREDENTIAL: usize = 255;

/// The bytes of a whole piece of a login's message (IRCv3 SASL 3.1).
pub const PIECE: usize = 400;

/// The most bytes of a message of the server's in a login, in Base64.
pub const MAX_CHALLENGE: usize = 4_000;

/// The most bytes of a line that a client says, without its CR LF (RFC 2812 section 2.3).
pub const MAX_LINE: usize = 510;
