// The limits of bots.

/// The most bytes in a nick. RFC 2812 section 1.2.1 says nine characters, and servers allow longer ones.
pub const MAX_NICK: usize = 30;

// The most bytes in the user name of a bot that sends at once. Servers cut longer ones, most of them at ten.
pub(crate) const MAX_USER: usize = 10;
