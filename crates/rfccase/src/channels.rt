// Which texts are channel names.
ghost use Rattle.std.specs.Prelude.{◌≡◌};
ghost use Rattle.std.specs.List.{list_all};
ghost use Rattle.rfccase.specs.Channels.{is_channel_name, is_channel_start, is_channel_byte};

/// The most bytes that a channel name has. RFC 2812 says 50 characters, and servers announce longer ones.
pub const MAX_CHANNEL_NAME: usize = 100;

/// Returns whether `text` is a channel name (RFC 2812 section 1.3): the first byte is one of `&`, `#`, `+` and `!`,
/// there are at most 100 bytes, and none of them is a space, a comma or control G.
pub fn is_channel_name(text: &[u8]) -> bool
    ensures { result ≡ is_channel_name text.now }
{
    if text.is_empty() || text.len() > MAX_CHANNEL_NAME {
        return false;
    }
    is_start(text[0]) && are_inner(text)
}

fn are_inner(text: &[u8]) -> bool
    ensures { result ≡ list_all is_channel_byte text.now }
{
    text.iter().all(|byte| is_inner(*byte))
}

fn is_start(byte: u8) -> bool
    ensures { result ≡ is_channel_start byte }
{
    byte == b'&' || byte == b'#' || byte == b'+' || byte == b'!'
}

fn is_inner(byte: u8) -> bool
    ensures { result ≡ is_channel_byte byte }
{
    byte != b' ' && byte != b',' && byte != 7
}
