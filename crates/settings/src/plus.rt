// Ports with a plus before them, as in `+6697`, and the hosts that may stand before such a port.
ghost use Rattle.std.specs.Prelude.{◌≡◌, ◌||◌, not};
ghost use Rattle.std.specs.List.{list_all};
ghost use Rattle.settings.specs.Pluses.{has_plus, is_tls_byte, is_tls_host, without_plus};

/// Returns whether a plus stands before a port.
pub fn has_plus(word: &[u8]) -> bool
    ensures { result ≡ has_plus word.now }
{
    !word.is_empty() && word[0] == b'+'
}

/// Returns `word` without the plus before it, if there is one.
pub fn without_plus(word: &[u8]) -> &[u8]
    ensures { result.now ≡ without_plus word.now }
{
    if has_plus(word) { &word[1..] } else { word }
}

/// Returns whether a connection to `host` can be made: with TLS, the host is part of the name of a socket and of the
/// tunnel's configuration, so only some bytes may stand in it.
pub fn is_reached(host: &[u8], tls: bool) -> bool
    ensures { result ≡ (not tls || is_tls_host host.now) }
{
    !tls || is_tls_host(host)
}

fn is_tls_host(host: &[u8]) -> bool
    ensures { result ≡ is_tls_host host.now }
{
    host.iter().all(|byte| is_tls_byte(*byte))
}

fn is_tls_byte(byte: u8) -> bool
    ensures { result ≡ is_tls_byte byte }
{
    byte.is_ascii_alphanumeric() || byte == b'.' || byte == b'-' || byte == b'_' || byte == b':'
}
