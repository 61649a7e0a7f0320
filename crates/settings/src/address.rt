// Which hosts are addresses, and which of them reach this machine alone.
ghost use Rattle.std.specs.Prelude.{◌≡◌, ◌↔◌, IsTrue};
ghost use Rattle.settings.specs.Addresses.{SpellsAddress, is_address, is_loopback};

use std::net::IpAddr;

/// Returns whether `host` spells an IP address, such as `0.0.0.0` or `::1` (RFC 4291 section 2.2).
pub fn is_address(host: &[u8]) -> bool
    ensures value { result ≡ is_address host.now }
    ensures spells { IsTrue result ↔ SpellsAddress host.now }
{
    IpAddr::parse_ascii(host).is_ok()
}

/// Returns whether `host`, an IP address, is spelled as one that other machines can't reach: it begins with `127.` (RFC
/// 1122 section 3.2.1.3), or is `::1` (RFC 4291 section 2.5.3). A longer spelling of `::1` doesn't count.
pub fn is_loopback(host: &[u8]) -> bool
    ensures value { result ≡ is_loopback host.now }
{
    host.starts_with(b"127.") || host == b"::1".as_slice()
}
