// The address of a host.
ghost use Rattle.std.specs.Prelude.{◌<◌, length};
ghost use Rattle.net.specs.Addresses.{IsLiteral, IsOfRound};

use mio::net::UdpSocket;
use resolver::Addresses;
use std::net::{IpAddr, Ipv4Addr, Ipv6Addr, Net, SocketAddr};
use thiserror::Error;

/// Why a try did not even begin.
#[derive(Clone, Copy, Debug, PartialEq, Eq, Error)]
pub enum DialFault {
    /// The host is neither an address nor a name that can be looked up: labels of 1 to 63 letters, digits, `-` and `_`
    /// with dots between them, at most 253 bytes.
    #[error("the host is no name: write it in letters, digits, dots and dashes")]
    Unreadable,
    /// Nobody has the name, or it has no address.
    #[error("the host has no address: look at its name")]
    Unknown,
    /// No name server answered a question, asked three times of each.
    #[error("no name server answered: look at /etc/resolv.conf")]
    Unanswered,
    /// The system does not begin to connect: no route leads to the address, or it has no more sockets.
    #[error("no way leads to the address, or this machine has no more sockets")]
    Unreached,
    /// Nothing exists at the path, or nobody listens there.
    #[error("no tunnel listens: run stunnel on what 'eggnet tunnel CONFIG' prints")]
    NoTunnel,
    /// The system does not connect to the path for another reason: too many connections wait there, the path is too
    /// long or bars this user, or the system has no more sockets.
    #[error("its tunnel takes no connection: look whether stunnel runs as this user, and answers")]
    TunnelBusy,
}

/// Returns the address that `host` spells, such as `192.0.2.7` or `2001:db8::7` (RFC 4291 section 2.2), with `port`.
/// Returns `None` if it spells none.
pub fn literal(host: &[u8], port: u16) -> Option<SocketAddr>
    ensures { IsLiteral host.now port result }
{
    match IpAddr::parse_ascii(host) {
        Ok(ip) => Some(SocketAddr::new(ip, port)),
        Err(_) => None,
    }
}

// Returns the address of this round among those of a name, if it has one.
pub(crate) fn of_round(found: &[IpAddr], round: u64) -> Option<IpAddr>
    ensures { IsOfRound found.now round result }
{
    if found.is_empty() {
        return None;
    }
    let place = round % found.len() as u64;
    Some(found[place as usize])
}

// Returns those of the addresses to which this machine has a route, or all of them if it has a route to none.
pub(crate) fn with_route<R: Net>(rt: &R, found: Addresses) -> Addresses
    ensures { 0 < length found → 0 < length result }
{
    let mut reached = Addresses::none();
    for address in found.as_slice() {
        if has_route(rt, *address) {
            reached.put(*address);
        }
    }
    if reached.as_slice().is_empty() {
        found
    } else {
        reached
    }
}

// Returns whether the system has a route to `address`. It looks for one when a socket for datagrams is connected, and
// sends nothing.
fn has_route<R: Net>(rt: &R, address: IpAddr) -> bool {
    // The port does not matter.
    match UdpSocket::bind(rt, unspecified(address)) {
        Ok(socket) => socket.connect(SocketAddr::new(address, 9)).is_ok(),
        Err(_) => false,
    }
}

// Returns where a socket is bound that talks to `address`: anywhere, by the same family.
pub(crate) fn unspecified(address: IpAddr) -> SocketAddr {
    match address {
        IpAddr::V4(_) => SocketAddr::from((Ipv4Addr::UNSPECIFIED, 0)),
        IpAddr::V6(_) => SocketAddr::from((Ipv6Addr::UNSPECIFIED, 0)),
    }
}
