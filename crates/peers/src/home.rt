// Which addresses count as one.
use net::Way;
use std::net::{IpAddr, SocketAddr};

// The address of a guest without its port, by which guests are counted: of IPv6 the first 64 bits, since one customer has
// all addresses that begin with these.
#[derive(Clone, Copy)]
pub(crate) struct Home {
    pub(crate) bits: u64,
}

// The home of a guest: all that come through a tunnel have one, of bits with which no address begins that a machine may
// have.
pub(crate) fn home_of(way: &Way) -> Home {
    match way {
        Way::Tcp(address) => home_of_address(address),
        Way::Tunnel => Home { bits: u64::MAX },
    }
}

// The home of an address.
fn home_of_address(address: &SocketAddr) -> Home {
    match address.ip().to_canonical() {
        // No address of IPv6 that a machine may have begins with 32 bits of zeros, but ::1.
        IpAddr::V4(ip) => {
            let [a, b, c, d] = ip.octets();
            Home {
                bits: u64::from(u32::from_be_bytes([a, b, c, d])),
            }
        }
        IpAddr::V6(ip) => {
            let [a, b, c, d, e, f, g, h, ..] = ip.octets();
            Home {
                bits: u64::from_be_bytes([a, b, c, d, e, f, g, h]),
            }
        }
    }
}
