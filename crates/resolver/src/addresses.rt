// A few addresses.
use std::marker::Model;
use std::net::{IpAddr, Ipv4Addr};

/// The most addresses of one name that are kept.
pub const MAX_ADDRESSES: usize = 32;

/// Addresses in the order in which they were found, at most [`MAX_ADDRESSES`]. Contracts see their list.
#[derive(Drop)]
pub struct Addresses {
    all: [IpAddr; MAX_ADDRESSES],
    count: usize,
}

impl Model for Addresses {
    ghost use Rattle.std.specs.Prelude.{◌≤◌, List, take};
    ghost use Rattle.std.specs.declared.net.ip_addr.IpAddr.{IpAddr};
    ghost use Rattle.resolver.specs.declared.addresses.TheConstants.{MAX_ADDRESSES};

    ghost Value = { List IpAddr };

    ghost view = { λ found. take found.count found.all };

    ghost invariant = { λ found. found.count ≤ MAX_ADDRESSES };
}

impl Addresses {
    ghost use Rattle.std.specs.Prelude.{◌≡◌, ◌≤◌, [], length};
    ghost use Rattle.resolver.specs.Replies.{put};
    ghost use Rattle.resolver.specs.Files.{added};
    ghost use Rattle.resolver.specs.declared.addresses.TheConstants.{MAX_ADDRESSES};

    /// Creates a list without an address.
    pub fn none() -> Addresses
        ensures { result ≡ [] }
    {
        Addresses {
            all: [IpAddr::V4(Ipv4Addr::UNSPECIFIED); MAX_ADDRESSES],
            count: 0,
        }
    }

    /// Returns the addresses.
    pub fn as_slice(&self) -> &[IpAddr]
        ensures value { result.now ≡ self.now }
        ensures few { length result.now ≤ MAX_ADDRESSES }
    {
        &self.all[..self.count]
    }

    /// Appends `address`, unless there are [`MAX_ADDRESSES`] already.
    pub fn put(&mut self, address: IpAddr)
        ensures { self.new ≡ put address self.old }
    {
        if self.count < MAX_ADDRESSES {
            self.all[self.count] = address;
            self.count += 1;
        }
    }

    // Appends the address, if there is one and fewer than `most` are there.
    pub(crate) fn add(&mut self, most: usize, said: Option<IpAddr>)
        requires { most ≤ MAX_ADDRESSES }
        ensures value { self.new ≡ added most said self.old }
        ensures few { length self.old ≤ most → length self.new ≤ most }
    {
        if let Some(address) = said
            && self.count < most
        {
            self.put(address);
        }
    }
}
