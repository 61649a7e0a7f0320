// The records of a reply.
ghost use Rattle.std.specs.Prelude.{◌≡◌, ◌<◌, ◌+◌, [], length};
ghost use Rattle.std.specs.Option.{option_map};
ghost use Rattle.resolver.specs.Replies.{number_at, behind_byte, after_name, record_in, record_at, address_of, noted, found_at};
ghost use Rattle.resolver.specs.Views.{seen};

use crate::addresses::Addresses;
use crate::family::{Family, kind_of};
use std::net::IpAddr;

// The bytes between a record's name and what it holds.
const FIXED: usize = 10;

// A record of a reply.
#[derive(Clone, Copy)]
pub(crate) struct Record<'a> {
    // Its type and class.
    pub(crate) kind: &'a [u8],
    pub(crate) contents: &'a [u8],
    // What follows it.
    pub(crate) rest: &'a [u8],
}

// Returns the addresses of this family in the `count` records at the front of `bytes`, or `None` if one of the records is
// malformed. Whose addresses they are does not matter: a server that was asked for one name follows its aliases itself,
// and lists them before the addresses. So the names of records are stepped over, and not read.
pub(crate) fn addresses_in(family: Family, count: u16, bytes: &[u8]) -> Option<Addresses>
    ensures { result ≡ found_at family count [] bytes.now }
{
    let mut found = Addresses::none();
    let mut rest = bytes;
    for _ in 0..count {
        let record = record_at(rest)?;
        found = noted(family, found, record.kind, record.contents)?;
        rest = record.rest;
    }
    Some(found)
}

// Returns the addresses found so far and that of a record, if it is of this family; `None` if its size does not fit.
fn noted(family: Family, found: Addresses, kind: &[u8], held: &[u8]) -> Option<Addresses>
    ensures { result ≡ noted family found kind.now held.now }
{
    if kind != [0, kind_of(family), 0, 1].as_slice() {
        return Some(found);
    }
    let mut longer = found;
    longer.put(address_of(family, held)?);
    Some(longer)
}

// Returns the address that is all of `bytes`.
fn address_of(family: Family, bytes: &[u8]) -> Option<IpAddr>
    ensures { result ≡ address_of family bytes.now }
{
    match family {
        Family::V4 => match <[u8; 4]>::try_from(bytes) {
            Ok(octets) => Some(IpAddr::from(octets)),
            Err(_) => None,
        },
        Family::V6 => match <[u8; 16]>::try_from(bytes) {
            Ok(octets) => Some(IpAddr::from(octets)),
            Err(_) => None,
        },
    }
}

// Returns the record at the front of `bytes`.
fn record_at(bytes: &[u8]) -> Option<Record<'_>>
    ensures { seen result ≡ record_at bytes.now }
{
    record_in(after_name(bytes)?)
}

// Returns the record whose name ends before `bytes`.
fn record_in(bytes: &[u8]) -> Option<Record<'_>>
    ensures { seen result ≡ record_in bytes.now }
{
    if bytes.len() < FIXED {
        return None;
    }
    let size = number_at(8, bytes) as usize;
    let (fixed, behind) = bytes.split_at(FIXED);
    if behind.len() < size {
        return None;
    }
    let (contents, rest) = behind.split_at(size);
    let kind = &fixed[..4];
    Some(Record {
        kind,
        contents,
        rest,
    })
}

// Returns the number in the two bytes from `place` on.
pub(crate) fn number_at(place: usize, bytes: &[u8]) -> u16
    requires { place + 1 < length bytes.now }
    ensures { result ≡ number_at place bytes.now }
{
    u16::from(bytes[place]) * 256 + u16::from(bytes[place + 1])
}

// Returns what follows the name at the front of `bytes`, or `None` if no name ends there.
fn after_name(bytes: &[u8]) -> Option<&[u8]>
    ensures { option_map (λ rest. rest.now) result ≡ after_name 0 bytes.now }
{
    let mut left = 0;
    for (place, byte) in bytes.iter().enumerate() {
        if left > 0 {
            left -= 1;
            continue;
        }
        let behind = &bytes[place + 1..];
        match *byte {
            0 => return Some(behind),
            1..=63 => left = *byte,
            64..=191 => return None,
            192..=255 => return behind_byte(behind),
        }
    }
    None
}

// Returns what follows one more byte.
fn behind_byte(bytes: &[u8]) -> Option<&[u8]>
    ensures { option_map (λ rest. rest.now) result ≡ behind_byte bytes.now }
{
    match bytes {
        [] => None,
        [_, rest @ ..] => Some(rest),
    }
}
