// The addresses that a machine knows by itself.
ghost use Rattle.std.specs.Prelude.{◌≡◌};
ghost use Rattle.resolver.specs.Files.{AreKnown, Spells, host_text, or_else, by_itself};

use crate::addresses::{Addresses, MAX_ADDRESSES};
use crate::names::bare;
use crate::words::{address_in, first_word, has_word, uncommented};
use std::net::IpAddr;

/// Returns the addresses of `name` in `text`, the text of `/etc/hosts`: those of each line that has the name after its
/// address, in order. Case does not count (RFC 4343), nor does a dot at the end of the name, and `#` begins a comment. If
/// the file does not have the name `localhost`, its addresses are 127.0.0.1 and ::1 (RFC 6761 section 6.3). The empty name
/// has no address.
pub fn known_addresses(text: &[u8], name: &[u8]) -> Addresses
    ensures known { AreKnown text.now name.now result }
{
    let name = bare(name);
    let mut found = Addresses::none();
    for line in text.split(|byte| *byte == b'\n') {
        found.add(MAX_ADDRESSES, address_on(line, name));
    }
    or_by_itself(found, name)
}

// Returns the addresses found, or what `name` means by itself if there are none.
fn or_by_itself(found: Addresses, name: &[u8]) -> Addresses
    ensures { result ≡ or_else found (by_itself name.now) }
{
    if !found.as_slice().is_empty() || !name.eq_ignore_ascii_case(b"localhost") {
        return found;
    }
    let mut own = found;
    own.put(IpAddr::from([127, 0, 0, 1]));
    own.put(IpAddr::from([0, 0, 0, 0, 0, 0, 0, 1]));
    own
}

// Returns the address on `line`, if the line has this name.
fn address_on(line: &[u8], name: &[u8]) -> Option<IpAddr>
    ensures { Spells (host_text name.now line.now) result }
{
    let line = uncommented(line);
    if name.is_empty() || !has_word(line, name) {
        return None;
    }
    address_in(first_word(line))
}
