// The name servers of a machine.
ghost use Rattle.std.specs.Prelude.{◌≡◌, ◌<◌, ◌≤◌, [], ◌∷◌, length};
ghost use Rattle.resolver.specs.Files.{AreServers, Spells, server_text, or_else, own4};
ghost use Rattle.resolver.specs.declared.servers.TheConstants.{MAX_SERVERS};

use crate::addresses::Addresses;
use crate::words::{address_in, first_word, word_len};
use std::net::IpAddr;

/// The most name servers that are asked.
pub const MAX_SERVERS: usize = 3;

/// Returns the first three addresses that `text`, the text of `/etc/resolv.conf`, gives after the word `nameserver` at the
/// beginning of a line. Returns 127.0.0.1 if it gives none. The other words of the file mean nothing here: a name is
/// looked up as it stands.
pub fn name_servers(text: &[u8]) -> Addresses
    ensures servers { AreServers text.now result }
    ensures some { 0 < length result }
    ensures few { length result ≤ MAX_SERVERS }
{
    let mut servers = Addresses::none();
    for line in text.split(|byte| *byte == b'\n') {
        servers.add(MAX_SERVERS, server_on(line));
    }
    or_this_machine(servers)
}

// Returns the servers, or this machine if there are none.
fn or_this_machine(servers: Addresses) -> Addresses
    ensures { result ≡ or_else servers (own4 ∷ []) }
{
    if !servers.as_slice().is_empty() {
        return servers;
    }
    let mut own = servers;
    own.put(IpAddr::from([127, 0, 0, 1]));
    own
}

// Returns the name server that `line` names.
fn server_on(line: &[u8]) -> Option<IpAddr>
    ensures { Spells (server_text line.now) result }
{
    let (word, rest) = line.split_at(word_len(line));
    match word {
        b"nameserver" => address_in(first_word(rest)),
        _ => None,
    }
}
