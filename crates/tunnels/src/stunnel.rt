// The configuration by which stunnel listens at the sockets of a bot's tunnels.
ghost use Rattle.std.specs.Prelude.{◌≡◌, ◌++◌, IfOk, OnOk};
ghost use Rattle.std.specs.List.{list_any};
ghost use Rattle.tunnels.specs.Paths.{host_port, tunnel_path};
ghost use Rattle.tunnels.specs.Stunnels.{accept_options, bot_option, check_options, connect_option, door_options, has_tunnels, hub_part};
ghost use Rattle.tunnels.specs.Stunnels.{head_text, hub_section, hubs_text, identity_option, is_named, key_options, verified_options};
ghost use Rattle.tunnels.specs.Stunnels.{listen_part, listen_section, same_address, server_part, server_section};
ghost use Rattle.tunnels.specs.Stunnels.{servers_text, stunnel_text, uses_tls};

use bytetext::NoMemory;
use itoa::Buffer;
use settings::{Address, Server, Settings, is_address};
use std::alloc::Global;

// What is said once for all tunnels: stunnel stays the child of whoever started it, writes no file, and logs to standard
// error.
const HEAD: &[u8] = b"; for stunnel, run by the bot's own user; printed by eggnet tunnel
foreground = yes
syslog = no
pid =
";

// What is said of each server: its certificate is to be signed by somebody whom this machine trusts, and its name is
// looked up when a connection begins.
const VERIFIED: &[u8] = b"verifyChain = yes
CApath = /etc/ssl/certs
sslVersionMin = TLSv1.2
delay = yes
";

// What both ends of a link say: no certificate counts, only a key that both have.
const KEYED: &[u8] = b"ciphers = ECDHE-PSK-CHACHA20-POLY1305:DHE-PSK-AES256-GCM-SHA384
sslVersionMin = TLSv1.2
sslVersionMax = TLSv1.2
PSKsecrets = ";

// What begins a section, before its name.
const OPEN: &[u8] = b"\n[";

// What follows the name of a section that connects to another machine, and of one that accepts from there.
const CLIENT: &[u8] = b"]\nclient = yes\naccept = ";

const ACCEPT: &[u8] = b"]\naccept = ";

// What follows where it accepts.
const CONNECT: &[u8] = b"\nconnect = ";

// What stands before the number of a leaf.
const IDENTITY: &[u8] = b"delay = yes\nPSKidentity = leaf";

/// Returns whether a connection of `settings` goes through a tunnel.
pub fn has_tunnels(settings: &Settings) -> bool
    ensures { result ≡ has_tunnels settings.now }
{
    has_hub_plus(settings.hubs.as_slice())
        || uses_tls(&settings.listen)
        || has_plus(settings.servers.as_slice())
}

fn uses_tls(address: &Option<Address>) -> bool
    ensures { result ≡ uses_tls address.now }
{
    match address {
        Some(address) => address.tls,
        None => false,
    }
}

fn has_hub_plus(hubs: &[Address]) -> bool
    ensures { result ≡ list_any (λ hub. hub.tls) hubs.now }
{
    hubs.iter().any(|hub| hub.tls)
}

fn has_plus(servers: &[Server]) -> bool
    ensures { result ≡ list_any (λ server. server.address.tls) servers.now }
{
    servers.iter().any(|server| server.address.tls)
}

/// Returns the configuration for stunnel: a section for each server of `settings` whose port has a plus, one if several
/// lines name the same. Each listens at the server's socket ([`tunnel_path`](crate::tunnel_path)), connects to the server
/// by TLS 1.2 or later, and refuses a certificate that no authority of `/etc/ssl/certs` has signed, or that is not the
/// server's own. Each `hub` with a plus has a section like that, and a `listen` with a plus one that listens at its address
/// and connects to its socket. These two know no certificate: both ends have the leaf's key of the file
/// `FOLDER/tls/keys`.
///
/// # Errors
/// `NoMemory` if an allocation fails.
pub fn stunnel_text(alloc: Global, settings: &Settings) -> Result<Vec<u8>, NoMemory>
    ensures { IfOk result (λ text. text.items ≡ stunnel_text settings.now) }
{
    let folder = settings.folder.as_bytes();
    let mut text = Vec::new(alloc);
    put_head(&mut text)?;
    put_servers(&mut text, folder, settings.servers.as_slice())?;
    put_hubs(
        &mut text,
        folder,
        settings.hubs.as_slice(),
        settings.station.number,
    )?;
    put_listen(&mut text, folder, &settings.listen)?;
    Ok(text)
}

// Appends what is said of all tunnels.
#[tactic(auto, unfolding(crate::specs::Stunnels::head_text))]
fn put_head(out: &mut Vec<u8>) -> Result<(), NoMemory>
    ensures { OnOk result (out.new.items ≡ out.old.items ++ head_text) }
{
    put(out, HEAD)
}

// Appends a section for each server with a plus.
fn put_servers(out: &mut Vec<u8>, folder: &[u8], servers: &[Server]) -> Result<(), NoMemory>
    ensures { OnOk result (out.new.items ≡ out.old.items ++ servers_text folder.now servers.now) }
{
    for (place, server) in servers.iter().enumerate() {
        let (_, later) = servers.split_at(place + 1);
        put_server(out, folder, &server.address, later)?;
    }
    Ok(())
}

// Appends the section of a server with a plus, unless one of the `later` ones has the same address.
fn put_server(
    out: &mut Vec<u8>,
    folder: &[u8],
    address: &Address,
    later: &[Server],
) -> Result<(), NoMemory>
    ensures { OnOk result (out.new.items ≡ out.old.items ++ server_part folder.now address.now later.now) }
{
    if address.tls && !is_named(address, later) {
        put_section(out, folder, address)?;
    }
    Ok(())
}

// Whether one of `servers` has this address, with a plus.
fn is_named(address: &Address, servers: &[Server]) -> bool
    ensures { result ≡ is_named address.now servers.now }
{
    servers
        .iter()
        .any(|server| same_address(address, &server.address))
}

// Whether `other` has a plus too, and names the same.
fn same_address(one: &Address, other: &Address) -> bool
    ensures { result ≡ same_address one.now other.now }
{
    other.tls && one.port == other.port && one.host.as_bytes() == other.host.as_bytes()
}

// Appends the section of a server.
#[tactic(auto, unfolding(crate::specs::Stunnels::server_section))]
fn put_section(out: &mut Vec<u8>, folder: &[u8], address: &Address) -> Result<(), NoMemory>
    ensures { OnOk result (out.new.items ≡ out.old.items ++ server_section folder.now address.now) }
{
    put_accept(out, folder, address)?;
    put_connect(out, address)?;
    put_checks(out, address.host.as_bytes())?;
    put_verified(out)
}

// Appends that the chain of certificates is verified.
#[tactic(auto, unfolding(crate::specs::Stunnels::verified_options))]
fn put_verified(out: &mut Vec<u8>) -> Result<(), NoMemory>
    ensures { OnOk result (out.new.items ≡ out.old.items ++ verified_options) }
{
    put(out, VERIFIED)
}

// Appends the front of a section that accepts at an address's socket.
#[tactic(auto, unfolding(crate::specs::Stunnels::accept_options))]
fn put_accept(out: &mut Vec<u8>, folder: &[u8], address: &Address) -> Result<(), NoMemory>
    ensures { OnOk result (out.new.items ≡ out.old.items ++ accept_options folder.now address.now) }
{
    put(out, OPEN)?;
    put_joined(out, address, b"_")?;
    put(out, CLIENT)?;
    put_path(out, folder, address)
}

// Appends the option by which a section connects to an address.
#[tactic(auto, unfolding(crate::specs::Stunnels::connect_option))]
fn put_connect(out: &mut Vec<u8>, address: &Address) -> Result<(), NoMemory>
    ensures { OnOk result (out.new.items ≡ out.old.items ++ connect_option address.now) }
{
    put(out, CONNECT)?;
    put_joined(out, address, b":")?;
    put(out, b"\n")
}

// Appends which name or address is to stand in the certificate, and by which name the server is asked for it. An address
// is no such name (RFC 6066 section 3).
#[tactic(auto, unfolding(crate::specs::Stunnels::check_options))]
fn put_checks(out: &mut Vec<u8>, host: &[u8]) -> Result<(), NoMemory>
    ensures { OnOk result (out.new.items ≡ out.old.items ++ check_options host.now) }
{
    if is_address(host) {
        put(out, b"checkIP = ")?;
        put(out, host)?;
        return put(out, b"\nsni =\n");
    }
    put(out, b"checkHost = ")?;
    put(out, host)?;
    put(out, b"\nsni = ")?;
    put(out, host)?;
    put(out, b"\n")
}

// Appends a section for each hub with a plus of the leaf numbered `leaf`.
fn put_hubs(out: &mut Vec<u8>, folder: &[u8], hubs: &[Address], leaf: u16) -> Result<(), NoMemory>
    ensures { OnOk result (out.new.items ≡ out.old.items ++ hubs_text folder.now leaf hubs.now) }
{
    for hub in hubs {
        put_hub(out, folder, hub, leaf)?;
    }
    Ok(())
}

// Appends the section of a hub, if its port has a plus.
fn put_hub(out: &mut Vec<u8>, folder: &[u8], hub: &Address, leaf: u16) -> Result<(), NoMemory>
    ensures { OnOk result (out.new.items ≡ out.old.items ++ hub_part folder.now leaf hub.now) }
{
    if hub.tls {
        put_hub_section(out, folder, hub, leaf)?;
    }
    Ok(())
}

#[tactic(auto, unfolding(crate::specs::Stunnels::hub_section))]
fn put_hub_section(
    out: &mut Vec<u8>,
    folder: &[u8],
    address: &Address,
    leaf: u16,
) -> Result<(), NoMemory>
    ensures { OnOk result (out.new.items ≡ out.old.items ++ hub_section folder.now address.now leaf) }
{
    put_accept(out, folder, address)?;
    put_connect(out, address)?;
    put_identity(out, leaf)?;
    put_keys(out, folder)
}

// Appends by which name a leaf's key stands in the file of the keys.
#[tactic(auto, unfolding(crate::specs::Stunnels::identity_option))]
fn put_identity(out: &mut Vec<u8>, leaf: u16) -> Result<(), NoMemory>
    ensures { OnOk result (out.new.items ≡ out.old.items ++ identity_option leaf) }
{
    let mut buffer = Buffer::new();
    put(out, IDENTITY)?;
    put(out, buffer.format(leaf).as_bytes())?;
    put(out, b"\n")
}

// Appends the section of the address at which a hub's tunnel listens, if its port has a plus.
fn put_listen(out: &mut Vec<u8>, folder: &[u8], listen: &Option<Address>) -> Result<(), NoMemory>
    ensures { OnOk result (out.new.items ≡ out.old.items ++ listen_part folder.now listen.now) }
{
    match listen {
        Some(address) if address.tls => put_listen_section(out, folder, address),
        Some(_) | None => Ok(()),
    }
}

#[tactic(auto, unfolding(crate::specs::Stunnels::listen_section))]
fn put_listen_section(out: &mut Vec<u8>, folder: &[u8], address: &Address) -> Result<(), NoMemory>
    ensures { OnOk result (out.new.items ≡ out.old.items ++ listen_section folder.now address.now) }
{
    put_door(out, address)?;
    put_bot(out, folder, address)?;
    put_keys(out, folder)
}

// Appends the option by which a section connects to the bot, at an address's socket.
#[tactic(auto, unfolding(crate::specs::Stunnels::bot_option))]
fn put_bot(out: &mut Vec<u8>, folder: &[u8], address: &Address) -> Result<(), NoMemory>
    ensures { OnOk result (out.new.items ≡ out.old.items ++ bot_option folder.now address.now) }
{
    put(out, CONNECT)?;
    put_path(out, folder, address)?;
    put(out, b"\n")
}

// Appends the front of a section that accepts at an address.
#[tactic(auto, unfolding(crate::specs::Stunnels::door_options))]
fn put_door(out: &mut Vec<u8>, address: &Address) -> Result<(), NoMemory>
    ensures { OnOk result (out.new.items ≡ out.old.items ++ door_options address.now) }
{
    put(out, OPEN)?;
    put_joined(out, address, b"_")?;
    put(out, ACCEPT)?;
    put_joined(out, address, b":")
}

// Appends what both ends of a link say of the file of their keys.
#[tactic(auto, unfolding(crate::specs::Stunnels::key_options))]
fn put_keys(out: &mut Vec<u8>, folder: &[u8]) -> Result<(), NoMemory>
    ensures { OnOk result (out.new.items ≡ out.old.items ++ key_options folder.now) }
{
    put(out, KEYED)?;
    put(out, folder)?;
    put(out, b"/tls/keys\n")
}

// Appends the path of an address's socket.
fn put_path(out: &mut Vec<u8>, folder: &[u8], address: &Address) -> Result<(), NoMemory>
    ensures { OnOk result (out.new.items ≡ out.old.items ++ tunnel_path folder.now address.now) }
{
    put(out, folder)?;
    put(out, b"/tls/")?;
    put_joined(out, address, b"_")
}

// Appends a host and its port, with this between them.
fn put_joined(out: &mut Vec<u8>, address: &Address, between: &[u8]) -> Result<(), NoMemory>
    ensures { OnOk result (out.new.items ≡ out.old.items ++ host_port address.now between.now) }
{
    let mut buffer = Buffer::new();
    put(out, address.host.as_bytes())?;
    put(out, between)?;
    put(out, buffer.format(address.port).as_bytes())
}

fn put(out: &mut Vec<u8>, bytes: &[u8]) -> Result<(), NoMemory>
    ensures { OnOk result (out.new.items ≡ out.old.items ++ bytes.now) }
{
    out.extend_from_slice(bytes)?;
    Ok(())
}
