// A connection to an address of the configuration, through its tunnel if it has one.
ghost use Rattle.std.specs.Prelude.{◌≡◌, Err, IfOk, IfSome, true, false};
ghost use Rattle.bytetext.specs.declared.failure.Failure.TheVariants.{Refused};
ghost use Rattle.streams.specs.Accounts.{nothing_yet};
ghost use Rattle.net.specs.Addresses.{LeadsTo};
ghost use Rattle.net.specs.declared.address.DialFault.TheVariants.{NoTunnel};
ghost use Rattle.tunnels.specs.Dials.{GoesThroughTunnel, NeedsName};
ghost use Rattle.tunnels.specs.Paths.{HasPath};

use crate::path::tunnel_path;
use bytetext::Failure;
use net::{DialFault, DialTokens, Dialled, Dialling, Registry};
use settings::Address;
use std::fs::File;
use std::net::Net;
use std::random::RandomSource;
use std::rt::Files;

/// An address of the configuration of a bot, and the bot's folder.
#[derive(Clone, Copy)]
pub struct Target<'a> {
    /// The bot's folder.
    pub folder: &'a [u8],
    /// The address, of a server or of a hub.
    pub address: &'a Address,
}

/// Begins to connect to `target`, which is to be the server at [`Dialling::place`]. If its port has a plus, connects to
/// the socket of its tunnel, and never over TCP: [`Dialling::connect_path`]. Else connects over TCP:
/// [`Dialling::connect`], which returns `Ok(None)` while it looks a name up.
///
/// # Errors
/// With a plus `NoTunnel`, also if [`tunnel_path`] returns `None`, and `TunnelBusy`; else those of
/// [`Dialling::connect`].
pub fn dial<R: AllocGlobal + Net + Files<File = File> + RandomSource>(
    dialling: &mut Dialling,
    rt: &R,
    registry: &Registry,
    tokens: DialTokens,
    target: Target<'_>,
    steady: u64,
) -> Result<Option<Dialled>, Failure<DialFault>>
    ensures unchanged { dialling.new ≡ dialling.old }
    // With a plus, nothing but the tunnel is connected to, no name is looked up, and no memory is needed.
    ensures tunnel { target.entry.address.now.tls ≡ true → GoesThroughTunnel result }
    // A tunnel whose socket can have no path is none.
    ensures no_path { target.entry.address.now.tls ≡ true → (HasPath target.entry.folder.now target.entry.address.now → ⊥)
        → result ≡ Err (Refused NoTunnel) }
    // Without one, memory runs out only while a name is looked up.
    ensures memory { NeedsName target.entry.address.now.host result }
    ensures address { target.entry.address.now.tls ≡ false → LeadsTo target.entry.address.now.host target.entry.address.now.port result }
    ensures fresh { IfOk result (λ found. IfSome found (λ dialled. dialled.socket.account.past ≡ nothing_yet)) }
{
    let address = target.address;
    if address.tls {
        return dial_tunnel(dialling, rt, registry, tokens.connection, target);
    }
    dialling.connect(
        rt,
        registry,
        tokens,
        address.host.as_bytes(),
        address.port,
        steady,
    )
}

// Connects to the tunnel of an address.
fn dial_tunnel<R: Net>(
    dialling: &Dialling,
    rt: &R,
    registry: &Registry,
    token: usize,
    target: Target<'_>,
) -> Result<Option<Dialled>, Failure<DialFault>>
    ensures tunnel { GoesThroughTunnel result }
    ensures no_path { (HasPath target.entry.folder.now target.entry.address.now → ⊥) → result ≡ Err (Refused NoTunnel) }
    ensures fresh { IfOk result (λ found. IfSome found (λ dialled. dialled.socket.account.past ≡ nothing_yet)) }
{
    let Some(path) = tunnel_path(target.folder, target.address) else {
        return Err(Failure::Refused(DialFault::NoTunnel));
    };
    match dialling.connect_path(rt, registry, token, path.as_str()) {
        Ok(dialled) => Ok(Some(dialled)),
        Err(fault) => Err(Failure::Refused(fault)),
    }
}
