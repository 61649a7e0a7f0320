// Sockets that stunnel left.
use crate::path::tunnel_path;
use net::{UnixSocket, Watch};
use settings::{Address, Settings};
use std::fs;
use std::fs::File;
use std::io::ErrorKind;
use std::net::Net;
use std::rt::Files;

// The token of the only connection.
const TOKEN: usize = 0;

/// Removes the sockets of the tunnels to the servers and the hubs of `settings` at which nobody listens: stunnel leaves
/// them when it ends, and does not listen again at one that is there. A socket at which somebody listens stays, and so
/// does one that can't be tried.
pub fn clear_left<R: AllocGlobal + Net + Files<File = File>>(rt: &R, settings: &Settings) {
    let Ok(watch) = Watch::new(rt, 4) else {
        return;
    };
    for server in settings.servers.as_slice() {
        clear(rt, &watch, settings, &server.address);
    }
    for hub in settings.hubs.as_slice() {
        clear(rt, &watch, settings, hub);
    }
}

// Removes the socket of the tunnel to an address, if it has one and nobody listens there.
fn clear<R: Net + Files<File = File>>(
    rt: &R,
    watch: &Watch,
    settings: &Settings,
    address: &Address,
) {
    if !address.tls {
        return;
    }
    let Some(path) = tunnel_path(settings.folder.as_bytes(), address) else {
        return;
    };
    if let Err(error) = UnixSocket::connect_path(rt, watch.registry(), TOKEN, path.as_str()) {
        if error.kind() == ErrorKind::ConnectionRefused {
            let _gone = fs::remove_file(rt, path.as_str());
        }
    }
}
