// Whether the paths of the tunnels' sockets are short enough.
ghost use Rattle.std.specs.Prelude.{◌≡◌};
ghost use Rattle.settings.specs.Pluses.{all_fit, fits, hubs_fit, may_fit};
ghost use Rattle.settings.specs.Reading.{folder_len, tunnels_fit};

use crate::MAX_TUNNEL;
use crate::draft::Draft;
use crate::settings::{Address, Server};

/// Returns whether the folder and the host of each line with a plus are short enough for the path of a socket.
pub fn tunnels_fit(draft: &Draft) -> bool
    ensures { result ≡ tunnels_fit draft.now }
{
    let folder = folder_len(draft);
    hubs_fit(folder, draft.hubs.as_slice())
        && may_fit(folder, &draft.listen)
        && all_fit(folder, draft.servers.as_slice())
}

fn hubs_fit(folder: usize, hubs: &[Address]) -> bool
    ensures { result ≡ hubs_fit folder hubs.now }
{
    hubs.iter().all(|hub| fits(folder, hub))
}

fn all_fit(folder: usize, servers: &[Server]) -> bool
    ensures { result ≡ all_fit folder servers.now }
{
    servers.iter().all(|server| fits(folder, &server.address))
}

// How long the name of the folder is.
fn folder_len(draft: &Draft) -> usize
    ensures { result ≡ folder_len draft.now }
{
    match &draft.folder {
        Some(folder) => folder.as_bytes().len(),
        None => 0,
    }
}

fn may_fit(folder: usize, address: &Option<Address>) -> bool
    ensures { result ≡ may_fit folder address.now }
{
    match address {
        Some(address) => fits(folder, address),
        None => true,
    }
}

// Whether the path of this address is short enough, if it has one.
fn fits(folder: usize, address: &Address) -> bool
    ensures { result ≡ fits folder address.now }
{
    !address.tls || folder.saturating_add(address.host.as_bytes().len()) <= MAX_TUNNEL
}
