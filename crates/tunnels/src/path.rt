// Where the socket of a tunnel lies.
ghost use Rattle.std.specs.Prelude.{◌≡◌, ◌≤◌, ◌↔◌, IfSome, IsSome, length};
ghost use Rattle.tunnels.specs.Paths.{HasPath, joined_path, tunnel_path};

use arrayvec::ArrayString;
use itoa::Buffer;
use settings::Address;
use std::str;

/// The most bytes of a Unix socket's path.
pub const MAX_PATH: usize = 107;

/// The path of a Unix socket.
pub type TunnelPath = ArrayString<MAX_PATH>;

/// Returns the path of the socket of the tunnel to `address`, of a bot whose folder is `folder`: `FOLDER/tls/HOST_PORT`.
/// Returns `None` if it has more than [`MAX_PATH`] bytes, which [`Settings::read`](settings::Settings::read) rejects, or
/// if the folder or the host is not UTF-8. Does not allocate.
pub fn tunnel_path(folder: &[u8], address: &Address) -> Option<TunnelPath>
    ensures path { IfSome result (λ path. path.bytes ≡ tunnel_path folder.now address.now) }
    ensures exists { IsSome result ↔ HasPath folder.now address.now }
{
    let folder = str::from_utf8(folder).ok()?;
    let host = str::from_utf8(address.host.as_bytes()).ok()?;
    joined(folder, host, address.port)
}

// Joins a folder, a host and its port to a path, if there is room.
fn joined(folder: &str, host: &str, port: u16) -> Option<TunnelPath>
    ensures path { IfSome result (λ path. path.bytes ≡ joined_path folder.now host.now port) }
    ensures exists { IsSome result ↔ (length (joined_path folder.now host.now port) ≤ MAX_PATH) }
{
    let mut buffer = Buffer::new();
    let mut path = TunnelPath::new();
    path.try_push_str(folder).ok()?;
    path.try_push_str("/tls/").ok()?;
    path.try_push_str(host).ok()?;
    path.try_push_str("_").ok()?;
    path.try_push_str(buffer.format(port)).ok()?;
    Some(path)
}
