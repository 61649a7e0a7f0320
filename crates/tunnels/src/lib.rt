//! The tunnels through which a bot's encrypted connections go.
//!
//! The program has no TLS of its own. A configuration says by a plus before a port, as in `server irc.example.net
//! +6697`, that a connection is encrypted by TLS ([`settings::Address::tls`]). The bot then connects to a Unix socket in
//! its own folder ([`tunnel_path`]), never over TCP, and looks up no name for it ([`dial`]). At the socket listens
//! stunnel, which verifies the server's certificate and encrypts all that passes. [`stunnel_text`] is the configuration
//! by which stunnel listens at each of these sockets. No other user of the machine enters the folder, so none uses the
//! bot's tunnels.
//!
//! ```text
//! clear_left(&rt, &settings);
//! let text = stunnel_text(alloc, &settings)?;    // what `eggnet tunnel CONFIG` prints
//! let dialled = dial(&mut dialling, &rt, registry, tokens, target, steady)?;
//! ```
#![tactic(auto)]

mod left;
mod path;
mod stunnel;
mod target;

pub use crate::left::clear_left;
pub use crate::path::{MAX_PATH, TunnelPath, tunnel_path};
pub use crate::stunnel::{has_tunnels, stunnel_text};
pub use crate::target::{Target, dial};
