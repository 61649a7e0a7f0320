// A leaf that leaves its net, since the hub is the heir of it.
ghost use Rattle.std.specs.Prelude.{◌≡◌, ◌<◌, [], OnOk};
ghost use Rattle.bytetext.specs.declared.moment.TheConstants.{MOMENTS_END};

use crate::ending::RunError;
use administrators::{Admins, Asks, tell_unanswered};
use net::Log;
use serverlink::IrcConnection;
use settings::Settings;

// The answer to whoever asked for a change that the hub of the net before has not answered.
const UNKNOWN: &[u8] =
    b"unknown: the hub of the net before has not answered, so see what show says, and ask again for what it lacks";

/// Tells whoever waits for the answer to a change that nobody knows whether it was accepted, and sends the server a QUIT, as
/// far as it takes them at once.
///
/// # Errors
/// `NoMemory` if an allocation fails.
pub fn leave_net<R: AllocGlobal>(
    rt: &R,
    log: &mut Log,
    asks: &mut Asks,
    admins: &mut Admins,
    uplink: &mut IrcConnection,
    settings: &Settings,
    now: u64,
) -> Result<(), RunError>
    requires moment { now < MOMENTS_END }
    ensures none { OnOk result (asks.new.askers.items ≡ []) }
{
    tell_unanswered(rt.alloc(), asks, admins, uplink, UNKNOWN)?;
    uplink.keep(rt, log, settings, now)?;
    uplink.tell(log, settings, b"QUIT :joining the heir of the net", now)?;
    let _server = uplink.send();
    let _admins = admins.send();
    Ok(())
}
