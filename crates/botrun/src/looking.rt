// What the connection to the server makes of the server's lines.
ghost use Rattle.std.specs.Prelude.{◌<◌};
ghost use Rattle.bytetext.specs.declared.moment.TheConstants.{MOMENTS_END};

use bytetext::{NoMemory, Text};
use net::Log;
use serverlink::IrcConnection;
use settings::Settings;
use turns::HeardLine;

// Has the connection look at the lines of a turn, in order, each with whether the bot's step has it logged. Before
// them the bot's nick is `nick`.
pub(crate) fn look_at_all<R: AllocGlobal>(
    rt: &R,
    log: &mut Log,
    uplink: &mut IrcConnection,
    settings: &Settings,
    nick: &[u8],
    lines: &[HeardLine],
    now: u64,
) -> Result<(), NoMemory>
    requires moment { now < MOMENTS_END }
{
    let mut nick = Text::from_slice(rt.alloc(), nick)?;
    for HeardLine { line, logged } in lines {
        if let Some(given) = uplink.look(rt, log, settings, line, *logged, nick.as_bytes(), now)? {
            nick = Text::from_slice(rt.alloc(), given)?;
        }
    }
    Ok(())
}
