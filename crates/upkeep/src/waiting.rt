// The wait between two turns of a process.
ghost use Rattle.std.specs.Prelude.{◌<◌, IfOk};
ghost use Rattle.bytetext.specs.declared.moment.TheConstants.{MOMENTS_END};

use crate::ending::RunError;
use administrators::Seconds;
use net::{Timeline, Watch};
use serverlink::IrcConnection;
use std::thread;
use std::time::{Clock, Duration};

// A wait that the server alone ends lasts at least this many milliseconds, with its pause.
const APART: u64 = 10;

/// Waits until there may be something to do: not at all unless the process `rests`, and at most until the next second.
/// Returns what the clocks show after the wait.
///
/// If the process rests and the server alone ends the wait within 10 ms, the call pauses until 10 ms have passed since the
/// wait began. It doesn't if less than 10 ms of the second were left then. So lines that come closely after one another
/// share a turn, and a line that comes after a silence is heard at once.
///
/// # Errors
/// `System` if the system cannot wait or tell the time.
pub fn wait<R: Clock>(
    rt: &R,
    watch: &mut Watch,
    timeline: &mut Timeline,
    rests: bool,
) -> Result<Seconds, RunError>
    ensures moment { IfOk result (λ seconds. seconds.wall < MOMENTS_END) }
{
    let left = if rests {
        left_of_second(rt.since_1970()?)
    } else {
        0
    };
    watch.wait(left)?;
    let mut since_1970 = rt.since_1970()?;
    let pause = pause_after(left, left_of_second(since_1970));
    if pause > 0 && IrcConnection::is_alone_in(watch.tokens()) {
        thread::sleep(rt, Duration::from_millis(pause));
        since_1970 = rt.since_1970()?;
    }
    let steady = rt.monotonic()?.as_secs();
    let wall = timeline.read(since_1970.as_secs(), steady);
    Ok(Seconds { wall, steady })
}

// The milliseconds that are left of this second, at least 1.
fn left_of_second(since_1970: Duration) -> u64 {
    let passed = u64::from(since_1970.subsec_millis());
    1_000u64.saturating_sub(passed).max(1)
}

// The milliseconds of a pause after a wait that began with `before` of them left of a second, and ended with `after`.
fn pause_after(before: u64, after: u64) -> u64 {
    if before > APART && before >= after {
        APART.saturating_sub(before - after)
    } else {
        0
    }
}
