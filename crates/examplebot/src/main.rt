//! Three bots in one: `op` gives an op, `badword` bans for ten minutes, and `greet` greets.
//!
//! It replays the script on standard input, as `eggnet replay` does, with these procs instead of eggnet's. The script
//! calls each of them, and shows the ban and its end.
#![tactic(auto)]

mod asking;
mod our_procs;
mod ours;

use crate::ours::store;
use replaying::replay_input;
use std::process::ExitCode;

fn main(rt: HostRuntime) -> Result<ExitCode, anyhow::Error> {
    let store = store(rt.alloc())?;
    Ok(ExitCode::from(replay_input(&rt, store)))
}
