// Scripts, played live.
use eggprocs::Ours;
use live::{LiveError, live};
use procs::{ProcStore, Run};
use replaying::{FAULT, STREAM_FAULT, out_of_memory};
use std::io;
use std::net::Net;
use streams::Duplex;

/// Plays the live script on standard input, with the procs in `store`. Returns the exit status.
pub fn live_script<R: Input + Print + Eprint + AllocGlobal + Net, B: Run>(
    rt: &R,
    store: ProcStore<Ours, B>,
) -> u8 {
    let mut stream = Duplex::new(rt.reader(), io::writer(rt));
    match live(rt, store, &mut stream) {
        Ok(()) => 0,
        Err(error) => live_told(rt, error),
    }
}

// Reports why a live botnet ended early.
fn live_told<R: Eprint>(rt: &R, error: LiveError) -> u8 {
    let status = match error {
        LiveError::Script(_) => FAULT,
        LiveError::Read | LiveError::Write | LiveError::Socket(_) | LiveError::Stalled =>
            STREAM_FAULT,
        LiveError::NoMemory => return out_of_memory(rt),
    };
    let _told = eprintln!(rt; "eggnet: {error}");
    status
}
