// Replays scripts.
use crate::statuses::{FAULT, STREAM_FAULT, not_read, out_of_memory};
use procs::{ProcStore, Promise, Run};
use replay::{ReplayError, replay};
use std::fs::File;
use std::io;
use std::rt::Files;
use streams::{Duplex, Stream};

/// Replays the script on standard input, with its transcript on standard output. The binds call the procs of `store`.
/// If it ends early, standard error says why. Returns the status to end with.
pub fn replay_input<R: Input + Print + Eprint + AllocGlobal, P: Promise, B: Run>(
    rt: &R,
    store: ProcStore<P, B>,
) -> u8 {
    replayed(rt, store, &mut Duplex::new(rt.reader(), io::writer(rt)))
}

/// Replays the script in `file`, as [`replay_input`] does with standard input. The binds call the procs of `store`.
pub fn replay_file<R: Print + Eprint + AllocGlobal + Files<File = File>, P: Promise, B: Run>(
    rt: &R,
    store: ProcStore<P, B>,
    file: &str,
) -> u8 {
    match File::open(rt, file) {
        Ok(script) => replayed(rt, store, &mut Duplex::new(script, io::writer(rt))),
        Err(_) => not_read(rt, file),
    }
}

// Replays the script that a stream gives.
fn replayed<R: Eprint + AllocGlobal, P: Promise, B: Run, S: Stream>(
    rt: &R,
    store: ProcStore<P, B>,
    stream: &mut S,
) -> u8 {
    match replay(rt.alloc(), store, stream) {
        Ok(()) => 0,
        Err(error) => replay_told(rt, error),
    }
}

// Reports why a script's run was not replayed or not drawn.
pub(crate) fn replay_told<R: Eprint>(rt: &R, error: ReplayError) -> u8 {
    let status = match error {
        ReplayError::Script(_) => FAULT,
        ReplayError::Read | ReplayError::Write => STREAM_FAULT,
        ReplayError::NoMemory => return out_of_memory(rt),
    };
    let _told = eprintln!(rt; "eggnet: {error}");
    status
}
