// Draws scripts.
use crate::painting::picture;
use crate::scripts::replay_told;
use crate::statuses::{FAULT, not_read, out_of_memory};
use bytetext::Failure;
use procs::{ProcStore, Promise, Run};
use replay::{script_bytes, write_text};
use std::fs::File;
use std::io;
use std::rt::Files;
use streams::{Duplex, Stream};

/// Draws the run of the script in `file`, or on standard input if `file` is `None`, as SVG on standard output. The
/// binds call the procs of `store`. If it ends early, standard error says why. Returns the status to end with.
pub fn picture_script<
    R: Input + Print + Eprint + AllocGlobal + Files<File = File>,
    P: Promise,
    B: Run,
>(rt: &R, store: ProcStore<P, B>, file: Option<&str>) -> u8 {
    let Some(file) = file else {
        return drawn(rt, store, &mut Duplex::new(rt.reader(), io::writer(rt)));
    };
    match File::open(rt, file) {
        Ok(script) => drawn(rt, store, &mut Duplex::new(script, io::writer(rt))),
        Err(_) => not_read(rt, file),
    }
}

// Draws the run of the script that a stream gives.
fn drawn<R: Eprint + AllocGlobal, P: Promise, B: Run, S: Stream>(
    rt: &R,
    store: ProcStore<P, B>,
    stream: &mut S,
) -> u8 {
    let script = match script_bytes(rt.alloc(), stream) {
        Ok(script) => script,
        Err(error) => return replay_told(rt, error),
    };
    match picture(rt.alloc(), store, script.as_slice()) {
        Ok(svg) => written(rt, stream, svg.as_slice()),
        Err(Failure::Refused(fault)) => {
            let _told = eprintln!(rt; "eggnet: {fault}");
            FAULT
        }
        Err(Failure::NoMemory) => out_of_memory(rt),
    }
}

fn written<R: Eprint, S: Stream>(rt: &R, stream: &mut S, svg: &[u8]) -> u8 {
    match write_text(stream, svg) {
        Ok(()) => 0,
        Err(error) => replay_told(rt, error),
    }
}
