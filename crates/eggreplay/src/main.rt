//! Replays or draws a script, as `eggnet` does: a program of its own, which builds fast.
//!
//! `eggreplay replay [FILE]` and `eggreplay picture [FILE]` are the commands `replay` and `picture` of `eggnet`, and
//! end with the same statuses. The program needs nothing of processes, sockets and command lines, so without a proof it
//! builds in half the time. `./eggnet` runs it for these two words if nothing is proved.
//!
//! In the gate it draws the script in its file `stdin`, which has one of everything that is drawn except calls of
//! procs. Its file `stdout` is the picture. Somebody looked at it in a browser; whoever changes it looks at it again.
#![tactic(auto)]

use bytetext::NoMemory;
use eggprocs::{EggProc, Ours, store};
use procs::ProcStore;
use replaying::{
    USAGE, out_of_memory, picture_script, replay_file, replay_input, unread, words_of,
};
use std::fs::File;
use std::process::ExitCode;
use std::rt::{Env, Files};

fn main(rt: HostRuntime) -> ExitCode {
    ExitCode::from(status(&rt))
}

// The status that the program ends with.
fn status<R: Input + Print + Eprint + AllocGlobal + Env + Files<File = File>>(rt: &R) -> u8 {
    let words = match words_of(rt) {
        Ok(words) => words,
        Err(error) => return unread(rt, &error),
    };
    match store(rt.alloc()) {
        Ok(store) => done(rt, words.as_slice(), store),
        Err(NoMemory) => out_of_memory(rt),
    }
}

// Does what the words ask for.
fn done<R: Input + Print + Eprint + AllocGlobal + Files<File = File>>(
    rt: &R,
    words: &[String],
    store: ProcStore<Ours, EggProc>,
) -> u8 {
    match (word_at(words, 1), word_at(words, 2), word_at(words, 3)) {
        (Some("replay"), Some(file), None) => replay_file(rt, store, file),
        (Some("replay"), None, None) => replay_input(rt, store),
        (Some("picture"), file, None) => picture_script(rt, store, file),
        _ => {
            let _told = eprintln!(rt;
                "eggreplay: say replay or picture, and a script's file or none"
            );
            USAGE
        }
    }
}

// The word at a place, the program's name being at 0.
fn word_at(words: &[String], place: usize) -> Option<&str> {
    match words.get(place) {
        Some(word) => Some(word.as_str()),
        None => None,
    }
}
