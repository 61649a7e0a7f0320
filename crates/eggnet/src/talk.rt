// What a bot answers an admin.
use bytetext::Failure;
use commandline::escaped;
use control::{AskError, AskFault, is_refusal};
use replaying::{FAULT, STREAM_FAULT, not_written, out_of_memory};
use std::io;
use streams::{Duplex, WriteFault, write_out};

/// Prints `answer`, the lines that the bot of `folder` answered or that its journal shows, as a terminal may show them
/// ([`escaped`]), or reports why there are none. Returns the exit status.
pub fn print_answer<R: Input + Print + Eprint + AllocGlobal>(
    rt: &R,
    folder: &str,
    answer: Result<Vec<u8>, AskError>,
) -> u8 {
    let answer = match answer {
        Ok(answer) => answer,
        Err(error) => return not_asked(rt, folder, error),
    };
    let Ok(answer) = escaped(rt.alloc(), answer) else {
        return out_of_memory(rt);
    };
    let mut stream = Duplex::new(rt.reader(), io::writer(rt));
    match write_out(&mut stream, answer.as_slice()) {
        Ok(()) if is_refusal(answer.as_slice()) => FAULT,
        Ok(()) => 0,
        Err(WriteFault) => not_written(rt),
    }
}

// Reports why a bot was not asked or did not answer.
fn not_asked<R: Eprint>(rt: &R, folder: &str, error: AskError) -> u8 {
    let fault = match error {
        Failure::Refused(fault) => fault,
        Failure::NoMemory => return out_of_memory(rt),
    };
    let _told = match fault {
        AskFault::Command(advice) => eprintln!(rt; "eggnet: {advice}"),
        AskFault::Nobody => eprintln!(rt; "eggnet: no bot runs on {folder}"),
        AskFault::Folder(_)
        | AskFault::Unread
        | AskFault::GenerationsSpent
        | AskFault::Begins
        | AskFault::Barred
        | AskFault::Busy
        | AskFault::LetGo
        | AskFault::Silent
        | AskFault::TooLong
        | AskFault::Machine => eprintln!(rt; "eggnet: {folder} {fault}"),
    };
    status_of(fault)
}

fn status_of(fault: AskFault) -> u8 {
    match fault {
        AskFault::Command(_) | AskFault::Unread | AskFault::GenerationsSpent => FAULT,
        AskFault::Nobody
        | AskFault::Folder(_)
        | AskFault::Begins
        | AskFault::Barred
        | AskFault::Busy
        | AskFault::LetGo
        | AskFault::Silent
        | AskFault::TooLong
        | AskFault::Machine => STREAM_FAULT,
    }
}
