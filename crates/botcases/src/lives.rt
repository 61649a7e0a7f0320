// Live scripts of a botnet, over sockets of this machine.
use crate::case_procs::store_of;
use crate::scripts::{put_fault, put_lines, script_of};
use bytetext::Text;
use caselines::{CaseError, Sink};
use live::{LiveError, live};
use std::net::Net;
use streams::Duplex;

/// Answers `live LINE..`: what the live script of these lines prints, with ` ; ` between its lines; or the first faulty
/// line, or what ended the script early. `words` are those after `live`.
pub fn live_case<R: Net + AllocGlobal>(
    rt: &R,
    words: &[Text],
    out: &mut Sink,
) -> Result<(), CaseError> {
    let script = script_of(rt.alloc(), words)?;
    let mut stream = Duplex::new(script.as_slice(), Vec::new(rt.alloc()));
    match live(rt, store_of(rt.alloc())?, &mut stream) {
        Ok(()) => put_lines(&stream.writer, out),
        Err(error) => tell(error, out)?,
    }
    Ok(())
}

// Writes why a live script ended early.
fn tell(error: LiveError, out: &mut Sink) -> Result<(), CaseError> {
    match error {
        LiveError::Script(fault) => put_fault(fault.line, out),
        LiveError::Read => out.put(b"read"),
        LiveError::Write => out.put(b"write"),
        LiveError::Socket(_) => out.put(b"socket"),
        LiveError::Stalled => out.put(b"stalled"),
        LiveError::NoMemory => return Err(CaseError::NoMemory),
    }
    Ok(())
}
