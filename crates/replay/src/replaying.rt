// Replays a script between the two ends of a stream.
ghost use Rattle.std.specs.Prelude.{ℕ, List, Some, ◌≡◌, IfOk, IfErr};
ghost use Rattle.script.specs.Reading.{HasFault};
ghost use Rattle.replay.specs.Transcript.{IsTranscript};
ghost use Rattle.replay.specs.Ending.{Ends, EndsEarly, IsTranscriptFault, Plays, TellsLine};

use crate::error::ReplayError;
use crate::input::script_bytes;
use crate::output::write_text;
use crate::transcripts::transcript;
use bytetext::Failure;
use procs::{ProcStore, Promise, Run};
use std::alloc::Global;
use streams::Stream;

/// Reads a whole script from `stream` and writes its transcript to it. The script's binds call the procs of `store`.
///
/// It reads the stream to its end, or to the first byte above 1,048,576. It writes nothing before all commands are
/// done.
///
/// # Errors
/// The first three write nothing:
///
/// - `Read` if the stream fails or would block.
/// - `Script` with the first line that breaks a rule, if the script was read.
/// - `NoMemory` if memory cannot be allocated.
/// - `Write` if the stream fails while it writes or flushes, or takes no bytes. A prefix of the transcript is then
///   written.
pub fn replay<P: Promise, B: Run, S: Stream>(
    alloc: Global,
    store: ProcStore<P, B>,
    stream: &mut S,
) -> Result<(), ReplayError>
    // What each result means for what was read and written.
    ensures ends { Ends P.promised store (S.source stream.old) (S.sink stream.old) result (S.source stream.new)
        (S.sink stream.new) }
    // The result for a script with a fault is its first faulty line.
    ensures faulty { (input : List ℕ) (line : ℕ) → (S.source stream.old).left ≡ Some input → HasFault input line
        → TellsLine line result }
{
    read_and_write(alloc, store, stream)
}

// What each result means for what was read and written.
fn read_and_write<P: Promise, B: Run, S: Stream>(
    alloc: Global,
    store: ProcStore<P, B>,
    stream: &mut S,
) -> Result<(), ReplayError>
    ensures { Ends P.promised store (S.source stream.old) (S.sink stream.old) result (S.source stream.new)
        (S.sink stream.new) }
{
    let text = match read_and_do(alloc, store, stream) {
        Ok(text) => text,
        Err(error) => return Err(error),
    };
    write_text(stream, text.as_slice())
}

// Reads a script and does its commands.
fn read_and_do<P: Promise, B: Run, S: Stream>(
    alloc: Global,
    store: ProcStore<P, B>,
    stream: &mut S,
) -> Result<Vec<u8>, ReplayError>
    ensures ok { IfOk result (λ text. Plays P.promised store (S.source stream.old) text.items
        (S.source stream.new)) }
    ensures err { IfErr result (λ e. EndsEarly e (S.source stream.old) (S.source stream.new)) }
    ensures other { S.sink stream.new ≡ S.sink stream.old }
{
    let bytes = match script_bytes(alloc, stream) {
        Ok(bytes) => bytes,
        Err(error) => return Err(error),
    };
    transcript_in(alloc, store, bytes.as_slice())
}

// The transcript of the script that these bytes spell.
fn transcript_in<P: Promise, B: Run>(
    alloc: Global,
    store: ProcStore<P, B>,
    bytes: &[u8],
) -> Result<Vec<u8>, ReplayError>
    ensures ok { IfOk result (λ text. IsTranscript P.promised store bytes.now text.items) }
    ensures err { IfErr result (λ e. IsTranscriptFault bytes.now e) }
{
    match transcript(alloc, store, bytes) {
        Ok(text) => Ok(text),
        Err(Failure::Refused(fault)) => Err(ReplayError::Script(fault)),
        Err(Failure::NoMemory) => Err(ReplayError::NoMemory),
    }
}
