// Journals whose device closed a gate.
use crate::bots::{read, started};
use crate::seen::{Seen, done};
use std::fs;
use std::fs::File;
use std::rt::Files;
use std::time::Clock;

// A journal's disk of layout 4 in generation 1: a base, three entries, and the gate that ends them. The sums were worked
// out from the format. The entries' gates are at 28, 44 and 60.
const WHOLE: [&[u8]; 5] = [
    b"\x01EGGJ\x04\x00\x00\x00\x01\x00\x00\x00\x0ea base\xde\x95\xa1\x07\x08\xce\x19\xc3",
    b"\x01\x00\x00\x00\x0bone\x9bb\x86\xcb\x7f\xca\x89\xc3",
    b"\x01\x00\x00\x00\x0btwoA\x98\xa4\xaa\x93MV\x14",
    b"\x01\x00\x00\x00\x0dthree\x94\xb5\xa3&\xa0\xb3\xf3\xd7",
    b"\x00",
];

/// Starts with a journal of three entries, of which a gate is closed.
pub fn cut_journals<R: AllocGlobal + Files<File = File> + Clock>(rt: &R, seen: &mut Seen) {
    seen.note("a journal with three entries", done(is_written(rt, None)));
    seen.note("a later start", started(rt));
    seen.note(
        "its last entry's gate closed",
        done(is_written(rt, Some(60))),
    );
    seen.note("a later start", started(rt));
    seen.note(
        "its second entry's gate closed",
        done(is_written(rt, Some(44))),
    );
    seen.note("a later start", started(rt));
    seen.note("a bot is read", read(rt));
    seen.note("its first gate closed", done(is_written(rt, Some(0))));
    seen.note("a later start", started(rt));
    seen.note("a bot is read", read(rt));
}

// Writes both files of that journal, with the gate at the offset `closed` closed, if any. Returns whether that worked.
fn is_written<R: AllocGlobal + Files<File = File>>(rt: &R, closed: Option<usize>) -> bool {
    let mut bytes = Vec::new(rt.alloc());
    for part in WHOLE {
        if bytes.extend_from_slice(part).is_err() {
            return false;
        }
    }
    if let Some(gate) = closed
        && let Some(byte) = bytes.get_mut(gate)
    {
        *byte = 0;
    }
    fs::write(rt, "bot/journal/first", &bytes).is_ok()
        && fs::write(rt, "bot/journal/second", "\0").is_ok()
}
