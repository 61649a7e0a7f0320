// Files by their names.
use crate::seen::{Seen, done, word_of, yes};
use disks::{FileDisk, Pair};
use std::fs;
use std::fs::File;
use std::os::unix::fs::MetadataExt as _;
use std::rt::Files;

/// Opens files that are missing, makes them, and opens them while they are in use.
pub fn names<R: AllocGlobal + Files<File = File>>(rt: &R, seen: &mut Seen) {
    seen.note("opened where there is none", opened(rt, "first"));
    seen.note(
        "two opened where there are none",
        pair_opened(rt, "first", "second"),
    );
    let pair = Pair::make(rt, "first", "second");
    seen.note("two made", word_of(&pair));
    let lone = is_mode(rt, "first", 0o600) && is_mode(rt, "second", 0o600);
    seen.note("both for their owner alone", yes(lone));
    seen.note("opened beside its disk", opened(rt, "first"));
    seen.note("made beside its disk", made(rt, "second"));
}

/// Tries to make a pair of files when one alone exists, empty or not.
pub fn lone_files<R: AllocGlobal + Files<File = File>>(rt: &R, seen: &mut Seen) {
    seen.note("the second removed", removed(rt, "second"));
    seen.note("two made where the first is empty", pair_made(rt));
    seen.note("the second removed", removed(rt, "second"));
    let written = fs::write(rt, "first", "EGGJ").is_ok();
    seen.note("bytes written to the first", done(written));
    seen.note("two made where the first holds bytes", pair_made(rt));
    seen.note("the second is missing still", opened(rt, "second"));
    seen.note("the first removed", removed(rt, "first"));
}

/// Opens the files `first` and `second`, and returns how that ends.
pub fn pair_opened<R: AllocGlobal + Files<File = File>>(
    rt: &R,
    first: &str,
    second: &str,
) -> &'static str {
    word_of(&Pair::open(rt, first, second))
}

fn pair_made<R: AllocGlobal + Files<File = File>>(rt: &R) -> &'static str {
    word_of(&Pair::make(rt, "first", "second"))
}

fn opened<R: AllocGlobal + Files<File = File>>(rt: &R, path: &str) -> &'static str {
    word_of(&FileDisk::open(rt, path))
}

fn made<R: AllocGlobal + Files<File = File>>(rt: &R, path: &str) -> &'static str {
    word_of(&FileDisk::make(rt, path))
}

fn removed<R: Files>(rt: &R, path: &str) -> &'static str {
    done(fs::remove_file(rt, path).is_ok())
}

/// Returns whether the permission bits of the file or folder at `path` are just `mode`.
pub fn is_mode<R: Files>(rt: &R, path: &str, mode: u32) -> bool {
    match fs::metadata(rt, path) {
        Ok(found) => found.mode() & 0o777 == mode,
        Err(_) => false,
    }
}

/// Removes what a run leaves.
pub fn tidy<R: Files>(rt: &R) {
    for file in [
        "first",
        "second",
        "bot/journal/first",
        "bot/journal/second",
        "bot/new/first",
        "bot/new/second",
        "bot/lock",
        "bot/net",
        "bot/made",
        "bot/leaves",
        "bot/control",
        "bot/journal.0123456789abcdef/first",
        "bot/journal.0123456789abcdef/second",
        "heir/journal/first",
        "heir/journal/second",
        "heir/parent",
        "heir/lock",
    ] {
        let _ = fs::remove_file(rt, file);
    }
    for folder in [
        "bot/journal/second",
        "bot/journal",
        "bot/journal.0123456789abcdef",
        "bot/new",
        "bot",
        "heir/journal",
        "heir",
    ] {
        let _ = fs::remove_dir(rt, folder);
    }
}
