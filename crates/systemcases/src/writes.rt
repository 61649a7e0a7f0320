// What is written, as another opening of the file reads it.
use crate::seen::{Seen, done, yes};
use disks::{Disk as _, FileDisk};
use std::fs;
use std::fs::File;
use std::os::unix::fs::MetadataExt as _;
use std::rt::Files;
use std::time::UNIX_EPOCH;

/// Writes on a disk twice, and opens it again.
pub fn writes<R: AllocGlobal + Files<File = File>>(rt: &R, seen: &mut Seen) {
    match FileDisk::make(rt, "first") {
        Ok(disk) => write_twice(rt, disk, seen),
        Err(_) => seen.note("a file made", "refused"),
    }
    open_again(rt, seen);
}

// Writes a text, and another over its end.
fn write_twice<R: AllocGlobal + Files<File = File>>(rt: &R, disk: FileDisk, seen: &mut Seen) {
    let mut disk = disk;
    seen.note("a text written", put(&mut disk, 0, b"a journal"));
    seen.note("the file holds it", yes(holds(rt, "a journal")));
    seen.note(
        "another over its end",
        put(&mut disk, 2, b"JOURNAL, longer"),
    );
    seen.note("the file holds both", yes(holds(rt, "a JOURNAL, longer")));
    seen.note("synced", synced(&mut disk));
    end_reads(rt, disk, seen);
}

// Ends the reads of the disk, and writes on it once more.
fn end_reads<R: AllocGlobal + Files<File = File>>(rt: &R, disk: FileDisk, seen: &mut Seen) {
    let mut disk = disk;
    let mut byte = [0];
    seen.note("read", done(disk.read(0, &mut byte).is_ok()));
    disk.end_reads();
    let word = put(&mut disk, 15, b"er!");
    seen.note("another text, once its reads have ended", word);
    seen.note("the file holds it", yes(holds(rt, "a JOURNAL, longer!")));
    seen.note("synced", synced(&mut disk));
    seen.note("that is 18 bytes", yes(disk.len() == 18));
    seen.note("read then", done(disk.read(0, &mut byte).is_ok()));
    seen.note("that is one failure", yes(disk.failures() == 1));
    seen.note("a write after it", put(&mut disk, 17, b"?"));
}

// Opens the disk on the file, whose time of last writing was set to 0.
fn open_again<R: AllocGlobal + Files<File = File>>(rt: &R, seen: &mut Seen) {
    seen.note("its time set to 0", yes(set_back(rt) && is_time_0(rt)));
    match FileDisk::open(rt, "first") {
        Ok(disk) => seen.note("opened again, it holds 18 bytes", yes(disk.len() == 18)),
        Err(_) => seen.note("opened again", "refused"),
    }
    seen.note("the file holds all", yes(holds(rt, "a JOURNAL, longer!")));
    seen.note("its time is 0", yes(is_time_0(rt)));
}

/// Writes `text` at the offset `at`, if `disk` has room, and returns the word for how that ends.
pub fn put(disk: &mut FileDisk, at: usize, text: &[u8]) -> &'static str {
    let Some(end) = at.checked_add(text.len()) else {
        return "too long";
    };
    match disk.reserve(end, 1) {
        Ok(()) => {}
        Err(_) => return "out of memory",
    }
    if at > disk.len() {
        return "beyond the end";
    }
    done(disk.write_at(at, text).is_ok())
}

/// Syncs `disk`, and returns the word for how that ends.
pub fn synced(disk: &mut FileDisk) -> &'static str {
    match disk.reserve(0, 1) {
        Ok(()) => done(disk.sync().is_ok()),
        Err(_) => "out of memory",
    }
}

// Returns whether the file holds just `text`.
fn holds<R: AllocGlobal + Files<File = File>>(rt: &R, text: &str) -> bool {
    match fs::read_to_string(rt, "first") {
        Ok(found) => found.as_str() == text,
        Err(_) => false,
    }
}

fn set_back<R: Files<File = File>>(rt: &R) -> bool {
    match fs::open(rt, "first") {
        Ok(file) => file.set_modified(UNIX_EPOCH).is_ok(),
        Err(_) => false,
    }
}

fn is_time_0<R: Files>(rt: &R) -> bool {
    match fs::metadata(rt, "first") {
        Ok(found) => found.mtime() == 0,
        Err(_) => false,
    }
}
