// Descriptors: one that is closed under a disk, and one that belongs to a standard stream.
use crate::seen::{Seen, word_of, yes};
use crate::writes::{put, synced};
use disks::{Disk as _, FileDisk};
use std::fs;
use std::fs::{File, OpenOptions};
use std::os::fd::AsRawFd as _;
use std::rt::Files;

/// Closes the descriptors of two disks, which then refuse what goes to the file.
pub fn closed_under<R: AllocGlobal + Files<File = File>>(rt: &R, seen: &mut Seen) {
    match closed_disk(rt) {
        Some(disk) => write_under(disk, seen),
        None => seen.note("a disk", "refused"),
    }
    match closed_disk(rt) {
        Some(disk) => sync_under(disk, seen),
        None => seen.note("a disk", "refused"),
    }
}

fn write_under(disk: FileDisk, seen: &mut Seen) {
    let mut disk = disk;
    seen.note(
        "a write under a closed descriptor",
        put(&mut disk, 0, b"lost"),
    );
    seen.note("a sync after it", synced(&mut disk));
    seen.note("that is two failures", yes(disk.failures() == 2));
}

fn sync_under(disk: FileDisk, seen: &mut Seen) {
    let mut disk = disk;
    seen.note("a sync under a closed descriptor", synced(&mut disk));
    disk.reopen();
    let mut byte = [0];
    let read = disk.read(0, &mut byte).is_ok();
    seen.note("a read when it was opened again", yes(read));
}

// Opens a disk and closes its file.
fn closed_disk<R: AllocGlobal + Files<File = File>>(rt: &R) -> Option<FileDisk> {
    let mut options = OpenOptions::new();
    options.read(true).write(true);
    let file = options.open(rt, "first").ok()?;
    let number = file.as_raw_fd();
    let disk = FileDisk::new(rt.alloc(), file).ok()?;
    libc::close(number);
    Some(disk)
}

/// Opens a disk while standard input is closed, which leaves that descriptor free.
pub fn low_descriptor<R: AllocGlobal + Files<File = File>>(rt: &R, seen: &mut Seen) {
    libc::close(0);
    let disk = FileDisk::open(rt, "first");
    seen.note("opened with standard input closed", word_of(&disk));
    seen.note("the next file has descriptor 0", yes(is_next_0(rt)));
}

fn is_next_0<R: Files<File = File>>(rt: &R) -> bool {
    match fs::open(rt, "first") {
        Ok(file) => file.as_raw_fd() == 0,
        Err(_) => false,
    }
}
