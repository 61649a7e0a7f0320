// Making a journal, with stops.
ghost use Rattle.std.specs.Prelude.{◌<◌};
ghost use Rattle.disks.specs.State.{IsSettled};
ghost use Rattle.disks.specs.Memory.{state_of};

use crate::LAYOUT;
use crate::seen::Seen;
use bytejournal::{Disks, Journal, was_never_made};
use disks::{Disk as _, MemDisk, Tear};
use std::alloc::Global;

/// What a crash leaves of the bytes that were not kept.
const TEARS: [Tear; 5] = [
    Tear::Old,
    Tear::New,
    Tear::Fill(0),
    Tear::Fill(1),
    Tear::Fill(255),
];

/// Stops the making at each call of either disk, and notes what the next start does for each way of tearing.
pub fn stops(alloc: Global, seen: &mut Seen) {
    stop_second(alloc, seen, 1, "stopped at call 1 of the second disk");
    stop_second(alloc, seen, 2, "stopped at call 2 of the second disk");
    stop_first(alloc, seen, 1, "stopped at call 1 of the first disk");
    stop_first(alloc, seen, 2, "stopped at call 2 of the first disk");
    stop_first(alloc, seen, 3, "stopped at call 3 of the first disk");
    stop_first(alloc, seen, 4, "stopped at call 4 of the first disk");
    stop_first(alloc, seen, 5, "stopped at call 5 of the first disk");
    stop_first(alloc, seen, 6, "stopped at call 6 of the first disk");
}

fn stop_second(alloc: Global, seen: &mut Seen, call: u64, what: &str)
    requires { 0 < call }
{
    for tear in TEARS {
        seen.note(
            what,
            next_start(alloc, MemDisk::new(alloc), stopped_at(alloc, call, tear)),
        );
    }
}

fn stop_first(alloc: Global, seen: &mut Seen, call: u64, what: &str)
    requires { 0 < call }
{
    for tear in TEARS {
        seen.note(
            what,
            next_start(alloc, stopped_at(alloc, call, tear), MemDisk::new(alloc)),
        );
    }
}

// Creates an empty disk whose calls fail from the stated one on.
fn stopped_at(alloc: Global, call: u64, tear: Tear) -> MemDisk
    requires { 0 < call }
    ensures { IsSettled (state_of result) }
{
    let mut disk = MemDisk::new(alloc);
    disk.plan(call, tear);
    disk
}

// Returns what a start does on the disks that a stopped making left.
fn next_start(alloc: Global, first: MemDisk, second: MemDisk) -> &'static str
    requires first { IsSettled (state_of first) }
    requires second { IsSettled (state_of second) }
{
    match Journal::create(alloc, first, second, LAYOUT, b"a base") {
        Ok(_) => "not stopped",
        Err(returned) => started(alloc, crashed(returned.disks)),
    }
}

// Returns the disks as the stop left them.
fn crashed(disks: Disks<MemDisk>) -> Disks<MemDisk>
    ensures first { IsSettled (state_of result.first) }
    ensures second { IsSettled (state_of result.second) }
{
    let mut disks = disks;
    disks.first.reopen();
    disks.second.reopen();
    disks
}

// Makes the journal again if none was ever made, or opens it.
fn started(alloc: Global, disks: Disks<MemDisk>) -> &'static str
    requires first { IsSettled (state_of disks.first) }
    requires second { IsSettled (state_of disks.second) }
{
    let mut disks = disks;
    match was_never_made(&mut disks.first, &mut disks.second) {
        Ok(true) => made_anew(alloc, disks),
        Ok(false) => found(alloc, disks),
        Err(_) => "not read",
    }
}

fn made_anew(alloc: Global, disks: Disks<MemDisk>) -> &'static str
    requires first { IsSettled (state_of disks.first) }
    requires second { IsSettled (state_of disks.second) }
{
    match Journal::create(alloc, disks.first, disks.second, LAYOUT, b"a base") {
        Ok(_) => "made anew",
        Err(_) => "refused when it is made anew",
    }
}

fn found(alloc: Global, disks: Disks<MemDisk>) -> &'static str
    requires first { IsSettled (state_of disks.first) }
    requires second { IsSettled (state_of disks.second) }
{
    match Journal::open(alloc, disks.first, disks.second) {
        Ok(opened) => {
            if opened.base.as_bytes() == b"a base".as_slice() {
                "found"
            } else {
                "another"
            }
        }
        Err(_) => "refused",
    }
}
