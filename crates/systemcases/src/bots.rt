// The folder of a bot, from its first start on.
ghost use Rattle.std.specs.Prelude.{◌≡◌, IfSome, IfOk};
ghost use Rattle.botfolder.specs.Folders.{AreCopies, AreReady};

use crate::LAYOUT;
use crate::cut_short::cut_journals;
use crate::keeping::kept_files;
use crate::seen::{Seen, done, yes};
use botfolder::{Begun, BotFolder, FolderError, FolderFault, Stopped, read_stopped};
use bytejournal::Journal;
use bytetext::Failure;
use disks::Pair;
use std::fs;
use std::fs::{DirBuilder, File};
use std::os::unix::fs::DirBuilderExt as _;
use std::rt::Files;
use std::time::Clock;

/// The folder's name.
pub const BOT: &str = "bot";

/// Makes a bot's journal in a folder: after starts that are stopped, and beside other starts.
pub fn bot_folders<R: AllocGlobal + Files<File = File> + Clock>(rt: &R, seen: &mut Seen) {
    refused_folders(rt, seen);
    seen.note("a bot is read before it is made", read(rt));
    stopped_starts(rt, seen);
    whole_start(rt, seen);
    later_starts(rt, seen);
    controls(rt, seen);
    missing_files(rt, seen);
    other_files(rt, seen);
    cut_journals(rt, seen);
    kept_files(rt, seen);
}

// Tries folders that a bot can't use.
fn refused_folders<R: AllocGlobal + Files<File = File> + Clock>(rt: &R, seen: &mut Seen) {
    seen.note("a bot's folder below none", taken(rt, "none/bot"));
    let long =
        "a123456789b123456789c123456789d123456789e123456789f123456789g123456789h123456789i123456789j123456789";
    seen.note("one with a name of 100 bytes", taken(rt, long));
    let made = DirBuilder::new().mode(0o711).create(rt, BOT).is_ok();
    seen.note("a folder that others may enter", done(made));
    seen.note("taken", taken(rt, BOT));
    seen.note("removed", done(fs::remove_dir(rt, BOT).is_ok()));
    let made = DirBuilder::new().mode(0o500).create(rt, BOT).is_ok();
    seen.note("one in which its owner may write nothing", done(made));
    seen.note("taken", taken(rt, BOT));
    seen.note("removed", done(fs::remove_dir(rt, BOT).is_ok()));
    seen.note("a file", done(fs::write(rt, BOT, "").is_ok()));
    seen.note("taken", taken(rt, BOT));
    seen.note("removed", done(remove(rt, BOT)));
}

// Stops starts while they make the journal; after each, the next start begins from the beginning.
fn stopped_starts<R: AllocGlobal + Files<File = File> + Clock>(rt: &R, seen: &mut Seen) {
    seen.note("a start", started(rt));
    seen.note("after one that made two empty files", started(rt));
    seen.note("removed", done(remove(rt, "bot/new/second")));
    seen.note("after one that made one", started(rt));
    seen.note(
        "removed",
        done(remove(rt, "bot/new/first") && remove(rt, "bot/new/second")),
    );
    seen.note("after one that made the folder for them", started(rt));
    seen.note(
        "removed",
        done(remove(rt, "bot/new/first") && remove(rt, "bot/new/second")),
    );
    seen.note(
        "and the folder",
        done(fs::remove_dir(rt, "bot/new").is_ok()),
    );
    seen.note("after one that made the lock", started(rt));
    let written = fs::write(rt, "bot/new/first", "x").is_ok()
        && fs::write(rt, "bot/new/second", "yz").is_ok();
    seen.note("bytes written to both files", done(written));
    seen.note("after one that wrote them", started(rt));
    seen.note("a journal made, and not named", done(made(rt, false)));
    seen.note("after one that made it", started(rt));
    seen.note("a bot is read before it is named", read(rt));
}

// Makes the whole journal in one start, with another start beside it.
fn whole_start<R: AllocGlobal + Files<File = File> + Clock>(rt: &R, seen: &mut Seen) {
    match BotFolder::take(rt, BOT) {
        Ok(folder) => {
            seen.note("a second start beside the first", taken(rt, BOT));
            seen.note(
                "the journal made and named",
                done(is_made(rt, &folder, true)),
            );
            seen.note("a second start beside the first", taken(rt, BOT));
        }
        Err(error) => seen.note("a start", word_of(error)),
    }
}

// Starts again, and finds the journal.
fn later_starts<R: AllocGlobal + Files<File = File> + Clock>(rt: &R, seen: &mut Seen) {
    seen.note("a later start", started(rt));
    seen.note("its journal is the one that was made", yes(is_found(rt)));
    seen.note("a bot is read", read(rt));
    let left = DirBuilder::new().create(rt, "bot/new").is_ok()
        && fs::write(rt, "bot/new/first", "x").is_ok();
    seen.note("a folder left beside the journal", done(left));
    seen.note("a later start", started(rt));
    seen.note(
        "what was left is there",
        yes(fs::metadata(rt, "bot/new").is_ok()),
    );
    match BotFolder::take(rt, BOT) {
        Ok(folder) => {
            let begun = folder.begin(rt);
            seen.note("a bot is read while it runs", read(rt));
            seen.note("it runs on", yes(begun.is_ok()));
        }
        Err(error) => seen.note("a start", word_of(error)),
    }
}

// Removes the socket that a bot left.
fn controls<R: AllocGlobal + Files<File = File> + Clock>(rt: &R, seen: &mut Seen) {
    seen.note(
        "a socket's file left",
        done(fs::write(rt, "bot/control", "").is_ok()),
    );
    match BotFolder::take(rt, BOT) {
        Ok(folder) => {
            seen.note("taken away", done(folder.clear_control(rt).is_ok()));
            seen.note(
                "it is there",
                yes(fs::metadata(rt, folder.control()).is_ok()),
            );
            seen.note("once more", done(folder.clear_control(rt).is_ok()));
        }
        Err(error) => seen.note("a start", word_of(error)),
    }
}

// Starts with a journal that lacks a file.
fn missing_files<R: AllocGlobal + Files<File = File> + Clock>(rt: &R, seen: &mut Seen) {
    seen.note(
        "the second file removed",
        done(remove(rt, "bot/journal/second")),
    );
    seen.note("a later start", started(rt));
    seen.note("a bot is read", read(rt));
    seen.note(
        "the file is there",
        yes(fs::metadata(rt, "bot/journal/second").is_ok()),
    );
}

// Starts with a folder that has the name of a file.
fn other_files<R: AllocGlobal + Files<File = File> + Clock>(rt: &R, seen: &mut Seen) {
    let made = DirBuilder::new().create(rt, "bot/journal/second").is_ok();
    seen.note("a folder with its name", done(made));
    seen.note("a later start", started(rt));
    seen.note("a bot is read", read(rt));
    seen.note(
        "removed",
        done(fs::remove_dir(rt, "bot/journal/second").is_ok()),
    );
}

// Takes the folder, and returns how that ends.
fn taken<R: AllocGlobal + Files<File = File> + Clock>(rt: &R, folder: &str) -> &'static str {
    match BotFolder::take(rt, folder) {
        Ok(_) => "done",
        Err(error) => word_of(error),
    }
}

/// Starts, ends at once, and returns what the start finds.
pub fn started<R: AllocGlobal + Files<File = File> + Clock>(rt: &R) -> &'static str {
    match begun(rt) {
        Ok(Begun::Found(_)) => "finds a journal",
        Ok(Begun::Empty(_)) => "begins anew",
        Err(error) => word_of(error),
    }
}

fn begun<R: AllocGlobal + Files<File = File> + Clock>(rt: &R) -> Result<Begun, FolderError> {
    let folder = BotFolder::take(rt, BOT)?;
    folder.begin(rt)
}

// Starts, makes a journal, and names it if `is_named`. Returns whether that worked.
fn made<R: AllocGlobal + Files<File = File> + Clock>(rt: &R, is_named: bool) -> bool {
    match BotFolder::take(rt, BOT) {
        Ok(folder) => is_made(rt, &folder, is_named),
        Err(_) => false,
    }
}

/// Makes a journal in a folder that was taken, and names it if `is_named`. Returns whether that worked.
pub fn is_made<R: AllocGlobal + Files<File = File> + Clock>(
    rt: &R,
    folder: &BotFolder,
    is_named: bool,
) -> bool {
    match folder.begin(rt) {
        Ok(Begun::Empty(disks)) => {
            let journal = Journal::create(rt.alloc(), disks.first, disks.second, LAYOUT, b"a base");
            journal.is_ok() && (!is_named || folder.finish(rt).is_ok())
        }
        Ok(Begun::Found(_)) | Err(_) => false,
    }
}

// Returns whether the journal that a start finds is the one that was made.
fn is_found<R: AllocGlobal + Files<File = File> + Clock>(rt: &R) -> bool {
    match BotFolder::take(rt, BOT) {
        Ok(folder) => match folder.begin(rt) {
            Ok(Begun::Found(disks)) => is_base(rt, disks),
            Ok(Begun::Empty(_)) | Err(_) => false,
        },
        Err(_) => false,
    }
}

fn is_base<R: AllocGlobal>(rt: &R, disks: Pair) -> bool
    requires { AreReady disks }
{
    match Journal::open(rt.alloc(), disks.first, disks.second) {
        Ok(opened) => opened.base.as_bytes() == b"a base".as_slice(),
        Err(_) => false,
    }
}

/// Reads the bot while it does not run, and returns what is found.
pub fn read<R: AllocGlobal + Files<File = File> + Clock>(rt: &R) -> &'static str {
    match read_stopped(rt, BOT) {
        Ok(copies) => copied(rt, copies),
        Err(error) => word_of(error),
    }
}

fn copied<R: AllocGlobal>(rt: &R, copies: Stopped) -> &'static str
    requires { AreCopies copies }
{
    match Journal::open(rt.alloc(), copies.first, copies.second) {
        Ok(opened) => {
            if opened.base.as_bytes() == b"a base".as_slice() {
                "the journal that was made"
            } else {
                "another journal"
            }
        }
        Err(_) => "no journal",
    }
}

/// Removes the file at `path`, and returns whether that worked.
pub fn remove<R: Files>(rt: &R, path: &str) -> bool {
    fs::remove_file(rt, path).is_ok()
}

/// Returns the word for why a folder can't be used.
pub fn word_of(error: FolderError) -> &'static str {
    match error {
        Failure::Refused(fault) => word_of_fault(fault),
        Failure::NoMemory => "out of memory",
    }
}

fn word_of_fault(fault: FolderFault) -> &'static str {
    match fault {
        FolderFault::LongName => "too long a name",
        FolderFault::NoParent => "no folder above it",
        FolderFault::NotAFolder => "no folder",
        FolderFault::IsLink => "a link",
        FolderFault::OtherUser => "another user's",
        FolderFault::Exists => "exists",
        FolderFault::LetsOthersIn => "lets others in",
        FolderFault::BarsOwner => "bars its owner",
        FolderFault::NotRegular(file) => file.name(),
        FolderFault::InUse => "in use",
        FolderFault::LacksFile => "lacks a file",
        FolderFault::CutShort => "cut short",
        FolderFault::ShortNumber(_) => "too short a number",
        FolderFault::LongBook => "no room in its book",
        FolderFault::NoBot => "no bot",
        FolderFault::AsideBefore => "put aside before",
        FolderFault::Unusable => "unusable",
        FolderFault::ProcessFiles => "too many files of this process",
        FolderFault::MachineFiles => "too many files of this machine",
        FolderFault::ReadOnly => "read-only",
        FolderFault::Full => "full",
        FolderFault::DiskFails => "not kept",
        FolderFault::System(_) => "another error",
    }
}
