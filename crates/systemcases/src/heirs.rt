// The folders of a net whose hub is lost: those of its leaves, and that of the heir.
use crate::bots::{BOT, is_made, remove, word_of};
use crate::names::is_mode;
use crate::seen::{Seen, done, yes};
use botfolder::{BotFolder, FolderError, MAX_PARENT};
use std::fs;
use std::fs::{DirBuilder, File};
use std::os::unix::fs::{DirBuilderExt as _, symlink};
use std::rt::Files;
use std::time::Clock;

const NET: &str = "0123456789abcdef";

const HEIR: &str = "heir";

// Where the heir is made.
const MADE: &str = "heir.heir";

/// Takes folders of stopped bots, puts a journal aside, and makes the folder of an heir.
pub fn heir_folders<R: AllocGlobal + Files<File = File> + Clock>(rt: &R, seen: &mut Seen) {
    stopped_folders(rt, seen);
    asides(rt, seen);
    refused_heirs(rt, seen);
    half_made_heirs(rt, seen);
    named_heirs(rt, seen);
}

fn stopped_folders<R: AllocGlobal + Files<File = File> + Clock>(rt: &R, seen: &mut Seen) {
    seen.note("a stopped bot's folder that is missing", stopped(rt));
    seen.note("it is there", is_there(rt, BOT));
    let made = DirBuilder::new().mode(0o700).create(rt, BOT).is_ok();
    seen.note("an empty folder", done(made));
    seen.note("taken", stopped(rt));
    seen.note("a journal made in it", made_in(rt, BOT));
    seen.note("taken", stopped(rt));
    let beside = BotFolder::take(rt, BOT);
    seen.note("taken beside a start", stopped(rt));
    drop(beside);
}

// Puts a journal aside, and another one of the same net.
fn asides<R: AllocGlobal + Files<File = File> + Clock>(rt: &R, seen: &mut Seen) {
    seen.note("its journal put aside", aside(rt, NET));
    seen.note("the journal is there", is_there(rt, "bot/journal"));
    let there = is_there(rt, "bot/journal.0123456789abcdef/second");
    seen.note("it is there under its other name", there);
    seen.note("put aside again", aside(rt, NET));
    seen.note("of a net that has none", aside(rt, "fedcba9876543210"));
    seen.note("another journal made", made_in(rt, BOT));
    seen.note("put aside", aside(rt, NET));
    seen.note("it is there", is_there(rt, "bot/journal"));
}

// Tries names that no heir can have.
fn refused_heirs<R: AllocGlobal + Files<File = File> + Clock>(rt: &R, seen: &mut Seen) {
    seen.note("an heir with the name of a folder", heir(rt, BOT));
    let linked = symlink(rt, "nowhere", HEIR).is_ok();
    seen.note("a link that leads nowhere", done(linked));
    seen.note("an heir with its name", heir(rt, HEIR));
    seen.note("removed", done(remove(rt, HEIR)));
    seen.note("an heir below none", heir(rt, "none/heir"));
}

// Stops the making of an heir; after each, the next one begins from the beginning.
fn half_made_heirs<R: AllocGlobal + Files<File = File> + Clock>(rt: &R, seen: &mut Seen) {
    seen.note("an heir", heir(rt, HEIR));
    seen.note("something has its name", is_there(rt, HEIR));
    seen.note("a journal made where it is made", made_in(rt, MADE));
    seen.note("an heir", heir(rt, HEIR));
    seen.note("two parents kept there", parent_kept(rt));
    let lone = is_mode(rt, "heir.heir/parent", 0o600);
    seen.note("it is for its owner alone", yes(lone));
    seen.note("an heir", heir(rt, HEIR));
    seen.note("the journal is there", is_there(rt, "heir.heir/journal"));
    seen.note("another journal made", made_in(rt, MADE));
    let drawn = fs::write(rt, "heir.heir/made", NET).is_ok();
    seen.note("a bot that has run there", done(drawn));
    seen.note("an heir", heir(rt, HEIR));
    seen.note("removed", done(remove(rt, "heir.heir/made")));
}

// Names an heir, and another one so.
fn named_heirs<R: AllocGlobal + Files<File = File> + Clock>(rt: &R, seen: &mut Seen) {
    seen.note("an heir made and named", named(rt));
    seen.note("it is found", is_there(rt, "heir/journal/second"));
    seen.note("it is there where it was made", is_there(rt, MADE));
    seen.note("another one", named(rt));
    seen.note("one with a slash after its name", heir(rt, "heir/"));
}

// Takes the folder of a stopped bot, and returns how that ends.
fn stopped<R: AllocGlobal + Files<File = File> + Clock>(rt: &R) -> &'static str {
    match BotFolder::take_stopped(rt, BOT) {
        Ok(_) => "done",
        Err(error) => word_of(error),
    }
}

fn aside<R: AllocGlobal + Files<File = File> + Clock>(rt: &R, net: &str) -> &'static str {
    match BotFolder::take_stopped(rt, BOT) {
        Ok(folder) => ended(folder.put_journal_aside(rt, net)),
        Err(error) => word_of(error),
    }
}

fn heir<R: AllocGlobal + Files<File = File> + Clock>(rt: &R, name: &str) -> &'static str {
    match BotFolder::take_heir(rt, name) {
        Ok(_) => "done",
        Err(error) => word_of(error),
    }
}

// Makes a journal in a folder, and names it.
fn made_in<R: AllocGlobal + Files<File = File> + Clock>(rt: &R, folder: &str) -> &'static str {
    match BotFolder::take(rt, folder) {
        Ok(folder) => done(is_made(rt, &folder, true)),
        Err(error) => word_of(error),
    }
}

// Keeps two lines in the file `parent`, the second longer than what is read, and returns whether its front is found.
fn parent_kept<R: AllocGlobal + Files<File = File> + Clock>(rt: &R) -> &'static str {
    let Ok(long) = "abcdefgh".repeat(rt.alloc(), 9) else {
        return "out of memory";
    };
    match BotFolder::take(rt, MADE) {
        Ok(folder) => {
            let none = folder.parent(rt).is_ok_and(|found| found.is_none());
            let kept = folder.keep_parent(rt, b"0 1\n").is_ok()
                && folder.keep_parent(rt, long.as_bytes()).is_ok();
            done(none && kept && is_parent(rt, &folder, &long.as_bytes()[..MAX_PARENT]))
        }
        Err(error) => word_of(error),
    }
}

fn is_parent<R: AllocGlobal + Files<File = File>>(rt: &R, folder: &BotFolder, line: &[u8]) -> bool {
    match folder.parent(rt) {
        Ok(Some(found)) => found.as_slice() == line,
        Ok(None) | Err(_) => false,
    }
}

// Makes an heir whole, and names it.
fn named<R: AllocGlobal + Files<File = File> + Clock>(rt: &R) -> &'static str {
    match BotFolder::take_heir(rt, HEIR) {
        Ok(folder) => {
            if !is_made(rt, &folder, true) {
                return "not made";
            }
            ended(folder.name_heir(rt, HEIR))
        }
        Err(error) => word_of(error),
    }
}

fn ended(how: Result<(), FolderError>) -> &'static str {
    match how {
        Ok(()) => "done",
        Err(error) => word_of(error),
    }
}

fn is_there<R: Files>(rt: &R, path: &str) -> &'static str {
    yes(fs::metadata(rt, path).is_ok())
}
