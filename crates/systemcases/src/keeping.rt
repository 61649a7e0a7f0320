// What a bot's folder keeps beside its journal: two numbers, a hub's doubt, and the book of its leaves.
use crate::bots::{BOT, remove, word_of};
use crate::names::is_mode;
use crate::seen::{Seen, done, yes};
use botfolder::{BotFolder, FolderError, MAX_BOOK, MAX_DOUBT, NUMBER_DIGITS};
use std::fs;
use std::fs::{DirBuilder, File};
use std::os::unix::fs::symlink;
use std::rt::Files;
use std::time::Clock;

// The paths of the book, and of the folder's own number.
const BOOK: &str = "bot/leaves";

const MADE: &str = "bot/made";

/// Keeps numbers and a book in a bot's folder, and reads them.
pub fn kept_files<R: AllocGlobal + Files<File = File> + Clock>(rt: &R, seen: &mut Seen) {
    match BotFolder::take(rt, BOT) {
        Ok(folder) => {
            net_numbers(rt, seen, &folder);
            own_numbers(rt, seen, &folder);
            doubts(rt, seen, &folder);
            books(rt, seen, &folder);
            torn_books(rt, seen, &folder);
            other_books(rt, seen, &folder);
            long_books(rt, seen, &folder);
        }
        Err(error) => seen.note("a start", word_of(error)),
    }
}

// Reads numbers of a net that somebody else has written.
fn net_numbers<R: AllocGlobal + Files<File = File>>(rt: &R, seen: &mut Seen, folder: &BotFolder) {
    seen.note("a net's number of 3 bytes", written(rt, "bot/net", "123"));
    seen.note("it is read", number_word(folder.net(rt)));
    seen.note("16 bytes", written(rt, "bot/net", "0123456789abcdef"));
    seen.note("they are read", number_word(folder.net(rt)));
    seen.note("removed", done(remove(rt, "bot/net")));
    seen.note("none is read", number_word(folder.net(rt)));
}

// Keeps the folder's own number, and reads it.
fn own_numbers<R: AllocGlobal + Files<File = File>>(rt: &R, seen: &mut Seen, folder: &BotFolder) {
    seen.note("the folder's own number", number_word(folder.made(rt)));
    let kept = folder.keep_made(rt, b"fedcba9876543210").is_ok()
        && folder.keep_made(rt, b"0123456789abcdef").is_ok();
    seen.note("two kept, one after the other", done(kept));
    seen.note("the second is found", number_word(folder.made(rt)));
    seen.note(
        "its file ends with a line feed",
        yes(holds(rt, MADE, "0123456789abcdef\n")),
    );
    seen.note("it is for its owner alone", yes(is_mode(rt, MADE, 0o600)));
    seen.note("no number of a net is read", number_word(folder.net(rt)));
    seen.note("a number of 15 bytes", written(rt, MADE, "0123456789abcde"));
    seen.note("it is read", number_word(folder.made(rt)));
}

// Keeps a doubt, reads it, and forgets it.
fn doubts<R: AllocGlobal + Files<File = File>>(rt: &R, seen: &mut Seen, folder: &BotFolder) {
    seen.note(
        "a doubt before one is kept",
        doubt_word(folder.doubt(rt), b""),
    );
    let kept = folder.keep_doubt(rt, b"leaf 1 a\n").is_ok()
        && folder.keep_doubt(rt, b"leaf 22 b\n").is_ok();
    seen.note("two kept, one after the other", done(kept));
    let found = doubt_word(folder.doubt(rt), b"leaf 22 b\n");
    seen.note("the second is found", found);
    let private = is_mode(rt, "bot/doubt", 0o600);
    seen.note("it is for its owner alone", yes(private));
    let Ok(long) = "leaf 7 c".repeat(rt.alloc(), 9) else {
        return;
    };
    seen.note("one of 72 bytes", written(rt, "bot/doubt", &long));
    let front = &long.as_bytes()[..MAX_DOUBT];
    seen.note("64 are read", doubt_word(folder.doubt(rt), front));
    seen.note("forgotten", done(folder.forget_doubt(rt).is_ok()));
    seen.note("none is read", doubt_word(folder.doubt(rt), b""));
    seen.note("forgotten again", done(folder.forget_doubt(rt).is_ok()));
}

// Enters lines twice, and reads them.
fn books<R: AllocGlobal + Files<File = File>>(rt: &R, seen: &mut Seen, folder: &BotFolder) {
    seen.note("a book before the first line", book_word(folder.leaves(rt)));
    seen.note(
        "two lines entered",
        entered(rt, folder, "leaf 1 a\nfree 1\n"),
    );
    seen.note("one more", entered(rt, folder, "leaf 1 b\n"));
    let has_all = is_read(rt, folder, "leaf 1 a\nfree 1\nleaf 1 b\n");
    seen.note("all three are read", yes(has_all));
    seen.note(
        "they are for their owner alone",
        yes(is_mode(rt, BOOK, 0o600)),
    );
}

// Enters a line after one that was cut short.
fn torn_books<R: AllocGlobal + Files<File = File>>(rt: &R, seen: &mut Seen, folder: &BotFolder) {
    seen.note("a line cut short", written(rt, BOOK, "leaf 1 a\nleaf 2"));
    seen.note(
        "the one before it is read",
        yes(is_read(rt, folder, "leaf 1 a\n")),
    );
    seen.note("a line entered", entered(rt, folder, "leaf 3 c\n"));
    let follows = holds(rt, BOOK, "leaf 1 a\nleaf 3 c\n");
    seen.note("it follows the one before", yes(follows));
    seen.note("one cut short alone", written(rt, BOOK, "leaf 1"));
    seen.note("nothing is read", yes(is_read(rt, folder, "")));
}

// Enters a line where something else has the book's name.
fn other_books<R: AllocGlobal + Files<File = File>>(rt: &R, seen: &mut Seen, folder: &BotFolder) {
    seen.note("removed", done(remove(rt, BOOK)));
    let made = DirBuilder::new().create(rt, BOOK).is_ok();
    seen.note("a folder with the book's name", done(made));
    seen.note("it is read", book_word(folder.leaves(rt)));
    seen.note("a line entered", entered(rt, folder, "free 1\n"));
    seen.note("removed", done(fs::remove_dir(rt, BOOK).is_ok()));
    let made = symlink(rt, "/dev/null", BOOK).is_ok();
    seen.note("a device with its name", done(made));
    seen.note("it is read", book_word(folder.leaves(rt)));
    seen.note("a line entered", entered(rt, folder, "free 1\n"));
    seen.note("removed", done(remove(rt, BOOK)));
}

// Enters a line in a book that has room for none, and reads one that is too long.
fn long_books<R: AllocGlobal + Files<File = File>>(rt: &R, seen: &mut Seen, folder: &BotFolder) {
    let Ok(lines) = "free 10\n".repeat(rt.alloc(), MAX_BOOK / 8) else {
        return;
    };
    seen.note("lines of 1 MiB entered", entered(rt, folder, &lines));
    seen.note("another line", entered(rt, folder, "free 1\n"));
    seen.note("the book is as it was", yes(is_read(rt, folder, &lines)));
    let longer = format!(in rt.alloc(); "{lines}x");
    let made = longer.is_ok_and(|longer| fs::write(rt, BOOK, longer.as_str()).is_ok());
    seen.note("a book of a byte more", done(made));
    seen.note("it is read", book_word(folder.leaves(rt)));
    seen.note("a line entered", entered(rt, folder, "free 1\n"));
}

fn written<R: AllocGlobal + Files<File = File>>(rt: &R, path: &str, text: &str) -> &'static str {
    done(fs::write(rt, path, text).is_ok())
}

// Returns whether the file at `path` holds just `text`.
fn holds<R: AllocGlobal + Files<File = File>>(rt: &R, path: &str, text: &str) -> bool {
    match fs::read_to_string(rt, path) {
        Ok(found) => found.as_str() == text,
        Err(_) => false,
    }
}

fn number_word(read: Result<Option<[u8; NUMBER_DIGITS]>, FolderError>) -> &'static str {
    match read {
        Ok(Some(digits)) => done(&digits == b"0123456789abcdef"),
        Ok(None) => "no number",
        Err(error) => word_of(error),
    }
}

// Whether what was read of a doubt is `line`.
fn doubt_word(read: Result<Option<Vec<u8>>, FolderError>, line: &[u8]) -> &'static str {
    match read {
        Ok(Some(found)) => yes(found.as_slice() == line),
        Ok(None) => "no doubt",
        Err(error) => word_of(error),
    }
}

fn book_word(read: Result<Option<Vec<u8>>, FolderError>) -> &'static str {
    match read {
        Ok(Some(_)) => "done",
        Ok(None) => "no book",
        Err(error) => word_of(error),
    }
}

// Returns whether the book's lines are just `text`.
fn is_read<R: AllocGlobal + Files<File = File>>(rt: &R, folder: &BotFolder, text: &str) -> bool {
    match folder.leaves(rt) {
        Ok(Some(book)) => book.as_slice() == text.as_bytes(),
        Ok(None) | Err(_) => false,
    }
}

// Enters lines in the book, and returns how that ends.
fn entered<R: AllocGlobal + Files<File = File>>(
    rt: &R,
    folder: &BotFolder,
    lines: &str,
) -> &'static str {
    match folder.enter(rt, lines.as_bytes()) {
        Ok(()) => "done",
        Err(error) => word_of(error),
    }
}
