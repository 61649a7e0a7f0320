// A journal that is made in a folder, which then gets its name.
ghost use Rattle.std.specs.Prelude.{◌≡◌, []};

use crate::LAYOUT;
use crate::names::{is_mode, pair_opened};
use crate::seen::{Seen, done, word_of, yes};
use bytejournal::Journal;
use disks::{FileDisk, Pair, make_folder, rename_folder};
use std::fs;
use std::fs::File;
use std::rt::Files;

/// Makes a journal in one folder, names it, and opens it under its name.
pub fn whole_folder<R: AllocGlobal + Files<File = File>>(rt: &R, seen: &mut Seen) {
    seen.note("a folder below none", word_of(&make_folder(rt, "bot/new")));
    seen.note("the one above it", word_of(&make_folder(rt, "bot")));
    seen.note("the folder", word_of(&make_folder(rt, "bot/new")));
    seen.note("once more", word_of(&make_folder(rt, "bot/new")));
    let lone = is_mode(rt, "bot", 0o700) && is_mode(rt, "bot/new", 0o700);
    seen.note("both for their owner alone", yes(lone));
    name_journal(rt, seen);
    seen.note("opened when it is free", named_opened(rt));
    seen.note("another folder", word_of(&make_folder(rt, "bot/new")));
    seen.note("it is named so too", named(rt));
    seen.note("the journal is as it was made", yes(is_found(rt)));
    idle_file(rt, seen);
}

// Makes the journal, and names its folder while the journal is in use.
fn name_journal<R: AllocGlobal + Files<File = File>>(rt: &R, seen: &mut Seen) {
    let journal = new_journal(rt);
    seen.note("a journal in it", yes(journal.is_some()));
    seen.note("the folder is named", named(rt));
    seen.note("opened while it is used", named_opened(rt));
}

fn new_journal<R: AllocGlobal + Files<File = File>>(rt: &R) -> Option<Journal<FileDisk>> {
    let Ok(pair) = Pair::make(rt, "bot/new/first", "bot/new/second") else {
        return None;
    };
    match Journal::create(rt.alloc(), pair.first, pair.second, LAYOUT, b"a base") {
        Ok(journal) => Some(journal),
        Err(_) => None,
    }
}

fn named<R: Files<File = File>>(rt: &R) -> &'static str {
    word_of(&rename_folder(rt, "bot/new", "bot/journal"))
}

fn named_opened<R: AllocGlobal + Files<File = File>>(rt: &R) -> &'static str {
    pair_opened(rt, "bot/journal/first", "bot/journal/second")
}

// Returns whether the journal under its name is the one that was made.
fn is_found<R: AllocGlobal + Files<File = File>>(rt: &R) -> bool {
    match Pair::open(rt, "bot/journal/first", "bot/journal/second") {
        Ok(pair) => match Journal::open(rt.alloc(), pair.first, pair.second) {
            Ok(opened) => opened.base.as_bytes() == b"a base".as_slice() && opened.whole,
            Err(_) => false,
        },
        Err(_) => false,
    }
}

// Writes another base and an entry to the journal, and looks at the first gates of its files.
fn idle_file<R: AllocGlobal + Files<File = File>>(rt: &R, seen: &mut Seen) {
    let Ok(pair) = Pair::open(rt, "bot/journal/first", "bot/journal/second") else {
        return seen.note("its files", "refused");
    };
    match Journal::open(rt.alloc(), pair.first, pair.second) {
        Ok(opened) if opened.whole => {
            let mut journal = opened.journal;
            let is_based = journal.rebase(rt.alloc(), LAYOUT, b"another base").is_ok();
            seen.note("another base", done(is_based));
            gates(rt, seen);
            let is_appended = journal.append(rt.alloc(), b"an entry").is_ok();
            seen.note("an entry", done(is_appended));
            gates(rt, seen);
        }
        _ => seen.note("its journal", "refused"),
    }
}

fn gates<R: AllocGlobal + Files<File = File>>(rt: &R, seen: &mut Seen) {
    seen.note("its first file", gate(rt, "bot/journal/first"));
    seen.note("its second file", gate(rt, "bot/journal/second"));
}

// What a journal's file begins with.
fn gate<R: AllocGlobal + Files<File = File>>(rt: &R, path: &str) -> &'static str {
    match fs::read(rt, path) {
        Ok(bytes) if bytes.first() == Some(&1) => "an open gate",
        Ok(_) => "a closed gate",
        Err(_) => "no file",
    }
}
