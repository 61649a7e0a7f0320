// Which folder is which leaf.
ghost use Rattle.std.specs.Prelude.{◌≡◌};
ghost use Rattle.handshake.specs.Books.{place_beside};

use crate::book_line::{BookLine, first_line};
use crate::drawn_number::DrawnNumber;
use crate::places::empty_places;
use bytetext::{Failure, NoMemory};
use std::alloc::Global;
use std::marker::Model;
use thiserror::Error;

/// What a hub knows of its leaves: by which folder each of them belongs to the net, and which folders never join again.
///
/// The hub keeps it in a file, to which it only appends. Each line has one of these forms, and of the lines about a leaf
/// the last one counts:
///
/// | Line | Meaning |
/// |---|---|
/// | `leaf N MADE` | the folder with the number MADE is leaf N |
/// | `free N` | no folder is leaf N, until another one joins |
/// | `bar MADE` | the folder with the number MADE never joins again |
///
/// [`entry_line`](crate::entry_line), [`free_line`](crate::free_line) and [`bar_line`](crate::bar_line) return the lines. A
/// line is on disk before the value changes.
pub struct Book {
    // By the leaf's number; no leaf has the number 0.
    folders: Vec<Option<DrawnNumber>>,
    barred: Vec<DrawnNumber>,
}

// Written by hand, so that the drop is proved once, and not in each function that drops one.
impl Drop for Book {
    fn drop(self) {
        let Book {
            folders: _,
            barred: _,
        } = self;
    }
}

/// What a hub's book says of a leaf and the folder that it shows.
#[derive(Clone, Copy, Debug, PartialEq, Eq)]
pub enum Place {
    /// No folder is that leaf.
    Free,
    /// This folder is that leaf.
    Same,
    /// Another folder is that leaf.
    Taken,
    /// This folder never joins again, whatever leaf it shows.
    Barred,
}

/// A line of a book that no hub writes.
#[derive(Clone, Copy, Debug, PartialEq, Eq, Error)]
#[error("line {line} is not one that a hub writes: put back what was changed there")]
pub struct BookFault {
    /// The number of the line, from 1.
    pub line: u64,
}

impl Model for Book {
    ghost use Rattle.handshake.specs.Books.{Leaves};

    ghost Value = { Leaves };

    ghost view = { λ book. record { folders = book.folders.items; barred = book.barred.items } };
}

impl Book {
    ghost use Rattle.std.specs.Prelude.{◌≡◌, ◌<◌, ◌+◌, ◌++◌, ◌∷◌, [], List, None, IfOk, IfErr, OnOk, OnErr, length, map, replicate, set};
    ghost use Rattle.handshake.specs.Books.{IsRead, IsRefused, Says, folder_of, is_barred, place_in, place_of, with_line};
    ghost use Rattle.handshake.specs.declared.book_line.BookLine.{BookLine as Line};
    ghost use Rattle.handshake.specs.declared.book_line.BookLine.TheVariants.{Bars, Enters, Frees};

    /// Reads `bytes` as the lines of a book, of a net with `leaves` leaves. The book has no room for leaves with higher
    /// numbers: lines about them change nothing.
    ///
    /// # Errors
    /// `Refused` with the first line that no hub writes, or that no line feed ends; `NoMemory` if an allocation fails.
    pub fn read(alloc: Global, bytes: &[u8], leaves: u16) -> Result<Book, Failure<BookFault>>
        ensures read { IfOk result (IsRead bytes.now leaves) }
        ensures fault { IfErr result (IsRefused bytes.now) }
    {
        let mut book = Book::empty(alloc, leaves)?;
        let mut rest = bytes;
        let mut lines: u64 = 0;
        while !rest.is_empty() {
            match first_line(rest) {
                Some(first) => {
                    book.put(&first.line)?;
                    rest = first.rest;
                    lines += 1;
                }
                None => return Err(Failure::Refused(BookFault { line: lines + 1 })),
            }
        }
        Ok(book)
    }

    /// Creates the book of a new hub of a net with `leaves` leaves. No line has been written to it.
    ///
    /// # Errors
    /// `NoMemory` if an allocation fails.
    #[tactic(auto, using(crate::proofs::BookLemmas::says_nothing))]
    pub fn empty(alloc: Global, leaves: u16) -> Result<Book, NoMemory>
        ensures value { IfOk result (λ book. book ≡ record { folders = replicate (leaves + 1) None; barred = [] }) }
        ensures says { IfOk result (λ book. Says book []) }
    {
        Ok(Book {
            folders: empty_places(alloc, usize::from(leaves) + 1)?,
            barred: Vec::new(alloc),
        })
    }

    /// Returns what the book says of `leaf` and the folder with the number `made`.
    pub fn place(&self, leaf: u16, made: &DrawnNumber) -> Place
        ensures place { result ≡ place_of self.now leaf made.now }
        // It is what the last line about the leaf says, unless a line bars the folder.
        ensures lines { (lines : List Line) → Says self.now lines → leaf < length self.now.folders → result ≡ place_in lines leaf made.now }
    {
        if self.is_barred(made) {
            return Place::Barred;
        }
        place_beside(self.folder(leaf), made)
    }

    /// The folder with the number `made` is `leaf` from now on, as the line of [`entry_line`](crate::entry_line) says.
    /// Allocates nothing.
    #[tactic(auto, using(crate::proofs::BookLemmas::says_entry))]
    pub fn put_entry(&mut self, leaf: u16, made: &DrawnNumber)
        ensures value { self.new ≡ with_line (Enters leaf made.now) self.old }
        ensures says { (lines : List Line) → Says self.old lines → Says self.new (lines ++ Enters leaf made.now ∷ []) }
    {
        self.set_folder(leaf, Some(*made));
    }

    /// No folder is `leaf` from now on, as the line of [`free_line`](crate::free_line) says. Allocates nothing.
    #[tactic(auto, using(crate::proofs::BookLemmas::says_free))]
    pub fn free(&mut self, leaf: u16)
        ensures value { self.new ≡ with_line (Frees leaf) self.old }
        ensures says { (lines : List Line) → Says self.old lines → Says self.new (lines ++ Frees leaf ∷ []) }
    {
        self.set_folder(leaf, None);
    }

    /// The folder with the number `made` never joins again, as the line of [`bar_line`](crate::bar_line) says.
    ///
    /// # Errors
    /// `NoMemory` if an allocation fails: the book is as before.
    #[tactic(auto, using(crate::proofs::BookLemmas::says_bar))]
    pub fn bar(&mut self, made: &DrawnNumber) -> Result<(), NoMemory>
        ensures value { OnOk result (self.new ≡ with_line (Bars made.now) self.old) }
        ensures says { OnOk result ((lines : List Line) → Says self.old lines → Says self.new (lines ++ Bars made.now ∷ [])) }
        ensures unchanged { OnErr result (self.new ≡ self.old) }
    {
        self.push_barred(&[*made])
    }

    /// The folders with the numbers `made` never join again, as the lines of [`bar_line`](crate::bar_line) say.
    ///
    /// # Errors
    /// `NoMemory` if an allocation fails: the book is as before.
    #[tactic(auto, using(crate::proofs::BookLemmas::says_bars))]
    pub fn bar_all(&mut self, made: &[DrawnNumber]) -> Result<(), NoMemory>
        ensures value { OnOk result (self.new ≡ record self.old { barred = self.old.barred ++ made.now }) }
        ensures says { OnOk result ((lines : List Line) → Says self.old lines → Says self.new (lines ++ map Bars made.now)) }
        ensures unchanged { OnErr result (self.new ≡ self.old) }
    {
        self.push_barred(made)
    }

    // The folder that is `leaf` from now on, if the book has room for that leaf.
    fn set_folder(&mut self, leaf: u16, folder: Option<DrawnNumber>)
        ensures { self.new ≡ record self.old { folders = set self.old.folders leaf folder } }
    {
        if let Some(place) = self.folders.get_mut(usize::from(leaf)) {
            *place = folder;
        }
    }

    // More barred folders.
    fn push_barred(&mut self, made: &[DrawnNumber]) -> Result<(), NoMemory>
        ensures value { OnOk result (self.new ≡ record self.old { barred = self.old.barred ++ made.now }) }
        ensures unchanged { OnErr result (self.new ≡ self.old) }
    {
        self.barred.extend_from_slice(made)?;
        Ok(())
    }

    // Changes the book as a line of it says.
    fn put(&mut self, line: &BookLine) -> Result<(), NoMemory>
        ensures value { OnOk result (self.new ≡ with_line line.now self.old) }
        ensures says { OnOk result ((lines : List Line) → Says self.old lines → Says self.new (lines ++ line.now ∷ [])) }
    {
        match line {
            BookLine::Enters { leaf, made } => {
                self.put_entry(*leaf, made);
                Ok(())
            }
            BookLine::Frees { leaf } => {
                self.free(*leaf);
                Ok(())
            }
            BookLine::Bars { made } => self.bar(made),
        }
    }

    fn is_barred(&self, made: &DrawnNumber) -> bool
        ensures { result ≡ is_barred self.now made.now }
    {
        self.barred.iter().any(|barred| barred.is_same(made))
    }

    // The folder that is the leaf.
    fn folder(&self, leaf: u16) -> Option<DrawnNumber>
        ensures { result ≡ folder_of self.now leaf }
    {
        match self.folders.get(usize::from(leaf)) {
            Some(folder) => *folder,
            None => None,
        }
    }
}

// The place of a folder that is not barred, beside the folder that is the leaf.
fn place_beside(kept: Option<DrawnNumber>, made: &DrawnNumber) -> Place
    ensures { result ≡ place_beside kept made.now }
{
    match kept {
        Some(kept) => {
            if kept.is_same(made) {
                Place::Same
            } else {
                Place::Taken
            }
        }
        None => Place::Free,
    }
}
