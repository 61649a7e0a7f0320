// The book of a hub's leaves.
ghost use Rattle.std.specs.Prelude.{◌≡◌, ◌<◌, ◌≤◌, ◌+◌, ◌-◌, ◌++◌, ◌↔◌, Err, IfOk, IfSome, OnOk, length, take, vec_len};
ghost use Rattle.bytetext.specs.declared.failure.Failure.TheVariants.{Refused};
ghost use Rattle.botfolder.specs.Books.{torn_len, whole_lines};
ghost use Rattle.botfolder.specs.declared.book_file.TheConstants.{MAX_BOOK};
ghost use Rattle.botfolder.specs.declared.fault.FolderFault.TheVariants.{LongBook};

use crate::bot_folder::BotFolder;
use crate::fault::{FolderError, FolderFault};
use crate::folder_file::{FolderFile, len_of, open_file, read_file};
use crate::paths::below;
use crate::whole_file::{LEAVES, replace_file};
use bytetext::Failure;
use std::fs::{File, OpenOptions};
use std::rt::Files;

/// The most bytes of the file `leaves`.
pub const MAX_BOOK: usize = 1_048_576;

impl BotFolder {
    /// Returns the whole lines of the file `leaves`, the book in which a hub writes which folder is which leaf. Returns
    /// `None` if the file does not exist. Bytes after the last line feed are left out.
    ///
    /// # Errors
    /// `NotRegular`, `LongBook` if the file has more than [`MAX_BOOK`] bytes, and what the system gives, as
    /// [`FolderFault`] describes them; `NoMemory` if an allocation fails.
    pub fn leaves<R: AllocGlobal + Files<File = File>>(
        &self,
        rt: &R,
    ) -> Result<Option<Vec<u8>>, FolderError>
        ensures lines { IfOk result (λ found. IfSome found (λ book. torn_len book.items ≡ 0)) }
        ensures most { IfOk result (λ found. IfSome found (λ book. vec_len book ≤ MAX_BOOK)) }
    {
        match read_book(rt, self.path())? {
            Some(book) => Ok(Some(lines_of(book))),
            None => Ok(None),
        }
    }

    /// Enters `lines`, each with its line feed, in the book: after its last whole line, in place of what follows that.
    /// Creates the book if it is missing, for its owner alone (mode 600). At `Ok` the lines are synced to the device.
    ///
    /// The book is written whole under the name `leaves.new`, synced, and then renamed. So a crash at any moment leaves
    /// the book as it was, or with all of the lines, and cuts none of them short. [`take`](BotFolder::take) syncs the
    /// names in the folder, so what a later start reads in the book stays there. Each call writes the whole book again:
    /// enter several lines by one call.
    ///
    /// # Errors
    /// `NotRegular`, `LongBook` if the book would have more than [`MAX_BOOK`] bytes, `Full` and `DiskFails` if it can't
    /// be written or synced to its device, and what the system gives, as [`FolderFault`] describes them; `NoMemory` if an
    /// allocation fails. The book may then be found with all of the lines, or as it was.
    pub fn enter<R: AllocGlobal + Files<File = File>>(
        &self,
        rt: &R,
        lines: &[u8],
    ) -> Result<(), FolderError>
        ensures fits { OnOk result (length lines.now ≤ MAX_BOOK) }
    {
        let book = match read_book(rt, self.path())? {
            Some(book) => book,
            None => Vec::new(rt.alloc()),
        };
        let book = with_lines(book, lines)?;
        replace_file(rt, self.path(), LEAVES, book.as_slice())
    }
}

// Reads the file of the book, or returns `None` if it is missing.
fn read_book<R: AllocGlobal + Files<File = File>>(
    rt: &R,
    folder: &str,
) -> Result<Option<Vec<u8>>, FolderError>
    ensures most { IfOk result (λ found. IfSome found (λ book. vec_len book ≤ MAX_BOOK)) }
{
    let path = below(rt.alloc(), folder, FolderFile::Leaves.name())?;
    let mut options = OpenOptions::new();
    options.read(true);
    let Some(file) = open_file(rt, path.as_str(), FolderFile::Leaves, &options)? else {
        return Ok(None);
    };
    let len = len_of(&file)?;
    if len > MAX_BOOK {
        return Err(Failure::Refused(FolderFault::LongBook));
    }
    let mut book = vec![in rt.alloc(); 0; len]?;
    read_file(&file, &mut book)?;
    Ok(Some(book))
}

// Returns the whole lines of a book, and `lines` after them.
fn with_lines(book: Vec<u8>, lines: &[u8]) -> Result<Vec<u8>, FolderError>
    ensures entered { IfOk result (λ all. all.items ≡ whole_lines book.items ++ lines.now) }
    ensures long { (MAX_BOOK < length (whole_lines book.items) + length lines.now) ↔ (result ≡ Err (Refused LongBook)) }
{
    let mut book = lines_of(book);
    if book.len() > MAX_BOOK || lines.len() > MAX_BOOK - book.len() {
        return Err(Failure::Refused(FolderFault::LongBook));
    }
    book.extend_from_slice(lines)?;
    Ok(book)
}

// Returns the whole lines of a book.
fn lines_of(book: Vec<u8>) -> Vec<u8>
    ensures lines { result.items ≡ whole_lines book.items }
    ensures whole { torn_len result.items ≡ 0 }
{
    let mut book = book;
    let len = lines_len(book.as_slice());
    book.truncate(len);
    book
}

// Returns how many bytes the whole lines among `bytes` have.
fn lines_len(bytes: &[u8]) -> usize
    ensures len { result ≡ length bytes.now - torn_len bytes.now }
    ensures within { result ≤ length bytes.now }
    ensures whole { torn_len (take result bytes.now) ≡ 0 }
{
    let mut len = bytes.len();
    while len > 0 && bytes[len - 1] != b'\n' {
        len -= 1;
    }
    len
}
