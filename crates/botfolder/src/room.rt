// Room on the disk of a bot's folder.
ghost use Rattle.std.specs.Prelude.{◌≡◌, false, IfOk};

use crate::bot_folder::BotFolder;
use crate::fault::{FolderError, FolderFault, system_error};
use crate::folder_file::{FolderFile, open_file};
use crate::paths::below;
use bytetext::Failure;
use std::fs::{File, OpenOptions};
use std::marker::Model;
use std::os::unix::fs::{FileExt as _, OpenOptionsExt as _};
use std::rt::Files;

/// How many bytes a [`Room`] sets aside on the disk.
pub const SET_ASIDE: u64 = 256 * PIECE;

// The bytes of one write.
const PIECE: u64 = 4_096;

const ZEROS: [u8; PIECE as usize] = [0; PIECE as usize];

// How many pieces are set aside, and how many there are with those that a look tries to write after them: 64 KiB.
const PIECES: u64 = SET_ASIDE / PIECE;

const TRIED: u64 = PIECES + 16;

/// Whether the disk of a bot's folder has room for changes, as the last look found.
///
/// The file `room` in the folder holds [`SET_ASIDE`] zero bytes, so that the file system has this space for the bot even
/// when it is full otherwise. A look brings the file to this length, and tries whether the disk has another 65,536
/// bytes. While there is no room, take only changes that can't be refused: [`lend`](Room::lend) the space to the journal
/// before them, and look again after them.
///
/// A file system that stores no zeros, as one that compresses files, sets no space aside. It may still be full when a
/// look finds room.
///
/// ```text
/// let mut room = folder.room(rt)?;
/// if !room.look() {                             // once a second
///     room.lend();                              // the journal can take the space
///     // .. changes that can't be refused
///     room.look();                              // what is left of it is set aside again
/// }
/// ```
pub struct Room {
    file: File,
    // How many pieces the file holds: at most `PIECES` between two looks.
    pieces: u64,
    has_room: bool,
}

// By hand, so that this is proved once, and not in each crate in which one is dropped.
impl Drop for Room {
    fn drop(self) {
        let Room {
            file: _,
            pieces: _,
            has_room: _,
        } = self;
    }
}

// Contracts see what the last look found.
impl Model for Room {
    ghost use Rattle.std.specs.Prelude.{Bool};

    ghost Value = { Bool };

    ghost view = { λ r. r.has_room };
}

impl BotFolder {
    /// Opens the file `room`. Creates it if it is missing, for its owner alone (mode 600): that needs an inode and no
    /// further space. No look has found room yet.
    ///
    /// # Errors
    /// `NotRegular`, `NoParent` if the folder was removed, and what the system gives, as [`FolderFault`] describes them;
    /// `NoMemory` if an allocation fails.
    pub fn room<R: AllocGlobal + Files<File = File>>(&self, rt: &R) -> Result<Room, FolderError>
        ensures { IfOk result (λ room. room ≡ false) }
    {
        let path = below(rt.alloc(), self.path(), FolderFile::Room.name())?;
        let mut options = OpenOptions::new();
        options.write(true).create(true).mode(0o600);
        let Some(file) = open_file(rt, path.as_str(), FolderFile::Room, &options)? else {
            return Err(Failure::Refused(FolderFault::NoParent));
        };
        let pieces = pieces_in(&file)?;
        Ok(Room {
            file,
            pieces,
            has_room: false,
        })
    }
}

impl Room {
    /// Whether the last look found room; false before the first one.
    pub fn has_room(&self) -> bool
        ensures { result ≡ self.now }
    {
        self.has_room
    }

    /// Looks whether there is room: whether the file holds [`SET_ASIDE`] bytes, or can be brought to this length, and the
    /// disk has another 65,536 bytes. Writes zeros to the file, and cuts off what is too much. If the disk is full, the
    /// file keeps what could be written. Any other failure counts as no room too. Allocates nothing.
    pub fn look(&mut self) -> bool
        ensures { result ≡ self.new }
    {
        let found = fill(&self.file, self.pieces, TRIED);
        self.pieces = found.min(PIECES);
        let is_cut = cut(&self.file, self.pieces);
        self.has_room = is_cut && found >= TRIED;
        self.has_room
    }

    /// Lends the space that is set aside: cuts the file to nothing. The next look sets aside what is left of it.
    pub fn lend(&mut self)
        ensures { self.new ≡ self.old }
    {
        self.pieces = 0;
        let _is_cut = cut(&self.file, 0);
    }
}

// Writes zeros after the first `held` pieces of a file, until it holds `wanted`. Returns how many it holds.
fn fill(file: &File, held: u64, wanted: u64) -> u64 {
    for piece in held..wanted {
        if file
            .write_all_at(&ZEROS, piece.saturating_mul(PIECE))
            .is_err()
        {
            return piece;
        }
    }
    held.max(wanted)
}

// Cuts a file to this many pieces. Returns whether that worked.
fn cut(file: &File, pieces: u64) -> bool {
    file.set_len(pieces.saturating_mul(PIECE)).is_ok()
}

// How many pieces of a file are set aside.
fn pieces_in(file: &File) -> Result<u64, FolderError> {
    match file.metadata() {
        Ok(metadata) => Ok((metadata.len() / PIECE).min(PIECES)),
        Err(error) => Err(system_error(&error)),
    }
}
