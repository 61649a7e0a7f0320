//! The folder of a bot: one bot at a time, and a journal that is whole or does not exist.
//!
//! ```text
//! FOLDER            mode 700: whoever may enter it can give the bot commands
//!   lock            an empty file, locked while a bot runs on the folder
//!   journal/        first and second, the two disks of the bot's journal
//!   new/            the same while they are made
//!   net             the number of the bot's net: 16 digits and a line feed
//!   made            the folder's own number: 16 digits and a line feed
//!   leaves          at a hub, the book of its leaves: which folder is which leaf, a line each
//!   doubt           at a hub that may be an older copy of itself: which leaf shows it
//!   parent          at an heir's hub: the number of the net that it goes on from, and the promoted leaf's version
//!   journal.NET     the journal of a leaf of the net NET, which was put aside
//!   room            zeros: the space that is set aside for the bot
//!   control         a socket, at which the running bot takes commands
//! ```
//!
//! [`BotFolder::take`] creates the folder if it is missing, and locks it. [`BotFolder::begin`] returns the disks of its
//! journal, or two empty ones in `new` if none was made yet. Once a bot was made on these, [`BotFolder::finish`]
//! renames `new` to `journal`. A program that ends before that, at any moment, leaves a folder in which the next start
//! begins again, and nobody has learnt anything of a bot. A program that ends later leaves the journal.
//!
//! ```text
//! let folder = BotFolder::take(rt, "/var/lib/eggnet/egg1")?;
//! let bot = match folder.begin(rt)? {
//!     Begun::Found(disks) => Bot::open(alloc, config, disks.first, disks.second)?,
//!     Begun::Empty(disks) => {
//!         let bot = Bot::create(alloc, config, disks.first, disks.second)?;
//!         folder.finish(rt)?;
//!         bot
//!     }
//! };
//! folder.clear_control(rt)?;
//! // listen at folder.control()
//! ```
//!
//! [`BotFolder::keep_net`] and [`BotFolder::keep_made`] keep the two numbers. [`BotFolder::leaves`] returns the lines of
//! the book, and [`BotFolder::enter`] adds some after them. Each of these files is written under a second name, such as
//! `net.new`, and then renamed: whatever crash comes, it is found as it was, or with all that was written.
//!
//! [`BotFolder::room`] returns a [`Room`], which finds out whether the disk has room for changes before one is written to
//! the journal.
//!
//! [`BotFolder::begin`] and [`read_stopped`], through which each reader of a journal in a folder goes, refuse one that
//! its device cut short ([`is_cut_short`](botjournal::is_cut_short)): an opening would go back to an earlier moment.
//!
//! [`BotFolder::copy_journal`] copies the journal of the running bot into a new folder.
//!
//! [`BotFolder::take_stopped`] takes the folder of a bot that does not run, and creates none.
//! [`BotFolder::put_journal_aside`] has the leaf of that folder begin again. [`BotFolder::take_heir`] takes the folder in
//! which an heir's hub is made, and [`BotFolder::name_heir`] gives it its name once it is whole.
//!
//! A folder that is a symbolic link or belongs to another user is refused. Root may read a folder of another user and
//! enter it to give its bot commands ([`check_owner`]), but can't run a bot there.
//!
//! The lock is released when the program ends, however it ends. [`read_stopped`] reads the journal of a bot that does
//! not run, and leaves the folder unchanged. It locks the journal for a moment, so a start that finds a lock taken tries
//! it again for two seconds. What has the name of a file and is a FIFO, a device or a folder is not opened.
#![tactic(auto)]

mod aside;
mod backup;
mod begun;
mod book_file;
mod bot_folder;
mod doubt_file;
mod fault;
mod folder_file;
mod folders;
mod heir_folder;
mod locking;
mod number_file;
mod owner;
mod parent_file;
mod paths;
mod room;
mod stopped;
mod tunnel_folder;
mod whole_file;

pub use crate::begun::Begun;
pub use crate::book_file::MAX_BOOK;
pub use crate::bot_folder::BotFolder;
pub use crate::doubt_file::MAX_DOUBT;
pub use crate::fault::{FolderError, FolderFault};
pub use crate::folder_file::FolderFile;
pub use crate::number_file::NUMBER_DIGITS;
pub use crate::owner::check_owner;
pub use crate::parent_file::MAX_PARENT;
pub use crate::paths::{MAX_PATH, control_of};
pub use crate::room::{Room, SET_ASIDE};
pub use crate::stopped::{Stopped, read_stopped};
pub use crate::tunnel_folder::{keep_tunnel_keys, make_tunnels};
