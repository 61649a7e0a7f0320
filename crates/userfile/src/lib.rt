//! The userfile: what a botnet shares about people, as the result of a numbered list of changes.
//!
//! A [`Userfile`] holds users and bans, each in the order in which they were added. A [`Change`] is one [`Edit`] of it
//! and says who asks for it; [`Userfile::apply`] either makes the whole change, or returns the first refusal that
//! applies and leaves the userfile as it was. The same changes in the same order give the same records on every bot.
//!
//! A change in a person's name, an [`Asker`], is refused unless that person has the right to it:
//! [`Userfile::may`] judges by the records just before the change. A change in nobody's name, as an operator or the bot
//! itself asks for one, has the right to every edit. [`laws_of_rights`] says what follows: nobody climbs.
//!
//! A caller that must write a change to a journal before it makes the change calls the two halves of `apply`.
//! [`Userfile::ready`] allocates all memory that the change needs, or fails. Then [`Update::commit`] makes the change
//! without allocating, or [`Update::cancel`] rolls it back if it could not be written.
//!
//! Handles, hostmasks and channels are compared by casemapping (RFC 2812 section 2.2) and kept as they were given. The
//! look-ups of a person and of a ban take the casemapping of the person's server, which may be a stricter one.
//! [`Userfile::handle_of`] says who a person is, written as `nick!user@host`: of all hostmasks that match, the one with
//! most literals decides, then the earlier user, then the earlier mask. [`Userfile::flags_of`] returns a user's flags,
//! [`Userfile::info_of`] the info text, [`Userfile::ban_for`] the first ban that keeps a person off a channel, and
//! [`Userfile::sticky_ban`] the first ban that comes back when its mask is removed from a channel. These do not
//! allocate.
//!
//! ```text
//! let mut userfile = Userfile::new(alloc);
//! userfile.apply(alloc, &Change::by_nobody(Edit::AddUser { handle }))?;
//! userfile.apply(alloc, &Change::by_nobody(Edit::AddHost { handle, mask }))?;
//! userfile.handle_of(mapping, b"nick!user@host")
//!
//! let update = userfile.ready(alloc, &change)?;   // all that the change takes
//! if let Err(refused) = journal.append(entry) {   // what has to be written first
//!     update.cancel();                            // the userfile is as before
//!     return Err(refused.into());
//! }
//! update.commit();                                // takes none
//! ```
#![tactic(auto)]

mod ban;
mod bans;
mod change;
mod channel_flags;
mod edit;
mod entries;
mod error;
mod expiry;
mod flags;
mod gather;
mod hostmask;
mod index;
mod indexing;
mod laws;
mod limits;
mod persons;
mod plan;
mod refusals;
mod rights;
mod shapes;
mod texts;
mod together;
mod update;
mod user;
mod user_edits;
mod userfile;

pub use crate::ban::Ban;
pub use crate::change::{Asker, Change};
pub use crate::channel_flags::{ChannelEntries, ChannelFlags};
pub use crate::edit::Edit;
pub use crate::error::{ChangeError, ChangeFault};
pub use crate::expiry::expires_at;
pub use crate::flags::PersonFlags;
pub use crate::hostmask::{Hostmask, Hostmasks};
pub use crate::laws::{laws_of_casemappings, laws_of_rights};
pub use crate::limits::{
    MAX_BANS, MAX_CHANNEL_BANS, MAX_CHANNELS, MAX_COMMENT, MAX_HANDLE, MAX_INFO, MAX_MASKS,
    MAX_USERS,
};
pub use crate::plan::Plan;
pub use crate::refusals::shape;
pub use crate::rights::{MASTER, OP, OWNER};
pub use crate::shapes::{
    is_ban_channel, is_comment, is_handle, is_hostmask, is_info, is_one_line, is_person,
};
pub use crate::together::{are_bans, are_users, is_ban, is_user};
pub use crate::update::Update;
pub use crate::user::User;
pub use crate::userfile::Userfile;
