//! What holds of bots that run as processes, whatever their outside does and whenever one of them ends.
//!
//! A *world* is a list of happenings, the newest first. Each is of a folder, in which one process runs at a time
//! (`specs/Folders.antt`):
//!
//! - The process does something with its bot. This is an *act* of the crate `watching`: it is about to open the bot from its
//!   disks, or to create it; it has the bot; it takes packets from its connections; it is about to tell the bot an event;
//!   the bot has made that step; it is about to forget the bot's journal.
//! - The process has begun a bot, and the folder *takes the number* of that bot. From then on the bot of this number is the
//!   one in this folder, until another folder takes the number, or this one creates or forgets its journal.
//! - The process ends, at whatever moment, and leaves bytes on the folder's two disks.
//!
//! Who looks at a world says when a folder takes its number. A leaf that the hub links for the first time has taken it when
//! its process began the bot. A leaf that is renewed takes it when it has begun again above the number that the hub told
//! it. What happens in other folders is of no bot of the net: it is no deed, and no bot gets what is reported there.
//!
//! [`laws_of_worlds`] states of every world that what happened is a list of deeds, as the crate `processes` defines
//! them. So the changes that the hub has accepted are a list that grows as its reports say, and a bot at version v holds
//! the records that the first v of them make. At any two moments bots at one version hold the same records. No version
//! goes back, but for a leaf that is renewed. A request is accepted at most once. Bots that are alike call the same procs.
//!
//! The laws rest on premises, which are definitions:
//!
//! - Each act is one that its process may do after what it did before (`IsLawful` of `watching`): it tells the bot that it
//!   has, and only packets that it took; each step is one that the bot makes; and a crash between two steps leaves on the
//!   disks what the bot keeps.
//! - The network (`IsDelivered`): a bot gets only packets that a report had sent to it. They come whole, but from
//!   any bot, as often and as late as may be. [`only_what_was_queued_is_read`] says that sealed connections do no more,
//!   unless somebody forges a record.
//! - The files (`Meets`, `LeavesDoing`), of the folder that holds a number: a process opens the bot from the bytes that the
//!   folder's last process left. A process that ends in a step leaves what a crash at some moment of the step leaves. A
//!   process that ends while it opens the bot leaves what `Bot::open` says.
//! - The numbers (`IsNext`): a folder takes its number with a new bot. If no folder had taken it before, it is the bot of the
//!   net with which the world began (`IsFirst`). Otherwise the leaf is renewed (`IsRenewed`): its requests have higher
//!   numbers than the last one of its number that the hub has replied to, and no request of the earlier leaf above that
//!   number is taken from then on.
//! - All bots know one number of leaves (`IsFirst`).
//!
//! Two worlds that meet all of these premises are proved too (`specs/Examples.antt`).
#![tactic(auto)]

mod laws;
mod network;

pub use crate::laws::laws_of_worlds;
pub use crate::network::only_what_was_queued_is_read;
