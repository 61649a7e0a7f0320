//! The upkeep of a bot: what its process opens before it has the bot, what it keeps beside it, and why it ends.
//!
//! - [`check`] finds what is wrong with a configuration before anything is opened.
//! - [`log_of`], [`uplink_of`], [`secret_of`], [`links_of`], [`folder_of`], [`door_of`] and [`space_of`] open what the
//!   configuration names: the log, the connection to the servers with the account, the secret and the links to the other
//!   bots, the folder, the door for administrators, and the space that is set aside. [`page_of`] opens the page.
//! - [`connect`], [`wait`] and [`send`] are the parts of a turn that need no bot.
//! - [`refusal`], [`say`], [`jump`], [`join`], [`renew`], [`status_of`] and others are what administrators ask for that needs
//!   no step of the bot.
//! - [`HandOver`] is a hub that hands its net over to one of its leaves, and [`leave_net`] has a leaf leave its net.
//! - [`settings_in`] reads the configuration again, and [`Reloading`] holds it until the turn is over.
//! - [`RunError`] is why the process ends, with its exit status and what a person is to change.
//!
//! ```text
//! check(alloc, &store, &settings)?;                    // what can be said before anything is opened
//! let mut log = log_of(&rt, &settings)?;
//! let folder = folder_of(&rt, &settings)?;
//! let mut uplink = uplink_of(&rt, &settings)?;
//! ```
//!
//! This crate knows no bot: the bot's version, its nick and its journal's folder are all that it is told.
#![tactic(auto)]

mod account;
mod bases;
mod checking;
mod connections;
mod copying;
mod ending;
mod fixed_words;
mod flooding;
mod folder_opening;
mod hand_over;
mod json_status;
mod keeping;
mod leaving;
mod log_opening;
mod netting;
mod page_opening;
mod refusing;
mod rejoining;
mod reloading;
mod rereading;
mod space;
mod status;
mod uplink_deeds;
mod waiting;

pub use crate::account::{AccountFault, account_of, uplink_of};
pub use crate::bases::Bases;
pub use crate::checking::{NoBind, check, kind_of, no_bind_answer, of_line};
pub use crate::connections::{connect, send};
pub use crate::copying::{backup, reopen};
pub use crate::ending::{RunError, Subject, of_folder};
pub use crate::fixed_words::changed_word;
pub use crate::flooding::{FloodWatch, put_ignores};
pub use crate::folder_opening::{door_of, folder_of, forget_journal, space_of};
pub use crate::hand_over::{
    HAND_OVER_SECONDS, HandOver, HandOverEntry, HandOverState, NoHandOver, end_handed_over,
    handed_over_answer, no_hand_over_answer, not_handed_over_answer, taken_requests,
};
pub use crate::json_status::status_json;
pub use crate::keeping::{
    enter_new_leaves, keep_new_doubt, keep_new_net, renew, tell_changes, trust,
};
pub use crate::leaving::leave_net;
pub use crate::log_opening::log_of;
pub use crate::netting::{begin_net, links_of, secret_of, tunnel_keys, warn};
pub use crate::page_opening::{PageFault, page_of};
pub use crate::refusing::refusal;
pub use crate::rejoining::{join, part, take_uplink};
pub use crate::reloading::{Reloading, other_log, use_log};
pub use crate::rereading::{NoReload, file_bytes, reload_answer, settings_in};
pub use crate::space::Space;
pub use crate::status::status_of;
pub use crate::uplink_deeds::{die, jump, say};
pub use crate::waiting::wait;
