//! A net whose hub is lost: a leaf becomes the hub of a new net, its heir, and the other leaves become new leaves of it.
//!
//! [`promote`] makes, of the folder of a stopped leaf, the folder of an heir's hub. Its journal has the leaf's version and
//! records and no replies, and its net has a number of its own. [`standing_of`] and [`highest`] say which of several leaves
//! has the highest version. [`Leaving::start_over`] puts the journal of a stopped leaf aside, so that it joins the heir as
//! a new leaf. The leaf's folder that is promoted is only read.
//!
//! ```text
//! let standings = [standing_of(rt, "/var/lib/eggnet/egg1")?, standing_of(rt, "/var/lib/eggnet/egg2")?];
//! highest(&standings);                                            // Some(1): the second leaf
//! promote(rt, "/var/lib/eggnet/egg2", "/var/lib/eggnet/heir")?;   // start the hub there
//! let leaving = Leaving::take(rt, "/var/lib/eggnet/egg1")?;       // tell what leaving.leaf had asked
//! leaving.start_over(rt)?;                                        // and start it as a leaf of the heir
//! ```
//!
//! What a leaf had asked and not heard is in no hub's journal: [`Leaf::asked`] returns it, for a person to ask again.
//!
//! The contracts are about the bytes of disks. [`Leaf::read`] takes those of a leaf's journal, and [`make_heir`] writes
//! those of the heir's hub. Its clause says of them what the laws of [`heirs`] rest on: a process that opens the leaf's
//! bytes shows this version and these records, and whatever a crash leaves of the hub's bytes means the hub of an heir at
//! that version with these records. [`promote`] says so of the disks that it made. No contract says what a folder holds:
//! that the folder of an heir is found whole or not at all is what [`botfolder`] does, and is tried.
#![tactic(auto)]

mod fault;
mod heir;
mod law;
mod leaf;
mod numbers;
mod promoting;
mod ranking;
mod reading;
mod starting_over;

pub use crate::fault::{PromotionError, PromotionFault};
pub use crate::heir::make_heir;
pub use crate::law::law_of_promotion;
pub use crate::leaf::Leaf;
pub use crate::promoting::{Promoted, promote};
pub use crate::ranking::{highest, other_net};
pub use crate::reading::{LeafStanding, standing_of};
pub use crate::starting_over::Leaving;
