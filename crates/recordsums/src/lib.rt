//! The sum of a userfile's records, with which two bots compare their records without showing them.
//!
//! - [`sum_of`] computes the sum of all records of a userfile.
//! - [`KeptSum`] keeps the sum of one version, so that a bot computes it once for each version.
//! - [`Sums`] says when a bot's log shows the sum.
//!
//! ```text
//! let mut kept = KeptSum::new();
//! let sum = kept.at(alloc, bot.version(), bot.userfile())?;    // e3b0c44298fc1c14 where there are no records
//! ```
//!
//! # The sum
//!
//! [`sum_of`] computes the SHA-256 (FIPS 180-4) of the bytes of all records, first the users and then the bans, in
//! their order, each as [`usercodec`] encodes it. The first eight bytes of the digest are the sum, as 16 hexadecimal
//! digits, `0` to `9` and `a` to `f`: `e3b0c44298fc1c14` where there are no records. One record is encoded at a time,
//! so the sum of many records needs no more memory than that of the largest.
//!
//! Equal records have equal sums. Different records have different sums, except with a chance of 1 in 2^64 if nobody
//! searches for such records.
#![tactic(auto)]

mod kept_sum;
mod record_sum;
mod sums;

pub use crate::kept_sum::KeptSum;
pub use crate::record_sum::sum_of;
pub use crate::sums::Sums;
