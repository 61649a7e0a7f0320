//! Names on IRC: casemapping, which says which bytes and texts are the same, and what a channel name is.
//!
//! RFC 2812 section 2.2 makes the bytes `{ } | ^` the lower case of `[ ] \ ~`, besides A to Z. Nicks, channels,
//! handles, masks, keywords and hostmasks are compared by this rule. Bytes above 127 have no case.
//!
//! [`fold`] returns the lower case of a byte, and [`same`] compares two texts. A [`FoldKey`] is a text as a key of
//! a map: two are equal, order the same and hash the same exactly if their texts are the same. [`fold_text`] and
//! [`fold_slice`] fold a whole text, for a caller that keeps or looks up folded bytes. [`is_channel_name`] is the rule
//! of RFC 2812 section 1.3.
//!
//! ```text
//! same(b"Nick[a]\\~", b"nick{a}|^")        // true
//! FoldKey::new(alloc, b"#Egg")? == FoldKey::new(alloc, b"#egg")?
//! ```
#![tactic(auto)]

mod casemappings;
mod channels;
mod folds;
mod keys;
mod shorts;

pub use crate::casemappings::Casemapping;
pub use crate::channels::{MAX_CHANNEL_NAME, is_channel_name};
pub use crate::folds::{
    fold, fold_by, fold_slice, fold_slice_by, fold_text, fold_text_by, same, same_by,
};
pub use crate::keys::FoldKey;
pub use crate::shorts::ShortFold;
