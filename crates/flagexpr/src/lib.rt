//! Flags and flag expressions, as Eggdrop's Tcl commands document describes them.
//!
//! [`Flags`] are a set of letters, `a` to `z` and `A` to `Z`. A user has one set for the bot as a whole, one for each
//! channel and one for bots. A bind has a [`FlagExpr`], which says whose flags allow a call of the bind: one to three
//! parts, joined by `|` only or by `&` only, which are compared with those three sets in that order. Letters after `-`
//! are forbidden, the others are wanted. Only [`Flags::text`] allocates.
//!
//! ```text
//! let expression = FlagExpr::parse(b"m|o")?;
//! let channel = Flags::parse(b"o")?;
//! expression.meets(Flags::empty(), channel, Flags::empty())    // true: one of the two is enough under `|`
//! ```
#![tactic(auto)]

mod expression;
mod fault;
mod flags;

pub use crate::expression::FlagExpr;
pub use crate::fault::FlagFault;
pub use crate::flags::Flags;
