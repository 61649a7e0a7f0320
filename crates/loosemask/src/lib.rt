//! Hostmasks that fit more people than they are meant for.
//!
//! A bot knows a person by a hostmask, written as `nick!user@host`, and gives the person a user's flags. A mask that fits
//! strangers gives them the same flags. [`looseness_of`] says whether a mask is likely to, and [`Looseness::warning`]
//! says it in words. This is advice: a loose mask is a right one.
//!
//! | Mask | Looseness |
//! |---|---|
//! | `*!*me@host.example`, `*!me*@host.example` | users: `*me` fits `acme` too |
//! | `*!~me@host.example`, `*!*@host.example` | none |
//! | `*!me@*`, `*!me@*.com` | hosts: at least a quarter of all hosts fit |
//! | `*!me@*.2.3.4` | hosts: an IPv4 address is narrowed down from its front |
//! | `*!me@*.example.com`, `*!me@192.0.2.*` | none |
//!
//! ```text
//! looseness_of(b"*!*me@*.com")           // Some(Looseness::HostsAndUsers)
//! looseness_of(b"*!~me@*.example.com")   // None
//! ```
#![tactic(auto)]

mod looseness;

pub use crate::looseness::{Looseness, looseness_of};
