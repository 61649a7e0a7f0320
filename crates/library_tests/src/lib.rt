//! Tests of the pure parts, for what no clause says and no line of `vectors` shows. They make each public call once
//! where it does its work, with whole values. Each module tests one library, or one part of it.
#![tactic(auto)]

#[cfg(test)]
mod duplexes;
#[cfg(test)]
mod flags;
#[cfg(test)]
mod folding;
#[cfg(test)]
mod marks;
#[cfg(test)]
mod sieves;
#[cfg(test)]
mod texts;
#[cfg(test)]
mod users;
