//! Tests of the crates above the pure parts, for what no line of `botcases` or `stepcases` shows: disks that are
//! another bot's, packets that nobody sent, worlds that are no world, streams that fail, and procs that run out of
//! memory. What `library_tests` says of itself holds here too. The tests are in two crates since each crate is one
//! piece of work in the gate.
#![tactic(auto)]

#[cfg(test)]
mod nets;
#[cfg(test)]
mod opening;
#[cfg(test)]
mod shortages;
#[cfg(test)]
mod transcripts;
#[cfg(test)]
mod worlds;
