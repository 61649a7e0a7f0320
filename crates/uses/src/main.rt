//! Uses each of the kit's main types once, in the few lines that the documents show, and prints what came of each.
#![tactic(auto)]

mod journal;
mod lines;
mod link;
mod masks;
mod minutes;
mod people;

use anyhow::Error;

fn main(rt: HostRuntime) -> Result<(), Error> {
    let alloc = rt.alloc();
    println!(rt; "mask: {}", masks::is_meant(alloc)?)?;
    println!(rt;
        "person: a handle of {} bytes",
        people::deciding_handle(alloc)?
    )?;
    let (first, second) = lines::ended(alloc)?;
    println!(rt; "lines: {first} and {second}")?;
    println!(rt; "hour: {}", minutes::hour_in_berlin()?)?;
    println!(rt; "journal: {} entry", journal::kept(alloc)?)?;
    let (hub, leaf) = link::share(alloc)?;
    println!(rt; "link: the hub is at version {hub}, the leaf at {leaf}")?;
    Ok(())
}
