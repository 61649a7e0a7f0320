// A change that goes from the hub to a leaf.
ghost use Rattle.std.specs.Prelude.{◌≤◌};

use anyhow::Error;
use bytetext::Text;
use disks::MemDisk;
use sharelink::BotLink;
use std::alloc::Global;
use userfile::{Change, Edit};

/// Returns the versions of a hub and of its leaf after a change that the hub accepts and sends to the leaf.
pub fn share(alloc: Global) -> Result<(u32, u32), Error> {
    let mut hub = end(alloc, 0)?;
    let mut leaf = end(alloc, 1)?;
    told(alloc, &mut hub, &mut leaf)
}

// Does the same for an existing hub and leaf.
fn told(
    alloc: Global,
    hub: &mut BotLink<MemDisk>,
    leaf: &mut BotLink<MemDisk>,
) -> Result<(u32, u32), Error> {
    let handle = Text::from_slice(alloc, b"alice")?;
    hub.ask(alloc, Change::by_nobody(Edit::AddUser { handle }))?;
    let answer = hub.pump(alloc)?;
    if let Some(outgoing) = answer.packets.as_slice().first() {
        leaf.receive(alloc, &outgoing.packet)?;
    }
    Ok((hub.version(), leaf.version()))
}

// Creates the end of the link that has this `number`, with its journal on two disks in memory. The hub is number 0, and
// has one leaf.
fn end(alloc: Global, number: u16) -> Result<BotLink<MemDisk>, Error>
    requires { number ≤ 1 }
{
    match BotLink::create(alloc, MemDisk::new(alloc), MemDisk::new(alloc), number, 1) {
        Ok(end) => Ok(end),
        Err(returned) => Err(returned.error.into()),
    }
}
