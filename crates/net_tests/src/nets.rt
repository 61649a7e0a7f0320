// Bots for tests.
ghost use Rattle.std.specs.Prelude.{◌≡◌, IfOk};
ghost use Rattle.botcore.specs.Bots.{new_bot};
ghost use Rattle.botworld.specs.Network.{AllNew};

use botcore::{Bot, Config};
use bottimers::Zone;
use bytetext::{NoMemory, Text, Texts};
use disks::MemDisk;
use procs::{Nobodies, ProcStore};
use std::alloc::Global;

/// Creates the bot of this `number`, in a net of `leaves` leaves. Its nick is egg.
pub fn new_bot(alloc: Global, number: u16, leaves: u16) -> Result<Bot<MemDisk>, NoMemory>
    ensures { IfOk result (λ bot. bot ≡ new_bot bot.config bot.link.device) }
{
    let config = Config {
        number,
        leaves,
        nick: Text::from_slice(alloc, b"egg")?,
        channels: Texts::empty(alloc),
        exclusive: false,
        sends_at_once: false,
        leaves_bans: false,
        zone: Zone::fixed(0).unwrap(),
    };
    match Bot::create(alloc, config, MemDisk::new(alloc), MemDisk::new(alloc)) {
        Ok(bot) => Ok(bot),
        Err(_) => Err(NoMemory),
    }
}

/// Creates `count` bots, numbered from 0, each in a net of `leaves` leaves.
pub fn new_bots(alloc: Global, count: u16, leaves: u16) -> Result<Vec<Bot<MemDisk>>, NoMemory>
    ensures { IfOk result (λ bots. AllNew bots.items) }
{
    let mut bots = Vec::new(alloc);
    for number in 0..count {
        bots.push(new_bot(alloc, number, leaves)?)?;
    }
    Ok(bots)
}

/// Creates a store of no procs.
pub fn no_procs(alloc: Global) -> Nobodies {
    ProcStore::new(alloc)
}
