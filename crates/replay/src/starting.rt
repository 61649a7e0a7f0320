// The bots of a script before its first step.
ghost use Rattle.std.specs.Prelude.{◌≡◌, ◌+◌, ◌≤◌, IfOk};
ghost use Rattle.sharelink.specs.declared.TheConstants.{MAX_LEAVES};
ghost use Rattle.botcore.specs.Bots.{new_bot};
ghost use Rattle.botworld.specs.Network.{State};
ghost use Rattle.botworld.specs.Standing.{Stands, beginning};
ghost use Rattle.replay.specs.Starting.{config_of, zone_or_utc, AreNew, IsFirst};

use crate::steady_disk::SteadyDisk;
use botcore::{Bot, Config};
use bottimers::Zone;
use botworld::World;
use bytetext::{Failure, NoMemory, Text, Texts, TryCopy};
use procs::{ProcStore, Promise, Run};
use recordtext::put_number;
use std::alloc::Global;

/// Returns the `zone` that a script gives, or UTC if it gives none. Never allocates.
pub fn zone_or_utc(zone: Option<Zone>) -> Zone
    ensures { result ≡ zone_or_utc zone }
{
    match zone {
        Some(zone) => zone,
        None => Zone::fixed(0).unwrap(),
    }
}

/// Creates the world of a script: a hub and `leaves` leaves, at most `MAX_LEAVES`, with the procs of `store` and clocks
/// of `zone`.
pub fn new_world<P: Promise, B: Run>(
    alloc: Global,
    store: ProcStore<P, B>,
    leaves: u16,
    zone: &Zone,
) -> Result<World<P, SteadyDisk, B>, NoMemory>
    requires { leaves ≤ MAX_LEAVES }
    ensures { IfOk result (λ w. (first : State) × IsFirst leaves zone.now store first × Stands P.promised w (beginning first)) }
{
    match World::new(alloc, new_bots(alloc, leaves, zone)?, store) {
        Ok(world) => Ok(world),
        // The bots are numbered in order, and each expects as many leaves as the world has.
        Err(_) => unreachable!(),
    }
}

/// Creates the hub and `leaves` leaves, at most `MAX_LEAVES`, as they are before their first step. Each has its journal
/// on two disks in memory that never fail. Its nick is `egg` and its number, its one channel is `#egg`, and its clock
/// has `zone`.
///
/// # Errors
/// `NoMemory` if memory cannot be allocated.
pub fn new_bots(alloc: Global, leaves: u16, zone: &Zone) -> Result<Vec<Bot<SteadyDisk>>, NoMemory>
    requires { leaves ≤ MAX_LEAVES }
    ensures { IfOk result (λ bots. AreNew leaves zone.now (leaves + 1) bots.items) }
{
    let mut bots = Vec::with_capacity(alloc, leaves as usize + 1)?;
    for number in 0..leaves + 1 {
        bots.push(bot(alloc, leaves, zone, number)?)?;
    }
    Ok(bots)
}

// The bot of this number.
fn bot(alloc: Global, leaves: u16, zone: &Zone, number: u16) -> Result<Bot<SteadyDisk>, NoMemory>
    requires few { leaves ≤ MAX_LEAVES }
    requires numbered { number ≤ leaves }
    ensures { IfOk result (λ bot. bot ≡ new_bot (config_of leaves zone.now number) bot.link.device) }
{
    let config = config(alloc, leaves, zone, number)?;
    match Bot::create(
        alloc,
        config,
        SteadyDisk::new(alloc),
        SteadyDisk::new(alloc),
    ) {
        Ok(bot) => Ok(bot),
        Err(returned) => match returned.error {
            // Nick and channel are good, the number is one of the botnet, and a steady disk never fails.
            Failure::Refused(_) => unreachable!(),
            Failure::NoMemory => Err(NoMemory),
        },
    }
}

// The configuration of the bot of this number.
fn config(alloc: Global, leaves: u16, zone: &Zone, number: u16) -> Result<Config, NoMemory>
    ensures { IfOk result (λ config. config ≡ config_of leaves zone.now number) }
{
    let mut nick = Vec::from_slice(alloc, b"egg")?;
    put_number(&mut nick, u64::from(number))?;
    let mut channels = Texts::empty(alloc);
    channels.push(Text::from_slice(alloc, b"#egg")?)?;
    Ok(Config {
        number,
        leaves,
        nick: Text::new(nick),
        channels,
        exclusive: false,
        sends_at_once: false,
        leaves_bans: false,
        zone: zone.copy(alloc)?,
    })
}
