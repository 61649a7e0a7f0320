// Bots that are opened again on their disks: `botcore`.
ghost use Rattle.std.specs.Prelude.{IfOk};
ghost use Rattle.botcore.specs.Steps.{IsGoodEvent};

use crate::nets::no_procs;
use botcore::{Bot, BotEvent, Config, UnopenedBot};
use bottimers::Zone;
use bytejournal::Disks;
use bytetext::{Failure, NoMemory, Text, Texts};
use disks::{Disk as _, MemDisk};
use std::alloc::Global;
use userfile::{Change, Edit};

// Returns the configuration of the bot of this `number`, in a net of one leaf.
fn config(alloc: Global, number: u16) -> Result<Config, NoMemory> {
    Ok(Config {
        number,
        leaves: 1,
        nick: Text::from_slice(alloc, b"egg")?,
        channels: Texts::empty(alloc),
        exclusive: false,
        sends_at_once: false,
        leaves_bans: false,
        zone: Zone::fixed(0).unwrap(),
    })
}

// Makes the event that asks for alice.
fn ask_alice(alloc: Global) -> Result<BotEvent, NoMemory>
    ensures { IfOk result IsGoodEvent }
{
    let handle = Text::from_slice(alloc, b"alice")?;
    Ok(BotEvent::Ask(Change::by_nobody(Edit::AddUser { handle })))
}

// Has a hub accept alice.
fn add_alice(alloc: Global, hub: &mut Bot<MemDisk>) {
    let store = no_procs(alloc);
    if let Ok(event) = ask_alice(alloc) {
        let _queued = hub.step(alloc, &store, event);
        let _accepted = hub.step(alloc, &store, BotEvent::Pump);
    }
}

// Creates a new hub.
fn new_hub(alloc: Global) -> Option<Bot<MemDisk>> {
    match config(alloc, 0) {
        Ok(config) => { Bot::create(alloc, config, MemDisk::new(alloc), MemDisk::new(alloc)).ok() }
        Err(NoMemory) => None,
    }
}

// Returns the disks of a hub that has accepted alice.
fn disks_of_a_hub(alloc: Global) -> Option<Disks<MemDisk>> {
    match new_hub(alloc) {
        Some(mut hub) => {
            add_alice(alloc, &mut hub);
            Some(hub.into_disks())
        }
        None => None,
    }
}

// Opens the bot of this `config` on `disks` after a crash.
fn opened(
    alloc: Global,
    config: Config,
    disks: Disks<MemDisk>,
) -> Result<Bot<MemDisk>, UnopenedBot<MemDisk>> {
    let Disks {
        mut first,
        mut second,
    } = disks;
    first.reopen();
    second.reopen();
    Bot::open(alloc, config, first, second)
}

// Returns the disks that are handed back, if the reason is that they hold no journal of that bot.
fn handed_back(returned: UnopenedBot<MemDisk>) -> Option<Disks<MemDisk>> {
    let is_none = match returned.error {
        Failure::Refused(fault) => fault.code() == "J2",
        Failure::NoMemory => false,
    };
    is_none.then(|| returned.disks)
}

// Opens the bot of this `number` on `disks`. Returns the disks if they hold no journal of that bot.
fn refused(alloc: Global, number: u16, disks: Disks<MemDisk>) -> Option<Disks<MemDisk>> {
    let Ok(config) = config(alloc, number) else {
        return None;
    };
    match opened(alloc, config, disks) {
        Ok(_) => None,
        Err(returned) => handed_back(returned),
    }
}

// Returns the version of the hub on `disks`, and how many users it has.
fn found(alloc: Global, disks: Disks<MemDisk>) -> Option<(u32, usize)> {
    let Ok(config) = config(alloc, 0) else {
        return None;
    };
    match opened(alloc, config, disks) {
        Ok(hub) => Some((hub.version(), hub.userfile().user_count())),
        Err(_) => None,
    }
}

// Returns what a hub finds on its disks after a leaf was refused them.
fn found_after_a_leaf(alloc: Global) -> Option<(u32, usize)> {
    let disks = disks_of_a_hub(alloc)?;
    let returned = refused(alloc, 1, disks)?;
    found(alloc, returned)
}

#[test]
fn a_hubs_journal_is_no_leafs(rt: HostRuntime) {
    assert!(rt; found_after_a_leaf(rt.alloc()) == Some((1, 1)));
}

#[test]
fn empty_disks_hold_no_journal(rt: HostRuntime) {
    let alloc = rt.alloc();
    let disks = Disks {
        first: MemDisk::new(alloc),
        second: MemDisk::new(alloc),
    };
    assert!(rt; refused(alloc, 0, disks).is_some());
}
