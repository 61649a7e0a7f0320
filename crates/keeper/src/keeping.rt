// A hub in two files.
ghost use Rattle.disks.specs.Memory.{state_of};
ghost use Rattle.disks.specs.State.{IsSettled};
ghost use Rattle.botcore.specs.Steps.{IsGoodEvent};

use crate::stop::Stop;
use crate::words::Asked;
use botcore::{Bot, BotEvent, Config, End};
use bottimers::Zone;
use bytejournal::was_never_made;
use bytetext::{NoMemory, Text, Texts};
use disks::{FileDisk, Pair};
use procs::{Nobodies, ProcStore};
use std::alloc::Global;
use std::fs::File;
use std::rt::Files;
use userfile::{Change, Edit, Userfile};

/// The number of changes after which the hub rewrites its journal.
const A_BASE: u32 = 50;

/// Has the hub in the files accept `asked.count` changes, and prints the number of each.
pub fn keep<R: AllocGlobal + Files<File = File> + Print>(
    rt: &R,
    asked: &Asked,
) -> Result<(), Stop> {
    let first = asked.first.as_str();
    let second = asked.second.as_str();
    let mut hub = if asked.is_old {
        old_hub(rt.alloc(), Pair::open(rt, first, second)?)?
    } else {
        hub_on(rt.alloc(), Pair::make(rt, first, second)?)?
    };
    let store: Nobodies = ProcStore::new(rt.alloc());
    println!(rt; "held {}", hub.version())?;
    for _ in 0..asked.count {
        accept_one(rt.alloc(), &mut hub, &store)?;
        println!(rt; "{}", hub.version())?;
    }
    Ok(())
}

// Opens the hub whose journal these disks hold, or makes it if no hub was ever made there. No change of such a hub was
// ever printed.
fn hub_on(alloc: Global, disks: Pair) -> Result<Bot<FileDisk>, Stop>
    requires first_settled { IsSettled (state_of disks.first.mirror) }
    requires second_settled { IsSettled (state_of disks.second.mirror) }
{
    let mut disks = disks;
    if was_never_made(&mut disks.first, &mut disks.second)? {
        return new_hub(alloc, disks);
    }
    old_hub(alloc, disks)
}

// Makes a new hub, whose journal these disks hold from now on.
fn new_hub(alloc: Global, disks: Pair) -> Result<Bot<FileDisk>, Stop>
    requires first_settled { IsSettled (state_of disks.first.mirror) }
    requires second_settled { IsSettled (state_of disks.second.mirror) }
{
    match Bot::create(alloc, lone_hub(alloc)?, disks.first, disks.second) {
        Ok(hub) => Ok(hub),
        Err(returned) => Err(Stop::from(returned.error)),
    }
}

// Opens the hub whose journal these disks hold.
fn old_hub(alloc: Global, disks: Pair) -> Result<Bot<FileDisk>, Stop>
    requires first_settled { IsSettled (state_of disks.first.mirror) }
    requires second_settled { IsSettled (state_of disks.second.mirror) }
{
    match Bot::open(alloc, lone_hub(alloc)?, disks.first, disks.second) {
        Ok(hub) => Ok(hub),
        Err(returned) => Err(Stop::from(returned.error)),
    }
}

// Returns the configuration of a hub without leaves.
fn lone_hub(alloc: Global) -> Result<Config, NoMemory> {
    Ok(Config {
        number: 0,
        leaves: 0,
        nick: Text::from_slice(alloc, b"keeper")?,
        channels: Texts::empty(alloc),
        exclusive: false,
        sends_at_once: false,
        leaves_bans: false,
        zone: Zone::fixed(0).unwrap(),
    })
}

// Has the hub accept the next change.
fn accept_one(alloc: Global, hub: &mut Bot<FileDisk>, store: &Nobodies) -> Result<(), Stop> {
    let before = hub.version();
    let change = next_change(alloc, hub.userfile())?;
    tell(alloc, hub, store, BotEvent::Ask(change))?;
    tell(alloc, hub, store, BotEvent::Pump)?;
    if hub.version() == before {
        return Err(Stop::OtherUsers);
    }
    if hub.version() % A_BASE == 0 {
        tell(alloc, hub, store, BotEvent::Compact)?;
    }
    Ok(())
}

// Returns the change that adds the user, or that removes it if it exists.
fn next_change(alloc: Global, userfile: &Userfile) -> Result<Change, NoMemory> {
    let handle = Text::from_slice(alloc, b"egg")?;
    if userfile.user_count() == 0 {
        Ok(Change::by_nobody(Edit::AddUser { handle }))
    } else {
        Ok(Change::by_nobody(Edit::DelUser { handle }))
    }
}

// Makes one step of the hub.
fn tell(
    alloc: Global,
    hub: &mut Bot<FileDisk>,
    store: &Nobodies,
    event: BotEvent,
) -> Result<(), Stop>
    requires { IsGoodEvent event }
{
    match hub.step(alloc, store, event).end {
        End::Done => Ok(()),
        End::Refused(refusal) => Err(Stop::Step(refusal)),
        End::NoMemory => Err(Stop::NoMemory),
    }
}
