// One turn of all bots.
ghost use Rattle.std.specs.Prelude.{IfSome};
ghost use Rattle.std.specs.List.{AllByRecursion};
ghost use Rattle.sharelink.specs.Shapes.{HasGoodRecords};
ghost use Rattle.botcore.specs.Steps.{IsGoodEvent};
ghost use Rattle.turns.specs.Turns.{AllGood};
ghost use Rattle.live.specs.BotTurns.{TakesTurn};

use crate::bot_sockets::BotSockets;
use crate::error::LiveError;
use crate::moment::Moment;
use crate::network::Network;
use botcore::{Bot, BotEvent, End};
use bytetext::NoMemory;
use procs::{ProcStore, Promise, Run};
use replay::SteadyDisk;
use sharewire::Packet;
use std::alloc::Global;
use std::net::Net;
use turns::{Told, TurnEnd, take_turn};
use watching::{NoWatcher, Watcher};

/// Makes `most` turns of `net`, whose binds call the procs of `store`, or fewer if a version is `wanted` and each bot
/// is at it or above. After a turn that moved nothing it waits for what is on its way, or counts the turns in which
/// nothing would move as made ([`Network::rest`]).
///
/// # Errors
/// `Socket` if it can't make a new connection for a lost one or can't wait for sockets, and `NoMemory` if memory cannot
/// be allocated.
pub fn make_turns<R: Net + AllocGlobal, P: Promise, B: Run>(
    rt: &R,
    net: &mut Network,
    store: &ProcStore<P, B>,
    most: u32,
    wanted: Option<u32>,
) -> Result<(), LiveError> {
    let mut left = most;
    for _turn in 0..most {
        if left == 0 || net.is_at(wanted) {
            return Ok(());
        }
        left -= 1;
        if !turn(rt, net, store)? && !net.is_at(wanted) {
            left -= net.rest(left)?;
        }
    }
    Ok(())
}

// Makes a turn: accepts new connections, reads every socket, steps, and writes. Returns whether anything moved.
fn turn<R: Net + AllocGlobal, P: Promise, B: Run>(
    rt: &R,
    net: &mut Network,
    store: &ProcStore<P, B>,
) -> Result<bool, LiveError> {
    let mended = net.mend(rt)?;
    let came = net.let_in(rt.alloc())?;
    let heard = net.read()?;
    net.house.step(rt.alloc())?;
    step_all(rt.alloc(), net, store)?;
    let sent = net.send(rt.alloc())?;
    Ok(mended || came || heard || sent)
}

// Makes each bot take its turn.
fn step_all<P: Promise, B: Run>(
    alloc: Global,
    net: &mut Network,
    store: &ProcStore<P, B>,
) -> Result<(), NoMemory> {
    let pump = net.count_pump();
    for place in 0..net.seats.len() {
        step(alloc, net, store, place, pump)?;
    }
    Ok(())
}

// Makes the bot at a place take its turn, and queues what it sends.
fn step<P: Promise, B: Run>(
    alloc: Global,
    net: &mut Network,
    store: &ProcStore<P, B>,
    place: usize,
    pump: bool,
) -> Result<(), NoMemory> {
    let packets = net.take_packets(alloc, place)?;
    let Some(told) = told_at(alloc, net, store, place, packets, pump) else {
        return Ok(());
    };
    net.pass_all(alloc, place, told.reports.as_slice())?;
    match told.end {
        TurnEnd::Done => Ok(()),
        TurnEnd::NoMemory => Err(NoMemory),
    }
}

// What the turn of the bot at a place reports; `None` if no bot is at the place.
fn told_at<P: Promise, B: Run>(
    alloc: Global,
    net: &mut Network,
    store: &ProcStore<P, B>,
    place: usize,
    packets: Vec<Packet>,
    pump: bool,
) -> Option<Told>
    requires good { AllByRecursion HasGoodRecords packets.items }
    ensures good { IfSome result (λ told. AllGood told.reports) }
{
    let seat = net.seats.get_mut(place)?;
    let bot = net.bots.get_mut(place)?;
    Some(bot_turn(alloc, bot, store, seat, packets, &net.now, pump))
}

// The turn of the bot with these sockets. Returns what it reports.
fn bot_turn<P: Promise, B: Run>(
    alloc: Global,
    bot: &mut Bot<SteadyDisk>,
    store: &ProcStore<P, B>,
    seat: &mut BotSockets,
    packets: Vec<Packet>,
    now: &Moment,
    pump: bool,
) -> Told
    requires good { AllByRecursion HasGoodRecords packets.items }
    ensures turn { TakesTurn P.promised store.now bot.old seat.old.lines seat.old.is_new packets.items now.now pump
        result bot.new seat.new.lines }
    ensures good { AllGood result.reports }
{
    let heard = seat.take_heard(alloc, packets, now, pump);
    let mut watcher = NoWatcher::new();
    watcher.began(bot);
    watcher.note_heard(&heard.packets);
    take_turn(alloc, bot, store, &mut seat.lines, heard, &mut watcher)
}

/// Makes the bot at `place` in `net` take one step for `event`, whose binds call the procs of `store`, and queues what
/// it sends. Does nothing if no bot is at `place`.
///
/// # Errors
/// `NoMemory` if memory cannot be allocated.
pub fn tell<P: Promise, B: Run>(
    alloc: Global,
    net: &mut Network,
    store: &ProcStore<P, B>,
    place: usize,
    event: BotEvent,
) -> Result<(), NoMemory>
    requires good { IsGoodEvent event }
{
    let report = match net.bots.get_mut(place) {
        Some(bot) => bot.step(alloc, store, event),
        None => return Ok(()),
    };
    net.pass(alloc, place, &report)?;
    match report.end {
        End::Done | End::Refused(_) => Ok(()),
        End::NoMemory => Err(NoMemory),
    }
}
