// Steps that use a bot's disks.
ghost use Rattle.std.specs.Prelude.{◌<◌, ◌≤◌, IfOk, OnOk};
ghost use Rattle.disks.specs.State.{IsSettled};
ghost use Rattle.disks.specs.Memory.{state_of};

use crate::calls::see;
use crate::net::{Leaves, LinkPlace, Net, disks_of};
use crate::print::{put, put_code, put_counted, put_number};
use crate::words::{bytes_of, call_of, tear_of};
use bytejournal::{Disks, Returned};
use bytetext::{Failure, NoMemory};
use caselines::{BAD_WORDS, CaseError, cut};
use disks::{MemDisk, Tear};
use sharelink::BotLink;
use std::alloc::Global;
use std::mem;

/// Plays `plan B DISK CALL TEAR`, where B is `bot` and `rest` the other words.
pub fn plan(
    alloc: Global,
    net: &mut Net,
    bot: u16,
    rest: &[u8],
    out: &mut Vec<u8>,
) -> Result<(), CaseError> {
    let (disk, rest) = cut(rest, b' ');
    let (call, tear) = cut(rest, b' ');
    let (call, tear) = (call_of(call)?, tear_of(tear)?);
    let before = version_of(net, bot);
    let mut disks = taken(alloc, net, bot);
    fail(&mut disks, disk, call, tear)?;
    open(alloc, net, bot, disks, out)?;
    Ok(see(alloc, net, bot, before)?)
}

fn fail(disks: &mut Disks<MemDisk>, disk: &[u8], call: u64, tear: Tear) -> Result<(), CaseError>
    requires call { 0 < call }
    requires first { IsSettled (state_of disks.old.first) }
    requires second { IsSettled (state_of disks.old.second) }
    ensures first { OnOk result (IsSettled (state_of disks.new.first)) }
    ensures second { OnOk result (IsSettled (state_of disks.new.second)) }
{
    match disk {
        b"1" => disks.first.plan(call, tear),
        b"2" => disks.second.plan(call, tear),
        _ => return Err(BAD_WORDS),
    }
    Ok(())
}

/// Plays `planread B DISK`, where B is `bot` and DISK is `disk`.
pub fn plan_read(
    alloc: Global,
    net: &mut Net,
    bot: u16,
    disk: &[u8],
    out: &mut Vec<u8>,
) -> Result<(), CaseError> {
    let before = version_of(net, bot);
    let mut disks = taken(alloc, net, bot);
    misread(&mut disks, disk)?;
    open(alloc, net, bot, disks, out)?;
    Ok(see(alloc, net, bot, before)?)
}

// Opening a link reads each disk once, so the second read is a restart's.
fn misread(disks: &mut Disks<MemDisk>, disk: &[u8]) -> Result<(), CaseError>
    requires first { IsSettled (state_of disks.old.first) }
    requires second { IsSettled (state_of disks.old.second) }
    ensures first { OnOk result (IsSettled (state_of disks.new.first)) }
    ensures second { OnOk result (IsSettled (state_of disks.new.second)) }
{
    match disk {
        b"1" => disks.first.plan_read(2),
        b"2" => disks.second.plan_read(2),
        _ => return Err(BAD_WORDS),
    }
    Ok(())
}

/// Plays `hold B FIRST SECOND`, where B is `bot` and `rest` the other words.
pub fn hold(
    alloc: Global,
    net: &mut Net,
    bot: u16,
    rest: &[u8],
    out: &mut Vec<u8>,
) -> Result<(), CaseError> {
    let disks = held(alloc, rest)?;
    open(alloc, net, bot, disks, out)?;
    Ok(see(alloc, net, bot, 0)?)
}

/// Plays `stop B FIRST SECOND DISK CALL TEAR`, where B is `bot` and `rest` the other words.
pub fn stop(
    alloc: Global,
    net: &mut Net,
    bot: u16,
    rest: &[u8],
    out: &mut Vec<u8>,
) -> Result<(), CaseError> {
    let (first, rest) = cut(rest, b' ');
    let (second, rest) = cut(rest, b' ');
    let (disk, rest) = cut(rest, b' ');
    let (call, tear) = cut(rest, b' ');
    let (call, tear) = (call_of(call)?, tear_of(tear)?);
    let mut disks = disks_with(alloc, first, second)?;
    fail(&mut disks, disk, call, tear)?;
    open(alloc, net, bot, disks, out)?;
    Ok(see(alloc, net, bot, 0)?)
}

/// Plays `again B`, where B is `bot`.
pub fn again(alloc: Global, net: &mut Net, bot: u16, out: &mut Vec<u8>) -> Result<(), CaseError> {
    let before = version_of(net, bot);
    let disks = taken(alloc, net, bot);
    open(alloc, net, bot, disks, out)?;
    Ok(see(alloc, net, bot, before)?)
}

// Makes two disks that hold the bytes of the two words in `rest`.
fn held(alloc: Global, rest: &[u8]) -> Result<Disks<MemDisk>, CaseError>
    ensures first { IfOk result (λ disks. IsSettled (state_of disks.first)) }
    ensures second { IfOk result (λ disks. IsSettled (state_of disks.second)) }
{
    let (first, second) = cut(rest, b' ');
    disks_with(alloc, first, second)
}

fn disks_with(alloc: Global, first: &[u8], second: &[u8]) -> Result<Disks<MemDisk>, CaseError>
    ensures first { IfOk result (λ disks. IsSettled (state_of disks.first)) }
    ensures second { IfOk result (λ disks. IsSettled (state_of disks.second)) }
{
    let first = disk_of(alloc, first)?;
    let second = disk_of(alloc, second)?;
    Ok(Disks { first, second })
}

fn disk_of(alloc: Global, word: &[u8]) -> Result<MemDisk, CaseError>
    ensures { IfOk result (λ disk. IsSettled (state_of disk)) }
{
    let bytes = bytes_of(alloc, word)?;
    Ok(MemDisk::holding(alloc, bytes)?)
}

// Returns the version that `bot` shows, or 0 if it has no link.
fn version_of(net: &Net, bot: u16) -> u32 {
    match net.bots.get(usize::from(bot)) {
        Some(LinkPlace::Linked(link)) => link.version(),
        Some(LinkPlace::Apart(_)) | None => 0,
    }
}

// Takes the disks of `bot` as a crash leaves them, and leaves it empty ones. Returns empty ones if no such bot exists.
fn taken(alloc: Global, net: &mut Net, bot: u16) -> Disks<MemDisk>
    ensures first { IsSettled (state_of result.first) }
    ensures second { IsSettled (state_of result.second) }
{
    let empty = Disks {
        first: MemDisk::new(alloc),
        second: MemDisk::new(alloc),
    };
    match net.bots.get_mut(usize::from(bot)) {
        Some(place) => disks_of(mem::replace(place, LinkPlace::Apart(empty))),
        None => empty,
    }
}

// Opens the link of `bot` on `disks`.
fn open(
    alloc: Global,
    net: &mut Net,
    bot: u16,
    disks: Disks<MemDisk>,
    out: &mut Vec<u8>,
) -> Result<(), CaseError>
    requires first { IsSettled (state_of disks.first) }
    requires second { IsSettled (state_of disks.second) }
{
    if bot > net.leaves.count() {
        put(out, b"world O2\n")?;
        return Ok(());
    }
    let place = place_on(alloc, &net.leaves, bot, disks, out)?;
    put_place(net, bot, place);
    Ok(())
}

// Opens a bot of the net on `disks`, and returns what it has then.
fn place_on(
    alloc: Global,
    leaves: &Leaves,
    bot: u16,
    disks: Disks<MemDisk>,
    out: &mut Vec<u8>,
) -> Result<LinkPlace, NoMemory>
    requires first { IsSettled (state_of disks.first) }
    requires second { IsSettled (state_of disks.second) }
    requires numbered { bot ≤ leaves.now }
{
    let Disks { first, second } = disks;
    match BotLink::open(alloc, first, second, bot, leaves.count()) {
        Ok(link) => opened(bot, link, out),
        Err(returned) => not_opened(bot, returned, out),
    }
}

fn put_place(net: &mut Net, bot: u16, place: LinkPlace) {
    if let Some(slot) = net.bots.get_mut(usize::from(bot)) {
        *slot = place;
    }
}

fn opened(bot: u16, link: BotLink<MemDisk>, out: &mut Vec<u8>) -> Result<LinkPlace, NoMemory> {
    put_number(out, u64::from(bot))?;
    put_counted(out, b"Restarted", u64::from(link.version()))?;
    put(out, b"\n")?;
    Ok(LinkPlace::Linked(link))
}

fn not_opened(
    bot: u16,
    returned: Returned<MemDisk>,
    out: &mut Vec<u8>,
) -> Result<LinkPlace, NoMemory> {
    match returned.error {
        Failure::Refused(fault) => {
            put_code(out, bot, b"refused", fault.code())?;
            Ok(LinkPlace::Apart(returned.disks))
        }
        Failure::NoMemory => Err(NoMemory),
    }
}
