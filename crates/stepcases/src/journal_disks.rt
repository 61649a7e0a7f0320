// Steps that use two disks.
ghost use Rattle.std.specs.Prelude.{◌<◌, IfOk, OnOk};
ghost use Rattle.disks.specs.State.{IsSettled};
ghost use Rattle.disks.specs.Memory.{state_of};
ghost use Rattle.stepcases.specs.Place.{IsReady};

use crate::place::{Place, crashed};
use crate::words::{bytes_of, call_of, tear_of};
use bytejournal::Disks;
use bytetext::NoMemory;
use caselines::{BAD_WORDS, CaseError, cut};
use disks::{Disk as _, MemDisk, Tear};
use std::alloc::Global;

/// Plays `disks FIRST SECOND`, where `rest` has the words.
pub fn new_disks(alloc: Global, rest: &[u8]) -> Result<Place, CaseError>
    ensures { IfOk result IsReady }
{
    let (first, second) = cut(rest, b' ');
    let first = MemDisk::holding(alloc, bytes_of(alloc, first)?)?;
    let second = MemDisk::holding(alloc, bytes_of(alloc, second)?)?;
    Ok(Place::OnDisks(crashed(Disks { first, second })))
}

/// Plays `fail DISK CALL TEAR` on `disks`, where `rest` has the words.
pub fn fail(disks: Disks<MemDisk>, rest: &[u8]) -> Result<Place, CaseError>
    requires first { IsSettled (state_of disks.first) }
    requires second { IsSettled (state_of disks.second) }
    ensures { IfOk result IsReady }
{
    let (disk, rest) = cut(rest, b' ');
    let (call, tear) = cut(rest, b' ');
    let mut disks = disks;
    plan(&mut disks, disk, call_of(call)?, tear_of(tear)?)?;
    Ok(Place::OnDisks(disks))
}

fn plan(disks: &mut Disks<MemDisk>, disk: &[u8], call: u64, tear: Tear) -> Result<(), CaseError>
    requires call { 0 < call }
    requires first { IsSettled (state_of disks.old.first) }
    requires second { IsSettled (state_of disks.old.second) }
    ensures first { OnOk result (IsSettled (state_of disks.new.first)) }
    ensures second { OnOk result (IsSettled (state_of disks.new.second)) }
{
    match disk {
        b"first" => disks.first.plan(call, tear),
        b"second" => disks.second.plan(call, tear),
        _ => return Err(BAD_WORDS),
    }
    Ok(())
}

/// Plays `misread DISK CALL` on `disks`, where `rest` has the words.
pub fn misread(disks: Disks<MemDisk>, rest: &[u8]) -> Result<Place, CaseError>
    requires first { IsSettled (state_of disks.first) }
    requires second { IsSettled (state_of disks.second) }
    ensures { IfOk result IsReady }
{
    let (disk, call) = cut(rest, b' ');
    let call = call_of(call)?;
    let mut disks = disks;
    match disk {
        b"first" => disks.first.plan_read(call),
        b"second" => disks.second.plan_read(call),
        _ => return Err(BAD_WORDS),
    }
    Ok(Place::OnDisks(disks))
}

/// Plays `bytes`, which prints what `disks` hold. A crash ends the step, so that nothing of it is left.
pub fn bytes(alloc: Global, disks: Disks<MemDisk>, out: &mut Vec<u8>) -> Result<Place, CaseError>
    ensures { IfOk result IsReady }
{
    let mut disks = disks;
    put_bytes(alloc, &mut disks.first, out)?;
    out.push(b' ')?;
    put_bytes(alloc, &mut disks.second, out)?;
    out.push(b'\n')?;
    Ok(Place::OnDisks(crashed(disks)))
}

fn put_bytes(alloc: Global, disk: &mut MemDisk, out: &mut Vec<u8>) -> Result<(), NoMemory> {
    let mut bytes = vec![in alloc; 0; disk.len()]?;
    match disk.read(0, &mut bytes) {
        Ok(_) => put_hex(alloc, &bytes, out),
        Err(_) => Ok(out.extend_from_slice(b"J1")?),
    }
}

/// Appends `bytes` in hexadecimal, or `-` for none.
pub fn put_hex(alloc: Global, bytes: &[u8], out: &mut Vec<u8>) -> Result<(), NoMemory> {
    if bytes.is_empty() {
        out.push(b'-')?;
        return Ok(());
    }
    let digits = hex::encode(alloc, bytes)?;
    out.extend_from_slice(digits.as_bytes())?;
    Ok(())
}
