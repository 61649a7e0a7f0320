// What the calls on timers do to the list of entries.
ghost use Rattle.std.specs.Prelude.{◌≡◌, ◌<◌, ◌≤◌, ◌==◌, not, ◌||◌, nat_lt, IsOk, IfOk, OnOk, [], ◌++◌};
ghost use Rattle.std.specs.Prelude.{ℕ, length, map, filter, All, vec_capacity, vec_len};
ghost use Rattle.std.specs.List.{list_any, position};
ghost use Rattle.bottimers.specs.Occurrences.{is_due, is_kept};
ghost use Rattle.bottimers.specs.Countdown.{IsRunning, counted, due_calls};
ghost use Rattle.bottimers.specs.Held.{is_named, status_of};

use crate::call::TimerCall;
use crate::entry::Entry;
use crate::status::TimerStatus;
use crate::timer::TimerKind;
use bytetext::{NoMemory, TryCopy};
use std::alloc::Global;

// Counts the timers that have an occurrence after the second `to`.
pub(crate) fn count_kept(entries: &[Entry], from: u64, to: u64) -> usize
    requires { All (λ e. IsRunning from e × (from ≤ to)) entries.now }
    ensures { result ≡ length (filter (λ e. is_kept to e.timer) entries.now) }
{
    let mut count = 0;
    for entry in entries {
        if entry.is_kept(from, to) {
            count += 1;
        }
    }
    count
}

// Returns the calls of the timers with an occurrence at the second `to`, utimers first.
pub(crate) fn due_of(
    alloc: Global,
    entries: &[Entry],
    from: u64,
    to: u64,
) -> Result<Vec<TimerCall>, NoMemory>
    requires { All (λ e. IsRunning from e × (from < to)) entries.now }
    ensures calls { IfOk result (λ calls. calls.items
        ≡ due_calls TimerKind.Seconds to entries.now ++ due_calls TimerKind.Minutes to entries.now) }
    ensures needs_none { due_calls TimerKind.Seconds to entries.now ≡ [] → due_calls TimerKind.Minutes to entries.now ≡ [] → IsOk result }
{
    let mut calls = Vec::new(alloc);
    push_due(alloc, &mut calls, entries, TimerKind::Seconds, from, to)?;
    push_due(alloc, &mut calls, entries, TimerKind::Minutes, from, to)?;
    Ok(calls)
}

// Whether a timer has an occurrence at the second `to`.
pub(crate) fn is_any_due(entries: &[Entry], from: u64, to: u64) -> bool
    requires { All (λ e. IsRunning from e × (from < to)) entries.now }
    ensures { result ≡ list_any (λ e. is_due to e.timer) entries.now }
{
    for entry in entries {
        if entry.is_due(from, to) {
            return true;
        }
    }
    false
}

// Appends the calls of the timers of one kind that have an occurrence at the second `to`.
fn push_due(
    alloc: Global,
    calls: &mut Vec<TimerCall>,
    entries: &[Entry],
    kind: TimerKind,
    from: u64,
    to: u64,
) -> Result<(), NoMemory>
    requires { All (λ e. IsRunning from e × (from < to)) entries.now }
    ensures calls { OnOk result (calls.new.items ≡ calls.old.items ++ due_calls kind to entries.now) }
    ensures needs_none { due_calls kind to entries.now ≡ [] → IsOk result }
{
    for entry in entries {
        if entry.is_due_of(kind, from, to) {
            calls.push(entry.timer.call(alloc)?)?;
        }
    }
    Ok(())
}

// Lets the time from `from` to `to` pass.
pub(crate) fn pass(entries: &mut Vec<Entry>, from: u64, to: u64)
    requires { All (λ e. IsRunning from e × (from ≤ to)) entries.old.items }
    ensures items { entries.new.items
        ≡ map (counted to) (filter (λ e. is_kept to e.timer) entries.old.items) }
    ensures room { vec_capacity entries.new ≡ vec_capacity entries.old }
    ensures fewer { vec_len entries.new ≤ vec_len entries.old }
{
    count_down(entries.as_mut_slice(), from, to);
    drop_ended(entries);
}

// Counts each timer down.
fn count_down(entries: &mut [Entry], from: u64, to: u64)
    requires { All (λ e. IsRunning from e × (from ≤ to)) entries.old }
    ensures { entries.new ≡ map (counted to) entries.old }
{
    for entry in entries.iter_mut() {
        entry.count_down(from, to);
    }
}

// Drops the timers that have counted down to their last occurrence.
fn drop_ended(entries: &mut Vec<Entry>)
    ensures items { entries.new.items ≡ filter (λ e. e.timer.count == 0 || nat_lt 0 e.repeats) entries.old.items }
    ensures room { vec_capacity entries.new ≡ vec_capacity entries.old }
    ensures fewer { vec_len entries.new ≤ vec_len entries.old }
{
    entries.retain(|entry| entry.timer.count == 0 || entry.repeats > 0);
}

// Whether a timer has this id.
pub(crate) fn has_id(entries: &[Entry], id: u32) -> bool
    ensures { result ≡ list_any (λ e. e.timer.id == id) entries.now }
{
    entries.iter().any(|entry| entry.timer.id == id)
}

// Drops the timer with this id.
pub(crate) fn remove_id(entries: &mut Vec<Entry>, id: u32)
    ensures items { entries.new.items ≡ filter (λ e. not (e.timer.id == id)) entries.old.items }
    ensures room { vec_capacity entries.new ≡ vec_capacity entries.old }
    ensures fewer { vec_len entries.new ≤ vec_len entries.old }
{
    entries.retain(|entry| entry.timer.id != id);
}

// Returns the place of the first timer that calls `proc` with `text`.
pub(crate) fn place_named(entries: &[Entry], proc: &[u8], text: &[u8]) -> Option<usize>
    ensures { result ≡ position (λ e. is_named proc.now text.now e.timer) entries.now }
{
    entries
        .iter()
        .position(|entry| entry.timer.is_named(proc, text))
}

// Returns the status of each timer at a second.
pub(crate) fn statuses_of(
    alloc: Global,
    entries: &[Entry],
    at: u64,
) -> Result<Vec<TimerStatus>, NoMemory>
    requires { All (IsRunning at) entries.now }
    ensures list { IfOk result (λ list. list.items ≡ map (λ e. status_of at e.timer) entries.now) }
    ensures needs_none { entries.now ≡ [] → IsOk result }
{
    let mut list = Vec::with_capacity(alloc, entries.len())?;
    for entry in entries {
        list.push(status(alloc, entry)?)?;
    }
    Ok(list)
}

// Returns the status of one timer at the second to which it has counted down.
fn status(alloc: Global, entry: &Entry) -> Result<TimerStatus, NoMemory>
    ensures { (at : ℕ) → IsRunning at entry.now → IfOk result (λ status. status ≡ status_of at entry.now.timer) }
{
    Ok(TimerStatus {
        kind: entry.timer.kind,
        left: entry.left,
        proc: entry.timer.proc.copy(alloc)?,
        text: entry.timer.text.copy(alloc)?,
        id: entry.timer.id,
        repeats: entry.repeats,
    })
}
