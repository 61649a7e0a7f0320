// The lines of one queue, with room for more.
ghost use Rattle.std.specs.Prelude.{◌≡◌, ◌<◌, ◌≤◌, length, [], take, drop, true, false, IsOk, IfOk, OnOk, OnErr, IfSome, IfNone, OnSome};
ghost use Rattle.std.specs.List.{list_any, count_by};
ghost use Rattle.outqueue.specs.Lanes.{Filled, with_last, first_of};
ghost use Rattle.outqueue.specs.Shares.{stands_in, is_for};
ghost use Rattle.outqueue.specs.Joining.{group, ungrouped, line_of, along, left, channel_of, room_after};
ghost use Rattle.outqueue.specs.Joining.{next_about, others, place_about, goes_along};

use crate::joining::joined;
use crate::limits::MAX_LINES;
use crate::mode_line::{added_by, channel_of, goes_along, is_about, is_one_mode, room_after};
use crate::target::is_for;
use bytetext::{NoMemory, Text, TryCopy};
use std::alloc::Global;
use std::collections::VecDeque;
use std::marker::Model;

// At most 500 lines, from the one that goes first, and how many more can be put without an allocation.
#[derive(Drop)]
pub(crate) struct Lane {
    queue: VecDeque<Text>,
    room: usize,
}

impl Model for Lane {
    ghost use Rattle.outqueue.specs.Lanes.{Filled};

    ghost Value = { Filled };

    ghost use Rattle.outqueue.specs.Rooms.{filled, HasRoom};

    ghost view = { filled };

    ghost invariant = { HasRoom };
}

impl Lane {
    // Creates a queue with no line and no room.
    pub(crate) fn new(alloc: Global) -> Lane
        ensures { result ≡ record { lines = []; room = 0 } }
    {
        Lane {
            queue: VecDeque::new(alloc),
            room: 0,
        }
    }

    // Returns how many lines wait.
    pub(crate) fn len(&self) -> usize
        ensures lines { result ≡ length self.now.lines }
        ensures few { result ≤ MAX_LINES }
    {
        self.queue.len()
    }

    // Returns whether such a line waits.
    pub(crate) fn has(&self, line: &[u8]) -> bool
        ensures { result ≡ stands_in self.now.lines line.now }
    {
        has_line(&self.queue, line)
    }

    // Returns how many lines wait for `target`.
    pub(crate) fn count_for(&self, target: &[u8]) -> usize
        ensures count { result ≡ count_by (is_for target.now) self.now.lines }
        ensures few { result ≤ MAX_LINES }
    {
        count_for(&self.queue, target)
    }

    // Makes room for exactly `count` more lines.
    pub(crate) fn reserve(&mut self, count: usize) -> Result<(), NoMemory>
        ensures ready { OnOk result (self.new ≡ record self.old { room = count }) }
        ensures unchanged { OnErr result (self.new ≡ self.old) }
        ensures needs_none { count ≤ self.old.room → IsOk result }
    {
        self.queue.reserve(count)?;
        self.room = count;
        Ok(())
    }

    // Puts `line` last.
    pub(crate) fn put(&mut self, line: Text) -> Result<(), NoMemory>
        requires { length self.old.lines < MAX_LINES }
        ensures put { OnOk result (self.new ≡ with_last self.old line) }
        ensures unchanged { OnErr result (self.new ≡ self.old) }
        ensures needs_none { 0 < self.old.room → IsOk result }
    {
        self.reserve(self.room.max(1))?;
        self.put_reserved(line);
        Ok(())
    }

    // Puts `line` last, in the room reserved for it.
    pub(crate) fn put_reserved(&mut self, line: Text)
        requires few { length self.old.lines < MAX_LINES }
        requires room { 0 < self.old.room }
        ensures { self.new ≡ with_last self.old line }
    {
        self.queue.push_back_reserved(line);
        self.room -= 1;
    }

    // Removes the first line and returns it.
    pub(crate) fn pop(&mut self) -> Option<Text>
        ensures line { result ≡ first_of self.old.lines }
        ensures rest { self.new ≡ record self.old { lines = drop 1 self.old.lines } }
    {
        self.queue.pop_front()
    }

    // Removes the first line and the modes that go along with it, at most `most` in all, and returns the line that they
    // make. Out of memory, some of them may be lost.
    pub(crate) fn pop_joined(
        &mut self,
        alloc: Global,
        most: usize,
    ) -> Result<Option<Text>, NoMemory>
        ensures line { IfOk result (λ line. line ≡ line_of (group most self.old.lines)) }
        ensures rest { OnOk result (self.new ≡ record self.old { lines = ungrouped most self.old.lines }) }
    {
        let Some(first) = self.queue.pop_front() else {
            return Ok(None);
        };
        if !is_one_mode(first.as_bytes()) {
            return Ok(Some(first));
        }
        let along = self.take_along(alloc, most.saturating_sub(1), first.as_bytes())?;
        Ok(Some(joined(alloc, first, along.as_slice())?))
    }

    // Removes and returns the lines that go along with `first`, at most `most`. Out of memory, some of them may be lost.
    fn take_along(
        &mut self,
        alloc: Global,
        most: usize,
        first: &[u8],
    ) -> Result<Vec<Text>, NoMemory>
        ensures lines { IfOk result
            (λ lines. lines.items ≡ along most (channel_of first.now) (room_after first.now) self.old.lines) }
        ensures rest { OnOk result (self.new ≡
            record self.old { lines = left most (channel_of first.now) (room_after first.now) self.old.lines }) }
    {
        let channel = channel_of(first);
        let mut room = room_after(first);
        let mut lines = Vec::new(alloc);
        for _turn in 0..most {
            if let Some(line) = self.take_next(channel, room) {
                room -= added_by(line.as_bytes());
                lines.push(line)?;
            }
        }
        Ok(lines)
    }

    // Removes and returns the first line about `channel`, if it goes along with modes that leave so much room.
    #[tactic(auto, using(crate::proofs::JoiningLemmas::none_goes))]
    fn take_next(&mut self, channel: &[u8], room: usize) -> Option<Text>
        ensures line { IfSome result (λ line. line ≡ next_about channel.now self.old.lines) }
        ensures goes { IfSome result (λ _. goes_along channel.now room (next_about channel.now self.old.lines) ≡ true) }
        ensures rest { OnSome result (self.new ≡ record self.old { lines = others channel.now self.old.lines }) }
        ensures none { IfNone result (goes_along channel.now room (next_about channel.now self.old.lines) ≡ false) }
        ensures unchanged { IfNone result (self.new ≡ self.old) }
    {
        let place = place_about(&self.queue, channel);
        let Some(line) = self.queue.get(place) else {
            return None;
        };
        if !goes_along(channel, room, line.as_bytes()) {
            return None;
        }
        self.queue.remove(place)
    }

    // Drops all lines but the first `count`.
    pub(crate) fn keep(&mut self, count: usize)
        ensures { self.new ≡ record self.old { lines = take count self.old.lines } }
    {
        self.queue.truncate(count);
    }

    // Drops all lines.
    pub(crate) fn clear(&mut self)
        ensures { self.new ≡ record self.old { lines = [] } }
    {
        self.queue.clear();
    }
}

impl TryCopy for Lane {
    fn copy(&self, alloc: Global) -> Result<Lane, NoMemory> {
        let mut queue = copies_of(alloc, &self.queue)?;
        queue.reserve(self.room)?;
        Ok(Lane {
            queue,
            room: self.room,
        })
    }
}

// Copies each line, in order.
fn copies_of(alloc: Global, lines: &VecDeque<Text>) -> Result<VecDeque<Text>, NoMemory>
    ensures { IfOk result (λ copies. copies.items ≡ lines.now.items) }
{
    let mut copies = VecDeque::with_capacity(alloc, lines.len())?;
    for at in 0..lines.len() {
        copies.push_back(lines[at].copy(alloc)?)?;
    }
    Ok(copies)
}

// Returns the place of the first line about `channel`, or the number of lines if there is none.
fn place_about(lines: &VecDeque<Text>, channel: &[u8]) -> usize
    ensures { result ≡ place_about channel.now lines.now.items }
{
    for at in 0..lines.len() {
        if is_about(channel, lines[at].as_bytes()) {
            return at;
        }
    }
    lines.len()
}

// Returns whether such a line is among these.
fn has_line(lines: &VecDeque<Text>, line: &[u8]) -> bool
    ensures { result ≡ stands_in lines.now.items line.now }
{
    lines.iter().any(|one| line == one.as_bytes())
}

// Returns how many of these lines have this target.
fn count_for(lines: &VecDeque<Text>, target: &[u8]) -> usize
    ensures count { result ≡ count_by (is_for target.now) lines.now.items }
    ensures few { result ≤ length lines.now.items }
{
    lines
        .iter()
        .filter(|line| is_for(target, line.as_bytes()))
        .count()
}
