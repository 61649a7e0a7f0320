// The channels that the bot is on.
ghost use Rattle.std.specs.Prelude.{◌≡◌, ◌+◌, ◌<◌, ◌≤◌, [], true, IfOk, IfErr, IfSome, Some, is_some, OnOk, OnErr, MatchResult, position, length, map, filter, find};
ghost use Rattle.std.specs.Option.{option_copied};
ghost use Rattle.std.specs.List.{list_any};
ghost use Rattle.chanstate.specs.Items.{names_in};
ghost use Rattle.chanstate.specs.Memory.{lacks, respells};
ghost use Rattle.std.specs.Vec.{vec_len, vec_capacity};
ghost use Rattle.chanstate.specs.Tasks.{IsKeyed};
ghost use Rattle.chanstate.specs.Takes.{Holds, on_place, given};
ghost use Rattle.chanstate.specs.Firsts.{first_removed, first_changed};
ghost use Rattle.chanstate.specs.Members.{is_called, with_mark, with_address, shown_each, has_member};
ghost use Rattle.chanstate.specs.Channels.{is_named, is_held, with_topic, on_channel, put_last, put_each_last, all_without};

use crate::channel::Channel;
use crate::member::Mark;
use crate::message_plan::Opening;
use crate::names::is_same;
use crate::roster::Roster;
use crate::support::Support;
use crate::take::Take;
use crate::task::Task;
use bytetext::{NoMemory, Text, TryCopy, copies_of};
use rfccase::Casemapping;
use std::alloc::Global;
use std::marker::Model;
use std::mem;

/// The channels that the bot is on, in the order in which it joined them. Contracts see the list of them. Each call
/// that looks for a name or a nick takes the casemapping by which they compare.
#[derive(Debug, Drop)]
pub struct Channels {
    pub(crate) items: Vec<Channel>,
}

impl Model for Channels {
    ghost use Rattle.std.specs.Prelude.{List};
    ghost use Rattle.chanstate.specs.declared.channel.Channel.{Channel};

    ghost Value = { List Channel };

    ghost view = { λ c. c.items.items };
}

impl Channels {
    /// Creates an empty list of channels. Allocates nothing.
    pub(crate) fn new(alloc: Global) -> Channels
        ensures { result ≡ [] }
    {
        Channels {
            items: Vec::new(alloc),
        }
    }

    /// Returns the channels, in order.
    pub(crate) fn as_slice(&self) -> &[Channel]
        ensures { result.now ≡ self.now }
    {
        self.items.as_slice()
    }

    // Returns the place of the channel called `name`.
    pub(crate) fn place(&self, mapping: Casemapping, name: &[u8]) -> Option<usize>
        ensures { result ≡ position (is_named mapping name.now) self.now }
    {
        place_in(mapping, self.items.as_slice(), name)
    }

    // Returns whether the bot is on the channel `name`.
    pub(crate) fn holds(&self, mapping: Casemapping, name: &[u8]) -> bool
        ensures { result ≡ is_held mapping name.now self.now }
    {
        self.items
            .iter()
            .any(|channel| is_same(mapping, name, channel.name.as_bytes()))
    }

    // Returns the channel called `name`.
    pub(crate) fn find(&self, mapping: Casemapping, name: &[u8]) -> Option<&Channel>
        ensures { option_copied result ≡ find (is_named mapping name.now) self.now }
    {
        self.items
            .iter()
            .find(|channel| is_same(mapping, name, channel.name.as_bytes()))
    }

    // Returns the first channel that has a member called `nick`.
    pub(crate) fn find_with(&self, mapping: Casemapping, nick: &[u8]) -> Option<&Channel>
        ensures { option_copied result ≡ find (λ channel. has_member mapping nick.now channel.members) self.now }
    {
        self.items
            .iter()
            .find(|channel| channel.members.holds(mapping, nick))
    }

    // Returns the names of the channels that have a member called `nick`, in order.
    pub(crate) fn names_with(
        &self,
        alloc: Global,
        mapping: Casemapping,
        nick: &[u8],
    ) -> Result<Vec<Text>, NoMemory>
        ensures names { IfOk result (λ names. names.items
            ≡ map (λ channel. channel.name) (filter (λ channel. has_member mapping nick.now channel.members) self.now)) }
        ensures memory { IfErr result (λ _. 0 < length (filter (λ channel. has_member mapping nick.now channel.members) self.now)) }
    {
        names_with(alloc, mapping, self.items.as_slice(), nick)
    }

    // Returns whether a channel has a member called `old` whose nick is not spelled as `new`.
    pub(crate) fn respell(&self, mapping: Casemapping, old: &[u8], new: &[u8]) -> bool
        ensures { result ≡ list_any (λ c. respells new.now (find (is_called mapping old.now) c.members)) self.now }
    {
        self.items
            .iter()
            .any(|channel| channel.members.respells(mapping, old, new))
    }

    // Returns the place of the channel called `name`, if it lacks a member that the list of names `names` names.
    pub(crate) fn place_lacking(
        &self,
        mapping: Casemapping,
        support: &Support,
        name: &[u8],
        names: &[u8],
    ) -> Option<usize>
        ensures some { IfSome result (λ at. position (is_named mapping name.now) self.now ≡ Some at) }
        ensures lacking { is_some result
            ≡ list_any (λ one. lacks mapping one.nick (find (is_named mapping name.now) self.now)) (names_in support.now names.now) }
    {
        let Some(at) = self.place(mapping, name) else {
            return None;
        };
        let channel = &self.items[at];
        if !channel.members.lacks_any(mapping, support, names) {
            return None;
        }
        Some(at)
    }

    // Gives the members of the channel `name` the marks that the list of names `names` shows. Names of others are
    // skipped.
    pub(crate) fn show(
        &mut self,
        alloc: Global,
        mapping: Casemapping,
        support: &Support,
        name: &[u8],
        names: &[u8],
    )
        ensures { self.new ≡ on_channel mapping name.now (shown_each mapping (names_in support.now names.now)) self.old }
    {
        if let Some(at) = self.place(mapping, name) {
            let channel = &mut self.items[at];
            channel.members.show_all(alloc, mapping, support, names);
        }
    }

    // Removes the channel called `name`.
    pub(crate) fn remove(&mut self, mapping: Casemapping, name: &[u8])
        ensures { self.new ≡ first_removed (is_named mapping name.now) self.old }
    {
        if let Some(at) = self.place(mapping, name) {
            let _gone = self.items.remove(at);
        }
    }

    // Takes all channels out, with room for the channels that the bot joins.
    pub(crate) fn ready_opening(
        &mut self,
        alloc: Global,
        mapping: Casemapping,
        opened: Vec<Channel>,
    ) -> Result<Opening, NoMemory>
        ensures memory { OnErr result (0 < length opened.items) }
        ensures ready { MatchResult result (λ o. o ≡ (self.old, put_each_last mapping opened.items self.old)) (λ _. self.new ≡ self.old) }
    {
        self.items.reserve(opened.len())?;
        let held = mem::replace(&mut self.items, Vec::new(alloc));
        Ok(Opening {
            mapping,
            held,
            opened,
        })
    }

    // Takes the members out of the channel at place `at`, together with `task`, which is to be done with them.
    pub(crate) fn take(
        &mut self,
        alloc: Global,
        mapping: Casemapping,
        at: usize,
        task: Task,
        takes: &mut Vec<Take>,
    ) -> Result<(), NoMemory>
        requires keyed { IsKeyed mapping task }
        requires within { at < length self.old }
        ensures taken { OnOk result (Holds mapping at task self.old takes.old.items self.new takes.new.items) }
        ensures err { OnErr result ((self.new ≡ self.old) × (takes.new.items ≡ takes.old.items)) }
    {
        takes.reserve(1)?;
        let channel = &mut self.items[at];
        let seating = channel.members.take(alloc, mapping, task)?;
        takes.push_reserved(Take { at, seating });
        Ok(())
    }

    // Gives the channel at place `at` these members.
    fn put_at(&mut self, at: usize, members: Roster)
        ensures { self.new ≡ on_place at (λ ms. members) self.old }
    {
        if at < self.items.len() {
            let channel = &mut self.items[at];
            channel.members = members;
        }
    }

    // Puts back what `takes` holds, starting with the last: the members as they will be if `done`, else as they are.
    pub(crate) fn give(&mut self, mut takes: Vec<Take>, done: bool)
        ensures { self.new ≡ given done takes.items self.old }
    {
        while let Some(take) = takes.pop() {
            self.put_at(take.at, take.seating.into_roster(done));
        }
    }

    // Removes every channel.
    pub(crate) fn clear(&mut self)
        ensures { self.new ≡ [] }
    {
        self.items.clear();
    }

    // Removes the member called `nick` from the channel `name`.
    pub(crate) fn leave(&mut self, mapping: Casemapping, name: &[u8], nick: &[u8])
        ensures { self.new ≡ on_channel mapping name.now (first_removed (is_called mapping nick.now)) self.old }
    {
        if let Some(at) = self.place(mapping, name) {
            let channel = &mut self.items[at];
            channel.members.remove(mapping, nick);
        }
    }

    // Sets or clears a mark of a member.
    pub(crate) fn mark(
        &mut self,
        mapping: Casemapping,
        name: &[u8],
        nick: &[u8],
        mark: Mark,
        on: bool,
    )
        ensures { self.new ≡ on_channel mapping name.now (first_changed (is_called mapping nick.now) (with_mark mark on)) self.old }
    {
        if let Some(at) = self.place(mapping, name) {
            let channel = &mut self.items[at];
            channel.members.mark(mapping, nick, mark, on);
        }
    }

    // Sets the user and host of a member.
    pub(crate) fn place_at(
        &mut self,
        mapping: Casemapping,
        name: &[u8],
        nick: &[u8],
        user: Text,
        host: Text,
    )
        ensures { self.new ≡ on_channel mapping name.now (first_changed (is_called mapping nick.now) (with_address user host)) self.old }
    {
        if let Some(at) = self.place(mapping, name) {
            let channel = &mut self.items[at];
            channel.members.place_at(mapping, nick, user, host);
        }
    }

    // Sets the topic of a channel.
    pub(crate) fn set_topic(&mut self, mapping: Casemapping, name: &[u8], topic: Text)
        ensures { self.new ≡ first_changed (is_named mapping name.now) (with_topic topic) self.old }
    {
        if let Some(at) = self.place(mapping, name) {
            let channel = &mut self.items[at];
            channel.topic = topic;
        }
    }

    // Removes the member called `nick` from every channel.
    pub(crate) fn depart(&mut self, mapping: Casemapping, nick: &[u8])
        ensures { self.new ≡ all_without mapping nick.now self.old }
    {
        for channel in self.items.iter_mut() {
            channel.depart(mapping, nick);
        }
    }
}

impl TryCopy for Channels {
    fn copy(&self, alloc: Global) -> Result<Channels, NoMemory> {
        let items = copies_of(alloc, self.items.as_slice())?;
        Ok(Channels { items })
    }
}

// Returns the place of the channel called `name`.
fn place_in(mapping: Casemapping, channels: &[Channel], name: &[u8]) -> Option<usize>
    ensures { result ≡ position (is_named mapping name.now) channels.now }
{
    channels
        .iter()
        .position(|channel| is_same(mapping, name, channel.name.as_bytes()))
}

// Puts `channel` last, and removes an older channel of the same name. There must be room for one more.
fn put(mapping: Casemapping, items: &mut Vec<Channel>, channel: Channel)
    requires { vec_len items.old < vec_capacity items.old }
    ensures put { items.new.items ≡ put_last mapping channel items.old.items }
    ensures len { vec_len items.new ≤ vec_len items.old + 1 }
    ensures capacity { vec_capacity items.new ≡ vec_capacity items.old }
{
    let held = place_in(mapping, items.as_slice(), channel.name.as_bytes());
    items.push_reserved(channel);
    if let Some(at) = held {
        let _gone = items.remove(at);
    }
}

// Puts each of `channels` last, in their order. There must be room for each.
pub(crate) fn put_each(mapping: Casemapping, items: &mut Vec<Channel>, channels: Vec<Channel>)
    requires { vec_len items.old + length channels.items ≤ vec_capacity items.old }
    ensures { items.new.items ≡ put_each_last mapping channels.items items.old.items }
{
    for channel in channels {
        put(mapping, items, channel);
    }
}

// Returns the names of those channels that have a member called `nick`, in order.
fn names_with(
    alloc: Global,
    mapping: Casemapping,
    channels: &[Channel],
    nick: &[u8],
) -> Result<Vec<Text>, NoMemory>
    ensures names { IfOk result (λ names. names.items
        ≡ map (λ channel. channel.name) (filter (λ channel. has_member mapping nick.now channel.members) channels.now)) }
    ensures memory { IfErr result (λ _. 0 < length (filter (λ channel. has_member mapping nick.now channel.members) channels.now)) }
{
    let mut names = Vec::new(alloc);
    for channel in channels {
        if channel.members.holds(mapping, nick) {
            names.push(channel.name.copy(alloc)?)?;
        }
    }
    Ok(names)
}
