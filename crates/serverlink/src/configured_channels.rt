// The channels on which a bot is to be.
ghost use Rattle.std.specs.Prelude.{◌≡◌, ◌<◌, length, map, IfErr, IfOk, OnOk};
ghost use Rattle.bytetext.specs.declared.moment.TheConstants.{MOMENTS_END};
ghost use Rattle.serverlink.specs.Listing.{begun_as, rekeyed_at};
ghost use Rattle.serverlink.specs.Seats.{is_named};

use crate::seat::Seat;
use bytetext::{NoMemory, Text, TryCopy};
use rfccase::{Casemapping, same_by};
use settings::ChannelSetting;
use std::alloc::Global;
use std::marker::Model;

/// The channels on which a bot is to be, in order, and whether it is on each of them: those of its configuration, and
/// those that an operator has added. Their names are compared by the casemapping of the server. Contracts see the
/// channels.
#[derive(Drop)]
pub struct ConfiguredChannels {
    seats: Vec<Seat>,
}

impl Model for ConfiguredChannels {
    ghost use Rattle.std.specs.Prelude.{List};
    ghost use Rattle.serverlink.specs.Seats.{Seated};

    ghost Value = { List Seated };

    ghost view = { λ channels. channels.seats.items };
}

impl ConfiguredChannels {
    ghost use Rattle.std.specs.Prelude.{◌≡◌, ◌<◌, ◌++◌, ◌∷◌, [], None, Some, true, false, length, map, slice_get, IfOk, IfSome, IfErr, MatchOption, OnOk};
    ghost use Rattle.std.specs.List.{list_all};
    ghost use Rattle.serverlink.specs.Listing.{begun_as, has_seat, rekeyed_at};
    ghost use Rattle.serverlink.specs.Seats.{is_named};

    // The bot numbered `number` is on none of these yet.
    pub(crate) fn new(
        alloc: Global,
        listed: &[ChannelSetting],
        number: u16,
    ) -> Result<ConfiguredChannels, NoMemory>
        ensures seats { IfOk result (λ channels. channels ≡ map (begun_as number) listed.now) }
        ensures memory { IfErr result (λ _. 0 < length listed.now) }
    {
        let mut seats = Vec::new(alloc);
        for channel in listed {
            seats.push(seat_of(alloc, channel, number)?)?;
        }
        Ok(ConfiguredChannels { seats })
    }

    /// Returns the number of channels.
    pub fn len(&self) -> usize
        ensures { result ≡ length self.now }
    {
        self.seats.len()
    }

    /// Returns the channel at `place`, counted from 0, or `None` if there are fewer.
    pub fn get(&self, place: usize) -> Option<&Seat>
        ensures { MatchOption result (slice_get self.now place ≡ None) (λ seat. slice_get self.now place ≡ Some seat.now) }
    {
        self.seats.get(place)
    }

    // Whether a channel of this name is among them.
    pub(crate) fn has(&self, mapping: Casemapping, name: &[u8]) -> bool
        ensures { result ≡ has_seat mapping name.now self.now }
    {
        self.seats
            .iter()
            .any(|seat| same_by(mapping, seat.channel(), name))
    }

    // Adds a channel after the others.
    pub(crate) fn add(&mut self, seat: Seat) -> Result<(), NoMemory>
        ensures { OnOk result (self.new ≡ self.old ++ seat ∷ []) }
    {
        self.seats.push(seat)?;
        Ok(())
    }

    // Removes the channel of this name, and returns it, if it is among them.
    pub(crate) fn remove(&mut self, mapping: Casemapping, name: &[u8]) -> Option<Seat> {
        let place = self
            .seats
            .iter()
            .position(|seat| same_by(mapping, seat.channel(), name))?;
        Some(self.seats.remove(place))
    }

    // Removes the first channel that is not `listed`, and returns it. So a channel that is still named stays.
    pub(crate) fn remove_unnamed(
        &mut self,
        mapping: Casemapping,
        listed: &[ChannelSetting],
    ) -> Option<Seat>
        ensures unnamed { IfSome result (λ seat. is_named mapping listed.now seat.channel ≡ false) }
    {
        let place = self
            .seats
            .iter()
            .position(|seat| !is_named(mapping, listed, seat.channel()))?;
        Some(self.seats.remove(place))
    }

    // Has the bot join the channel of this name by `key` from second `now` on. Returns whether another key was held.
    // On `NoMemory` some of the channels of this name may have the key.
    pub(crate) fn take_key(
        &mut self,
        alloc: Global,
        mapping: Casemapping,
        name: &[u8],
        key: &Option<Text>,
        now: u64,
    ) -> Result<bool, NoMemory>
        ensures { OnOk result (self.new ≡ map (rekeyed_at mapping name.now key.now now) self.old) }
    {
        rekey_all(alloc, self.seats.as_mut_slice(), mapping, name, key, now)
    }

    // Notes that a server welcomed the bot at second `now`.
    pub(crate) fn welcome_all(&mut self, now: u64) {
        for seat in self.seats.iter_mut() {
            seat.welcome(now);
        }
    }

    // Notes that the bot has joined a channel at second `now`.
    pub(crate) fn join(&mut self, mapping: Casemapping, name: &[u8], now: u64) {
        if let Some(seat) = self.seat_of(mapping, name) {
            seat.join(now);
        }
    }

    // Notes that the bot was taken off a channel at second `now`.
    pub(crate) fn take_off(&mut self, mapping: Casemapping, name: &[u8], now: u64)
        requires moment { now < MOMENTS_END }
    {
        if let Some(seat) = self.seat_of(mapping, name) {
            seat.take_off(now);
        }
    }

    // Notes that the server did not let the bot onto a channel at second `now`. Returns false, and changes nothing, if
    // the bot is on it or is not to be there: then the server rejects something else.
    pub(crate) fn bar(&mut self, mapping: Casemapping, name: &[u8], now: u64) -> bool
        requires moment { now < MOMENTS_END }
    {
        match self.seat_of(mapping, name) {
            Some(seat) if !seat.is_on() => {
                seat.bar(now);
                true
            }
            Some(_) | None => false,
        }
    }

    // Notes that somebody invited the bot to a channel at second `now`. Returns whether the process asks to join it sooner
    // than before.
    pub(crate) fn invite(&mut self, mapping: Casemapping, name: &[u8], now: u64) -> bool {
        match self.seat_of(mapping, name) {
            Some(seat) => seat.invite(now),
            None => false,
        }
    }

    // Notes that the bot has lost its server.
    pub(crate) fn lose_all(&mut self) {
        for seat in self.seats.iter_mut() {
            seat.lose();
        }
    }

    // Returns the channel that the process is to ask to join at second `now`, if one is due, and notes that it asks.
    // Of several it is the one that has been due the longest, so that each has its turn.
    pub(crate) fn retry_next(&mut self, now: u64) -> Option<&Seat> {
        let place = self.longest_due(now)?;
        let seat = self.seats.get_mut(place)?;
        seat.retry(now);
        Some(seat)
    }

    // Returns the place of the channel that has been due the longest.
    fn longest_due(&self, now: u64) -> Option<usize> {
        let mut found = None;
        let mut since = now;
        for (place, seat) in self.seats.iter().enumerate() {
            if let Some(second) = seat.asks() {
                if seat.is_due(now) && (found.is_none() || second < since) {
                    found = Some(place);
                    since = second;
                }
            }
        }
        found
    }

    fn seat_of(&mut self, mapping: Casemapping, name: &[u8]) -> Option<&mut Seat> {
        self.seats
            .iter_mut()
            .find(|seat| same_by(mapping, seat.channel(), name))
    }
}

// The seat of a channel as the configuration has it.
fn seat_of(alloc: Global, channel: &ChannelSetting, number: u16) -> Result<Seat, NoMemory>
    ensures { IfOk result (λ seat. seat ≡ begun_as number channel.now) }
{
    let name = channel.name.copy(alloc)?;
    let key = key_copy(alloc, &channel.key)?;
    Ok(Seat::new(name, key, number))
}

// A copy of a key, if there is one.
pub(crate) fn key_copy(alloc: Global, key: &Option<Text>) -> Result<Option<Text>, NoMemory>
    ensures { IfOk result (λ copy. copy ≡ key.now) }
{
    match key {
        Some(key) => Ok(Some(key.copy(alloc)?)),
        None => Ok(None),
    }
}

// Gives the key to each seat whose channel has this name. Returns whether one had another key.
fn rekey_all(
    alloc: Global,
    seats: &mut [Seat],
    mapping: Casemapping,
    name: &[u8],
    key: &Option<Text>,
    now: u64,
) -> Result<bool, NoMemory>
    ensures { OnOk result (seats.new ≡ map (rekeyed_at mapping name.now key.now now) seats.old) }
{
    let mut is_new = false;
    for seat in seats.iter_mut() {
        let rekeyed = rekey(alloc, seat, mapping, name, key, now)?;
        is_new |= rekeyed;
    }
    Ok(is_new)
}

// Gives the key to a seat if its channel has this name. Returns whether the seat had another key.
fn rekey(
    alloc: Global,
    seat: &mut Seat,
    mapping: Casemapping,
    name: &[u8],
    key: &Option<Text>,
    now: u64,
) -> Result<bool, NoMemory>
    ensures { OnOk result (seat.new ≡ rekeyed_at mapping name.now key.now now seat.old) }
{
    if !same_by(mapping, seat.channel(), name) || seat.has_key(key) {
        return Ok(false);
    }
    seat.take_key(key_copy(alloc, key)?, now);
    Ok(true)
}

// Whether a channel is among those listed.
fn is_named(mapping: Casemapping, listed: &[ChannelSetting], channel: &[u8]) -> bool
    ensures { result ≡ is_named mapping listed.now channel.now }
{
    listed
        .iter()
        .any(|other| same_by(mapping, other.name.as_bytes(), channel))
}
