// Who comes in at the hub's door.
ghost use Rattle.std.specs.Prelude.{◌≡◌};
ghost use Rattle.peers.specs.Drawn.{AreAmong, Draws, nonces_of};

use crate::dice::Dice;
use crate::entry::Entry;
use crate::gone::Gone;
use crate::guest::{Guest, Heeded};
use crate::guest_stage::Asked;
use crate::guests::Guests;
use crate::home::{Home, home_of};
use crate::hub_links::{HubLinks, ListenFault, MAX_GUESTS};
use crate::hub_net::HubNet;
use crate::links::FIRST_TOKEN;
use crate::listening::{ListenPlace, listen};
use crate::turn_time::TurnTime;
use bytetext::NoMemory;
use handshake::{HandshakeFault, HandshakeRefusal, empty_places};
use net::{AnyArrival, AnyDoor, Log, Registry};
use std::net::Net;
use std::random::RandomSource;
use std::rt::Files;

/// The most guests of one address: of IPv6, of the addresses that begin with the same 64 bits.
pub const MAX_OF_ADDRESS: usize = 16;

// The token under which the door is watched.
pub(crate) const DOOR: usize = 4;

// Which connection a token names.
#[derive(Clone, Copy)]
pub(crate) enum Who {
    Guest,
    Leaf(u16),
}

// The hub's door, the guests that came in at it, and which connection each token names.
pub(crate) struct Door {
    listener: AnyDoor,
    pub(crate) guests: Guests,
    // By token.
    pub(crate) slots: Vec<Option<Who>>,
    // The last second at which a guest was logged.
    told: u64,
}

// Written by hand, so that the drop is proved once, and not in each function that drops one.
impl Drop for Door {
    fn drop(self) {
        let Door {
            listener: _,
            guests: _,
            slots: _,
            told: _,
        } = self;
    }
}

impl HubLinks {
    /// Accepts the connections that wait at second `now`, and greets them. If 16 guests are of the address of a new one,
    /// or 1,024 are there in all, one of them is heard once more, and disconnected if it has not shown a code: the oldest
    /// of that address, or of the address that has most. `dice` roll the nonce of each greeting, and `registry` watches
    /// the connections.
    ///
    /// # Errors
    /// `NoMemory` if an allocation fails.
    pub fn let_in<R: AllocGlobal + Net + RandomSource>(
        &mut self,
        rt: &R,
        dice: &mut Dice,
        log: &mut Log,
        registry: &Registry,
        now: u64,
    ) -> Result<(), NoMemory>
        // Each new guest is greeted with a nonce that the dice rolled for it.
        ensures nonces { Draws (nonces_of self.old.door.guests.list.items) (nonces_of self.new.door.guests.list.items)
            dice.old.rolled dice.new.rolled }
    {
        let time = self.time(now);
        self.door.let_in(rt, dice, log, registry, &self.net, time)
    }
}

impl Door {
    // Opens the door at `place`, with this many tokens for connections.
    pub(crate) fn open<R: AllocGlobal + Net + Files>(
        rt: &R,
        registry: &Registry,
        place: ListenPlace<'_>,
        tokens: usize,
    ) -> Result<Door, ListenFault> {
        let slots = empty_places(rt.alloc(), tokens)?;
        match listen(rt, registry, place) {
            Ok(listener) => Ok(Door {
                listener,
                guests: Guests::new(rt.alloc()),
                slots,
                told: 0,
            }),
            Err(fault) => Err(ListenFault::Door(fault)),
        }
    }

    // Accepts the connections that wait, as long as tokens are left for them.
    fn let_in<R: AllocGlobal + Net + RandomSource>(
        &mut self,
        rt: &R,
        dice: &mut Dice,
        log: &mut Log,
        registry: &Registry,
        net: &HubNet,
        time: TurnTime,
    ) -> Result<(), NoMemory>
        ensures nonces { Draws (nonces_of self.old.guests.list.items) (nonces_of self.new.guests.list.items)
            dice.old.rolled dice.new.rolled }
    {
        for _guest in 0..MAX_GUESTS {
            let Some(slot) = free_slot(self.slots.as_slice()) else {
                return Ok(());
            };
            let token = FIRST_TOKEN.saturating_add(slot);
            let Some(arrival) = self.listener.let_in(registry, token) else {
                return Ok(());
            };
            self.make_way(log, home_of(&arrival.way), time)?;
            self.greet(rt, dice, net, arrival, slot, time.steady)?;
        }
        Ok(())
    }

    // Greets a new guest. If the system gives no random bytes, it is disconnected.
    fn greet<R: AllocGlobal + RandomSource>(
        &mut self,
        rt: &R,
        dice: &mut Dice,
        net: &HubNet,
        arrival: AnyArrival,
        slot: usize,
        steady: u64,
    ) -> Result<(), NoMemory>
        ensures nonces { Draws (nonces_of self.old.guests.list.items) (nonces_of self.new.guests.list.items)
            dice.old.rolled dice.new.rolled }
    {
        let Ok(nonce) = dice.roll(rt) else {
            return Ok(());
        };
        let guest = Guest::greet(rt.alloc(), arrival, net.side(nonce), slot, steady)?;
        self.guests.arrive(guest)?;
        self.name(slot, Some(Who::Guest));
        Ok(())
    }

    // If there are too many guests for another of this home, hears one of them once more, and disconnects it unless it has
    // shown its code.
    fn make_way(&mut self, log: &mut Log, home: Home, time: TurnTime) -> Result<(), NoMemory>
        ensures nonces { AreAmong (nonces_of self.new.guests.list.items) (nonces_of self.old.guests.list.items) }
    {
        let Some(place) = crowded(&self.guests, home) else {
            return Ok(());
        };
        let Some(guest) = self.guests.list.get_mut(place) else {
            return Ok(());
        };
        if let Some(gone) = hear_last(guest, time.steady)? {
            self.drop_guest(log, place, gone, time.now);
        }
        Ok(())
    }

    // Reads from each guest, and disconnects those that are to go. Returns whether one has sent anything.
    pub(crate) fn heed_guests(&mut self, log: &mut Log, time: TurnTime) -> Result<bool, NoMemory> {
        let mut came = false;
        for back in 0..self.guests.len() {
            // From the last one on, since a guest that goes leaves those before it in their places.
            let place = self.guests.len().saturating_sub(back + 1);
            if self.heed_guest(log, place, time)? {
                came = true;
            }
        }
        Ok(came)
    }

    fn heed_guest(
        &mut self,
        log: &mut Log,
        place: usize,
        time: TurnTime,
    ) -> Result<bool, NoMemory> {
        let Some(guest) = self.guests.list.get_mut(place) else {
            return Ok(false);
        };
        match guest.heed(time.steady)? {
            Heeded::Waits(came) => Ok(came),
            Heeded::Asks => Ok(true),
            Heeded::Goes(gone) => {
                self.drop_guest(log, place, gone, time.now);
                Ok(true)
            }
        }
    }

    // Refuses the guest at `place`, and disconnects it. Returns what it asked.
    pub(crate) fn refuse(
        &mut self,
        log: &mut Log,
        place: usize,
        refusal: HandshakeRefusal,
        now: u64,
    ) -> Result<Option<Asked>, NoMemory> {
        let Some(guest) = self.guests.list.get_mut(place) else {
            return Ok(None);
        };
        guest.refuse(refusal)?;
        let asked = guest.asked();
        let gone = Gone::Handshake(HandshakeFault::Refused(refusal));
        self.drop_guest(log, place, gone, now);
        Ok(asked)
    }

    // Has the guest at `place` entered in the book, unless one is being entered as the same leaf.
    pub(crate) fn let_enter(&mut self, place: usize) {
        let guests = self.guests.list.as_mut_slice();
        let Some(leaf) = leaf_at(guests, place) else {
            return;
        };
        if is_any_entering(guests, leaf) {
            return;
        }
        if let Some(guest) = guests.get_mut(place) {
            guest.let_enter();
        }
    }

    // Disconnects the guest at `place`. At most one a second is logged, so that nobody can fill the log; but each guest
    // that knows the secret is logged.
    pub(crate) fn drop_guest(&mut self, log: &mut Log, place: usize, gone: Gone, now: u64)
        ensures nonces { AreAmong (nonces_of self.new.guests.list.items) (nonces_of self.old.guests.list.items) }
    {
        if place >= self.guests.len() {
            return;
        }
        let guest = self.guests.remove(place);
        self.name(guest.slot, None);
        if self.told != now || gone.is_of_known() {
            self.told = now;
            note_gone(log, &guest, gone, now);
        }
    }

    // Makes the token of `slot` name another connection from now on, or none.
    pub(crate) fn name(&mut self, slot: usize, who: Option<Who>)
        ensures { self.new ≡ record self.old { slots = self.new.slots } }
    {
        if let Some(named) = self.slots.get_mut(slot) {
            *named = who;
        }
    }
}

// The guest that is heard once more before another of this home comes in, if there are too many.
fn crowded(guests: &Guests, home: Home) -> Option<usize> {
    if guests.count(home) >= MAX_OF_ADDRESS {
        guests.oldest_of(home)
    } else if guests.len() >= MAX_GUESTS {
        guests.oldest_of_most()
    } else {
        None
    }
}

// Hears a guest once more. Returns why it is to be disconnected, unless it has shown its code.
fn hear_last(guest: &mut Guest, steady: u64) -> Result<Option<Gone>, NoMemory>
    ensures side { guest.new.side ≡ guest.old.side }
{
    let heeded = guest.heed(steady)?;
    if guest.asked().is_some() {
        return Ok(None);
    }
    Ok(match heeded {
        Heeded::Goes(gone) => Some(gone),
        Heeded::Waits(_) => Some(Gone::Crowded),
        Heeded::Asks => None,
    })
}

// Logs that a guest is disconnected.
fn note_gone(log: &mut Log, guest: &Guest, gone: Gone, now: u64) {
    log.note(now, &Entry::GuestGone(leaf_of(guest), guest.way, gone));
}

// Whether a guest is being entered in the book as this leaf.
fn is_any_entering(guests: &[Guest], leaf: u16) -> bool {
    guests.iter().any(|guest| guest.is_entering(leaf))
}

// The number of the leaf that the guest at `place` has shown to be.
fn leaf_at(guests: &[Guest], place: usize) -> Option<u16> {
    match guests.get(place) {
        Some(guest) => leaf_of(guest),
        None => None,
    }
}

// The number of the leaf that a guest has shown to be.
fn leaf_of(guest: &Guest) -> Option<u16> {
    match guest.asked() {
        Some(asked) => Some(asked.ask.words.leaf),
        None => None,
    }
}

// The first token that names no connection.
fn free_slot(slots: &[Option<Who>]) -> Option<usize> {
    slots.iter().position(|who| who.is_none())
}
