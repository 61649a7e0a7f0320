// The hub's connections to its leaves.
ghost use Rattle.std.specs.Prelude.{◌≡◌, ◌≢◌, ℕ, None, Some, not, replicate, IfOk, OnOk, OnErr, slice_get};
ghost use Rattle.std.specs.List.{AllByRecursion, filter};
ghost use Rattle.sharewire.specs.Frames.{CanBeWritten};
ghost use Rattle.sharelink.specs.Shapes.{HasGoodRecords};
ghost use Rattle.handshake.specs.declared.progress.LeafRights.TheVariants.{Asks};
ghost use Rattle.peers.specs.Linked.{IsTaken};
ghost use Rattle.peers.specs.Rights.{limited};
ghost use Rattle.peers.specs.Picking.{is_request};
ghost use Rattle.peers.specs.Tells.{TakesGranted, TellsPlace, TellsSeat, granted, in_doubt};

use crate::beat::Beat;
use crate::door::{Door, Who};
use crate::doubt::Doubted;
use crate::doubts::first_doubt;
use crate::guest::Guest;
use crate::hub_net::HubNet;
use crate::inbox::Inbox;
use crate::links::FIRST_TOKEN;
use crate::listening::ListenPlace;
use crate::picking::is_request;
use crate::seat::Seat;
use crate::stations::{HubStation, LeafLimit};
use crate::turn_time::TurnTime;
use bytetext::NoMemory;
use handshake::{Book, LeafRights, Own, empty_places};
use net::{DoorFault, Registry};
use sharewire::Packet;
use std::alloc::Global;
use std::net::Net;
use std::rt::Files;

/// The most connections that have not been welcomed.
pub const MAX_GUESTS: usize = 1_024;

/// The hub's connections: a seat for each leaf, and the guests, which have not been welcomed.
pub struct HubLinks {
    pub(crate) net: HubNet,
    pub(crate) door: Door,
    // Which folder is which leaf, as the book on the disk says.
    pub(crate) book: Book,
    // By the leaf's number; no leaf has the number 0.
    pub(crate) seats: Vec<Option<Seat>>,
    // By the leaf's number.
    pub(crate) rights: Vec<LeafRights>,
    // By the leaf's number.
    pub(crate) inbox: Inbox,
    // Which leaves are ahead of the hub, or differ from it, by the leaf's number.
    pub(crate) doubts: Vec<Option<Doubted>>,
    // Whether the first of them is on the disk.
    pub(crate) is_doubt_kept: bool,
    // What the process has told about its bot in this turn.
    pub(crate) own: Option<Own>,
    // The second of this turn by the monotonic clock.
    pub(crate) steady: u64,
    // The last second of that clock at which no leaf was read, since too much waited.
    pub(crate) rested: u64,
}

// Written by hand, so that the drop is proved once, and not in each function that drops one.
impl Drop for HubLinks {
    fn drop(self) {
        let HubLinks {
            net: _,
            door: _,
            book: _,
            seats: _,
            rights: _,
            inbox: _,
            doubts: _,
            is_doubt_kept: _,
            own: _,
            steady: _,
            rested: _,
        } = self;
    }
}

/// Why the hub cannot listen.
#[derive(Clone, Copy, Debug, PartialEq, Eq)]
pub enum ListenFault {
    /// The system refuses the door.
    Door(DoorFault),
    /// An allocation failed.
    NoMemory,
}

impl From<NoMemory> for ListenFault {
    fn from(_refused: NoMemory) -> ListenFault {
        ListenFault::NoMemory
    }
}

impl HubLinks {
    /// Listens at `place` for the leaves of the net of `station`. `registry` watches the door and the connections.
    ///
    /// # Errors
    /// `Door` if the system refuses, and `NoMemory` if an allocation fails.
    pub fn open<R: AllocGlobal + Net + Files>(
        rt: &R,
        registry: &Registry,
        place: ListenPlace<'_>,
        station: HubStation,
    ) -> Result<HubLinks, ListenFault> {
        let places = usize::from(station.leaves) + 1;
        let leaves = LeafPlaces::new(rt.alloc(), places, &station)?;
        let door = Door::open(rt, registry, place, places + MAX_GUESTS)?;
        Ok(leaves.into_links(station, door))
    }

    /// Begins a turn at second `steady` of the monotonic clock, by which the time limits are measured. Notes that the
    /// connections that `tokens`, those of a wait, name may have something to read. Nothing is known of the hub's bot
    /// until the process tells it.
    pub fn wake(&mut self, tokens: &[usize], steady: u64)
        ensures steady { self.new.steady ≡ steady }
        ensures own { self.new.own ≡ None }
    {
        wake_all(&mut self.door, self.seats.as_mut_slice(), tokens);
        self.own = None;
        self.steady = steady;
    }

    // The second of this turn, which is `now` by the civil clock.
    pub(crate) fn time(&self, now: u64) -> TurnTime {
        TurnTime {
            now,
            steady: self.steady,
        }
    }

    /// Whether the process is to tell what it knows of its bot in this turn: a guest has shown its code, a leaf's beat is
    /// to be compared, or a beat is due.
    pub fn wants_own(&self) -> bool {
        has_asking(self.door.guests.list.as_slice()) || has_due(self.seats.as_slice(), self.steady)
    }

    /// Returns the packets of one turn: while the hub may be an older copy of itself, no requests.
    ///
    /// # Errors
    /// `NoMemory` if an allocation fails.
    pub fn take_packets(&mut self, alloc: Global) -> Result<Vec<Packet>, NoMemory>
        ensures good { IfOk result (λ packets. AllByRecursion HasGoodRecords packets.items) }
        ensures takes { IfOk result (λ packets. TakesGranted self.old packets.items self.new) }
    {
        let is_in_doubt = self.is_in_doubt();
        let packets = self.inbox.take(alloc)?;
        Ok(granted(packets, is_in_doubt))
    }

    /// Queues `packet` for the leaf numbered `leaf`. If that leaf is not linked, or says that it holds the part of a
    /// snapshot that the packet is, the packet is lost.
    ///
    /// # Errors
    /// `NoMemory` if an allocation fails: never if the leaf is not linked, nor if the packet has no frame.
    pub fn tell(&mut self, alloc: Global, leaf: u16, packet: &Packet) -> Result<(), NoMemory>
        requires good { HasGoodRecords packet.now }
        ensures memory { OnErr result (IsTaken (slice_get self.old.seats.items leaf)) }
        ensures frame { OnErr result (CanBeWritten packet.now) }
        ensures told { OnOk result (TellsPlace packet.now (slice_get self.old.seats.items leaf) (slice_get self.new.seats.items leaf)) }
        ensures others { (place : ℕ) → place ≢ leaf → slice_get self.new.seats.items place ≡ slice_get self.old.seats.items place }
    {
        let Some(place) = self.seats.get_mut(usize::from(leaf)) else {
            return Ok(());
        };
        tell_place(alloc, place, packet)
    }

    /// Seals what waits for each leaf, and offers each connection its unsent bytes. Returns whether one took a byte.
    ///
    /// # Errors
    /// `NoMemory` if an allocation fails: never if no leaf is linked. Nothing is lost.
    pub fn send(&mut self) -> Result<bool, NoMemory> {
        let guests = send_guests(self.door.guests.list.as_mut_slice());
        let beat = beat_of(&self.own);
        let seats = send_seats(self.seats.as_mut_slice(), &beat, self.steady)?;
        Ok(guests || seats)
    }

    /// Returns the number of linked leaves.
    pub fn linked(&self) -> usize {
        self.seats.iter().filter(|seat| seat.is_some()).count()
    }
}

// What a new hub has for its leaves, by their numbers.
struct LeafPlaces {
    seats: Vec<Option<Seat>>,
    rights: Vec<LeafRights>,
    inbox: Inbox,
    doubts: Vec<Option<Doubted>>,
}

// Written by hand, so that the drop is proved once, and not in each function that drops one.
impl Drop for LeafPlaces {
    fn drop(self) {
        let LeafPlaces {
            seats: _,
            rights: _,
            inbox: _,
            doubts: _,
        } = self;
    }
}

impl LeafPlaces {
    // No leaf is linked. At most the leaf of the station's doubt is in doubt.
    fn new(alloc: Global, places: usize, station: &HubStation) -> Result<LeafPlaces, NoMemory> {
        Ok(LeafPlaces {
            seats: empty_places(alloc, places)?,
            rights: rights_of(alloc, places, station.limits.as_slice())?,
            inbox: Inbox::new(alloc, places)?,
            doubts: first_doubts(alloc, places, station.doubt)?,
        })
    }

    // The links of a hub that nobody has reached.
    fn into_links(self, station: HubStation, door: Door) -> HubLinks {
        let HubStation {
            key,
            net: number,
            parent,
            leaves: count,
            limits: _,
            book,
            doubt: _,
        } = station;
        let LeafPlaces {
            seats,
            rights,
            inbox,
            doubts,
        } = self;
        let is_doubt_kept = first_doubt(doubts.as_slice()).is_some();
        HubLinks {
            net: HubNet {
                key,
                number,
                parent,
                leaves: count,
            },
            door,
            book,
            seats,
            rights,
            inbox,
            doubts,
            is_doubt_kept,
            own: None,
            steady: 0,
            rested: 0,
        }
    }
}

// Notes that the connections that these tokens name may have something to read.
fn wake_all(door: &mut Door, seats: &mut [Option<Seat>], tokens: &[usize]) {
    for token in tokens {
        if *token >= FIRST_TOKEN {
            wake_slot(door, seats, *token - FIRST_TOKEN);
        }
    }
}

fn wake_slot(door: &mut Door, seats: &mut [Option<Seat>], slot: usize) {
    let Some(Some(who)) = door.slots.get(slot) else {
        return;
    };
    match *who {
        Who::Guest => wake_guest(door.guests.list.as_mut_slice(), slot),
        Who::Leaf(leaf) => wake_leaf(seats, leaf),
    }
}

fn wake_guest(guests: &mut [Guest], slot: usize) {
    for guest in guests.iter_mut() {
        if guest.slot == slot {
            guest.connection.wake();
        }
    }
}

fn wake_leaf(seats: &mut [Option<Seat>], leaf: u16) {
    if let Some(Some(seat)) = seats.get_mut(usize::from(leaf)) {
        seat.wire.connection.wake();
    }
}

// Queues `packet` for the leaf that has this place, if one is linked.
fn tell_place(alloc: Global, place: &mut Option<Seat>, packet: &Packet) -> Result<(), NoMemory>
    requires good { HasGoodRecords packet.now }
    ensures memory { OnErr result (IsTaken (Some place.old)) }
    ensures frame { OnErr result (CanBeWritten packet.now) }
    ensures told { OnOk result (TellsSeat packet.now place.old place.new) }
{
    match place {
        Some(seat) => seat.tell(alloc, packet),
        None => Ok(()),
    }
}

// The packets of a turn that are handed on: in doubt no requests.
fn granted(packets: Vec<Packet>, is_in_doubt: bool) -> Vec<Packet>
    ensures { result.items ≡ granted is_in_doubt packets.items }
{
    let mut packets = packets;
    if is_in_doubt {
        packets.retain(|packet| !is_request(packet));
    }
    packets
}

// What the bot says of itself in a beat, if the process has told it.
fn beat_of(own: &Option<Own>) -> Option<Beat> {
    match own {
        Some(own) => Some(Beat::of(own)),
        None => None,
    }
}

// What each leaf may do, by its number.
fn rights_of(
    alloc: Global,
    places: usize,
    limits: &[LeafLimit],
) -> Result<Vec<LeafRights>, NoMemory>
    ensures { IfOk result (λ rights. rights.items ≡ limited limits.now (replicate places Asks)) }
{
    let mut rights = Vec::new(alloc);
    rights.resize(places, LeafRights::Asks)?;
    for limit in limits {
        if let Some(right) = rights.get_mut(usize::from(limit.leaf)) {
            *right = limit.may;
        }
    }
    Ok(rights)
}

// At most this leaf is in doubt.
fn first_doubts(
    alloc: Global,
    places: usize,
    doubt: Option<Doubted>,
) -> Result<Vec<Option<Doubted>>, NoMemory> {
    let mut doubts = empty_places(alloc, places)?;
    if let Some(doubted) = doubt {
        if let Some(place) = doubts.get_mut(usize::from(doubted.doubt.leaf)) {
            *place = Some(doubted);
        }
    }
    Ok(doubts)
}

// Whether a guest has shown its code.
fn has_asking(guests: &[Guest]) -> bool {
    guests.iter().any(|guest| guest.asked().is_some())
}

// Whether a leaf's beat is to be compared, or a beat is due to a leaf.
fn has_due(seats: &[Option<Seat>], steady: u64) -> bool {
    seats.iter().any(|place| match place {
        Some(seat) => seat.beat.is_some() || seat.wire.wants_beat(steady),
        None => false,
    })
}

fn send_guests(guests: &mut [Guest]) -> bool {
    let mut moved = false;
    for guest in guests.iter_mut() {
        if guest.connection.send() {
            moved = true;
        }
    }
    moved
}

fn send_seats(
    seats: &mut [Option<Seat>],
    beat: &Option<Beat>,
    steady: u64,
) -> Result<bool, NoMemory> {
    let mut moved = false;
    for place in seats.iter_mut() {
        if let Some(seat) = place {
            if seat.wire.send(beat, steady)? {
                moved = true;
            }
        }
    }
    Ok(moved)
}
