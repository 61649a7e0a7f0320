// How the hub reads from its leaves, and which leaf takes which seat.
ghost use Rattle.std.specs.Prelude.{◌≡◌, ◌≢◌, [], ℕ, true, IsTrue, OnErr, IfOk, is_some, slice_get};
ghost use Rattle.std.specs.List.{list_any};
ghost use Rattle.peers.specs.Hearing.{over_budget, waiting_for};
ghost use Rattle.peers.specs.declared.verdict.Verdict.TheVariants.{Joins};
ghost use Rattle.peers.specs.Joining.{IsInBook, IsOfBook};
ghost use Rattle.peers.specs.Linked.{IsTaken, has_somebody};
ghost use Rattle.peers.specs.Rights.{right_of};
ghost use Rattle.peers.specs.Waiting.{queue_of};

use crate::door::Who;
use crate::doubts::note_refusal;
use crate::entry::Entry;
use crate::gone::Gone;
use crate::guest::Guest;
use crate::hub_links::HubLinks;
use crate::inbox::Inbox;
use crate::pulse::SILENCE;
use crate::seat::Seat;
use crate::verdict::Verdict;
use crate::welcome::Welcome;
use bytetext::NoMemory;
use handshake::{HandshakeRefusal, LeafRights};
use net::Log;
use std::alloc::Global;

/// While more bytes than these wait for all leaves together, no leaf is read.
pub const MAX_WAITING: usize = 16_777_216;

impl HubLinks {
    /// Reads from each connection that may have something to read, at second `now`. Returns whether there may be more
    /// at once.
    ///
    /// # Errors
    /// `NoMemory` if an allocation fails: never if nobody is connected.
    pub fn read<R: AllocGlobal>(
        &mut self,
        rt: &R,
        log: &mut Log,
        now: u64,
    ) -> Result<bool, NoMemory>
        ensures memory { OnErr result (IsTrue (has_somebody self.old)) }
    {
        if !self.has_somebody() {
            return Ok(false);
        }
        self.read_all(rt, log, now)
    }

    // Reads from the guests and from the leaves. Returns whether there may be more at once.
    fn read_all<R: AllocGlobal>(
        &mut self,
        rt: &R,
        log: &mut Log,
        now: u64,
    ) -> Result<bool, NoMemory> {
        let time = self.time(now);
        let guests = self.door.heed_guests(log, time)?;
        self.judge_guests(rt, log, now)?;
        let leaves = self.hear_leaves(rt.alloc())?;
        self.compare_beats();
        Ok(guests || leaves)
    }

    // Whether somebody is connected.
    fn has_somebody(&self) -> bool
        ensures { result ≡ has_somebody self.now }
    {
        !self.door.guests.list.is_empty() || is_any_taken(self.seats.as_slice())
    }

    // Reads from each leaf, unless too much waits for them. Returns whether there may be more at once.
    fn hear_leaves(&mut self, alloc: Global) -> Result<bool, NoMemory>
        // No leaf is read while too much waits.
        ensures budget { over_budget self.old.seats.items ≡ true → (self.new.seats ≡ self.old.seats) × (self.new.inbox ≡ self.old.inbox) }
    {
        if is_over_budget(self.seats.as_slice()) {
            self.rested = self.steady;
            return Ok(false);
        }
        hear_all(
            alloc,
            self.seats.as_mut_slice(),
            &mut self.inbox,
            self.steady,
        )
    }

    // Judges each guest.
    fn judge_guests<R: AllocGlobal>(
        &mut self,
        rt: &R,
        log: &mut Log,
        now: u64,
    ) -> Result<(), NoMemory> {
        for back in 0..self.door.guests.len() {
            // From the last one on, since a guest that joins or goes leaves those before it in their places.
            let place = self.door.guests.len().saturating_sub(back + 1);
            self.judge(rt, log, place, now)?;
        }
        Ok(())
    }

    // Refuses the guest at `place`, has it entered in the book, or gives it a seat, if it has shown its code, and the
    // process has told what it knows of its bot.
    fn judge<R: AllocGlobal>(
        &mut self,
        rt: &R,
        log: &mut Log,
        place: usize,
        now: u64,
    ) -> Result<(), NoMemory> {
        match self.verdict(place) {
            Verdict::Waits => Ok(()),
            Verdict::Refuses(refusal) => self.refuse(log, place, refusal, now),
            Verdict::Enters => {
                self.door.let_enter(place);
                Ok(())
            }
            Verdict::Joins => self.join(rt, log, place, now),
        }
    }

    // What is to be done with the guest at `place`.
    #[tactic(auto, using(crate::proofs::JoiningLemmas::in_book_at))]
    fn verdict(&self, place: usize) -> Verdict
        // Only a guest whose folder is in the book joins.
        ensures in_book { result ≡ Joins → IsInBook self.now.book (slice_get self.now.door.guests.list.items place) }
    {
        let Some(own) = &self.own else {
            return Verdict::Waits;
        };
        match self.door.guests.list.get(place) {
            Some(guest) => guest.verdict(&self.book, own),
            None => Verdict::Waits,
        }
    }

    // Refuses the guest at `place`, and disconnects it.
    fn refuse(
        &mut self,
        log: &mut Log,
        place: usize,
        refusal: HandshakeRefusal,
        now: u64,
    ) -> Result<(), NoMemory> {
        if let Some(asked) = self.door.refuse(log, place, refusal, now)? {
            let words = asked.ask.words;
            note_refusal(&mut self.doubts, words.leaf, words.made, refusal);
        }
        Ok(())
    }

    // Gives the guest at `place` the seat of the leaf that it has shown to be. A leaf that has that seat is disconnected.
    pub(crate) fn join<R: AllocGlobal>(
        &mut self,
        rt: &R,
        log: &mut Log,
        place: usize,
        now: u64,
    ) -> Result<(), NoMemory>
        // The book has its folder.
        requires in_book { IsInBook self.old.book (slice_get self.old.door.guests.list.items place) }
    {
        if place >= self.door.guests.len() {
            return Ok(());
        }
        let guest = self.door.guests.remove(place);
        self.sit(rt, log, guest, now)
    }

    // Gives a guest the seat of the leaf that it has shown to be.
    fn sit<R: AllocGlobal>(
        &mut self,
        rt: &R,
        log: &mut Log,
        guest: Guest,
        now: u64,
    ) -> Result<(), NoMemory>
        requires in_book { IsOfBook self.old.book guest.stage }
    {
        let Some(welcome) = self.welcome_for(&guest, now) else {
            self.door.name(guest.slot, None);
            return Ok(());
        };
        if let Some(seat) = guest.into_seat(rt.alloc(), &welcome)? {
            self.take_seat(log, seat, now);
        }
        Ok(())
    }

    // What the hub tells a guest that has shown its code, once the process has told what it knows of its bot.
    fn welcome_for(&self, guest: &Guest, now: u64) -> Option<Welcome> {
        let (Some(own), Some(asked)) = (&self.own, guest.asked()) else {
            return None;
        };
        let leaf = asked.ask.words.leaf;
        Some(Welcome {
            own: own.progress_for(leaf),
            may: right_of(self.rights.as_slice(), leaf),
            since: now,
            steady: self.steady,
        })
    }

    // Puts a seat in its place. A leaf that has that seat is disconnected.
    fn take_seat(&mut self, log: &mut Log, seat: Seat, now: u64) {
        let leaf = seat.leaf;
        self.unseat(log, leaf, Gone::Replaced, now);
        self.door.name(seat.slot, Some(Who::Leaf(leaf)));
        if let Some(place) = self.seats.get_mut(usize::from(leaf)) {
            log.note(now, &Entry::Joined(leaf, seat.way));
            *place = Some(seat);
        }
    }

    // Disconnects `leaf`, if it is linked, and drops its queued packets.
    pub(crate) fn unseat(&mut self, log: &mut Log, leaf: u16, gone: Gone, now: u64)
        ensures gone { IsTaken (slice_get self.new.seats.items leaf) → ⊥ }
        ensures dropped { queue_of self.new.inbox leaf ≡ [] }
        ensures others { (place : ℕ) → place ≢ leaf → slice_get self.new.seats.items place ≡ slice_get self.old.seats.items place }
        ensures book { self.new.book ≡ self.old.book }
    {
        self.inbox.forget(usize::from(leaf));
        if let Some(seat) = leave(&mut self.seats, leaf) {
            self.door.name(seat.slot, None);
            log.note(now, &Entry::LeafGone(leaf, seat.way, gone));
        }
    }

    /// Disconnects each leaf whose connection is over, at second `now`.
    pub fn let_go(&mut self, log: &mut Log, now: u64) {
        let steady = self.steady;
        let listened = steady.saturating_sub(self.rested) >= SILENCE;
        for leaf in 1..self.net.leaves.saturating_add(1) {
            if let Some(gone) = gone_of(self.seats.as_mut_slice(), leaf, steady, listened) {
                self.unseat(log, leaf, gone, now);
            }
        }
    }
}

// Reads from each leaf. Returns whether there may be more at once.
fn hear_all(
    alloc: Global,
    seats: &mut [Option<Seat>],
    inbox: &mut Inbox,
    steady: u64,
) -> Result<bool, NoMemory> {
    let mut more = false;
    for (leaf, place) in seats.iter_mut().enumerate() {
        if let Some(seat) = place {
            if hear_leaf(alloc, seat, inbox, leaf, steady)? {
                more = true;
            }
        }
    }
    Ok(more)
}

// Reads from the leaf numbered `leaf`, unless packets of it wait. Returns whether there may be more at once.
fn hear_leaf(
    alloc: Global,
    seat: &mut Seat,
    inbox: &mut Inbox,
    leaf: usize,
    steady: u64,
) -> Result<bool, NoMemory> {
    if leaf >= inbox.stream_count() || inbox.count(leaf) > 0 {
        seat.wire.rest(steady);
        return Ok(false);
    }
    let packets = seat.hear(alloc, steady)?;
    inbox.put(leaf, packets)?;
    Ok(seat.is_busy())
}

// What a leaf may do.
fn right_of(rights: &[LeafRights], leaf: u16) -> LeafRights
    ensures { result ≡ right_of rights.now leaf }
{
    match rights.get(usize::from(leaf)) {
        Some(may) => *may,
        None => LeafRights::Reads,
    }
}

// Empties the place of `leaf`, and returns its seat if it is linked.
fn leave(seats: &mut Vec<Option<Seat>>, leaf: u16) -> Option<Seat>
    ensures gone { IsTaken (slice_get seats.new.items leaf) → ⊥ }
    ensures others { (place : ℕ) → place ≢ leaf → slice_get seats.new.items place ≡ slice_get seats.old.items place }
{
    match seats.get_mut(usize::from(leaf)) {
        Some(place) => place.take(),
        None => None,
    }
}

// Why a leaf is to be disconnected, if it is linked and its connection is over or stuck, or silent while the hub listened.
fn gone_of(seats: &mut [Option<Seat>], leaf: u16, steady: u64, listened: bool) -> Option<Gone> {
    match seats.get_mut(usize::from(leaf)) {
        Some(Some(seat)) => seat.wire.end_if_dead(steady, listened),
        Some(None) | None => None,
    }
}

// Whether any leaf is linked.
fn is_any_taken(seats: &[Option<Seat>]) -> bool
    ensures { result ≡ list_any is_some seats.now }
{
    seats.iter().any(|seat| seat.is_some())
}

// Whether too much waits for all leaves together.
fn is_over_budget(seats: &[Option<Seat>]) -> bool
    ensures { result ≡ over_budget seats.now }
{
    let mut room = MAX_WAITING;
    for place in seats {
        let waiting = waiting_for(place);
        if waiting > room {
            return true;
        }
        room -= waiting;
    }
    false
}

// How many bytes wait for the leaf that has this place.
fn waiting_for(place: &Option<Seat>) -> usize
    ensures { result ≡ waiting_for place.now }
{
    match place {
        Some(seat) => seat.wire.waiting(),
        None => 0,
    }
}
