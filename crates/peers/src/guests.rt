// The connections to the hub that have not been welcomed.
ghost use Rattle.std.specs.Prelude.{◌≡◌, ◌<◌, ◌++◌, ◌∷◌, [], Some, length, slice_get, OnOk, OnErr, IfSome};
ghost use Rattle.std.specs.List.{count_by};
ghost use Rattle.peers.specs.Crowds.{crowd_of, is_of, oldest_of};
ghost use Rattle.peers.specs.Drawn.{AreAmong, nonces_of};

use crate::guest::Guest;
use crate::home::Home;
use bytetext::NoMemory;
use std::alloc::Global;

// The guests, in the order in which they arrived.
pub(crate) struct Guests {
    pub(crate) list: Vec<Guest>,
}

// Written by hand, so that the drop is proved once, and not in each function that drops one.
impl Drop for Guests {
    fn drop(self) {
        let Guests { list: _ } = self;
    }
}

impl Guests {
    // There are no guests. Allocates nothing.
    pub(crate) fn new(alloc: Global) -> Guests
        ensures { result.list.items ≡ [] }
    {
        Guests {
            list: Vec::new(alloc),
        }
    }

    // The number of guests.
    pub(crate) fn len(&self) -> usize
        ensures { result ≡ length self.now.list.items }
    {
        self.list.len()
    }

    // Appends a guest.
    pub(crate) fn arrive(&mut self, guest: Guest) -> Result<(), NoMemory>
        ensures comes { OnOk result (nonces_of self.new.list.items ≡ nonces_of self.old.list.items ++ guest.side.nonce ∷ []) }
        ensures stays { OnErr result (nonces_of self.new.list.items ≡ nonces_of self.old.list.items) }
    {
        let home = guest.home;
        self.list.push(guest)?;
        recount(self.list.as_mut_slice(), home);
        Ok(())
    }

    // Removes the guest at `place`. Once no guest is left, gives back their room: all leaves may have come at once.
    pub(crate) fn remove(&mut self, place: usize) -> Guest
        requires { place < length self.old.list.items }
        ensures guest { slice_get self.old.list.items place ≡ Some result }
        ensures others { AreAmong (nonces_of self.new.list.items) (nonces_of self.old.list.items) }
    {
        let guest = self.list.remove(place);
        recount(self.list.as_mut_slice(), guest.home);
        if self.list.is_empty() {
            self.list.shrink_to_fit();
        }
        guest
    }

    // How many guests are of this home.
    pub(crate) fn count(&self, home: Home) -> usize
        ensures { result ≡ crowd_of self.now.list.items home }
    {
        count(self.list.as_slice(), home)
    }

    // The place of the oldest guest of this home.
    pub(crate) fn oldest_of(&self, home: Home) -> Option<usize>
        ensures place { result ≡ oldest_of self.now.list.items home }
        ensures within { IfSome result (λ place. place < length self.now.list.items) }
    {
        self.list
            .iter()
            .position(|guest| guest.home.bits == home.bits)
    }

    // The place of the oldest guest of the home that has most.
    pub(crate) fn oldest_of_most(&self) -> Option<usize>
        ensures within { IfSome result (λ place. place < length self.now.list.items) }
    {
        let mut most = 0;
        let mut oldest = None;
        for (place, guest) in self.list.iter().enumerate() {
            if guest.crowd > most {
                most = guest.crowd;
                oldest = Some(place);
            }
        }
        oldest
    }
}

fn count(guests: &[Guest], home: Home) -> usize
    ensures { result ≡ crowd_of guests.now home }
{
    let mut count = 0;
    for guest in guests {
        if guest.home.bits == home.bits {
            count += 1;
        }
    }
    count
}

// Counts the guests of this home again.
fn recount(guests: &mut [Guest], home: Home)
    ensures { nonces_of guests.new ≡ nonces_of guests.old }
{
    let crowd = count(guests, home);
    for guest in guests.iter_mut() {
        set_crowd(guest, home, crowd);
    }
}

// Notes how many guests are of this home, if the guest is of it.
fn set_crowd(guest: &mut Guest, home: Home, crowd: usize)
    ensures { guest.new.side ≡ guest.old.side }
{
    if guest.home.bits == home.bits {
        guest.crowd = crowd;
    }
}
