// What the hub does when it may be an older copy of itself, and when a leaf is made again.
ghost use Rattle.std.specs.Prelude.{◌≡◌, true, false, is_some, None, Some, IfOk, IfSome, IsSome, IsTrue, OnErr, option_map};
ghost use Rattle.std.specs.List.{flat_map, list_any};
ghost use Rattle.handshake.specs.Books.{bar_line};
ghost use Rattle.peers.specs.Doubts.{Compares, Renews, Trusts, doubted_folders, is_doubt, is_leaf_of, with_doubt};
ghost use Rattle.peers.specs.Hearing.{refusal_of};
ghost use Rattle.peers.specs.Tells.{in_doubt};

use crate::beat::Beat;
use crate::doubt::{Doubt, Doubted, doubt_line, is_doubt};
use crate::gone::Gone;
use crate::hub_links::HubLinks;
use crate::seat::Seat;
use bytetext::{NoMemory, bytes_of};
use handshake::{
    DrawnNumber, HandshakeFault, HandshakeLine, HandshakeRefusal, bar_line, free_line,
};
use net::Log;
use std::alloc::Global;

impl HubLinks {
    /// Whether the hub may be an older copy of itself: a leaf is ahead of it, or differs from it.
    pub fn doubt(&self) -> Option<Doubt>
        ensures { is_some result ≡ in_doubt self.now }
    {
        match first_doubt(self.doubts.as_slice()) {
            Some(doubted) => Some(doubted.doubt),
            None => None,
        }
    }

    /// Returns the line for the file `doubt`, if the hub may be an older copy of itself and that is not kept yet.
    pub fn doubt_to_keep(&self) -> Option<HandshakeLine>
        // What is to be kept is the doubt.
        ensures { IfSome result (λ _. IsTrue (in_doubt self.now)) }
    {
        if self.is_doubt_kept {
            return None;
        }
        match first_doubt(self.doubts.as_slice()) {
            Some(doubted) => Some(doubt_line(&doubted)),
            None => None,
        }
    }

    /// Notes that the line of [`HubLinks::doubt_to_keep`] is on the disk.
    pub fn keep_doubt(&mut self)
        ensures { self.new ≡ record self.old { is_doubt_kept = true } }
    {
        self.is_doubt_kept = true;
    }

    // Whether the hub may be an older copy of itself.
    pub(crate) fn is_in_doubt(&self) -> bool
        ensures { result ≡ in_doubt self.now }
    {
        self.doubt().is_some()
    }

    // Compares what each leaf said in its last beat with what is known of the hub. A leaf that is ahead of the hub, or
    // differs from it, is to be disconnected.
    pub(crate) fn compare_beats(&mut self) {
        if let Some(own) = &self.own {
            let own = Beat::of(own);
            compare_all(self.seats.as_mut_slice(), &mut self.doubts, &own);
        }
    }

    /// Decides that this copy of the hub counts: bars the folders of the leaves that were found ahead of it or different,
    /// and ends the doubt. Returns the lines for the book. Once they are there, remove the file `doubt`.
    ///
    /// # Errors
    /// `NoMemory` if an allocation fails: never if there is no doubt. Nothing is done then.
    pub fn trust(&mut self, alloc: Global) -> Result<Vec<u8>, NoMemory>
        ensures trusts { IfOk result (λ lines. Trusts self.old lines.items self.new) }
        ensures memory { OnErr result (IsTrue (in_doubt self.old)) }
        ensures unchanged { OnErr result (self.new ≡ self.old) }
    {
        if !self.is_in_doubt() {
            return Ok(Vec::new(alloc));
        }
        let folders = doubted_folders(alloc, self.doubts.as_slice())?;
        let lines = bar_lines(alloc, folders.as_slice())?;
        self.book.bar_all(folders.as_slice())?;
        settle(self.doubts.as_mut_slice());
        self.is_doubt_kept = false;
        Ok(lines)
    }

    /// Frees the number `leaf`: disconnects the leaf at second `now`, and drops its packets. Returns the line for the
    /// book, or `None` if the net has no such leaf.
    ///
    /// # Errors
    /// `NoMemory` if an allocation fails: never if the net has no such leaf. Nothing is done then.
    pub fn renew(
        &mut self,
        alloc: Global,
        log: &mut Log,
        leaf: u16,
        now: u64,
    ) -> Result<Option<Vec<u8>>, NoMemory>
        ensures renews { IfOk result (λ line. Renews leaf self.old (option_map (λ line. line.items) line) self.new) }
        ensures memory { OnErr result (IsTrue (is_leaf_of self.old leaf)) }
        ensures unchanged { OnErr result (self.new ≡ self.old) }
    {
        if leaf < 1 || leaf > self.net.leaves {
            return Ok(None);
        }
        let line = bytes_of(alloc, free_line(leaf).as_bytes())?;
        self.book.free(leaf);
        self.unseat(log, leaf, Gone::Renewed, now);
        Ok(Some(line))
    }
}

// Notes that a leaf was refused: the hub may be an older copy of itself if it was for its records.
pub(crate) fn note_refusal(
    doubts: &mut Vec<Option<Doubted>>,
    leaf: u16,
    made: DrawnNumber,
    refusal: HandshakeRefusal,
)
    // A leaf that is ahead, or differs, is one that the hub doubts from now on.
    ensures doubts { doubts.new.items ≡ with_doubt leaf made refusal doubts.old.items }
{
    if !is_doubt(refusal) {
        return;
    }
    if let Some(place) = doubts.get_mut(usize::from(leaf)) {
        *place = Some(Doubted {
            doubt: Doubt { leaf, refusal },
            made,
        });
    }
}

// Compares the last beat of each leaf with the hub's own.
fn compare_all(seats: &mut [Option<Seat>], doubts: &mut Vec<Option<Doubted>>, own: &Beat) {
    for place in seats.iter_mut() {
        if let Some(seat) = place {
            compare_one(seat, doubts, own);
        }
    }
}

fn compare_one(seat: &mut Seat, doubts: &mut Vec<Option<Doubted>>, own: &Beat) {
    if let Some(refusal) = seat.compare(own) {
        note_refusal(doubts, seat.leaf, seat.made, refusal);
    }
}

// The numbers of the folders of the leaves that are ahead of the hub, or differ from it.
fn doubted_folders(alloc: Global, doubts: &[Option<Doubted>]) -> Result<Vec<DrawnNumber>, NoMemory>
    ensures { IfOk result (λ folders. folders.items ≡ doubted_folders doubts.now) }
{
    let mut folders = Vec::new(alloc);
    for place in doubts {
        if let Some(doubted) = place {
            folders.push(doubted.made)?;
        }
    }
    Ok(folders)
}

// No leaf is in doubt from now on.
fn settle(doubts: &mut [Option<Doubted>])
    ensures { list_any is_some doubts.new ≡ false }
{
    for place in doubts.iter_mut() {
        *place = None;
    }
}

// The lines by which these folders never join again.
fn bar_lines(alloc: Global, folders: &[DrawnNumber]) -> Result<Vec<u8>, NoMemory>
    ensures { IfOk result (λ lines. lines.items ≡ flat_map bar_line folders.now) }
{
    let mut lines = Vec::new(alloc);
    for made in folders {
        lines.extend_from_slice(bar_line(made).as_bytes())?;
    }
    Ok(lines)
}

// The first of these doubts.
pub(crate) fn first_doubt(doubts: &[Option<Doubted>]) -> Option<Doubted>
    ensures { is_some result ≡ list_any is_some doubts.now }
{
    for place in doubts {
        if let Some(doubted) = place {
            return Some(*doubted);
        }
    }
    None
}

impl Seat {
    // Compares the leaf's last beat with the hub's own, unless that was done. If the leaf is ahead of the hub, or differs
    // from it, its connection is to be closed, and the reason is returned.
    fn compare(&mut self, own: &Beat) -> Option<HandshakeRefusal>
        ensures { Compares own.now self.old result self.new }
    {
        let beat = self.beat.take()?;
        let refusal = refusal_of(&beat, own)?;
        self.wire
            .end(Gone::Handshake(HandshakeFault::Refused(refusal)));
        Some(refusal)
    }
}

// Why a leaf that says this is no leaf of a hub that says that.
fn refusal_of(leaf: &Beat, hub: &Beat) -> Option<HandshakeRefusal>
    ensures { result ≡ refusal_of leaf.now hub.now }
{
    if leaf.version > hub.version {
        Some(HandshakeRefusal::Ahead)
    } else if leaf.version == hub.version && leaf.sum != hub.sum {
        Some(HandshakeRefusal::Records)
    } else {
        None
    }
}
