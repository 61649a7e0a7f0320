// The index of hostmasks: under each tail the masks that have it, by the positions of their users. A look-up tries only
// the ends of a text, at most one for each length of a tail.
ghost use Rattle.std.specs.Prelude.{◌≡◌, ◌<◌, ◌==◌, not, List, [], ℕ, OnOk, OnErr, filter, map, length};
ghost use Rattle.std.specs.List.{list_any};
ghost use Rattle.userfile.specs.Index.{IsIn, IsUnder, Keeps, KeepsAll, IsWithOnly, AddsOnly, AddsNothing, LeavesListed, LeavesOut};
ghost use Rattle.userfile.specs.Index.{listing_of, listings_at, listings_without, moved_up, same_listing, is_listed, stays, asked_at};

use crate::hostmask::Hostmask;
use bytetext::NoMemory;
use indexmap::IndexMap;
use std::alloc::Global;
use wildmask::{Signature, Tail};

// The number of lengths that a tail may have: 0 to 16 bytes.
pub(crate) const TAIL_LENGTHS: usize = 17;

// What the index has for a mask: the position of its user, and what decides whether the mask is worth a match. Masks
// of one user that have the same tail, the same number of literals and the same pairs share one listing. A listing has
// 24 bytes: look-ups go through many of them, so the position is a `u32`.
#[derive(Clone, Copy)]
pub(crate) struct Listing {
    pub(crate) place: u32,
    pub(crate) literals: u8,
    pub(crate) pairs: Signature,
}

// The listing of a mask of the user at position `place`.
pub(crate) fn listing_of(mask: &Hostmask, place: u32) -> Listing
    ensures { result ≡ listing_of place mask.now }
{
    Listing {
        place,
        literals: mask.literals(),
        pairs: mask.pairs(),
    }
}

impl Listing {
    ghost use Rattle.std.specs.Prelude.{◌≡◌};
    ghost use Rattle.userfile.specs.Index.{is_of};

    // Whether this is the listing of `mask`, one of its user's masks.
    pub(crate) fn is_of(&self, mask: &Hostmask) -> bool
        ensures { result ≡ is_of self.now mask.now }
    {
        mask.literals() == self.literals && mask.pairs() == self.pairs
    }
}

// The index: it has exactly the masks of the users.
#[derive(Drop)]
pub(crate) struct TailIndex {
    pub(crate) groups: IndexMap<Tail, Vec<Listing>>,
    // for each length, 1 if a tail of this length has been added, else 0
    pub(crate) lengths: [u8; TAIL_LENGTHS],
}

// Creates an index without listings. Does not allocate.
pub(crate) fn new_index(alloc: Global) -> TailIndex
    ensures { result.groups.entries ≡ [] }
{
    TailIndex {
        groups: IndexMap::new(alloc),
        lengths: [0; TAIL_LENGTHS],
    }
}

// The listings under the last `len` bytes of a person's text.
pub(crate) fn listings_of<'a>(index: &'a TailIndex, who: &[u8], len: usize) -> &'a [Listing]
    requires { len < TAIL_LENGTHS }
    ensures { result.now ≡ asked_at index.now who.now len }
{
    if index.lengths[len] == 0 {
        &[]
    } else {
        listings_under(&index.groups, Tail::of_end(who, len))
    }
}

// The listings under a tail.
fn listings_under<'a>(groups: &'a IndexMap<Tail, Vec<Listing>>, tail: Tail) -> &'a [Listing]
    ensures { result.now ≡ listings_at tail groups.now.entries }
{
    match groups.get(&tail) {
        Some(listings) => listings.as_slice(),
        None => &[],
    }
}

// Adds a listing under a tail, if it is not among the last `recent` ones there.
pub(crate) fn add_listing(
    index: &mut TailIndex,
    alloc: Global,
    tail: Tail,
    listing: &Listing,
    recent: usize,
) -> Result<(), NoMemory>
    requires { length tail < TAIL_LENGTHS }
    ensures kept { Keeps index.old index.new }
    ensures only { AddsOnly index.old.groups.entries index.new.groups.entries tail listing.now }
    ensures ok { OnOk result (IsUnder index.new tail listing.now) }
    ensures err { OnErr result (AddsNothing index.old.groups.entries index.new.groups.entries) }
{
    index.lengths[tail.as_bytes().len()] = 1;
    put(&mut index.groups, alloc, tail, listing, recent)
}

// Adds a listing to the group of a tail, if it is not among the last `recent` ones there.
fn put(
    groups: &mut IndexMap<Tail, Vec<Listing>>,
    alloc: Global,
    tail: Tail,
    listing: &Listing,
    recent: usize,
) -> Result<(), NoMemory>
    ensures kept { (t : List ℕ) → KeepsAll (listings_at t groups.old.entries) (listings_at t groups.new.entries) }
    ensures only { AddsOnly groups.old.entries groups.new.entries tail listing.now }
    ensures ok { OnOk result (IsIn listing.now (listings_at tail groups.new.entries)) }
    ensures err { OnErr result (AddsNothing groups.old.entries groups.new.entries) }
{
    if let Some(group) = groups.get_mut(&tail) {
        return put_once(group, listing, recent);
    }
    let mut group = Vec::new(alloc);
    group.push(*listing)?;
    groups.insert(tail, group)?;
    Ok(())
}

// Appends a listing if it is not among the last `recent` ones of the group.
fn put_once(group: &mut Vec<Listing>, listing: &Listing, recent: usize) -> Result<(), NoMemory>
    ensures kept { KeepsAll group.old.items group.new.items }
    ensures only { IsWithOnly group.old.items group.new.items listing.now }
    ensures ok { OnOk result (IsIn listing.now group.new.items) }
    ensures err { OnErr result (KeepsAll group.new.items group.old.items) }
{
    let first = group.len().saturating_sub(recent);
    if !has_listing(&group[first..], listing) {
        group.push(*listing)?;
    }
    Ok(())
}

// Whether a listing is in a group.
fn has_listing(group: &[Listing], listing: &Listing) -> bool
    ensures { result ≡ list_any (same_listing listing.now) group.now }
{
    group.iter().any(|held| is_same(listing, held))
}

fn is_same(a: &Listing, b: &Listing) -> bool
    ensures { result ≡ same_listing a.now b.now }
{
    a.place == b.place && a.literals == b.literals && a.pairs == b.pairs
}

// Removes those listings of the user at position `place` that belong to none of these masks.
pub(crate) fn keep_masks(
    groups: &mut IndexMap<Tail, Vec<Listing>>,
    place: usize,
    masks: &[Hostmask],
)
    ensures { LeavesListed groups.old.entries groups.new.entries place masks.now }
{
    // No two groups have the same tail: `len` says so.
    if groups.len() > 0 {
        groups.retain(
            |tail: &Tail, group: &mut Vec<Listing>| -> bool
                ensures { (result ≡ not (length group.new.items == 0)) × (group.new.items ≡ filter (stays place masks.entry.now tail.now) group.old.items) }
            {
                keep_listed(group, tail, place, masks);
                !group.is_empty()
            },
        );
    }
}

fn keep_listed(group: &mut Vec<Listing>, tail: &Tail, place: usize, masks: &[Hostmask])
    ensures { group.new.items ≡ filter (stays place masks.now tail.now) group.old.items }
{
    group.retain(|held| held.place as usize != place || is_listed(tail, held, masks));
}

// Whether any of these masks, those of a listing's user, has this tail and the listing.
pub(crate) fn is_listed(tail: &Tail, listing: &Listing, masks: &[Hostmask]) -> bool
    ensures { result ≡ is_listed tail.now listing.now masks.now }
{
    masks
        .iter()
        .any(|mask| listing.is_of(mask) && *tail == mask.tail())
}

// Removes the listings of a user that was removed, and moves the listings of later users up by one.
pub(crate) fn remove_user(groups: &mut IndexMap<Tail, Vec<Listing>>, place: usize)
    ensures { LeavesOut groups.old.entries groups.new.entries place }
{
    if groups.len() > 0 {
        groups.retain(
            |_tail: &Tail, group: &mut Vec<Listing>| -> bool
                ensures { (result ≡ not (length group.new.items == 0)) × (group.new.items ≡ listings_without place group.old.items) }
            {
                leave_out(group, place);
                !group.is_empty()
            },
        );
    }
}

// Removes the listings of the user at position `place`, and moves the listings of later users up by one.
fn leave_out(group: &mut Vec<Listing>, place: usize)
    ensures { group.new.items ≡ listings_without place group.old.items }
{
    drop_place(group, place);
    move_up(group, place);
}

fn drop_place(group: &mut Vec<Listing>, place: usize)
    ensures { group.new.items ≡ filter (λ x. not (x.place == place)) group.old.items }
{
    group.retain(|held| held.place as usize != place);
}

fn move_up(group: &mut [Listing], place: usize)
    ensures { group.new ≡ map (moved_up place) group.old }
{
    for held in group.iter_mut() {
        *held = moved_up(*held, place);
    }
}

fn moved_up(held: Listing, place: usize) -> Listing
    ensures { result ≡ moved_up place held }
{
    Listing {
        place: if held.place as usize > place {
            held.place - 1
        } else {
            held.place
        },
        literals: held.literals,
        pairs: held.pairs,
    }
}
